// SPDX-License-Identifier: MIT
//! A protected object that its client drives.

ghost use Rattle.std.specs.Prelude.{◌≡◌, ◌≢◌, ◌<◌, ◌≤◌, ◌∷◌, [], None, true, false, IfOk, count_by, slice_set};
ghost use Rattle.po_engine.specs.Tickets.{waiting_among};
ghost use Rattle.po_engine.specs.WaitingCalls.{is_on};
ghost use Rattle.po_driven.specs.DrivenView.{IsDriven, KeepsSetup, Tells, Fresh, KeepsAll, LeavesNamed, at_opening};
ghost use Rattle.po_driven.specs.DrivenCallsView.{opening_calls};
ghost use Rattle.po_driven.specs.Answering.{Breaks};
ghost use Rattle.po_driven.specs.Noted.{Notes, serviced, attempted, Names, Cancels, KeepsCalls, longest_on};
ghost use Rattle.po_driven.specs.declared.action.Action.TheVariants.{Refused};
ghost use Rattle.po_driven.specs.declared.happening.Happening.TheVariants.{Finalized};
ghost use Rattle.po_driven.specs.declared.phase.Phase.TheVariants.{Resting, Settling};
ghost use Rattle.po_driven.specs.declared.words.Cancellation.TheVariants.{Made, Refused as IsRefused};
ghost use Rattle.po_driven.specs.Steps.{Attempts, Finalizes};

mod arrivals;
mod bodies;
mod passing;
mod servicing;

use crate::action::Action;
use crate::driven_calls::DrivenCalls;
use crate::phase::Phase;
use crate::words::{Cancellation, NamedCall};
use po_calls::Ticket;
use po_history::Trace;
use po_unit::Unit;
use std::alloc::{AllocError, Global};
use std::marker::Model;

/// The entry calls of a protected object whose client evaluates the barriers and runs the bodies.
#[derive(Drop)]
pub struct DrivenObject {
    calls: DrivenCalls,
    /// For each entry, how many calls may be queued on it; 0 means any number (D.7).
    limits: Vec<u64>,
    phase: Phase,
    /// The entries that the client has reported closed since anything changed. Known to proofs alone.
    closed: Trace<u16>,
}

impl Model for DrivenObject {
    ghost use Rattle.po_driven.specs.DrivenView.{DrivenView, IsWaiting as IsKept};

    ghost Value = { DrivenView };

    ghost view = { λ d. record {
      calls = d.calls;
      limits = d.limits.items;
      phase = d.phase;
      closed = d.closed.items;
    } };

    ghost invariant = { λ d. IsKept (record {
      calls = d.calls;
      limits = d.limits.items;
      phase = d.phase;
      closed = d.closed.items;
    }) };
}

/// Makes a driven object at rest, with these calls and this number of entries.
fn at_rest(alloc: Global, calls: DrivenCalls, entries: u16) -> Result<DrivenObject, AllocError>
    requires unit { calls.object.state.unit ≡ entries }
    requires idle { calls.object.serving ≡ None }
    requires none { calls.object.state.waiting ≡ [] }
    ensures { IfOk result (λ d. d ≡ at_opening calls entries) }
{
    Ok(DrivenObject {
        calls,
        limits: Vec::from_elem(alloc, 0, usize::from(entries))?,
        phase: Phase::Resting,
        closed: Trace::new(),
    })
}

impl DrivenObject {
    /// Makes an object with this number of entries, which takes memory as its calls need it.
    pub fn new(alloc: Global, entries: u16) -> Result<DrivenObject, AllocError>
        ensures { IfOk result (λ d. d ≡ at_opening (opening_calls entries 0 false) entries) }
    {
        let calls = DrivenCalls::new(alloc, entries)?;
        at_rest(alloc, calls, entries)
    }

    /// Like `new`, but takes all its memory at once, for up to `capacity` calls that are queued or in service.
    pub fn with_capacity(
        alloc: Global,
        entries: u16,
        capacity: usize,
    ) -> Result<DrivenObject, AllocError>
        ensures { IfOk result (λ d. d ≡ at_opening (opening_calls entries capacity true) entries) }
    {
        let calls = DrivenCalls::with_capacity(alloc, entries, capacity)?;
        at_rest(alloc, calls, entries)
    }

    /// Recalls for proofs what holds of every driven object.
    pub fn recall_invariant(&self)
        ensures { IsDriven self.now }
    {
        self.calls.recall_invariant();
    }

    /// Returns how many entries there are.
    pub fn entries(&self) -> u16
        ensures { result ≡ self.now.calls.object.state.unit }
    {
        self.calls.state().unit().entries()
    }

    /// Sets how many calls may be queued on the entry from now on (D.7); 0 means any number. Returns false if there is no such
    /// entry.
    pub fn limit(&mut self, e: u16, longest: u64) -> bool
        ensures set { e < self.old.calls.object.state.unit → (result ≡ true) × (self.new ≡ record self.old { limits = slice_set self.old.limits e longest }) }
        ensures none { self.old.calls.object.state.unit ≤ e → (result ≡ false) × (self.new ≡ self.old) }
    {
        if e >= self.entries() {
            return false;
        }
        self.limits[usize::from(e)] = longest;
        true
    }

    /// Returns the length from which on the queue of the entry is full, if there is one.
    fn longest(&self, e: u16) -> Option<u64>
        requires { e < self.now.calls.object.state.unit }
        ensures { result ≡ longest_on self.now e }
    {
        let longest = self.limits[usize::from(e)];
        if longest == 0 { None } else { Some(longest) }
    }

    /// Attempts to cancel the queued call of the ticket, because its time has come or its caller was aborted. If the call is
    /// cancelled, the client asks for what is next (9.5.3, 9.7.2, 9.8).
    pub fn cancel(&mut self, ticket: Ticket, expired: bool) -> Cancellation
        ensures attempts { Attempts ticket expired self.old self.new result }
    {
        let Phase::Resting = self.phase else {
            return Cancellation::Refused;
        };
        let Some(call) = self.calls.state().waiting_call(ticket) else {
            return Cancellation::Unknown;
        };
        if !call.without_abort {
            self.closed = Trace::new();
            self.calls.cancel(ticket);
            self.phase = Phase::Settling;
            return Cancellation::Made;
        }
        if !expired {
            self.calls.mark(ticket, call);
        }
        Cancellation::Kept
    }

    /// Finalizes the object: all queued calls end by Program_Error (9.4).
    pub fn finalize(&mut self, step: &mut NamedCall) -> Action
        ensures finalizes { Finalizes step.new self.old self.new result }
        ensures named { LeavesNamed result step.old step.new }
    {
        let Phase::Resting = self.phase else {
            return Action::Refused;
        };
        self.calls.finalize();
        self.break_one(step)
    }

    /// Returns whether the object waits for a command, and no call is queued.
    pub fn is_idle(&self) -> bool
        ensures yes { result ≡ true → (self.now.phase ≡ Resting) × (self.now.calls.object.state.waiting ≡ []) }
        ensures no { self.now.phase ≡ Resting → self.now.calls.object.state.waiting ≡ [] → result ≡ true }
    {
        self.phase == Phase::Resting && self.calls.state().is_idle()
    }

    /// Returns how many calls are queued on the entry (9.9), or 0 if there is no such entry.
    pub fn count(&self, e: u16) -> u64
        ensures exact { e < self.now.calls.object.state.unit → result ≡ count_by (is_on e) self.now.calls.object.state.waiting }
        ensures none { self.now.calls.object.state.unit ≤ e → result ≡ 0 }
    {
        if e < self.entries() {
            self.calls.state().count(e)
        } else {
            0
        }
    }
}
