// SPDX-License-Identifier: MIT
//! The state of a protected object: its data and its calls.

ghost use Rattle.std.specs.Prelude.{◌≡◌, ◌<◌, ◌≤◌, ◌+◌, [], ℕ, true, false, length, Option, None, Some, IfOk, OnOk, OnErr, IsOk, find, if◌then◌else◌};
ghost use Rattle.po_engine.specs.WaitingCalls.{has_number};
ghost use Rattle.po_engine.specs.ObjectState.{opening_state};
ghost use Rattle.po_engine.specs.Pick.{served_last, owed};
ghost use Rattle.po_engine.specs.Tickets.{number_at, uncollected};
ghost use Rattle.po_engine.specs.Calls.{HasTicket, key_of};
ghost use Rattle.po_calls.specs.declared.call.Call.{Call};

mod looks;
mod steps;

use crate::Calls;
use po_calls::Call;
use po_history::Event;
use po_unit::Unit;
use std::alloc::{AllocError, Global};
use std::marker::Model;

/// The data of a protected object and its calls. Contracts see the object's state, and besides it the places at which its calls
/// arrived, the call in service, its tickets, how many calls there is room for, and how many calls had ended before the
/// command. Each method does what one definition of a step says.
///
/// Cores (`po_core`) and driven objects (`po_driven`) are built on it. Only proofs know how all calls have ended.
#[derive(Drop)]
pub struct State<U: Unit> {
    unit: U,
    calls: Calls<U::Value>,
    finalized: bool,
    /// How many more events may come if the only further command is a finalization: those that the queued calls may need, and
    /// the finalization.
    owed: u128,
}

/// Returns the entry that was served last after `event`, given the one that was last before it.
pub fn served_by<V: Copy>(last: Option<u16>, event: Event<V>) -> Option<u16>
    ensures { result ≡ served_last last event }
{
    match event {
        Event::Serve(e) => Some(e),
        _ => last,
    }
}

impl<U: Unit> Model for State<U> {
    ghost use Rattle.std.specs.Prelude.{◌≡◌};
    ghost use Rattle.po_engine.specs.StateView.{StateView, state_with_calls, AreLow};
    ghost use Rattle.po_engine.specs.Pick.{owed as owed_in};

    ghost Value = { StateView U U.Value };

    ghost view = { λ s. record {
      state = state_with_calls s.unit s.calls s.finalized;
      places = s.calls.places;
      serving = s.calls.serving;
      tickets = s.calls.tickets;
      keys = s.calls.keys;
      first = s.calls.first;
      capacity = s.calls.capacity;
      is_fixed = s.calls.is_fixed;
      before = s.calls.ended_before;
    } };

    ghost invariant = { λ s. record {
      total : s.calls.total ≡ U.meaning.entries s.unit;
      owed : s.owed ≡ owed_in U.meaning (state_with_calls s.unit s.calls s.finalized);
      ranks : AreLow U.meaning s.calls.waiting;
    } };
}

/// Returns how many events a waiting call may still need: it is served once more than it may be requeued, and at most one event
/// attempts it or lets it expire.
fn events_owed<U: Unit>(call: &Call<U::Value>) -> u128
    ensures owed { result ≡ U.meaning.rank call.now.entry call.now.value + (if call.now.aborted then 1 else 2) }
    ensures low { U.meaning.rank call.now.entry call.now.value ≤ 255 }
{
    let rank = u128::from(U::rank(call.entry, call.value));
    if call.aborted { rank + 1 } else { rank + 2 }
}

/// Returns the state of an object with a newly made unit and these calls.
fn opened<U: Unit>(unit: U, calls: Calls<U::Value>) -> State<U>
    requires total { calls.total ≡ U.meaning.entries unit }
    requires waiting { calls.waiting ≡ [] }
    requires ended { calls.ended ≡ [] }
    requires clock { calls.clock ≡ 0 }
    ensures { result ≡ record {
      state = opening_state unit calls.next;
      places = calls.places;
      serving = calls.serving;
      tickets = calls.tickets;
      keys = calls.keys;
      first = calls.first;
      capacity = calls.capacity;
      is_fixed = calls.is_fixed;
      before = calls.ended_before;
    } }
{
    State {
        unit,
        calls,
        finalized: false,
        owed: 1,
    }
}

impl<U: Unit + Drop> State<U> {
    /// Makes the state of a new object, whose first call gets the number `first_number`. There is no room for a call yet.
    pub fn new(alloc: Global, unit: U, first_number: u64) -> Result<State<U>, AllocError>
        ensures { IfOk result (λ d. d ≡ record {
          state = opening_state unit first_number;
          places = [];
          serving = None;
          tickets = [];
          keys = [];
          first = first_number;
          capacity = 0;
          is_fixed = false;
          before = 0;
        }) }
    {
        let calls = Calls::new(alloc, unit.entries(), first_number)?;
        Ok(opened(unit, calls))
    }

    /// Like `new`, but takes all memory for up to `capacity` uncollected calls.
    pub fn with_capacity(
        alloc: Global,
        unit: U,
        first_number: u64,
        capacity: usize,
    ) -> Result<State<U>, AllocError>
        ensures { IfOk result (λ d. d ≡ record {
          state = opening_state unit first_number;
          places = [];
          serving = None;
          tickets = [];
          keys = [];
          first = first_number;
          capacity = capacity;
          is_fixed = true;
          before = 0;
        }) }
    {
        let calls = Calls::with_capacity(alloc, unit.entries(), first_number, capacity)?;
        Ok(opened(unit, calls))
    }
}

impl<U: Unit> State<U> {
    /// Makes an equal state, with memory for as many calls. Fails only if memory runs out.
    pub fn copy(&self) -> Result<State<U>, AllocError>
        ensures { IfOk result (λ copy. copy ≡ self.now) }
    {
        let calls = self.calls.copy()?;
        let unit = self.unit.copy()?;
        Ok(State {
            unit,
            calls,
            finalized: self.finalized,
            owed: self.owed,
        })
    }

    /// Makes room for one more call if there is none.
    pub fn reserve(&mut self) -> Result<(), AllocError>
        requires { self.old.is_fixed ≡ false }
        ensures same { self.new ≡ record self.old { capacity = self.new.capacity } }
        ensures ok { OnOk result (uncollected self.new.tickets < self.new.capacity) }
        ensures err { OnErr result (self.new ≡ self.old) }
        ensures had_room { uncollected self.old.tickets < self.old.capacity → IsOk result × (self.new ≡ self.old) }
    {
        self.calls.reserve()
    }

    /// Begins a command: no call has ended in it yet.
    pub fn begin(&mut self)
        ensures { self.new ≡ record self.old { before = length self.old.state.ended } }
    {
        self.calls.begin();
    }

    /// Recalls for proofs what holds of every state: the events that may still come are few; each accepted call waits or has
    /// ended; the number of a waiting call leads to its ticket, and that of a ticket to the ticket's key.
    pub fn recall_invariant(&self)
        ensures few { owed U.meaning self.now.state ≤ 9_000_000_000_000_000_000_000 }
        ensures each { self.now.serving ≡ None → length self.now.state.ended + length self.now.state.waiting ≡ length self.now.keys }
        ensures tickets { (n : ℕ) (x : Call U.Value) → find (has_number n) self.now.state.waiting ≡ Some x
            → HasTicket self.now.first self.now.keys self.now.tickets n }
        ensures leads { (k n : ℕ) → number_at self.now.tickets k ≡ Some n → key_of self.now.first self.now.keys n ≡ Some k }
    {
        self.calls.recall_invariant();
    }
}
