// SPDX-License-Identifier: MIT
//! How calls arrive.

ghost use Rattle.std.specs.Prelude.{◌≡◌, ◌≢◌, ◌<◌, [], ℕ, None, true, IfOk, IsOk, OnErr, IsSome, IfSome, find};
ghost use Rattle.po_engine.specs.Tickets.{uncollected};
ghost use Rattle.po_engine.specs.WaitingCalls.{is_on};
ghost use Rattle.po_engine.specs.declared.arriving.Arriving.{Arriving};
ghost use Rattle.po_driven.specs.DrivenView.{AcceptsCalls, DrivenView, KeepsSetup, Tells, Fresh, KeepsAll, LeavesNamed, MayIssue};
ghost use Rattle.po_driven.specs.DrivenCallsView.{IsReady};
ghost use Rattle.po_driven.specs.Answering.{AnswersCall, FollowsBarrier};
ghost use Rattle.po_driven.specs.Noted.{Notes, issued, NamesCaller, NamesTicket, HasTicket, EndsWhereFull};
ghost use Rattle.po_driven.specs.declared.action.Action.TheVariants.{Run, ProgramError, NoMemory, Refused};
ghost use Rattle.po_driven.specs.declared.phase.Phase.TheVariants.{Settling};
ghost use Rattle.po_driven.specs.declared.words.Barrier.TheVariants.{Closed, Open, Raised};
ghost use Rattle.po_driven.specs.declared.words.NamedCall.{NamedCall};
ghost use Rattle.po_driven.specs.Steps.{Issues};

use crate::action::Action;
use crate::driven_object::DrivenObject;
use crate::phase::Phase;
use crate::words::{Barrier, NamedCall};
use po_calls::Ticket;
use po_engine::Arriving;
use po_history::Trace;
use std::alloc::AllocError;

impl DrivenObject {
    /// Returns whether calls are accepted now.
    #[inline(always)]
    pub(super) fn accepts_calls(&self) -> bool
        ensures yes { result ≡ true → AcceptsCalls self.now }
        ensures no { AcceptsCalls self.now → result ≡ true }
    {
        self.phase == Phase::Resting
            && !self.calls.state().is_finalized()
            && self.calls.has_numbers()
    }

    /// Returns whether a call on the entry is accepted now.
    pub(super) fn may_issue(&self, e: u16) -> bool
        ensures yes { result ≡ true → MayIssue self.now e }
        ensures no { MayIssue self.now e → result ≡ true }
    {
        self.accepts_calls() && e < self.entries()
    }

    /// Issues a call. The client reports what the barrier of its entry says (9.5.3).
    #[inline(always)]
    pub fn issue(
        &mut self,
        arriving: Arriving<u64>,
        barrier: Barrier,
        step: &mut NamedCall,
    ) -> Action
        ensures issues { Issues arriving barrier step.new self.old self.new result }
        ensures named { LeavesNamed result step.old step.new }
    {
        if !self.may_issue(arriving.entry) {
            return Action::Refused;
        }
        if arriving.aborted && !arriving.without_abort {
            self.closed = Trace::new();
            self.phase = Phase::Settling;
            step.caller = arriving.value;
            return Action::Cancelled;
        }
        match self.accept(arriving, barrier, step) {
            Ok(action) => action,
            Err(_) => Action::NoMemory,
        }
    }

    /// Accepts a call, if there is memory for it.
    #[inline(always)]
    fn accept(
        &mut self,
        arriving: Arriving<u64>,
        barrier: Barrier,
        step: &mut NamedCall,
    ) -> Result<Action, AllocError>
        requires may { MayIssue self.old arriving.entry }
        ensures tells { IfOk result (λ action. Tells action self.new) }
        ensures fresh { IfOk result (λ action. self.new.closed ≡ []) }
        ensures answers { IfOk result (λ action. action ≢ Refused) }
        ensures proceeds { IfOk result (λ action. (old new : DrivenView) → KeepsAll action old new) }
        ensures err { OnErr result (self.new ≡ self.old) }
        ensures noted { IfOk result (λ action. Notes (issued action arriving barrier self.old) self.old self.new) }
        ensures names { IfOk result (λ action. NamesCaller action arriving barrier step.new self.old) }
        ensures ticket { IfOk result (λ action. NamesTicket action step.new self.new) }
        ensures full { IfOk result (λ action. (barrier ≡ Raised → ⊥) → EndsWhereFull action arriving.entry self.old) }
        ensures follows { IfOk result (λ action. FollowsBarrier action arriving barrier self.new) }
        ensures room { uncollected self.old.calls.object.tickets < self.old.calls.object.capacity → IsOk result }
        ensures setup { IfOk result (λ _. KeepsSetup self.old self.new) }
        ensures named { IfOk result (λ action. LeavesNamed action step.old step.new) }
        ensures left { OnErr result (step.new ≡ step.old) }
    {
        self.calls.make_room()?;
        let action = match barrier {
            Barrier::Open => self.accept_open(arriving, step),
            Barrier::Closed => self.accept_closed(arriving, step),
            Barrier::Raised => self.accept_raised(arriving, step),
        };
        Ok(action)
    }

    /// Accepts a call whose barrier is open: its body is to be run.
    #[inline(always)]
    fn accept_open(&mut self, arriving: Arriving<u64>, step: &mut NamedCall) -> Action
        requires { IsReady self.old.calls arriving.entry }
        ensures tells { Tells result self.new }
        ensures fresh { self.new.closed ≡ [] }
        ensures answers { result ≢ Refused }
        ensures proceeds { (old new : DrivenView) → KeepsAll result old new }
        ensures runs { result ≡ Run arriving.entry }
        ensures noted { Notes (issued result arriving Open self.old) self.old self.new }
        ensures names { NamesCaller result arriving Open step.new self.old }
        ensures ticket { NamesTicket result step.new self.new }
        ensures full { EndsWhereFull result arriving.entry self.old }
        ensures follows { FollowsBarrier result arriving Open self.new }
        ensures setup { KeepsSetup self.old self.new }
        ensures unnamed { (old new : NamedCall) → LeavesNamed result old new }
    {
        self.calls.accept_open(arriving);
        self.phase = Phase::Running;
        self.closed = Trace::new();
        step.caller = arriving.value;
        Action::Run(arriving.entry)
    }

    /// Accepts a call whose barrier is closed: it is queued, or ends if the queue is full.
    #[inline(always)]
    fn accept_closed(&mut self, arriving: Arriving<u64>, step: &mut NamedCall) -> Action
        requires { IsReady self.old.calls arriving.entry }
        ensures tells { Tells result self.new }
        ensures fresh { self.new.closed ≡ [] }
        ensures answers { result ≢ Refused }
        ensures proceeds { (old new : DrivenView) → KeepsAll result old new }
        ensures noted { Notes (issued result arriving Closed self.old) self.old self.new }
        ensures names { NamesCaller result arriving Closed step.new self.old }
        ensures ticket { NamesTicket result step.new self.new }
        ensures full { EndsWhereFull result arriving.entry self.old }
        ensures follows { FollowsBarrier result arriving Closed self.new }
        ensures setup { KeepsSetup self.old self.new }
        ensures unnamed { (old new : NamedCall) → LeavesNamed result old new }
    {
        let longest = self.longest(arriving.entry);
        let queued = self.calls.accept_closed(arriving, longest);
        self.closed = Trace::new();
        self.phase = Phase::Settling;
        step.caller = arriving.value;
        self.arrived(queued, arriving.entry, step)
    }

    /// Accepts a call whose barrier propagated an exception: it ends by Program_Error, after all queued calls (9.5.3).
    #[tactic(auto, using(crate::proofs::Tickets::kept_then))]
    fn accept_raised(&mut self, arriving: Arriving<u64>, step: &mut NamedCall) -> Action
        requires { IsReady self.old.calls arriving.entry }
        ensures tells { Tells result self.new }
        ensures fresh { self.new.closed ≡ [] }
        ensures answers { result ≢ Refused }
        ensures proceeds { (old new : DrivenView) → KeepsAll result old new }
        ensures noted { Notes (issued result arriving Raised self.old) self.old self.new }
        ensures names { NamesCaller result arriving Raised step.new self.old }
        ensures ticket { NamesTicket result step.new self.new }
        ensures follows { FollowsBarrier result arriving Raised self.new }
        ensures setup { KeepsSetup self.old self.new }
        ensures unnamed { (old new : NamedCall) → LeavesNamed result old new }
    {
        self.calls.accept_closed(arriving, None);
        self.closed = Trace::new();
        self.phase = Phase::Breaking;
        self.break_one(step)
    }

    /// Returns what the client is to do after a call has arrived on the queue of the entry, or has ended because that was full.
    pub(super) fn arrived(&mut self, queued: Option<Ticket>, e: u16, step: &mut NamedCall) -> Action
        requires idle { self.old.calls.object.serving ≡ None }
        requires phase { self.old.phase ≡ Settling }
        requires fresh { self.old.closed ≡ [] }
        requires queued { IfSome queued (λ _. IsSome (find (is_on e) self.old.calls.object.state.waiting)) }
        ensures tells { Tells result self.new }
        ensures fresh { self.new.closed ≡ [] }
        ensures answers { result ≢ Refused }
        ensures proceeds { (old new : DrivenView) → KeepsAll result old new }
        ensures calls { self.new.calls ≡ self.old.calls }
        ensures caller { step.new.caller ≡ step.old.caller }
        ensures full { queued ≡ None → result ≡ ProgramError }
        ensures ticket { IfSome queued (λ ticket. HasTicket result ticket step.new) }
        ensures follows { (arriving : Arriving ℕ) → FollowsBarrier result arriving Closed self.new }
        ensures setup { KeepsSetup self.old self.new }
        ensures unnamed { (old new : NamedCall) → LeavesNamed result old new }
    {
        let Some(ticket) = queued else {
            return Action::ProgramError;
        };
        let Some(first) = self.calls.state().next_busy(0) else {
            return Action::ProgramError;
        };
        step.key = ticket.key;
        step.number = ticket.number;
        self.phase = Phase::Asked(first);
        Action::Queued(first)
    }
}
