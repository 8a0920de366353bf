// SPDX-License-Identifier: MIT
//! Functions that do several steps, for calls of open entries and for calls that arrive while none is queued.

ghost use Rattle.std.specs.Prelude.{◌≡◌, ◌≢◌, ◌<◌, true, false};
ghost use Rattle.po_engine.specs.Tickets.{uncollected};
ghost use Rattle.po_driven.specs.DrivenView.{KeepsAll, KeepsSetup, LeavesNamed};
ghost use Rattle.po_driven.specs.Passing.{ArrivesAlone, HasTarget, IsTaken, MakesReady, MayServe, MayServeTwice, Serves, ServesBetween, ServesTwice, TurnsAway, Waits, WasServed, is_due_in};
ghost use Rattle.po_driven.specs.Answering.{is_withdrawn as withdrawn};
ghost use Rattle.po_driven.specs.declared.action.Action.TheVariants.{NoMemory, Refused};
ghost use Rattle.po_driven.specs.declared.words.BodyEnd.TheVariants.{Completed, Failed, RequeuedElsewhere};
ghost use Rattle.po_driven.specs.declared.words.NamedCall.{NamedCall};

use crate::action::Action;
use crate::driven_object::DrivenObject;
use crate::phase::Phase;
use crate::words::{Barrier, BodyEnd, NamedCall, Requeue};
use po_calls::{Deadline, End};
use po_engine::Arriving;
use po_history::Trace;

/// Returns whether the call is cancelled before its barrier is looked at: its caller was aborted.
#[inline(always)]
fn is_withdrawn(arriving: Arriving<u64>) -> bool
    ensures { result ≡ withdrawn arriving }
{
    arriving.aborted && !arriving.without_abort
}

impl DrivenObject {
    /// Returns whether a call is accepted even if its body has run already.
    #[inline(always)]
    fn may_serve(&self) -> bool
        ensures yes { result ≡ true → MayServe self.now }
        ensures no { MayServe self.now → result ≡ true }
    {
        self.accepts_calls() && self.calls.has_places()
    }

    /// Makes room for one more call. If the answer is `Rest`, `served` accepts a call of any entry now, whatever its body does, and
    /// needs no more memory.
    #[inline(always)]
    pub fn ready(&mut self) -> Action
        ensures { MakesReady self.old self.new result }
    {
        if !self.may_serve() {
            return Action::Refused;
        }
        match self.calls.make_room() {
            Ok(_) => Action::Rest,
            Err(_) => Action::NoMemory,
        }
    }

    /// Returns whether the entry to which a body requeued its call within the object exists.
    #[inline(always)]
    fn has_target(&self, end: BodyEnd) -> bool
        ensures yes { result ≡ true → HasTarget self.now end }
        ensures no { HasTarget self.now end → result ≡ true }
    {
        match end {
            BodyEnd::Requeued(requeue) => requeue.target < self.entries(),
            _ => true,
        }
    }

    /// Returns whether a call of an entry that exists is accepted though its body has run already. It isn't if it is cancelled
    /// before its barrier is looked at.
    #[inline(always)]
    fn accepts_served(&self, arriving: Arriving<u64>) -> bool
        ensures yes { result ≡ true → WasServed arriving Completed self.now }
        ensures no { WasServed arriving Completed self.now → result ≡ true }
    {
        self.may_serve() && arriving.entry < self.entries() && !is_withdrawn(arriving)
    }

    /// Does what `served` does, for a body that has completed.
    #[inline(always)]
    pub fn served_and_completed(&mut self, arriving: Arriving<u64>, step: &mut NamedCall) -> Action
        ensures serves { Serves arriving Completed step.new self.old self.new result }
        ensures named { LeavesNamed result step.old step.new }
    {
        if !self.accepts_served(arriving) {
            return Action::Refused;
        }
        self.completed(arriving, step)
    }

    /// Takes a call whose barrier was open and whose body has run, and returns what is next: `issue` with an open barrier and
    /// `body_ended` in one. Only a requeue within the object takes room (9.5.2, 9.5.3).
    pub fn served(&mut self, arriving: Arriving<u64>, end: BodyEnd, step: &mut NamedCall) -> Action
        ensures serves { Serves arriving end step.new self.old self.new result }
        ensures named { LeavesNamed result step.old step.new }
    {
        if !self.accepts_served(arriving) || !self.has_target(end) {
            return Action::Refused;
        }
        match end {
            BodyEnd::Completed => self.completed(arriving, step),
            BodyEnd::Failed => self.failed(arriving, step),
            BodyEnd::RequeuedElsewhere => self.requeued_elsewhere(arriving, step),
            BodyEnd::Requeued(_) => self.issued_and_ended(arriving, end, step),
        }
    }

    /// Takes a call whose body has completed.
    #[inline(always)]
    fn completed(&mut self, arriving: Arriving<u64>, step: &mut NamedCall) -> Action
        requires { WasServed arriving Completed self.old }
        ensures taken { IsTaken result }
        ensures setup { KeepsSetup self.old self.new }
        ensures unnamed { (old new : NamedCall) → LeavesNamed result old new }
        ensures through { ServesBetween arriving Completed step.new self.old self.new result }
    {
        self.recall_invariant();
        self.calls
            .accept_served(arriving, End::Completed(arriving.value));
        self.phase = Phase::Settling;
        self.closed = Trace::new();
        self.ask(0, step)
    }

    /// Takes a call whose body has failed: all queued calls end by Program_Error.
    fn failed(&mut self, arriving: Arriving<u64>, step: &mut NamedCall) -> Action
        requires { WasServed arriving Failed self.old }
        ensures taken { IsTaken result }
        ensures setup { KeepsSetup self.old self.new }
        ensures unnamed { (old new : NamedCall) → LeavesNamed result old new }
        ensures through { ServesBetween arriving Failed step.new self.old self.new result }
    {
        self.recall_invariant();
        self.calls.accept_served(arriving, End::Raised(0));
        self.phase = Phase::Settling;
        self.closed = Trace::new();
        self.break_one(step)
    }

    /// Takes a call whose body has requeued it to another object or a task (9.5.4).
    fn requeued_elsewhere(&mut self, arriving: Arriving<u64>, step: &mut NamedCall) -> Action
        requires { WasServed arriving RequeuedElsewhere self.old }
        ensures taken { IsTaken result }
        ensures setup { KeepsSetup self.old self.new }
        ensures unnamed { (old new : NamedCall) → LeavesNamed result old new }
        ensures through { ServesBetween arriving RequeuedElsewhere step.new self.old self.new result }
    {
        self.recall_invariant();
        self.calls.accept_requeued_elsewhere(arriving);
        self.phase = Phase::Settling;
        self.closed = Trace::new();
        self.ask(0, step)
    }

    /// Issues a call with an open barrier, and takes how its body has ended, if there is memory for the call.
    fn issued_and_ended(
        &mut self,
        arriving: Arriving<u64>,
        end: BodyEnd,
        step: &mut NamedCall,
    ) -> Action
        requires { WasServed arriving end self.old }
        ensures kept { KeepsAll result self.old self.new }
        ensures accepted { result ≢ Refused }
        ensures room { uncollected self.old.calls.object.tickets < self.old.calls.object.capacity → result ≢ NoMemory }
        ensures setup { KeepsSetup self.old self.new }
        ensures named { LeavesNamed result step.old step.new }
        ensures through { IsTaken result → ServesBetween arriving end step.new self.old self.new result }
    {
        self.recall_invariant();
        let Action::Run(_) = self.issue(arriving, Barrier::Open, step) else {
            return Action::NoMemory;
        };
        self.recall_invariant();
        self.body_ended(end, step)
    }

    /// Returns whether the call, if it was served and its body has requeued it so, is queued alone at an entry that exists, neither
    /// due nor cancelled.
    fn moves_alone(&self, arriving: Arriving<u64>, requeue: Requeue) -> bool
        ensures yes { result ≡ true → WasServed arriving Completed self.now → MayServeTwice arriving requeue self.now }
        ensures no { MayServeTwice arriving requeue self.now → result ≡ true }
    {
        let is_cancelled = requeue.with_abort && (requeue.aborted || arriving.aborted);
        requeue.target < self.entries()
            && self.calls.state().is_idle()
            && !requeue.due
            && !is_cancelled
    }

    /// Takes a call whose barrier was open, whose body has requeued it to an open entry of the object, and whose body there has
    /// completed it: `issue`, `body_ended`, `answer` and `body_ended` in one. Then the object is at rest. Returns false, and changes
    /// nothing, if another call is queued, or if the call would be due or cancelled at its requeue. It takes no room (9.5.4).
    #[inline(always)]
    pub fn served_twice(&mut self, arriving: Arriving<u64>, requeue: Requeue) -> bool
        ensures { ServesTwice arriving requeue self.old self.new result }
    {
        self.recall_invariant();
        if !self.accepts_served(arriving) || !self.moves_alone(arriving, requeue) {
            return false;
        }
        let longest = self.longest(requeue.target);
        self.calls
            .accept_served_twice(arriving, requeue.target, requeue.with_abort, longest);
        self.closed = Trace::new();
        true
    }

    /// Returns whether the call arrives alone.
    fn arrives_alone(&self, arriving: Arriving<u64>) -> bool
        ensures yes { result ≡ true → ArrivesAlone arriving self.now }
        ensures no { ArrivesAlone arriving self.now → result ≡ true }
    {
        self.may_issue(arriving.entry) && self.calls.state().is_idle() && !is_withdrawn(arriving)
    }

    /// Returns whether the call would be due once it is queued (9.7.2).
    fn is_due(&self, arriving: Arriving<u64>) -> bool
        ensures { result ≡ is_due_in self.now arriving }
    {
        match arriving.deadline {
            Deadline::At(time) if !arriving.without_abort => time <= self.calls.state().clock(),
            _ => false,
        }
    }

    /// Queues a call that arrives alone and isn't due, and whose barrier is closed whatever the number of queued calls: `issue` and
    /// `answer` in one. Then the object is at rest. Returns false, and changes nothing, if that isn't so or there is no memory
    /// (9.5.3).
    #[inline(always)]
    pub fn wait(&mut self, arriving: Arriving<u64>, step: &mut NamedCall) -> bool
        ensures waits { Waits arriving step.new self.old self.new result }
        ensures named { result ≡ false → step.new ≡ step.old }
    {
        self.recall_invariant();
        if !self.arrives_alone(arriving) || self.is_due(arriving) {
            return false;
        }
        let longest = self.longest(arriving.entry);
        if self.calls.make_room().is_err() {
            return false;
        }
        let Some(ticket) = self.calls.accept_closed(arriving, longest) else {
            return false;
        };
        self.calls.recall_invariant();
        self.closed = Trace::new().then(&arriving.entry);
        step.caller = arriving.value;
        step.key = ticket.key;
        step.number = ticket.number;
        true
    }

    /// Cancels a call that arrives alone and is due, and whose barrier is closed whatever the number of queued calls: `issue`, `answer`
    /// and `next` in one. Then the object is at rest. Returns false, and changes nothing, if that isn't so (9.7.2, 9.7.3).
    #[inline(always)]
    pub fn turn_away(&mut self, arriving: Arriving<u64>) -> bool
        ensures { TurnsAway arriving self.old self.new result }
    {
        self.recall_invariant();
        if !self.arrives_alone(arriving) || !self.is_due(arriving) {
            return false;
        }
        let longest = self.longest(arriving.entry);
        self.calls.accept_cancelled(arriving, longest);
        self.closed = Trace::new();
        true
    }
}
