// SPDX-License-Identifier: MIT
//! How bodies end.

ghost use Rattle.std.specs.Prelude.{◌≡◌, ◌≢◌, ◌∷◌, [], ℕ, None, Some, IsSome};
ghost use Rattle.po_calls.specs.declared.call.Call.{Call};
ghost use Rattle.po_calls.specs.declared.end.End.TheVariants.{Completed as IsCompleted};
ghost use Rattle.po_engine.specs.Step.{end_call};
ghost use Rattle.po_driven.specs.DrivenView.{KeepsSetup, Tells, Fresh, KeepsAll, LeavesNamed};
ghost use Rattle.po_driven.specs.Answering.{LooksOn, Breaks, MayRequeue, Moves};
ghost use Rattle.po_driven.specs.Noted.{Notes, concluded, Names, NamesTicket, EndsWhereFull, IsNoRequeue};
ghost use Rattle.po_driven.specs.declared.action.Action.TheVariants.{Refused};
ghost use Rattle.po_driven.specs.declared.happening.Happening.TheVariants.{Ended, RequeuedElsewhere as HasRequeuedElsewhere};
ghost use Rattle.po_driven.specs.declared.words.BodyEnd.TheVariants.{Completed, Failed, Requeued, RequeuedElsewhere};
ghost use Rattle.po_driven.specs.declared.phase.Phase.TheVariants.{Settling};
ghost use Rattle.po_driven.specs.declared.words.Requeue.{Requeue};
ghost use Rattle.po_driven.specs.Steps.{EndsBody};

use crate::action::Action;
use crate::driven_object::DrivenObject;
use crate::phase::Phase;
use crate::words::{BodyEnd, NamedCall, Requeue};
use po_calls::{Call, End};
use po_history::Trace;

impl DrivenObject {
    /// Takes how the body of the call in service ended, and returns what is next.
    #[inline(always)]
    pub fn body_ended(&mut self, end: BodyEnd, step: &mut NamedCall) -> Action
        ensures ends { EndsBody end step.new self.old self.new result }
        ensures named { LeavesNamed result step.old step.new }
    {
        let Some(call) = self.calls.state().in_service() else {
            return Action::Refused;
        };
        match end {
            BodyEnd::Completed => {
                self.end(call, End::Completed(call.value));
                self.ask(0, step)
            }
            BodyEnd::Failed => {
                self.end(call, End::Raised(0));
                self.break_one(step)
            }
            BodyEnd::Requeued(requeue) => self.requeue(call, requeue, step),
            BodyEnd::RequeuedElsewhere => {
                self.requeue_elsewhere(call);
                self.ask(0, step)
            }
        }
    }

    /// Ends the call in service.
    #[inline(always)]
    fn end(&mut self, call: Call<u64>, end: End<u64>)
        requires { self.old.calls.object.serving ≡ Some call }
        ensures idle { self.new.calls.object.serving ≡ None }
        ensures fresh { self.new.closed ≡ [] }
        ensures settles { self.new.phase ≡ Settling }
        ensures state { self.new.calls.object.state ≡ end_call self.old.calls.object.state call end }
        ensures noted { Notes (Ended end ∷ []) self.old self.new }
        ensures setup { KeepsSetup self.old self.new }
    {
        self.calls.end(call, end);
        self.phase = Phase::Settling;
        self.closed = Trace::new();
    }

    /// Removes the call in service from the object: its body requeued it to another object or a task.
    #[inline(always)]
    fn requeue_elsewhere(&mut self, call: Call<u64>)
        requires { self.old.calls.object.serving ≡ Some call }
        ensures idle { self.new.calls.object.serving ≡ None }
        ensures fresh { self.new.closed ≡ [] }
        ensures settles { self.new.phase ≡ Settling }
        ensures state { self.new.calls.object.state ≡ end_call self.old.calls.object.state call (IsCompleted call.value) }
        ensures noted { Notes (HasRequeuedElsewhere ∷ []) self.old self.new }
        ensures setup { KeepsSetup self.old self.new }
    {
        self.calls.requeue_elsewhere(call);
        self.phase = Phase::Settling;
        self.closed = Trace::new();
    }

    /// Puts the call in service at the end of an entry's queue, or cancels it if the requeue is with abort and its caller was
    /// aborted (9.5.4).
    fn requeue(&mut self, call: Call<u64>, requeue: Requeue, step: &mut NamedCall) -> Action
        requires { self.old.calls.object.serving ≡ Some call }
        ensures tells { Tells result self.new }
        ensures fresh { Fresh result self.new }
        ensures kept { KeepsAll result self.old self.new }
        ensures noted { Notes (concluded (Requeued requeue) call result self.old) self.old self.new }
        ensures ticket { NamesTicket result step.new self.new }
        ensures full { EndsWhereFull result requeue.target self.old }
        ensures unmoved { (MayRequeue self.old requeue → ⊥) → result ≡ Refused }
        ensures moves { Moves result requeue call step.new self.old }
        ensures setup { KeepsSetup self.old self.new }
        ensures named { LeavesNamed result step.old step.new }
    {
        if requeue.target >= self.entries() || !self.calls.has_place() {
            return Action::Refused;
        }
        if requeue.with_abort && (requeue.aborted || call.aborted) {
            self.end(call, End::Cancelled);
            step.caller = call.value;
            return Action::Cancelled;
        }
        let longest = self.longest(requeue.target);
        let queued = self.calls.requeue(call, requeue, longest);
        self.closed = Trace::new();
        self.phase = Phase::Settling;
        step.caller = call.value;
        self.arrived(queued, requeue.target, step)
    }
}
