// SPDX-License-Identifier: MIT
//! How queues are serviced.

ghost use Rattle.std.specs.Prelude.{◌≡◌, ◌≢◌, ◌+◌, ◌++◌, ◌∷◌, [], ℕ, None, true, All, IsSome, find};
ghost use Rattle.std.specs.List.{slice_get};
ghost use Rattle.po_engine.specs.WaitingCalls.{is_on};
ghost use Rattle.po_driven.specs.AtRest.{AskedBelow, ToldBelow, told};
ghost use Rattle.po_driven.specs.DrivenView.{DrivenView, KeepsSetup, Tells, Fresh, KeepsAll, LeavesNamed, closed_after};
ghost use Rattle.po_driven.specs.Answering.{LooksOn, Breaks, WaitsForNext};
ghost use Rattle.po_driven.specs.Noted.{Notes, serviced, Names};
ghost use Rattle.po_driven.specs.declared.action.Action.TheVariants.{Run, ProgramError, Refused};
ghost use Rattle.po_driven.specs.declared.phase.Phase.TheVariants.{Asked, Settling, Breaking};
ghost use Rattle.po_driven.specs.declared.words.Barrier.TheVariants.{Closed, Open, Raised};
ghost use Rattle.po_driven.specs.declared.words.NamedCall.{NamedCall};
ghost use Rattle.po_driven.specs.Servicing.{Services};
ghost use Rattle.po_driven.specs.Steps.{Evaluates, GoesOn};

use crate::action::Action;
use crate::driven_object::DrivenObject;
use crate::phase::Phase;
use crate::words::{Barrier, NamedCall};
use po_history::Trace;

impl DrivenObject {
    /// Takes what the client says about the barrier that it was asked for, and returns what is next.
    pub fn answer(&mut self, barrier: Barrier, step: &mut NamedCall) -> Action
        ensures evaluates { Evaluates barrier step.new self.old self.new result }
        ensures named { LeavesNamed result step.old step.new }
    {
        let Phase::Asked(e) = self.phase else {
            return Action::Refused;
        };
        match barrier {
            Barrier::Closed => {
                let from = self.note_closed(e);
                self.ask(from, step)
            }
            Barrier::Open => self.serve(e, step),
            Barrier::Raised => self.break_one(step),
        }
    }

    /// Notes that the client reported the entry closed, and returns the next entry.
    #[tactic(auto, using(crate::proofs::Rests::asked_through))]
    fn note_closed(&mut self, e: u16) -> u16
        requires { self.old.phase ≡ Asked e }
        ensures same { self.new ≡ record self.old { phase = Settling; closed = self.old.closed ++ e ∷ [] } }
        ensures below { ToldBelow self.new.closed result self.new.calls.object.state.waiting }
        ensures once { AskedBelow self.new.closed result }
        ensures idle { self.new.calls.object.serving ≡ None }
    {
        // Only for the prover: an entry's number is below the number of entries, so there is a next one.
        let _ = self.entries();
        self.phase = Phase::Settling;
        self.closed = self.closed.then(&e);
        e.saturating_add(1)
    }

    /// Takes the first call on the entry into service.
    #[tactic(auto, using(po_engine::proofs::Lists::found_on))]
    fn serve(&mut self, e: u16, step: &mut NamedCall) -> Action
        requires { self.old.phase ≡ Asked e }
        ensures tells { Tells result self.new }
        ensures fresh { self.new.closed ≡ [] }
        ensures answers { result ≢ Refused }
        ensures proceeds { (old new : DrivenView) → KeepsAll result old new }
        ensures serves { self.new.calls.object.serving ≡ find (is_on e) self.old.calls.object.state.waiting }
        ensures runs { result ≡ Run e }
        ensures noted { Notes (serviced result self.old) self.old self.new }
        ensures names { Names result step.new self.old self.new }
        ensures setup { KeepsSetup self.old self.new }
        ensures unnamed { (old new : NamedCall) → LeavesNamed result old new }
    {
        self.closed = Trace::new();
        self.phase = Phase::Running;
        let Some(call) = self.calls.select(e) else {
            return Action::Run(e);
        };
        step.caller = call.value;
        Action::Run(e)
    }

    /// Returns what is next. Unless all queued calls are ending, it asks for the barriers anew: a procedure may have changed
    /// them.
    pub fn next(&mut self, step: &mut NamedCall) -> Action
        ensures goes_on { GoesOn step.new self.old self.new result }
        ensures named { LeavesNamed result step.old step.new }
    {
        match self.phase {
            Phase::Resting | Phase::Settling => {
                self.closed = Trace::new();
                self.phase = Phase::Settling;
                self.ask(0, step)
            }
            Phase::Breaking => self.break_one(step),
            Phase::Asked(_) | Phase::Running => Action::Refused,
        }
    }

    /// Asks for the barrier of the first entry, from `from` on, that has a queued call. If there is none, the first call that
    /// is due is cancelled. If none is due, the object is at rest.
    #[inline(always)]
    pub(super) fn ask(&mut self, from: u16, step: &mut NamedCall) -> Action
        requires idle { self.old.calls.object.serving ≡ None }
        requires below { ToldBelow self.old.closed from self.old.calls.object.state.waiting }
        requires once { AskedBelow self.old.closed from }
        ensures services { Services step.new self.old self.new result }
        ensures same { self.new.closed ≡ self.old.closed }
        ensures looks_on { LooksOn result self.old.calls.object.state.waiting self.old.closed }
    {
        if self.calls.state().is_idle() {
            self.phase = Phase::Resting;
            return Action::Rest;
        }
        self.ask_busy(from, step)
    }

    /// Does what `ask` does if a call is queued.
    fn ask_busy(&mut self, from: u16, step: &mut NamedCall) -> Action
        requires idle { self.old.calls.object.serving ≡ None }
        requires below { ToldBelow self.old.closed from self.old.calls.object.state.waiting }
        requires once { AskedBelow self.old.closed from }
        ensures services { Services step.new self.old self.new result }
        ensures same { self.new.closed ≡ self.old.closed }
        ensures looks_on { LooksOn result self.old.calls.object.state.waiting self.old.closed }
    {
        if let Some(e) = self.calls.state().next_busy(from) {
            self.phase = Phase::Asked(e);
            return Action::Evaluate(e);
        }
        self.cancel_due(step)
    }

    /// Cancels the first call that is due. If none is due, the object is at rest (9.7.2, 9.7.3).
    fn cancel_due(&mut self, step: &mut NamedCall) -> Action
        requires idle { self.old.calls.object.serving ≡ None }
        requires closed { All (λ x. told self.old.closed x.entry ≡ true) self.old.calls.object.state.waiting }
        ensures services { Services step.new self.old self.new result }
        ensures same { self.new.closed ≡ self.old.closed }
        ensures looks_on { LooksOn result self.old.calls.object.state.waiting self.old.closed }
    {
        let Some(call) = self.calls.cancel_due() else {
            self.phase = Phase::Resting;
            return Action::Rest;
        };
        step.caller = call.value;
        self.phase = Phase::Settling;
        Action::Cancelled
    }

    /// Ends the call that was queued first of all by Program_Error. If none is queued, the object is at rest.
    pub(super) fn break_one(&mut self, step: &mut NamedCall) -> Action
        requires { self.old.calls.object.serving ≡ None }
        ensures services { Services step.new self.old self.new result }
        ensures fresh { self.new.closed ≡ [] }
        ensures breaks { Breaks result self.old self.new }
        ensures first { IsSome (slice_get self.old.calls.object.state.waiting 0) → result ≡ ProgramError }
    {
        self.closed = Trace::new();
        let Some(call) = self.calls.break_oldest() else {
            self.phase = Phase::Resting;
            return Action::Rest;
        };
        self.phase = Phase::Breaking;
        step.caller = call.value;
        Action::ProgramError
    }
}
