// SPDX-License-Identifier: MIT
//! What the thread of a caller does at one object.

ghost use Rattle.std.specs.Prelude.{◌≡◌, None};

use crate::course::Course;
use crate::step::{Deed, Step, Turn};
use crate::tally::Mishap;
use po_ada_language::Operation;
use po_ada_unit::{AdaUnit, Values};
use po_core::{Deadline, End, Refusal};
use po_object::{Object, Pass, Story};
use po_program::ASSERTION_ERROR;
use po_threads::Job;
use po_unit::EntryRef;
use std::sync::ledger::Ledger;
use std::sync::{Arc, Wait};

/// The values of an operation without parameters.
fn no_values() -> Values {
    Values::new([0; 8])
}

/// The steps of a caller at one object.
#[derive(Drop)]
pub(crate) struct Steps {
    pub(crate) caller: u16,
    /// The position of the object.
    pub(crate) object: u16,
    /// The number of the object's function that is its invariant, if it has one.
    pub(crate) invariant: Option<u16>,
    pub(crate) turns: Vec<Turn>,
    pub(crate) course: Arc<Course>,
}

/// Returns what is told of the end of a call.
fn mishap_of_end(end: End<Values>) -> Option<Mishap> {
    match end {
        End::Raised(exception) => Some(Mishap::Raised(exception)),
        End::ProgramError => Some(Mishap::Failed),
        End::Completed(_) | End::Cancelled => None,
    }
}

/// Returns what is told of the reply of a procedure or function.
fn mishap_of_reply(reply: Result<Values, u32>) -> Option<Mishap> {
    match reply {
        Ok(_) => None,
        Err(exception) => Some(Mishap::Raised(exception)),
    }
}

/// Returns the exception that the function with this number raises as a precondition of a call with these values, if it doesn't
/// hold (6.1.1).
fn failure<C: Story<AdaUnit, Values>, P: Ledger, W: Wait>(
    rt: &W,
    object: &Object<AdaUnit, C, P>,
    function: u16,
    value: Values,
) -> Option<u32> {
    match object.function(rt, function, value) {
        Ok(Ok(answer)) if answer.cells[0] == 0 => Some(ASSERTION_ERROR),
        Ok(Err(exception)) => Some(exception),
        _ => None,
    }
}

/// Makes a call, and waits for its end. Returns what is told of it.
fn call<C: Story<AdaUnit, Values>, P: Ledger, W: Wait>(
    rt: &W,
    object: &Object<AdaUnit, C, P>,
    pass: &mut Pass<Values, C, P>,
    entry: EntryRef,
    value: Values,
    deadline: Deadline,
) -> Result<Option<Mishap>, Refusal>
    requires { pass.old.pending ≡ None }
    ensures { pass.new.pending ≡ None }
{
    let end = match deadline {
        Deadline::Never => object.call(rt, pass, entry, value)?,
        Deadline::At(time) => object.timed(rt, pass, entry, value, time)?,
    };
    Ok(mishap_of_end(end))
}

/// Carries out an operation, and waits for its end. Returns what is told of it.
fn operate<C: Story<AdaUnit, Values>, P: Ledger, W: Wait>(
    rt: &W,
    object: &Object<AdaUnit, C, P>,
    pass: &mut Pass<Values, C, P>,
    operation: Operation<Values>,
) -> Result<Option<Mishap>, Refusal>
    requires { pass.old.pending ≡ None }
    ensures { pass.new.pending ≡ None }
{
    match operation {
        Operation::Call {
            entry,
            value,
            deadline,
        } => call(rt, object, pass, entry, value, deadline),
        Operation::Procedure { op, value } => {
            Ok(mishap_of_reply(object.procedure(rt, pass, op, value)?))
        }
        Operation::Function { op, value } => {
            Ok(mishap_of_reply(object.function(rt, op, value)?))
        }
        Operation::Finalize => {
            object.finalize(rt)?;
            Ok(None)
        }
        Operation::Tick(_) | Operation::Cancel(_) | Operation::Show => Ok(None),
    }
}

/// Returns the exception that the precondition of the operation raises, if it has one that doesn't hold.
fn failed_precondition<C: Story<AdaUnit, Values>, P: Ledger, W: Wait>(
    rt: &W,
    object: &Object<AdaUnit, C, P>,
    operation: Operation<Values>,
    precondition: Option<u16>,
) -> Option<u32> {
    match operation {
        Operation::Call { value, .. } => failure(rt, object, precondition?, value),
        _ => None,
    }
}

/// Does a step. Returns what is told of it.
fn act<C: Story<AdaUnit, Values>, P: Ledger, W: Wait>(
    rt: &W,
    object: &Object<AdaUnit, C, P>,
    pass: &mut Pass<Values, C, P>,
    deed: Deed,
) -> Result<Option<Mishap>, Refusal>
    requires { pass.old.pending ≡ None }
    ensures { pass.new.pending ≡ None }
{
    match deed {
        Deed::Operate {
            operation,
            precondition,
        } => match failed_precondition(rt, object, operation, precondition) {
            Some(exception) => Ok(Some(Mishap::Raised(exception))),
            None => operate(rt, object, pass, operation),
        },
        Deed::Abort(seat) => {
            // If no call of the seat waits here, there is nothing to cancel.
            let _attempt = object.cancel_seat(rt, seat);
            Ok(None)
        }
        // A finalized object has no clock to raise.
        Deed::Tick(time) => match object.tick(rt, time) {
            Err(Refusal::OutOfMemory) => Err(Refusal::OutOfMemory),
            _ => Ok(None),
        },
    }
}

impl Steps {
    /// Counts what a step came to. When a run ends early, objects are finalized, and what that brings about isn't counted.
    fn count(&self, step: Step, came: Result<Option<Mishap>, Refusal>) {
        if self.course.is_stopped() {
            return;
        }
        match came {
            Ok(None) => {}
            Ok(Some(mishap)) => self.course.tally.count(step.line, mishap),
            Err(Refusal::OutOfMemory) => self.course.give_up(),
            Err(_) => self.course.tally.count(step.line, Mishap::Refused),
        }
    }

    /// Counts if the object's invariant doesn't hold. It can't be called if the object is finalized, and counts as True then.
    fn check_invariant<C: Story<AdaUnit, Values>, P: Ledger, W: Wait>(
        &self,
        rt: &W,
        object: &Object<AdaUnit, C, P>,
    ) {
        let Some(function) = self.invariant else {
            return;
        };
        let holds = match object.function(rt, function, no_values()) {
            Ok(Ok(answer)) => answer.cells[0] != 0,
            Ok(Err(_)) => false,
            Err(_) => true,
        };
        if !holds {
            self.course.tally.count_broken(self.object);
        }
    }

    /// Does the steps, each when its turn comes, until the run ends.
    fn carry_out<C: Story<AdaUnit, Values>, P: Ledger, W: Wait>(
        &self,
        rt: &W,
        object: &Object<AdaUnit, C, P>,
        pass: &mut Pass<Values, C, P>,
    )
        requires { pass.old.pending ≡ None }
    {
        for turn in self.turns.iter() {
            if !self
                .course
                .await_turn(rt, self.caller, self.object, turn.number)
            {
                return;
            }
            let came = act(rt, object, pass, turn.step.deed);
            self.count(turn.step, came);
            self.check_invariant(rt, object);
            self.course.advance(self.caller, turn.next);
        }
    }
}

impl<C: Story<AdaUnit, Values>, P: Ledger> Job<Object<AdaUnit, C, P>, Pass<Values, C, P>>
    for Steps {
    fn run<W: Wait>(
        self,
        rt: &W,
        object: &Object<AdaUnit, C, P>,
        mut pass: Pass<Values, C, P>,
    ) -> Pass<Values, C, P> {
        // A pass of an object that was just opened has no call pending.
        if pass.pending() {
            self.course.give_up();
        } else {
            self.carry_out(rt, object, &mut pass);
        }
        pass
    }
}
