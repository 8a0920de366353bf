// SPDX-License-Identifier: MIT
//! The answers of a unit's operations, as text. Clauses say what each unit does; here its meaning is compared with values
//! worked out by hand, and a test's proof doesn't depend on it.

use po_unit::{Outcome, Unit};
use std::fmt::Write;
use std::process::Abort;
use std::test::Fail;

/// An operation on a unit.
#[derive(Clone, Copy)]
pub(crate) enum Step {
    /// Sets the counts that the following operations are given.
    Counts(&'static [u64]),
    Barrier(u16),
    Body(u16, u64),
    /// Runs procedure 0.
    Procedure(u64),
    /// Calls function 0.
    Function,
    /// Asks for the rank of a call on this entry.
    Rank(u16),
}

/// Carries out the steps on a unit, and compares what they answered.
pub(crate) fn compare<R: Abort + AllocGlobal, U: Unit<Value = u64>>(
    rt: &R,
    unit: &mut U,
    steps: &[Step],
    text: &str,
) -> Result<(), Fail> {
    let mut found = String::new(rt.alloc());
    let mut counts: &[u64] = &[];
    for step in steps {
        if let Step::Counts(others) = *step {
            counts = others;
        } else {
            operate(unit, *step, counts, &mut found)?;
        }
    }
    assert_eq!(rt; found.as_str(), text);
    Ok(())
}

/// Carries out an operation of the unit, with a count for each entry.
fn operate<U: Unit<Value = u64>>(
    unit: &mut U,
    step: Step,
    counts: &[u64],
    text: &mut String,
) -> Result<(), Fail> {
    if counts.len() != usize::from(unit.entries()) {
        write!(text, "other counts; ")?;
        return Ok(());
    }
    match step {
        Step::Barrier(e) if e < unit.entries() => barrier(unit.barrier(e, counts), text),
        Step::Body(e, value) if e < unit.entries() => outcome(unit.body(e, value, counts), text),
        Step::Procedure(value) if unit.procedures() > 0 => {
            reply(unit.procedure(0, value, counts), text)
        }
        Step::Function if unit.functions() > 0 => reply(unit.function(0, 99, counts), text),
        Step::Rank(e) => {
            write!(text, "rank {}; ", U::rank(e, 99))?;
            Ok(())
        }
        _ => {
            write!(text, "nothing; ")?;
            Ok(())
        }
    }
}

/// Adds whether an entry is open.
fn barrier(open: Result<bool, u32>, text: &mut String) -> Result<(), Fail> {
    match open {
        Ok(true) => write!(text, "open; ")?,
        Ok(false) => write!(text, "closed; ")?,
        Err(exception) => write!(text, "fault {exception}; ")?,
    }
    Ok(())
}

/// Adds how a body ended.
fn outcome(outcome: Outcome<u64>, text: &mut String) -> Result<(), Fail> {
    match outcome {
        Outcome::Complete(value) => write!(text, "done {value}; ")?,
        Outcome::Raise(exception) => write!(text, "raised {exception}; ")?,
        Outcome::Requeue {
            target,
            with_abort: true,
            value,
        } => write!(text, "{value} on {target} with abort; ")?,
        Outcome::Requeue { target, value, .. } => write!(text, "{value} on {target}; ")?,
    }
    Ok(())
}

/// Adds the reply of a procedure or a function.
fn reply(reply: Result<u64, u32>, text: &mut String) -> Result<(), Fail> {
    match reply {
        Ok(value) => write!(text, "value {value}; ")?,
        Err(exception) => write!(text, "raised {exception}; ")?,
    }
    Ok(())
}
