// SPDX-License-Identifier: MIT
//! Writes how a command is answered, as scripts do.

use crate::news::Event;
use po_ada_language::{Operation, push_cells, push_value};
use po_ada_names::{ObjectNames, Operation as Named};
use po_ada_script::push_exception;
use po_ada_unit::Values;
use po_core::{End, Refusal};
use po_scene::{Action, Command, Scene};
use std::alloc::AllocError;
use std::fmt::Write;

/// The answer to a command that brings no value back.
pub(crate) const DONE: &str = "done";

/// Returns what the text says of this operation, if it has parameters or a result.
fn named<'a>(names: &'a ObjectNames, operation: &Operation<Values>) -> Option<&'a Named> {
    match operation {
        Operation::Call { entry, .. } => {
            let entry = names.entries.get(usize::from(entry.declaration))?;
            Some(&entry.operation)
        }
        Operation::Procedure { op, .. } => names.procedures.get(usize::from(*op)),
        Operation::Function { op, .. } => names.functions.get(usize::from(*op)),
        _ => None,
    }
}

/// Adds the values that come back: a function's result, or the parameters that aren't of mode `in`.
fn push_values(
    text: &mut String,
    names: &ObjectNames,
    operation: &Named,
    values: Values,
) -> Result<(), AllocError> {
    match operation.result {
        Some(subtype) => {
            text.push_str("value ")?;
            push_value(text, &names.types, subtype, values.cells[0])
        }
        None => {
            text.push_str(DONE)?;
            push_cells(text, &names.types, operation, &values.cells)
        }
    }
}

/// Adds that the operation was completed, with the values that come back.
fn push_completed(
    text: &mut String,
    names: &ObjectNames,
    operation: &Operation<Values>,
    values: Values,
) -> Result<(), AllocError> {
    match named(names, operation) {
        Some(named) => push_values(text, names, named, values),
        None => text.push_str(DONE),
    }
}

/// Adds that the operation raised the exception.
fn push_raised(text: &mut String, names: &ObjectNames, exception: u32) -> Result<(), AllocError> {
    text.push_str("raised ")?;
    push_exception(text, names, exception)
}

/// Adds that the operation was refused: by the number that scripts have for it.
fn push_refused(text: &mut String, refusal: Refusal) -> Result<(), AllocError> {
    let number = refusal.number();
    write!(text, "refused {number}")
}

/// Adds the answer to an operation on an object with these names.
pub(crate) fn push_answer(
    text: &mut String,
    names: &ObjectNames,
    operation: &Operation<Values>,
    event: Event,
) -> Result<(), AllocError> {
    match event {
        Event::Ended(End::Completed(values)) | Event::Replied(Ok(values)) => push_completed(
            text, names, operation, values,
        ),
        Event::Ended(End::Raised(exception))
        | Event::Failed(exception)
        | Event::Replied(Err(exception)) => push_raised(text, names, exception),
        Event::Ended(End::Cancelled) => text.push_str("cancelled"),
        Event::Ended(End::ProgramError) => text.push_str("program_error"),
        Event::Refused(refusal) => push_refused(text, refusal),
    }
}

/// Adds the answer to a command of the scene.
pub(crate) fn push_answer_to(
    text: &mut String,
    scene: &Scene,
    command: &Command,
    event: Event,
) -> Result<(), AllocError> {
    if let Action::Operate { object, operation } = &command.action
        && let Some(named) = scene.objects.get(usize::from(*object))
    {
        push_answer(text, &named.names, operation, event)?;
    }
    Ok(())
}
