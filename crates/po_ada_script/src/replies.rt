// SPDX-License-Identifier: MIT
//! Adds the lines that answer commands to a reply.

use crate::exceptions::push_exception;
use po_ada_language::{Cells, TextUnit, push_cells, push_formed, push_value};
use po_ada_names::{Entry, Form, ObjectNames, Operation};
use po_core::{End, Ended};
use po_unit::EntryRef;
use std::alloc::AllocError;
use std::fmt::Write;

/// Adds the line of an exception that a procedure, a function or the precondition of a call propagates.
pub(crate) fn push_raised(
    reply: &mut String,
    names: &ObjectNames,
    exception: u32,
) -> Result<(), AllocError> {
    reply.push_str("raised ")?;
    push_exception(reply, names, exception)?;
    reply.push_str("\n")
}

/// Adds `done`, the values that come back from the operation, and the end of the line.
fn push_done(
    reply: &mut String,
    names: &ObjectNames,
    operation: Option<&Operation>,
    cells: &Cells,
) -> Result<(), AllocError> {
    reply.push_str("done")?;
    if let Some(operation) = operation {
        push_cells(reply, &names.types, operation, cells)?;
    }
    reply.push_str("\n")
}

/// Adds the line of a procedure's reply.
pub(crate) fn push_reply<U: TextUnit>(
    reply: &mut String,
    names: &ObjectNames,
    op: u16,
    replied: Result<U::Value, u32>,
) -> Result<(), AllocError> {
    match replied {
        Ok(value) => {
            let operation = names.procedures.get(usize::from(op));
            push_done(reply, names, operation, &U::cells_of(value))
        }
        Err(exception) => push_raised(reply, names, exception),
    }
}

/// Adds the line of a function's result.
fn push_result(
    reply: &mut String,
    names: &ObjectNames,
    function: Option<&Operation>,
    cells: &Cells,
) -> Result<(), AllocError> {
    reply.push_str("value ")?;
    if let Some(function) = function
        && let Some(subtype) = function.result
    {
        push_value(reply, &names.types, subtype, cells[0])?;
    }
    reply.push_str("\n")
}

/// Adds the line of a function's reply.
pub(crate) fn push_value_line<U: TextUnit>(
    reply: &mut String,
    names: &ObjectNames,
    op: u16,
    replied: Result<U::Value, u32>,
) -> Result<(), AllocError> {
    match replied {
        Ok(value) => {
            let function = names.functions.get(usize::from(op));
            push_result(reply, names, function, &U::cells_of(value))
        }
        Err(exception) => push_raised(reply, names, exception),
    }
}

/// Returns the operation of the entry with this declaration.
fn operation_at(names: &ObjectNames, declaration: u16) -> Option<&Operation> {
    Some(&names.entries.get(usize::from(declaration))?.operation)
}

/// Adds the line of a call that has ended. Its owner is the number of its entry's declaration.
fn push_end<U: TextUnit>(
    reply: &mut String,
    names: &ObjectNames,
    call: &Ended<U::Value>,
) -> Result<(), AllocError> {
    let n = call.number;
    write!(reply, "{n} ")?;
    match call.end {
        End::Completed(value) => {
            let operation = operation_at(names, call.owner);
            push_done(reply, names, operation, &U::cells_of(value))
        }
        End::Raised(exception) => push_raised(reply, names, exception),
        End::Cancelled => reply.push_str("cancelled\n"),
        End::ProgramError => reply.push_str("program_error\n"),
    }
}

/// Adds a line for each of the calls.
pub(crate) fn push_ended<U: TextUnit>(
    reply: &mut String,
    names: &ObjectNames,
    calls: &[Ended<U::Value>],
) -> Result<(), AllocError> {
    for call in calls {
        push_end::<U>(reply, names, call)?;
    }
    Ok(())
}

/// Returns the form in which a script writes the index of this entry's family.
fn form_of_index(names: &ObjectNames, entry: &Entry) -> Option<Form> {
    let family = entry.family?;
    Some(names.types.subtypes.get(usize::from(family.subtype))?.form)
}

/// Adds the name of the entry, with the index of a family's member in parentheses.
fn push_entry(
    reply: &mut String,
    names: &ObjectNames,
    reference: EntryRef,
) -> Result<(), AllocError> {
    let Some(entry) = names.entries.get(usize::from(reference.declaration)) else {
        return Ok(());
    };
    reply.push_str(entry.operation.name.as_str())?;
    let Some(index) = reference.index else {
        return Ok(());
    };
    let form = form_of_index(names, entry).unwrap_or(Form::Integer);
    reply.push_str("(")?;
    push_formed(reply, &names.types, form, i128::from(index))?;
    reply.push_str(")")
}

/// Adds the line of an entry on which `count` calls are queued.
pub(crate) fn push_count(
    reply: &mut String,
    names: &ObjectNames,
    reference: EntryRef,
    count: u64,
) -> Result<(), AllocError> {
    push_entry(reply, names, reference)?;
    write!(reply, " {count}\n")
}
