// SPDX-License-Identifier: MIT
//! The names of exceptions in answers.

use po_ada_names::ObjectNames;
use po_program::{
    ASSERTION_ERROR, CONSTRAINT_ERROR, FIRST_DECLARED, MESSAGES, PROGRAM_ERROR, STORAGE_ERROR,
    TASKING_ERROR, TOO_MANY_REQUEUES, TOO_MANY_TURNS,
};
use std::alloc::AllocError;
use std::fmt::Write;

/// The first message that is a position in the table of messages. Those before it, but 0, are a number and 1.
const FIRST_TEXT: u32 = 8_388_608;

/// Returns the number that is the message, if the message is a number.
fn number_in(message: u32) -> Option<u32> {
    if message < FIRST_TEXT {
        message.checked_sub(1)
    } else {
        None
    }
}

/// Returns the name of the exception with this number and no message, if the text doesn't declare it.
fn predefined(exception: u32) -> &'static str {
    match exception {
        CONSTRAINT_ERROR => "Constraint_Error",
        PROGRAM_ERROR => "Program_Error",
        STORAGE_ERROR => "Storage_Error",
        TASKING_ERROR => "Tasking_Error",
        ASSERTION_ERROR => "Assertion_Error",
        TOO_MANY_TURNS => "too many turns",
        TOO_MANY_REQUEUES => "too many requeues",
        _ => "an exception",
    }
}

/// Returns the name of the exception with this number, whatever its message.
fn name_of(names: &ObjectNames, exception: u32) -> &str {
    let position = match exception.checked_sub(FIRST_DECLARED) {
        Some(distance) => distance / MESSAGES,
        None => return predefined(exception - exception % MESSAGES),
    };
    match names.exceptions.get(position as usize) {
        Some(name) => name.as_str(),
        None => "an exception",
    }
}

/// Adds the exception: its message if that is a number, else its name.
pub fn push_exception(
    text: &mut String,
    names: &ObjectNames,
    exception: u32,
) -> Result<(), AllocError> {
    match number_in(exception % MESSAGES) {
        Some(number) => write!(text, "{number}"),
        None => text.push_str(name_of(names, exception)),
    }
}
