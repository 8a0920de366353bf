// SPDX-License-Identifier: MIT
//! The values that a line gives to the parameters of an operation, and those that come back.

use crate::fault::{Stop, bad_argument};
use crate::text_unit::{CELLS, Cells};
use crate::values::{push_value, value_before, value_of, wanted_value};
use po_ada_names::{Mode, Operation, Parameter, Subtype, Types};
use po_language::words::{cut_word, number};
use std::alloc::{AllocError, Global};

/// What follows the arguments of a line.
const END: &str = "the end of the line";

/// Returns the value of the parameter, which the words begin with, and the words after it.
fn given<'a>(
    alloc: Global,
    types: &Types,
    parameter: &Parameter,
    subtype: &Subtype,
    words: &'a [u8],
) -> Result<(i128, &'a [u8]), Stop> {
    let cut = cut_word(words);
    if let Some((word, rest)) = cut
        && let Some(value) = value_of(types, subtype, word)
    {
        return Ok((value, rest));
    }
    if cut.is_none()
        && let Some(value) = parameter.default
    {
        return Ok((value, words));
    }
    let wanted = wanted_value(alloc, types, parameter.name.as_str(), subtype)?;
    let word = match cut {
        Some((word, _)) => Some(word),
        None => None,
    };
    Err(bad_argument(alloc, wanted.as_str(), word))
}

/// Returns the value that the parameter has at the call, and the words after those that say so.
fn argument<'a>(
    alloc: Global,
    types: &Types,
    parameter: &Parameter,
    words: &'a [u8],
) -> Result<(i128, &'a [u8]), Stop> {
    let Some(subtype) = types.subtypes.get(usize::from(parameter.subtype)) else {
        return Err(bad_argument(alloc, parameter.name.as_str(), None));
    };
    match parameter.mode {
        Mode::Out => Ok((value_before(subtype), words)),
        Mode::In | Mode::InOut => given(alloc, types, parameter, subtype, words),
    }
}

/// Returns whether the operation takes a value from its caller.
fn takes_value(operation: &Operation) -> bool {
    operation
        .parameters
        .iter()
        .any(|parameter| parameter.mode != Mode::Out)
}

/// Checks that no words are left. A number that means nothing may stand there if the operation takes no value.
fn check_end(alloc: Global, operation: &Operation, words: &[u8]) -> Result<(), Stop> {
    let Some((word, rest)) = cut_word(words) else {
        return Ok(());
    };
    if takes_value(operation) || number(word).is_none() {
        return Err(bad_argument(alloc, END, Some(word)));
    }
    match cut_word(rest) {
        Some((word, _)) => Err(bad_argument(alloc, END, Some(word))),
        None => Ok(()),
    }
}

/// Returns the values of the operation's parameters at a call with these words: one for each parameter that isn't of mode `out`,
/// in order.
pub(crate) fn cells_of(
    alloc: Global,
    types: &Types,
    operation: &Operation,
    words: &[u8],
) -> Result<Cells, Stop> {
    let mut cells = [0; CELLS];
    let mut rest = words;
    for position in 0..CELLS {
        let Some(parameter) = operation.parameters.get(position) else {
            break;
        };
        let (value, others) = argument(alloc, types, parameter, rest)?;
        cells[position] = value;
        rest = others;
    }
    check_end(alloc, operation, rest)?;
    Ok(cells)
}

/// Adds the values of the parameters that aren't of mode `in`, in order.
pub fn push_cells(
    text: &mut String,
    types: &Types,
    operation: &Operation,
    cells: &Cells,
) -> Result<(), AllocError> {
    for (parameter, value) in operation.parameters.iter().zip(cells.iter()) {
        if parameter.mode != Mode::In {
            text.push_str(" ")?;
            push_value(text, types, parameter.subtype, *value)?;
        }
    }
    Ok(())
}
