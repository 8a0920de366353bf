// SPDX-License-Identifier: MIT
//! The words of the lines that ask for an operation.

ghost use Rattle.std.specs.Prelude.{◌≤◌, length};

use crate::arguments::cells_of;
use crate::fault::{Stop, bad_argument, fault_of};
use crate::operation::Operation;
use crate::text_unit::{Cells, TextUnit};
use crate::values::unchecked_value;
use po_ada_names::{Entry, Form, ObjectNames, Operation as Named, Types};
use po_calls::Deadline;
use po_language::FaultKind;
use po_language::parse::Verb;
use po_language::words::{cut_word, index, is_name, number};
use po_unit::EntryRef;
use std::alloc::Global;

/// What can't follow an operation that has no arguments, or whose arguments are complete.
const END: &str = "the end of the line";

/// What names an entry.
const ENTRY: &str = "an entry, with an index in parentheses if it is a family";

/// What stands for a time.
const TIME: &str = "a time, a number";

/// What stands for a call.
const CALL_NUMBER: &str = "the number of a call";

/// Returns the first word, and the words after it.
fn next_word<'a>(
    alloc: Global,
    expected: &str,
    words: &'a [u8],
) -> Result<(&'a [u8], &'a [u8]), Stop> {
    match cut_word(words) {
        Some(cut) => Ok(cut),
        None => Err(bad_argument(alloc, expected, None)),
    }
}

/// Checks that there are no words.
fn no_word(alloc: Global, words: &[u8]) -> Result<(), Stop> {
    match cut_word(words) {
        Some((word, _)) => Err(bad_argument(alloc, END, Some(word))),
        None => Ok(()),
    }
}

/// Returns the number that the first word writes, and the words after it.
fn next_number<'a>(
    alloc: Global,
    expected: &str,
    words: &'a [u8],
) -> Result<(u64, &'a [u8]), Stop> {
    let (word, rest) = next_word(alloc, expected, words)?;
    match number(word) {
        Some(number) => Ok((number, rest)),
        None => Err(bad_argument(alloc, expected, Some(word))),
    }
}

/// Returns the number that the only word writes.
fn number_alone(alloc: Global, expected: &str, words: &[u8]) -> Result<u64, Stop> {
    let (number, rest) = next_number(alloc, expected, words)?;
    no_word(alloc, rest)?;
    Ok(number)
}

/// Returns the position, if 16 bits hold it; else the greatest number of 16 bits, which no entry and no operation has.
fn number_of(position: usize) -> u16 {
    u16::try_from(position).unwrap_or(u16::MAX)
}

/// Returns how many bytes come before the first parenthesis.
fn name_length(word: &[u8]) -> usize
    ensures { result ≤ length word.now }
{
    word.iter().take_while(|b| **b != b'(').count()
}

/// Returns what is between the parentheses.
fn between(rest: &[u8]) -> Option<&[u8]> {
    match rest {
        [b'(', inner @ .., b')'] => Some(inner),
        _ => None,
    }
}

/// Returns the form in which a script writes the index of this entry's family.
fn form_of_index(types: &Types, entry: Option<&Entry>) -> Form {
    let Some(entry) = entry else {
        return Form::Integer;
    };
    let Some(family) = entry.family else {
        return Form::Integer;
    };
    match types.subtypes.get(usize::from(family.subtype)) {
        Some(subtype) => subtype.form,
        None => Form::Integer,
    }
}

/// Returns the number as an integer of 32 bits, if they hold it.
fn short(value: i128) -> Option<i32> {
    if value < -2147483648 || 2147483647 < value {
        return None;
    }
    Some(value as i32)
}

/// Returns the index that the word writes: a number or, for such a family, a literal. It needn't be in the family's range.
fn index_of(types: &Types, form: Form, word: &[u8]) -> Option<i32> {
    match form {
        Form::Integer => index(word),
        _ => short(unchecked_value(types, form, word)?),
    }
}

/// Returns the position of the entry with this name; the number of entries if there is none.
fn entry_position(names: &ObjectNames, name: &[u8]) -> usize {
    for (position, entry) in names.entries.iter().enumerate() {
        if entry.operation.name.as_bytes() == name {
            return position;
        }
    }
    names.entries.len()
}

/// Returns the position of the operation with this name; the greatest number if there is none, since functions that aren't named
/// come after those that are.
fn operation_position(operations: &[Named], name: &[u8]) -> usize {
    for (position, operation) in operations.iter().enumerate() {
        if operation.name.as_bytes() == name {
            return position;
        }
    }
    usize::MAX
}

/// Returns the entry that the word names: its position, and the index. An entry that isn't known has the position after the
/// last.
fn entry_of(names: &ObjectNames, word: &[u8]) -> Option<(usize, Option<i32>)> {
    let (name, rest) = word.split_at(name_length(word));
    let position = entry_position(names, name);
    let entry = names.entries.get(position);
    if entry.is_none() && !is_name(name) {
        return None;
    }
    if rest.is_empty() {
        return Some((position, None));
    }
    let form = form_of_index(&names.types, entry);
    let index = index_of(&names.types, form, between(rest)?)?;
    Some((position, Some(index)))
}

/// Returns the values that the words give to the operation. If it isn't known, the words mean nothing.
fn values_of(
    alloc: Global,
    types: &Types,
    operation: Option<&Named>,
    words: &[u8],
) -> Result<Cells, Stop> {
    match operation {
        Some(operation) => cells_of(alloc, types, operation, words),
        None => Ok([0; 8]),
    }
}

/// Returns the call that the words ask for: an entry and the values of its parameters.
fn call_of<U: TextUnit>(
    alloc: Global,
    names: &ObjectNames,
    deadline: Deadline,
    words: &[u8],
) -> Result<Operation<U::Value>, Stop> {
    let (word, rest) = next_word(alloc, ENTRY, words)?;
    let Some((position, index)) = entry_of(names, word) else {
        return Err(bad_argument(alloc, ENTRY, Some(word)));
    };
    let operation = match names.entries.get(position) {
        Some(entry) => Some(&entry.operation),
        None => None,
    };
    let cells = values_of(alloc, &names.types, operation, rest)?;
    let entry = EntryRef {
        declaration: number_of(position),
        index,
    };
    Ok(Operation::Call {
        entry,
        value: U::value_of(cells),
        deadline,
    })
}

/// Returns the timed call that the words ask for: a deadline, an entry and the values of its parameters.
fn timed_of<U: TextUnit>(
    alloc: Global,
    names: &ObjectNames,
    words: &[u8],
) -> Result<Operation<U::Value>, Stop> {
    let (time, rest) = next_number(alloc, TIME, words)?;
    call_of::<U>(alloc, names, Deadline::At(time), rest)
}

/// Returns the number of the operation that the first word names, and the values of its parameters. `expected` says what the
/// word should name.
fn named(
    alloc: Global,
    types: &Types,
    operations: &[Named],
    expected: &str,
    words: &[u8],
) -> Result<(u16, Cells), Stop> {
    let (word, rest) = next_word(alloc, expected, words)?;
    let position = operation_position(operations, word);
    let operation = operations.get(position);
    if operation.is_none() && !is_name(word) {
        return Err(bad_argument(alloc, expected, Some(word)));
    }
    let cells = values_of(alloc, types, operation, rest)?;
    Ok((number_of(position), cells))
}

/// Returns the run of a procedure that the words ask for.
fn procedure_of<U: TextUnit>(
    alloc: Global,
    names: &ObjectNames,
    words: &[u8],
) -> Result<Operation<U::Value>, Stop> {
    let operations = names.procedures.as_slice();
    let (op, cells) = named(alloc, &names.types, operations, "a procedure", words)?;
    Ok(Operation::Procedure {
        op,
        value: U::value_of(cells),
    })
}

/// Returns the call of a function that the words ask for.
fn function_of<U: TextUnit>(
    alloc: Global,
    names: &ObjectNames,
    words: &[u8],
) -> Result<Operation<U::Value>, Stop> {
    let operations = names.functions.as_slice();
    let (op, cells) = named(alloc, &names.types, operations, "a function", words)?;
    Ok(Operation::Function {
        op,
        value: U::value_of(cells),
    })
}

/// Returns the operation that the words after a line's first ask for, if the first isn't `unit`.
pub fn operation_of<U: TextUnit>(
    alloc: Global,
    names: &ObjectNames,
    verb: Verb,
    words: &[u8],
) -> Result<Operation<U::Value>, Stop> {
    match verb {
        Verb::Begin => Err(fault_of(alloc, FaultKind::SecondUnit)),
        Verb::Call => call_of::<U>(alloc, names, Deadline::Never, words),
        Verb::Cond => call_of::<U>(alloc, names, Deadline::At(0), words),
        Verb::Timed => timed_of::<U>(alloc, names, words),
        Verb::Proc => procedure_of::<U>(alloc, names, words),
        Verb::Func => function_of::<U>(alloc, names, words),
        Verb::Cancel => Ok(Operation::Cancel(number_alone(alloc, CALL_NUMBER, words)?)),
        Verb::Tick => Ok(Operation::Tick(number_alone(alloc, TIME, words)?)),
        Verb::Final => {
            no_word(alloc, words)?;
            Ok(Operation::Finalize)
        }
        Verb::Show => {
            no_word(alloc, words)?;
            Ok(Operation::Show)
        }
    }
}
