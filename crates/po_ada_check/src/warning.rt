// SPDX-License-Identifier: MIT
//! The text of a warning: why an operation is sure to be refused, and what the object has instead.

use crate::refusals::sure_refusal;
use po_ada_language::{Operation, push_formed, push_word};
use po_ada_names::{Entry, Family, Form, ObjectNames, Operation as Named};
use po_core::Refusal;
use po_language::parse::Verb;
use po_language::words::cut_word;
use po_unit::EntryRef;
use std::alloc::AllocError;
use std::fmt::Write;

/// Returns the first word, or nothing if there is none.
fn first_of(words: &[u8]) -> &[u8] {
    match cut_word(words) {
        Some((word, _)) => word,
        None => &[],
    }
}

/// Returns the word that names the operation. In a timed call it comes after the time.
fn name_word(verb: Verb, words: &[u8]) -> &[u8] {
    if verb != Verb::Timed {
        return first_of(words);
    }
    match cut_word(words) {
        Some((_, rest)) => first_of(rest),
        None => &[],
    }
}

/// Returns the name in a word that names an entry: what comes before the first parenthesis.
fn entry_name(word: &[u8]) -> &[u8] {
    let length = word.iter().take_while(|b| **b != b'(').count();
    word.get(..length).unwrap_or(word)
}

/// Adds a name to a list of what the unit has of this kind, whose plural is `many`. The first name comes after the list's head.
fn push_name(
    text: &mut String,
    is_first: bool,
    unit: &str,
    many: &str,
    name: &str,
) -> Result<(), AllocError> {
    if is_first {
        write!(text, "; the {many} of {unit}: ")?;
    } else {
        text.push_str(", ")?;
    }
    text.push_str(name)
}

/// Adds that the unit has nothing of this kind, if the list is empty.
fn push_none(text: &mut String, is_empty: bool, unit: &str, many: &str) -> Result<(), AllocError> {
    if is_empty {
        write!(text, "; {unit} has no {many}")
    } else {
        Ok(())
    }
}

/// Adds which entries can be called from outside (9.4).
fn push_entries(text: &mut String, names: &ObjectNames) -> Result<(), AllocError> {
    let unit = names.unit.as_str();
    let mut is_first = true;
    for entry in names.entries.iter() {
        if entry.public {
            let name = entry.operation.name.as_str();
            push_name(text, is_first, unit, "entries", name)?;
            is_first = false;
        }
    }
    push_none(text, is_first, unit, "entries")
}

/// Adds which operations of this kind there are.
fn push_operations(
    text: &mut String,
    unit: &str,
    many: &str,
    operations: &[Named],
) -> Result<(), AllocError> {
    let mut is_first = true;
    for operation in operations {
        push_name(text, is_first, unit, many, operation.name.as_str())?;
        is_first = false;
    }
    push_none(text, is_first, unit, many)
}

/// Adds that the word names no operation of this kind.
fn push_unknown(text: &mut String, one: &str, word: &[u8]) -> Result<(), AllocError> {
    write!(text, "no such {one} ")?;
    push_word(text, word)
}

/// Returns the form in which a script writes the index of the family.
fn form_of_index(names: &ObjectNames, family: Family) -> Form {
    match names.types.subtypes.get(usize::from(family.subtype)) {
        Some(subtype) => subtype.form,
        None => Form::Integer,
    }
}

/// Adds which indexes the family has.
fn push_range(text: &mut String, names: &ObjectNames, family: Family) -> Result<(), AllocError> {
    let form = form_of_index(names, family);
    text.push_str(" takes an index in parentheses, from ")?;
    push_formed(text, &names.types, form, i128::from(family.low))?;
    text.push_str(" to ")?;
    push_formed(text, &names.types, form, i128::from(family.high))
}

/// Adds what the index of the entry has to be.
fn push_index(text: &mut String, names: &ObjectNames, entry: &Entry) -> Result<(), AllocError> {
    text.push_str("bad index: ")?;
    text.push_str(entry.operation.name.as_str())?;
    match entry.family {
        Some(family) => push_range(text, names, family),
        None => text.push_str(" is a single entry, which has no index"),
    }
}

/// Adds that only a requeue can name the entry.
fn push_private(text: &mut String, names: &ObjectNames, entry: &Entry) -> Result<(), AllocError> {
    text.push_str(entry.operation.name.as_str())?;
    text.push_str(" is private: only a requeue can name it")?;
    push_entries(text, names)
}

/// Adds why each call of the entry is refused.
fn push_call(
    text: &mut String,
    names: &ObjectNames,
    reference: EntryRef,
    word: &[u8],
) -> Result<(), AllocError> {
    match names.entries.get(usize::from(reference.declaration)) {
        None => {
            push_unknown(text, "entry", entry_name(word))?;
            push_entries(text, names)
        }
        Some(entry) if entry.public => push_index(text, names, entry),
        Some(entry) => push_private(text, names, entry),
    }
}

/// Adds why the operation is refused.
fn push_reason<V>(
    text: &mut String,
    names: &ObjectNames,
    operation: &Operation<V>,
    word: &[u8],
) -> Result<(), AllocError> {
    let unit = names.unit.as_str();
    match operation {
        Operation::Call { entry, .. } => push_call(text, names, *entry, word),
        Operation::Procedure { .. } => {
            push_unknown(text, "procedure", word)?;
            push_operations(text, unit, "procedures", names.procedures.as_slice())
        }
        _ => {
            push_unknown(text, "function", word)?;
            push_operations(text, unit, "functions", names.functions.as_slice())
        }
    }
}

/// Adds the number of the refusal.
fn push_refusal(text: &mut String, refusal: Refusal) -> Result<(), AllocError> {
    let number = refusal.number();
    write!(text, "warning: refused {number}, ")
}

/// Adds a warning, if the operation is sure to be refused: the refusal, and the reason.
pub fn push_warning<V>(
    text: &mut String,
    names: &ObjectNames,
    operation: &Operation<V>,
    verb: Verb,
    words: &[u8],
) -> Result<(), AllocError> {
    let Some(refusal) = sure_refusal(names, operation) else {
        return Ok(());
    };
    push_refusal(text, refusal)?;
    push_reason(text, names, operation, name_word(verb, words))
}
