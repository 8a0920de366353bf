// SPDX-License-Identifier: MIT
//! The explanation of a line that is sure to be refused.

use crate::finding::Finding;
use crate::names::names_of;
use crate::wording::{push_nearest, push_position, push_word, push_words};
use po_classic_units::UnitNames;
use po_core::Refusal;
use po_language::span::span_of;
use po_language::words::{cut_word, entry_word};
use po_language::{Operation, Span};
use po_unit::{Decl, EntryRef, Shape};
use std::alloc::{AllocError, Global};
use std::fmt::Write;

/// Returns the number of the word that names the operation, counted from 0. In a timed call it comes after the time.
fn name_word(line: &[u8]) -> usize {
    match cut_word(line) {
        Some((first, _)) if first == b"timed".as_slice() => 2,
        _ => 1,
    }
}

/// Returns the word at which the bytes begin.
fn word_of(line: &[u8]) -> &[u8] {
    match cut_word(line) {
        Some((word, _)) => word,
        None => &[],
    }
}

/// Returns the name in a word that names an entry.
fn name_of(word: &[u8]) -> &[u8] {
    match entry_word(word) {
        Some(parts) => parts.name,
        None => word,
    }
}

/// A kind of operation that a name could have named.
#[derive(Clone, Copy)]
struct Kind {
    /// The word for it in `no such ..`.
    what: &'static str,
    /// The words for one that a script may call.
    one: &'static str,
    /// The words for several of these.
    many: &'static str,
    /// The command that calls them.
    command: &'static str,
}

const ENTRIES: Kind = Kind {
    what: "entry",
    one: "public entry",
    many: "public entries",
    command: "call",
};

const PROCEDURES: Kind = Kind {
    what: "procedure",
    one: "procedure",
    many: "procedures",
    command: "proc",
};

const FUNCTIONS: Kind = Kind {
    what: "function",
    one: "function",
    many: "functions",
    command: "func",
};

/// The names of a unit's operations that scripts may call.
#[derive(Drop)]
struct Operations {
    unit: &'static str,
    entries: Vec<&'static str>,
    procedures: &'static [&'static str],
    functions: &'static [&'static str],
}

/// Returns the names of the entries that may be called from outside (9.4).
fn public_entries(
    alloc: Global,
    names: &UnitNames,
    shape: &Shape,
) -> Result<Vec<&'static str>, AllocError> {
    let mut public = Vec::new(alloc);
    let mut number = 0u16;
    for name in names.entries {
        if shape.decl(number).is_some_and(|declared| declared.public) {
            public.push(*name)?;
        }
        number = number.saturating_add(1);
    }
    Ok(public)
}

/// Returns whether the name is one of these.
fn is_one_of(name: &[u8], names: &[&'static str]) -> bool {
    names.iter().any(|other| other.as_bytes() == name)
}

impl Operations {
    /// Makes those of the unit with these names and this shape.
    fn new(alloc: Global, names: &UnitNames, shape: &Shape) -> Result<Operations, AllocError> {
        Ok(Operations {
            unit: names.unit,
            entries: public_entries(alloc, names, shape)?,
            procedures: names.procedures,
            functions: names.functions,
        })
    }

    /// Returns the kind of operation that the name names, if the unit has one of that name.
    fn kind_of(&self, name: &[u8]) -> Option<Kind> {
        if is_one_of(name, self.entries.as_slice()) {
            return Some(ENTRIES);
        }
        if is_one_of(name, self.procedures) {
            return Some(PROCEDURES);
        }
        if is_one_of(name, self.functions) {
            return Some(FUNCTIONS);
        }
        None
    }

    /// Adds which operations of this kind there are.
    fn push_known(
        &self,
        text: &mut String,
        kind: Kind,
        known: &[&'static str],
    ) -> Result<(), AllocError> {
        let (one, many, unit) = (kind.one, kind.many, self.unit);
        match known.len() {
            0 => write!(text, "; {unit} has no {many}")?,
            1 => write!(text, "; the only {one} of {unit} is ")?,
            _ => write!(text, "; the {many} of {unit} are ")?,
        }
        push_words(text, known)
    }

    /// Adds that the unit has nothing of this kind with that name, and what it has.
    fn push_unknown(
        &self,
        alloc: Global,
        text: &mut String,
        kind: Kind,
        known: &[&'static str],
        name: &[u8],
    ) -> Result<(), AllocError> {
        let what = kind.what;
        write!(text, "no such {what} ")?;
        push_word(text, name)?;
        self.push_known(text, kind, known)?;
        match self.kind_of(name) {
            Some(other) => push_kind(text, name, other),
            None => {
                push_nearest(alloc, text, name, known)?;
                Ok(())
            }
        }
    }

    /// Adds that the entry is private, and which entries aren't.
    fn push_private(&self, text: &mut String, name: &[u8]) -> Result<(), AllocError> {
        text.push_str("private entry ")?;
        push_word(text, name)?;
        text.push_str(", on whose queue only the unit itself puts calls")?;
        self.push_known(text, ENTRIES, self.entries.as_slice())
    }
}

/// Adds which kind of operation the name names, and which command calls it.
fn push_kind(text: &mut String, name: &[u8], kind: Kind) -> Result<(), AllocError> {
    let (one, command) = (kind.one, kind.command);
    text.push_str("; ")?;
    push_word(text, name)?;
    write!(text, " is a {one}, which '{command}' calls")
}

/// Adds what the index of an entry has to be.
fn push_index(
    text: &mut String,
    word: &[u8],
    entry: EntryRef,
    declared: Decl,
) -> Result<(), AllocError> {
    let (low, high) = (declared.low, declared.high);
    text.push_str("bad index: ")?;
    push_word(text, name_of(word))?;
    match entry.index {
        _ if !declared.family => text.push_str(" is a single entry, which has no index"),
        None => write!(
            text,
            " is a family of entries, which takes an index from {low} to {high} in parentheses"
        ),
        Some(_) => write!(text, " takes an index from {low} to {high}"),
    }
}

/// Adds why the call is sure to be refused.
fn push_call(
    alloc: Global,
    text: &mut String,
    word: &[u8],
    entry: EntryRef,
    operations: &Operations,
    shape: &Shape,
) -> Result<(), AllocError> {
    let Some(declared) = shape.decl(entry.declaration) else {
        let known = operations.entries.as_slice();
        return operations.push_unknown(alloc, text, ENTRIES, known, name_of(word));
    };
    if declared.public {
        push_index(text, word, entry, declared)
    } else {
        operations.push_private(text, name_of(word))
    }
}

/// Adds why the operation is sure to be refused.
fn push_operation(
    alloc: Global,
    text: &mut String,
    word: &[u8],
    operation: Operation,
    operations: &Operations,
    shape: &Shape,
) -> Result<(), AllocError> {
    match operation {
        Operation::Call { entry, .. } => push_call(alloc, text, word, entry, operations, shape),
        Operation::Procedure { .. } => {
            operations.push_unknown(alloc, text, PROCEDURES, operations.procedures, word)
        }
        Operation::Function { .. } => {
            operations.push_unknown(alloc, text, FUNCTIONS, operations.functions, word)
        }
        _ => Ok(()),
    }
}

/// Returns the word that names the operation, or nothing if it isn't there.
fn operation_word(line: &[u8], span: Span) -> &[u8] {
    if span.start > line.len() {
        return &[];
    }
    word_of(&line[span.start..])
}

/// Adds the explanation of a finding whose operation is sure to be refused.
pub(crate) fn push_refusal(
    alloc: Global,
    text: &mut String,
    finding: Finding,
    line: &[u8],
    shape: Option<&Shape>,
    operation: Operation,
    refusal: Refusal,
) -> Result<(), AllocError> {
    let span = span_of(line, name_word(line));
    push_position(text, finding.number, span)?;
    let number = refusal.number();
    write!(text, "warning: refused {number}, ")?;
    let (Some(names), Some(shape)) = (names_of(finding.known), shape) else {
        return write!(text, "{refusal}");
    };
    let operations = Operations::new(alloc, &names, shape)?;
    let word = operation_word(line, span);
    push_operation(alloc, text, word, operation, &operations, shape)
}
