// SPDX-License-Identifier: MIT
//! Reads an Ada text whole, and gives hints on it.

use crate::file::TextFile;
use po_ada_language::{Stop, value_before};
use po_ada_names::{Discriminant, Heading, Types};
use std::alloc::{AllocFailed, Global};

/// Returns a value that the discriminant can have: its default, if it has one.
fn value_of(types: &Types, discriminant: &Discriminant) -> i128 {
    if let Some(value) = discriminant.default {
        return value;
    }
    match types.subtypes.get(usize::from(discriminant.subtype)) {
        Some(subtype) => value_before(subtype),
        None => 0,
    }
}

/// Returns values that the discriminants can have.
fn values_of(alloc: Global, heading: &Heading) -> Result<Vec<i128>, AllocFailed<i128>> {
    let mut values = Vec::new(alloc);
    for discriminant in heading.discriminants.iter() {
        values.push(value_of(&heading.types, discriminant))?;
    }
    Ok(values)
}

/// Reads one of the file's protected units whole, and adds the lines of its hints. Fails if it has a fault.
fn push_hints(alloc: Global, file: &TextFile, unit: &str, lines: &mut String) -> Result<(), Stop> {
    let text = file.text(alloc, Some(unit))?;
    let values = values_of(alloc, text.heading())?;
    file.program(alloc, &text, values.as_slice())?;
    let hints = text.hints(alloc)?;
    let told = file.lines_of(alloc, hints.as_slice())?;
    lines.push_str(told.as_str())?;
    Ok(())
}

/// Reads all protected units of a file whole, and returns the lines of the hints on them. Fails if one has a fault.
pub fn hints_on(alloc: Global, file: &TextFile) -> Result<String, Stop> {
    let mut lines = String::new(alloc);
    for unit in file.units(alloc)?.iter() {
        push_hints(alloc, file, unit.as_str(), &mut lines)?;
    }
    Ok(lines)
}
