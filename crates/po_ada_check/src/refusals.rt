// SPDX-License-Identifier: MIT
//! Which operations are sure to be refused, whatever was carried out before them.

use po_ada_language::Operation;
use po_ada_names::{Entry, ObjectNames};
use po_core::Refusal;
use po_unit::EntryRef;

/// Returns whether the index is one of the family's, or there is neither an index nor a family (9.5.2).
fn has_index(entry: &Entry, index: Option<i32>) -> bool {
    match (entry.family, index) {
        (None, None) => true,
        (Some(family), Some(index)) => family.low <= index && index <= family.high,
        _ => false,
    }
}

/// Returns the refusal of each call of this entry, if there is one.
fn entry_refusal(names: &ObjectNames, reference: EntryRef) -> Option<Refusal> {
    let Some(entry) = names.entries.get(usize::from(reference.declaration)) else {
        return Some(Refusal::NoSuchEntry);
    };
    if !entry.public {
        return Some(Refusal::PrivateEntry);
    }
    if has_index(entry, reference.index) {
        None
    } else {
        Some(Refusal::BadIndex)
    }
}

/// Returns the refusal of an operation with this number, if there are only this many.
fn operation_refusal(number: u16, count: usize) -> Option<Refusal> {
    if usize::from(number) < count {
        None
    } else {
        Some(Refusal::NoSuchOperation)
    }
}

/// Returns the refusal that this operation is sure to meet, if there is one.
pub fn sure_refusal<V>(names: &ObjectNames, operation: &Operation<V>) -> Option<Refusal> {
    match operation {
        Operation::Call { entry, .. } => entry_refusal(names, *entry),
        Operation::Procedure { op, .. } => operation_refusal(*op, names.procedures.len()),
        Operation::Function { op, .. } => operation_refusal(*op, names.functions.len()),
        _ => None,
    }
}
