// SPDX-License-Identifier: MIT
//! The preconditions of entries, which are asked before a call is issued (6.1.1).

ghost use Rattle.std.specs.Prelude.{◌≡◌, ◌↔◌, IsTrue, None, Some};
ghost use Rattle.po_core.specs.Refusals.{entry_refusal};
ghost use Rattle.po_ada_script.specs.Preconditions.{asked as answer_of, call_failure as failure_of_call, failed_precondition as failure_by, failure_of, precondition_of};

use po_ada_language::{Operation, TextUnit};
use po_ada_names::ObjectNames;
use po_core::{Core, Record};
use po_program::ASSERTION_ERROR;
use po_unit::{EntryRef, Unit};

/// Returns the number of the function that is the precondition of the entry with this declaration, if it has one.
fn precondition(names: &ObjectNames, declaration: u16) -> Option<u16>
    ensures { result ≡ precondition_of names.now.entries.items declaration }
{
    match names.entries.get(usize::from(declaration)) {
        Some(entry) => entry.precondition,
        None => None,
    }
}

/// Returns whether the entry can be called from outside: it is declared in the visible part, and has this index.
fn is_callable<U: Unit, R: Record<U>>(core: &Core<U, R>, entry: EntryRef) -> bool
    ensures { IsTrue result ↔ (entry_refusal core.now.object.setup.shape entry None ≡ None) }
{
    match core.shape().decl(entry.declaration) {
        Some(declaration) => declaration.public && core.shape().flat(entry).is_ok(),
        None => false,
    }
}

/// Returns the exception that a precondition with this reply raises, if it doesn't hold.
fn failure<U: TextUnit>(replied: Result<U::Value, u32>) -> Option<u32>
    ensures { result ≡ failure_of U.parameters replied }
{
    match replied {
        Ok(value) => {
            if U::cells_of(value)[0] == 0 {
                Some(ASSERTION_ERROR)
            } else {
                None
            }
        }
        Err(exception) => Some(exception),
    }
}

/// Returns the exception that the function with this number, a precondition, raises for a call with this value.
fn asked<U: TextUnit, R: Record<U>>(core: &Core<U, R>, op: u16, value: U::Value) -> Option<u32>
    ensures { result ≡ answer_of U.meaning U.parameters core.now.object value (Some op) }
{
    match core.function(op, value) {
        Ok(replied) => failure::<U>(replied),
        Err(_) => None,
    }
}

/// Returns the exception that the precondition of an entry raises for a call with this value. A call that is refused isn't asked.
fn call_failure<U: TextUnit, R: Record<U>>(
    core: &Core<U, R>,
    names: &ObjectNames,
    entry: EntryRef,
    value: U::Value,
) -> Option<u32>
    ensures { result ≡ failure_of_call U.meaning U.parameters names.now.entries.items core.now.object entry value }
{
    if !is_callable(core, entry) {
        return None;
    }
    match precondition(names, entry.declaration) {
        Some(op) => asked(core, op, value),
        None => None,
    }
}

/// Returns the exception that the precondition of a call raises, if the operation is a call. Nothing changes.
pub fn failed_precondition<U: TextUnit, R: Record<U>>(
    core: &Core<U, R>,
    names: &ObjectNames,
    operation: &Operation<U::Value>,
) -> Option<u32>
    ensures { result ≡ failure_by U.meaning U.parameters names.now.entries.items core.now.object operation.now }
{
    match operation {
        Operation::Call { entry, value, .. } => call_failure(core, names, *entry, *value),
        _ => None,
    }
}
