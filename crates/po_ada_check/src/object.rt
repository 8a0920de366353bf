// SPDX-License-Identifier: MIT
//! The object of a script that is checked.

use crate::warning::push_warning;
use po_ada_language::{ScriptedObject, Stop, operation_of};
use po_ada_names::ObjectNames;
use po_ada_unit::AdaUnit;
use po_language::parse::Verb;
use std::alloc::Global;

/// What a check knows of an object: its names. No operation changes it.
#[derive(Debug, Drop)]
pub struct CheckedObject {
    names: ObjectNames,
}

impl CheckedObject {
    /// Makes the object with these names.
    pub fn new(names: ObjectNames) -> CheckedObject {
        CheckedObject { names }
    }
}

impl ScriptedObject for CheckedObject {
    fn carry_out(
        &mut self,
        alloc: Global,
        verb: Verb,
        words: &[u8],
        reply: &mut String,
    ) -> Result<(), Stop> {
        reply.clear();
        let operation = operation_of::<AdaUnit>(alloc, &self.names, verb, words)?;
        push_warning(reply, &self.names, &operation, verb, words)?;
        Ok(())
    }
}
