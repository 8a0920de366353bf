// SPDX-License-Identifier: MIT
//! What a text has outside of the protected unit. A declaration there that isn't in the subset is no fault unless the unit uses it.

use crate::making::Making;
use po_ada_tree::Stop;
use po_ada_tree::tree::{Body, Content, Declaration, Variables};
use po_ada_types::Meaning;

impl<'a> Making<'a> {
    /// A declaration outside of the protected unit. If it is faulty, the unit may not use its names.
    pub fn outer_declared(&mut self, declaration: &'a Declaration) -> Result<(), Stop> {
        let before = self.lowering.known.told();
        self.declared(declaration, false)?;
        match declaration {
            Declaration::Type(name, _) | Declaration::Subtype(name, _) => self
                .lowering
                .known
                .excuse(before, &[*name]),
            Declaration::Variables(variables) => self
                .lowering
                .known
                .excuse(before, variables.names.as_slice()),
            Declaration::Numbers(names, _) | Declaration::Exceptions(names) => self
                .lowering
                .known
                .excuse(before, names.as_slice()),
            Declaration::Pragma(_) => Ok(()),
        }
    }

    /// Variables outside of the object: no operation reads or changes them here.
    pub fn outer_variables(&mut self, variables: &'a Variables) -> Result<(), Stop> {
        for name in variables.names.iter() {
            self.lowering.known.define(*name, Meaning::Unread(None))?;
        }
        Ok(())
    }

    /// An operation outside of the protected unit. If it is faulty, the unit may not call it.
    pub fn outer_operation(&mut self, body: &'a Body) -> Result<(), Stop> {
        let before = self.lowering.known.told();
        let done = self.note_outer(body);
        self.keep_on(done)?;
        self.lowering.known.excuse(before, &[body.profile.name])
    }

    /// Whether the operation stands outside of the protected unit, and has no body so far.
    fn lacks_body(&self, operation: usize) -> bool {
        match self.lowering.operations.get(operation) {
            Some(declared) => declared.outside && declared.body.is_none(),
            None => false,
        }
    }

    /// A body after that of the protected unit, if it is that of an operation that was declared before.
    pub fn later_body(&mut self, body: &'a Body) -> Result<(), Stop> {
        match self.lowering.known.look_up(body.profile.name.number) {
            Some(Meaning::Operation(number)) if self.lacks_body(number) => {
                self.outer_operation(body)
            }
            _ => Ok(()),
        }
    }

    /// Declares an operation outside of the protected unit, unless that was done, and notes its body.
    fn note_outer(&mut self, body: &'a Body) -> Result<(), Stop> {
        let number = match self.lowering.known.look_up(body.profile.name.number) {
            Some(Meaning::Operation(number)) if self.lowering.is_outside(number) => {
                let admitted = self.admit_body_aspects(&body.profile);
                self.keep_on(admitted)?;
                number
            }
            _ => self.declare(&body.profile, false, true)?,
        };
        if matches!(body.content, Content::Declared) {
            return Ok(());
        }
        let Some(declared) = self.lowering.operations.get_mut(number) else {
            return Ok(());
        };
        if declared.body.is_some() {
            return Err(self.two_of_one_name(body.profile.name));
        }
        declared.body = Some(body);
        Ok(())
    }
}
