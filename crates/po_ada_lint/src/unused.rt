// SPDX-License-Identifier: MIT
//! Hints on what nothing uses, and on variables without a value.

ghost use Rattle.std.specs.Prelude.{◌≡◌, IsTrue, true};

use crate::entities::{Entity, Operation, Origin, Sort};
use crate::tallies::Tally;
use crate::telling::HintList;
use crate::uses::{Facts, How, Use};
use po_ada_tree::tree::Kind;
use std::alloc::AllocError;

/// Whether a variable is read here before it has a value: nothing before gives it one, and no loop leads back to here.
fn is_early(entity: &Entity, tally: &Tally, first: &Use) -> bool
    ensures bare { IsTrue result → entity.now.is_bare ≡ true }
    ensures read { IsTrue result → first.now.how ≡ How.Read }
{
    entity.is_bare && first.how == How::Read && (first.loops == entity.loops || !tally.is_changed)
}

impl<'a> HintList<'a> {
    /// Tells what nothing uses.
    pub fn tell_unused(
        &mut self,
        facts: &Facts<'a>,
        tallies: &Vec<Tally>,
    ) -> Result<(), AllocError> {
        for (entity, tally) in facts.entities.iter().zip(tallies.iter()) {
            match entity.sort {
                Sort::Data => self.tell_data(entity, tally)?,
                Sort::Local => self.tell_local(entity, tally)?,
                Sort::Exception if !tally.is_raised && !facts.has_unread => self.about(
                    entity,
                    "nothing that is read here raises",
                    "raise it, or leave it out (11.1, 11.3)",
                )?,
                Sort::Operation(number) => {
                    if let Some(operation) = facts.operations.get(number) {
                        self.tell_operation(entity, tally, operation)?;
                    }
                }
                _ => {}
            }
        }
        Ok(())
    }

    /// Tells of a variable of the object.
    fn tell_data(&mut self, entity: &Entity, tally: &Tally) -> Result<(), AllocError> {
        if !tally.is_read && !tally.is_mentioned {
            return self.about(entity, "nothing reads", "read it, or leave it out (9.4)");
        }
        if entity.is_bare && tally.is_read && !tally.is_changed {
            return self.about(
                entity,
                "nothing gives a value to",
                "declare it with one (3.3.1)",
            );
        }
        Ok(())
    }

    /// Tells of a variable of an operation.
    fn tell_local(&mut self, entity: &Entity, tally: &Tally) -> Result<(), AllocError> {
        if !tally.is_read && !tally.is_mentioned {
            return self.about(entity, "nothing reads", "read it, or leave it out (3.3.1)");
        }
        match &tally.first {
            Some(first) if is_early(entity, tally, first) => self.tell_early(entity, first.place),
            _ => Ok(()),
        }
    }

    /// Tells that a variable is read at this place before it has a value.
    fn tell_early(&mut self, entity: &Entity, place: usize) -> Result<(), AllocError> {
        let name = self.names.written(entity.name.number);
        let message = format!(in self.alloc;
            "hint: '{name}' is read here before it has a value; declare it with one, or assign first (3.3.1, 13.9.1)"
        )?;
        self.add(place, message)
    }

    /// Tells of a private operation.
    fn tell_operation(
        &mut self,
        entity: &Entity,
        tally: &Tally,
        operation: &Operation<'a>,
    ) -> Result<(), AllocError> {
        if operation.origin != Origin::Private || tally.is_called {
            return Ok(());
        }
        if operation.profile.kind == Kind::Entry {
            return self.about(
                entity,
                "nothing requeues to the private entry",
                "requeue to it, or leave it out (9.5.4)",
            );
        }
        self.about(
            entity,
            "nothing calls the private operation",
            "call it, or leave it out (9.4)",
        )
    }

    /// Tells what is done with a name, and what to do.
    fn about(&mut self, entity: &Entity, what: &str, advice: &str) -> Result<(), AllocError> {
        let name = self.names.written(entity.name.number);
        let message = format!(in self.alloc; "hint: {what} '{name}'; {advice}")?;
        self.add(entity.name.place, message)
    }
}
