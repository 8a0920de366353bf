// SPDX-License-Identifier: MIT
//! The unit.

ghost use Rattle.std.specs.Prelude.{◌≡◌, IfOk, IfErr, Ok};

use crate::error::SetupError;
use crate::operations;
use crate::values::Values;
use po_program::{Completion, PROGRAM_ERROR, Program};
use po_unit::{Outcome, Unit};
use std::alloc::{AllocError, Global};
use std::marker::Model;
use std::sync::Arc;

/// A protected object that is an Ada text: its program, which it shares with its copies, and its data.
#[derive(Drop)]
pub struct AdaUnit {
    alloc: Global,
    program: Arc<Program, Global>,
    cells: Vec<i128>,
}

impl Model for AdaUnit {
    ghost use Rattle.std.specs.Arc.{arc_value};
    ghost use Rattle.po_ada_unit.specs.Object.{Object, object};
    ghost use Rattle.po_program.specs.contracts.tree.Stmt as stmt;
    ghost use Rattle.std.specs.Coded.{codes};

    ghost Value = { Object };

    ghost coded = { Prim.hlevel (codes, stmt.the_row.coded) };

    ghost view = { λ u. object (arc_value u.program) u.cells.items };
}

impl AdaUnit {
    ghost use Rattle.std.specs.Arc.{arc_value};
    ghost use Rattle.po_ada_unit.specs.Setup.{new_object, IsReason};

    /// Makes the object, whose data have their initial values.
    ///
    /// Fails with `Raised` if these raise an exception, and otherwise only with `OutOfMemory`.
    pub fn new(alloc: Global, program: Arc<Program, Global>) -> Result<AdaUnit, SetupError>
        ensures made { IfOk result (λ u. new_object (arc_value program) ≡ Ok u) }
        ensures raised { IfErr result (λ e. IsReason e (new_object (arc_value program))) }
    {
        let mut cells = Vec::from_elem(alloc, 0i128, usize::from(program.cells))?;
        match operations::set_up(&program, cells.as_mut_slice()) {
            Completion::Normal => Ok(AdaUnit {
                alloc,
                program,
                cells,
            }),
            Completion::Raised(exception) => Err(SetupError::Raised(exception)),
            _ => Err(SetupError::Raised(PROGRAM_ERROR)),
        }
    }

    /// Returns the object's data.
    pub fn cells(&self) -> &[i128]
        ensures { result.now ≡ self.now.cells }
    {
        self.cells.as_slice()
    }
}

impl Unit for AdaUnit {
    type Value = Values;

    ghost use Rattle.po_ada_unit.specs.Object.{ada_meaning, ada_lawful};

    ghost meaning = { ada_meaning };

    fn entries(&self) -> u16 {
        operations::number(self.program.entries.len())
    }

    fn procedures(&self) -> u16 {
        operations::number(self.program.procedures.len())
    }

    fn functions(&self) -> u16 {
        operations::number(self.program.functions.len())
    }

    fn barrier(&self, e: u16, counts: &[u64]) -> Result<bool, u32> {
        operations::barrier(&self.program, self.cells.as_slice(), e, counts)
    }

    fn body(&mut self, e: u16, v: Values, counts: &[u64]) -> Outcome<Values> {
        operations::body(&self.program, self.cells.as_mut_slice(), e, v, counts)
    }

    fn procedure(&mut self, op: u16, v: Values, counts: &[u64]) -> Result<Values, u32> {
        operations::procedure(&self.program, self.cells.as_mut_slice(), op, v, counts)
    }

    fn function(&self, op: u16, v: Values, counts: &[u64]) -> Result<Values, u32> {
        operations::function(&self.program, self.cells.as_slice(), op, v, counts)
    }

    fn rank(_e: u16, v: Values) -> u8 {
        v.requeues
    }

    fn copy(&self) -> Result<AdaUnit, AllocError> {
        Ok(AdaUnit {
            alloc: self.alloc,
            program: Arc::try_clone(&self.program)?,
            cells: Vec::from_slice(self.alloc, self.cells.as_slice())?,
        })
    }

    ghost lawful = { ada_lawful };

    ghost use Rattle.po_ada_unit.specs.Equality.{values_equal};

    ghost equality = { values_equal };
}
