// SPDX-License-Identifier: MIT
//! The object of a script, of one unit.

ghost use Rattle.std.specs.Prelude.{◌≡◌, ◌≢◌, [], IfOk, OnOk, OnErr, IsOk, Err, string_bytes};
ghost use Rattle.po_unit.specs.Numbering.{entry_count};
ghost use Rattle.po_unit.specs.declared.error.ShapeError.{ShapeError};
ghost use Rattle.po_core.specs.View.{opening_view};
ghost use Rattle.po_script.specs.Tickets.{Knows, AreCollected};
ghost use Rattle.po_script.specs.Units.{setup_of};

use crate::operate::carry_out;
use crate::tickets::Tickets;
use po_classic_units::ScriptUnit;
use po_core::{Core, MakeError, Start};
use po_language::{Beginning, Operation};
use po_unit::{Shape, ShapeError, Unit};
use std::alloc::{AllocError, Global};

/// The object that a `unit` line made: a core, and the tickets of its uncollected calls. The calls that the latest command
/// ended are already collected.
#[derive(Drop)]
pub struct UnitObject<U: Unit<Value = u64>> {
    core: Core<U>,
    tickets: Tickets,
    ghost knows: { Knows core.tickets tickets },
    ghost collected: { AreCollected core },
}

/// Makes the core of an object with this unit and shape, whose calls are numbered from 1.
fn make<U: Unit + Drop>(
    alloc: Global,
    shape: Result<Shape, ShapeError>,
    unit: U,
    beginning: Beginning,
) -> Result<Core<U>, AllocError>
    requires counted { IfOk shape (λ s. entry_count s ≡ U.meaning.entries unit) }
    requires within_limits { shape ≢ Err ShapeError.TooManyEntries }
    ensures core { IfOk result (λ core. IfOk shape (λ s. core.object ≡ opening_view (setup_of unit s beginning.order beginning.max_queue))) }
    ensures shape { OnOk result (IsOk shape) }
    ensures tickets { IfOk result (λ core. core.tickets ≡ []) }
    ensures collected { IfOk result (λ core. AreCollected core) }
{
    let shape = match shape {
        Ok(shape) => shape,
        Err(ShapeError::OutOfMemory) => return Err(AllocError),
        Err(ShapeError::TooManyEntries) => unreachable!(),
    };
    let start = Start {
        first_number: 1,
        first_place: 0,
        max_queue: beginning.max_queue,
    };
    match Core::start(alloc, unit, shape, beginning.order, start) {
        Ok(core) => Ok(core),
        Err(MakeError::OutOfMemory) => Err(AllocError),
        Err(MakeError::ShapeMismatch) => unreachable!(),
    }
}

impl<U: ScriptUnit> UnitObject<U> {
    ghost use Rattle.po_classic_units.specs.Sizes.{IsSizeWhere};
    ghost use Rattle.po_script.specs.Operations.{after_operation, operation_lines, IsEither};
    ghost use Rattle.po_script.specs.Units.{made};

    /// Makes the object that a `unit` line begins.
    pub(crate) fn new(alloc: Global, beginning: Beginning) -> Result<UnitObject<U>, AllocError>
        requires { IsSizeWhere U.known.names.is_sized beginning.unit.size }
        ensures { IfOk result (λ it. it.core.object ≡ made U.known beginning) }
    {
        let unit = U::made(alloc, beginning.unit.size)?;
        let shape = unit.shape(alloc);
        Ok(UnitObject {
            core: make(alloc, shape, unit, beginning)?,
            tickets: Tickets::new(alloc),
        })
    }

    /// Carries out the operation, and puts the lines that answer it into the empty reply.
    pub(crate) fn operate(
        &mut self,
        operation: Operation,
        reply: &mut String,
    ) -> Result<(), AllocError>
        requires { string_bytes reply.old ≡ [] }
        ensures object { OnOk result (self.new.core.object ≡ after_operation U.meaning self.old.core.object operation) }
        ensures failed { OnErr result (IsEither self.new.core.object self.old.core.object (after_operation U.meaning self.old.core.object operation)) }
        ensures lines { OnOk result (string_bytes reply.new ≡ operation_lines U.meaning U.known.names.entries self.old.core.object operation) }
    {
        carry_out(
            &mut self.core,
            &mut self.tickets,
            operation,
            U::entry_names(),
            reply,
        )
    }
}
