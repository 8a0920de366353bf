// SPDX-License-Identifier: MIT
//! What is known of an object of a script in any state, and which operations it always refuses.

ghost use Rattle.std.specs.Prelude.{◌≡◌, ◌≢◌, List, IfOk, Err, None};
ghost use Rattle.po_core.specs.Refusals.{entry_refusal};
ghost use Rattle.po_classic_units.specs.Sizes.{IsSizeWhere};
ghost use Rattle.po_unit.specs.declared.error.ShapeError.{ShapeError};
ghost use Rattle.po_language.specs.declared.command.Command.{Command};
ghost use Rattle.po_script.specs.Facts.{facts_of, operation_refusal, sure_refusal, RefusesSurely};
ghost use Rattle.po_script.specs.SureRefusals.{RefusesBehind};

use crate::units::ScriptObject;
use po_classic_units::ScriptUnit;
use po_core::Refusal;
use po_language::Operation;
use po_unit::{EntryRef, Shape, ShapeError, Unit};
use std::alloc::{AllocError, Global};
use std::marker::Model;

/// What a unit of its size declares: its entries (9.5.2), and how many procedures and functions it has (9.5.1). These stay the
/// same as long as the object exists.
#[derive(Drop)]
pub struct UnitFacts {
    shape: Shape,
    procedure_count: u16,
    function_count: u16,
}

impl Model for UnitFacts {
    ghost use Rattle.po_script.specs.Facts.{Facts};

    ghost Value = { Facts };

    ghost view = { λ f. record { shape = f.shape; procedure_count = f.procedure_count; function_count = f.function_count } };
}

/// Returns the refusal of a call from outside on the entry, which is the same in any state of the object.
fn entry_refusal(shape: &Shape, entry: EntryRef) -> Option<Refusal>
    ensures { result ≡ entry_refusal shape.now entry None }
{
    let Some(declared) = shape.decl(entry.declaration) else {
        return Some(Refusal::NoSuchEntry);
    };
    if !declared.public {
        return Some(Refusal::PrivateEntry);
    }
    match shape.flat(entry) {
        Ok(_) => None,
        Err(fault) => Some(Refusal::from(fault)),
    }
}

/// Returns the refusal of operation number `op` if there are only `count` operations.
fn operation_refusal(count: u16, op: u16) -> Option<Refusal>
    ensures { result ≡ operation_refusal count op }
{
    if count <= op {
        return Some(Refusal::NoSuchOperation);
    }
    None
}

impl UnitFacts {
    /// Returns the refusal that the operation meets in any state of the object: 1, 2 or 3 for a call, 4 for a procedure or a
    /// function. If there is none, the object's state may still refuse the operation.
    pub fn refusal(&self, operation: Operation) -> Option<Refusal>
        ensures { result ≡ sure_refusal self.now operation }
    {
        match operation {
            Operation::Call { entry, .. } => entry_refusal(&self.shape, entry),
            Operation::Procedure { op, .. } => operation_refusal(self.procedure_count, op),
            Operation::Function { op, .. } => operation_refusal(self.function_count, op),
            _ => None,
        }
    }

    /// Returns the declarations of the entries (9.5.2).
    pub fn shape(&self) -> &Shape
        ensures { result.now ≡ self.now.shape }
    {
        &self.shape
    }
}

/// Returns the refusal that `UnitFacts::refusal` gives. Each object with these facts then refuses the operation with it, and
/// answers by its line.
pub fn refused_by<U: Unit<Value = u64>>(facts: &UnitFacts, operation: Operation) -> Option<Refusal>
    ensures exact { result ≡ sure_refusal facts.now operation }
    ensures refused { RefusesSurely U.meaning facts.now operation }
{
    facts.refusal(operation)
}

/// Only for the prover: after any commands, an operation is refused if the facts of the unit that they began refuse it. Does
/// nothing at run time.
pub fn refused_behind<O: ScriptObject>()
    ensures { (commands : List Command) → RefusesBehind O.units commands }
{}

/// Returns the facts of the objects of a unit of this size.
pub(crate) fn facts_of<U: ScriptUnit>(alloc: Global, size: u16) -> Result<UnitFacts, AllocError>
    requires { IsSizeWhere U.known.names.is_sized size }
    ensures { IfOk result (λ facts. facts ≡ facts_of U.known U.meaning size) }
{
    let unit = U::made(alloc, size)?;
    let shape = match unit.shape(alloc) {
        Ok(shape) => shape,
        Err(ShapeError::OutOfMemory) => return Err(AllocError),
        Err(ShapeError::TooManyEntries) => unreachable!(),
    };
    Ok(UnitFacts {
        shape,
        procedure_count: unit.procedures(),
        function_count: unit.functions(),
    })
}
