// SPDX-License-Identifier: MIT
//! The object of a script.

ghost use Rattle.std.specs.Prelude.{◌≡◌, ◌⊎◌, IfOk, IfErr, OnOk, OnErr, map, [], string_bytes};
ghost use Rattle.po_unit.specs.Numbering.{HasTooMany};
ghost use Rattle.po_script.specs.Tickets.{Knows, AreCollected};
ghost use Rattle.po_ada_script.specs.Preconditions.{least};
ghost use Rattle.po_ada_script.specs.Shapes.{declaration};

use crate::operate::carry_out;
use crate::preconditions::failed_precondition;
use crate::replies::push_raised;
use po_ada_language::{Operation, ScriptedObject, Stop, TextUnit, no_object, operation_of};
use po_ada_names::{Entry, ObjectNames};
use po_core::{Core, MakeError, Order, Start};
use po_language::parse::Verb;
use po_script::tickets::Tickets;
use po_unit::{Decl, Shape, ShapeError};
use std::alloc::{AllocError, Global};

/// The fault of a text that has more entries than an object can have.
const TOO_MANY: &str = "the object has more than 4,096 entries";

/// The fault of a text whose names don't fit its program.
const MISMATCH: &str = "the names of the entries don't fit the program";

/// The object that a text declares: a core, the tickets of its uncollected calls, and its names. The calls that the latest command
/// ended are already collected.
#[derive(Drop)]
pub struct TextObject<U: TextUnit> {
    core: Core<U>,
    tickets: Tickets,
    names: ObjectNames,
    ghost knows: { Knows core.tickets tickets },
    ghost collected: { AreCollected core },
}

/// Returns the declaration of the entry (9.5.2).
fn declaration_of(entry: &Entry) -> Decl
    ensures { result ≡ declaration entry.now }
{
    let (low, high) = match entry.family {
        Some(family) => (family.low, family.high),
        None => (0, 0),
    };
    Decl {
        public: entry.public,
        family: entry.family.is_some(),
        low,
        high,
    }
}

/// Returns the declarations of the entries, in their order.
fn declarations(alloc: Global, entries: &[Entry]) -> Result<Vec<Decl>, AllocError>
    ensures { IfOk result (λ list. list.items ≡ map declaration entries.now) }
{
    let mut declarations = Vec::new(alloc);
    for entry in entries {
        declarations.push(declaration_of(entry))?;
    }
    Ok(declarations)
}

/// Makes the shape of the entries (9.5.2).
pub fn shape_of(alloc: Global, entries: &[Entry]) -> Result<Shape, Stop>
    ensures shape { IfOk result (λ shape. shape ≡ map declaration entries.now) }
    ensures fails { IfErr result (λ stop. (stop ≡ Stop.OutOfMemory) ⊎ HasTooMany (map declaration entries.now)) }
{
    let declarations = declarations(alloc, entries)?;
    match Shape::new(alloc, declarations.as_slice()) {
        Ok(shape) => Ok(shape),
        Err(ShapeError::OutOfMemory) => Err(Stop::OutOfMemory),
        Err(ShapeError::TooManyEntries) => Err(no_object(alloc, TOO_MANY)),
    }
}

/// Returns the smaller of two limits, if there is one.
pub fn smaller(limit: Option<u64>, other: Option<u64>) -> Option<u64>
    ensures { result ≡ least limit other }
{
    match (limit, other) {
        (Some(limit), Some(other)) => Some(limit.min(other)),
        (Some(limit), None) => Some(limit),
        (None, other) => other,
    }
}

/// Makes the core of an object with this unit and these names, whose calls are numbered from 1. A queue has at most as many calls
/// as the text says, and at most `max_queue`.
fn make<U: TextUnit>(
    alloc: Global,
    unit: U,
    names: &ObjectNames,
    order: Order,
    max_queue: Option<u64>,
) -> Result<Core<U>, Stop>
    ensures tickets { IfOk result (λ core. core.tickets ≡ []) }
    ensures collected { IfOk result (λ core. AreCollected core) }
    ensures limit { IfOk result (λ core. core.object.setup.max_queue ≡ least names.now.max_queue max_queue) }
{
    let shape = shape_of(alloc, names.entries.as_slice())?;
    let start = Start {
        first_number: 1,
        first_place: 0,
        max_queue: smaller(names.max_queue, max_queue),
    };
    match Core::start(alloc, unit, shape, order, start) {
        Ok(core) => Ok(core),
        Err(MakeError::OutOfMemory) => Err(Stop::OutOfMemory),
        Err(MakeError::ShapeMismatch) => Err(no_object(alloc, MISMATCH)),
    }
}

impl<U: TextUnit> TextObject<U> {
    ghost use Rattle.po_script.specs.Operations.{IsEither};
    ghost use Rattle.po_ada_script.specs.Preconditions.{after_asking};

    /// Makes the object of this unit, whose calls are numbered from 1. Each of its queues has at most as many calls as the text
    /// says, and at most `max_queue`.
    #[tactic(auto, using(crate::proofs::NoCalls::knows_none))]
    pub fn new(
        alloc: Global,
        unit: U,
        names: ObjectNames,
        order: Order,
        max_queue: Option<u64>,
    ) -> Result<TextObject<U>, Stop> {
        Ok(TextObject {
            core: make(alloc, unit, &names, order, max_queue)?,
            tickets: Tickets::new(alloc),
            names,
        })
    }

    /// Carries out the operation, unless it is a call whose precondition doesn't hold, and puts the lines that answer it into the
    /// empty reply.
    pub(crate) fn operate(
        &mut self,
        operation: Operation<U::Value>,
        reply: &mut String,
    ) -> Result<(), AllocError>
        requires { string_bytes reply.old ≡ [] }
        ensures object { OnOk result (self.new.core.object ≡ after_asking U.meaning U.parameters self.old.names.entries.items self.old.core.object operation) }
        ensures failed { OnErr result (IsEither self.new.core.object self.old.core.object (after_asking U.meaning U.parameters self.old.names.entries.items self.old.core.object operation)) }
    {
        match failed_precondition(&self.core, &self.names, &operation) {
            Some(exception) => push_raised(reply, &self.names, exception),
            None => carry_out(
                &mut self.core,
                &mut self.tickets,
                &self.names,
                operation,
                reply,
            ),
        }
    }
}

impl<U: TextUnit> ScriptedObject for TextObject<U> {
    fn carry_out(
        &mut self,
        alloc: Global,
        verb: Verb,
        words: &[u8],
        reply: &mut String,
    ) -> Result<(), Stop> {
        reply.clear();
        let operation = operation_of::<U>(alloc, &self.names, verb, words)?;
        self.operate(operation, reply)?;
        Ok(())
    }
}
