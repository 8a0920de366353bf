// SPDX-License-Identifier: MIT
//! What expressions are made into: the statements so far, the slots of the frame, and the operations that they call.

ghost use Rattle.std.specs.Prelude.{◌+◌, ◌≤◌, IfOk, OnOk};

use po_ada_tree::tree::{Body, Expression, Kind, Mode, Profile};
use po_ada_tree::{Faults, Names, Stop};
use po_ada_types::{GREATEST, Known, LEAST, Sub};
use po_program::{Base, Binary, Expr, Range, Stmt, Unary};
use std::alloc::{AllocError, Global};
use std::mem;

/// The frame of an operation has at most this many slots.
pub const MOST_SLOTS: u16 = 200;
/// How deep expressions and statements are nested, with what is made of them.
pub const LEVELS: usize = 210;

/// A parameter of an operation.
#[derive(Clone, Copy, Debug)]
pub struct Parameter<'a> {
    pub name: u32,
    pub mode: Mode,
    pub sub: Sub,
    pub default: Option<&'a Expression>,
}

/// An operation that a text declares.
#[derive(Debug, Drop)]
pub struct Declared<'a> {
    pub profile: &'a Profile,
    pub public: bool,
    /// Whether it stands outside of the protected unit.
    pub outside: bool,
    pub parameters: Vec<Parameter<'a>>,
    pub returns: Option<Sub>,
    pub family: Option<Sub>,
    /// The number of an entry, or of a family's first one.
    pub entry: u16,
    pub body: Option<&'a Body>,
    /// Whether an operation outside of the unit is called.
    pub used: bool,
}

/// Expressions of a text that get their meaning.
#[derive(Drop)]
pub struct Lowering<'a> {
    pub known: Known<'a>,
    pub bytes: &'a [u8],
    pub operations: Vec<Declared<'a>>,
    pub messages: Vec<String>,
    /// The statements that were made so far.
    pub code: Vec<Stmt>,
    /// The next slot, and the most that there were.
    pub slots: u16,
    pub most_slots: u16,
    /// Whether a postcondition is read, and the statements that keep values for its 'Old.
    pub in_postcondition: bool,
    pub olds: Vec<Stmt>,
    /// The place of the protected unit's name in the scope, once it is declared.
    pub unit: Option<usize>,
    /// How many names of the scope stand before those that the unit declares.
    pub outside: usize,
}

/// One statement of two.
fn pairs(alloc: Global, list: Vec<Stmt>) -> Result<Vec<Stmt>, AllocError> {
    let mut paired = Vec::new(alloc);
    let mut first: Option<Stmt> = None;
    for statement in list {
        first = match first {
            Some(before) => {
                paired.push(Stmt::Then(Box::new(alloc, before)?, Box::new(alloc, statement)?))?;
                None
            }
            None => Some(statement),
        };
    }
    if let Some(last) = first {
        paired.push(last)?;
    }
    Ok(paired)
}

/// One statement that executes these in turn: a balanced tree.
pub fn sequence(alloc: Global, list: Vec<Stmt>) -> Result<Stmt, AllocError> {
    let mut list = list;
    for _ in 0..64 {
        if list.len() < 2 {
            break;
        }
        list = pairs(alloc, list)?;
    }
    Ok(list.pop().unwrap_or(Stmt::Null))
}

impl<'a> Lowering<'a> {
    /// Nothing is made yet. `bytes` is the text as it was read, and `slots` how many slots have a meaning already.
    pub fn new(
        alloc: Global,
        bytes: &'a [u8],
        names: &'a Names,
        faults: &'a mut Faults,
        slots: u16,
    ) -> Lowering<'a> {
        Lowering {
            known: Known::new(alloc, names, faults),
            bytes,
            operations: Vec::new(alloc),
            messages: Vec::new(alloc),
            code: Vec::new(alloc),
            slots,
            most_slots: slots,
            in_postcondition: false,
            olds: Vec::new(alloc),
            unit: None,
            outside: 0,
        }
    }

    /// Adds a statement to those that were made.
    pub fn emit(&mut self, statement: Stmt) -> Result<(), Stop> {
        self.code.push(statement)?;
        Ok(())
    }

    /// Begins a list of statements of its own, and returns the one before.
    pub fn begin_list(&mut self) -> Vec<Stmt> {
        mem::replace(&mut self.code, Vec::new(self.known.alloc))
    }

    /// Ends a list of statements, and goes on with the one before.
    pub fn end_list(&mut self, before: Vec<Stmt>) -> Vec<Stmt> {
        mem::replace(&mut self.code, before)
    }

    /// Ends a list of statements, as one statement.
    pub fn end_sequence(&mut self, before: Vec<Stmt>) -> Result<Stmt, Stop> {
        let list = self.end_list(before);
        Ok(sequence(self.known.alloc, list)?)
    }

    /// Adds statements to those that were made.
    pub fn emit_all(&mut self, list: Vec<Stmt>) -> Result<(), Stop> {
        for statement in list {
            self.code.push(statement)?;
        }
        Ok(())
    }

    /// The first of this many slots, which were not used.
    pub fn take_slots(&mut self, place: usize, count: u16) -> Result<u16, Stop>
        ensures room { IfOk result (λ first. first + count ≤ 200) }
        ensures taken { OnOk result (self.new.slots ≤ self.new.most_slots) }
    {
        let first = self.slots;
        let after = first.saturating_add(count);
        if after > MOST_SLOTS {
            return Err(
                self.known.refuse(
                    place,
                    "the local variables and intermediate values of an operation take at most 200 cells",
                ),
            );
        }
        self.slots = after;
        self.most_slots = self.most_slots.max(after);
        Ok(first)
    }

    pub fn boxed(&self, expression: Expr) -> Result<Box<Expr>, AllocError> {
        Ok(Box::new(self.known.alloc, expression)?)
    }

    pub fn boxed_statement(&self, statement: Stmt) -> Result<Box<Stmt>, AllocError> {
        Ok(Box::new(self.known.alloc, statement)?)
    }

    pub fn not(&self, operand: Expr) -> Result<Expr, AllocError> {
        Ok(Expr::Unary(Unary::Not, self.boxed(operand)?))
    }

    pub fn binary(&self, operator: Binary, left: Expr, right: Expr) -> Result<Expr, AllocError> {
        Ok(Expr::Binary(operator, self.boxed(left)?, self.boxed(right)?))
    }

    /// A sum of numbers that are small.
    pub fn sum(&self, left: Expr, right: Expr) -> Result<Expr, AllocError> {
        let base = Base::Signed(Range {
            low: LEAST,
            high: GREATEST,
        });
        self.binary(Binary::Add(base), left, right)
    }

    pub fn is_family(&self, operation: usize) -> bool {
        match self.operations.get(operation) {
            Some(declared) => declared.family.is_some(),
            None => false,
        }
    }

    /// Whether the operation stands outside of the protected unit.
    pub fn is_outside(&self, operation: usize) -> bool {
        match self.operations.get(operation) {
            Some(declared) => declared.outside,
            None => false,
        }
    }

    /// What the operation is; a procedure if there is none.
    pub fn kind_of(&self, operation: usize) -> Kind {
        match self.operations.get(operation) {
            Some(declared) => declared.profile.kind,
            None => Kind::Procedure,
        }
    }

    pub fn parameter_count(&self, operation: usize) -> usize {
        match self.operations.get(operation) {
            Some(declared) => declared.parameters.len(),
            None => 0,
        }
    }

    pub fn parameter(&self, operation: usize, index: usize) -> Option<Parameter<'a>> {
        self.operations
            .get(operation)?
            .parameters
            .get(index)
            .copied()
    }
}
