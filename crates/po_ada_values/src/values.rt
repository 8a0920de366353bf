// SPDX-License-Identifier: MIT
//! Values, parts of variables and operands.

ghost use Rattle.std.specs.Prelude.{◌≡◌, ◌+◌, ◌*◌, ◌≤◌, ◌≤ℤ◌};

use po_ada_tree::tree::{Association, Choice, Expression, Form};
use po_ada_types::Sub;
use po_program::{Area, Expr, Range, Stmt};
use std::alloc::{AllocError, Global};

/// An expression with its type.
#[derive(Debug, Drop)]
pub struct Value {
    pub code: Expr,
    pub kind: usize,
    /// Its value, if it is static.
    pub fixed: Option<i128>,
    /// Whether it is a raise expression, which fits any type.
    pub raises: bool,
}

/// A variable or a part of one.
#[derive(Debug, Drop)]
pub struct Part {
    pub area: Area,
    pub first: u16,
    pub distance: Option<Expr>,
    pub sub: Sub,
    pub constant: bool,
}

/// What a name with what comes after it stands for.
#[derive(Debug, Drop)]
pub enum Denoted {
    Value(Value),
    Part(Part),
    Type(Sub),
    Exception(u32),
    Operation(usize),
    /// An entry of a family: the operation, and the distance from the first entry.
    Member(usize, Expr),
    /// A package or the protected unit, by the place of its name in the scope.
    Package(usize),
}

/// A static value.
pub fn fixed_value(kind: usize, number: i128) -> Value {
    Value {
        code: Expr::Number(number),
        kind,
        fixed: Some(number),
        raises: false,
    }
}

/// A value that isn't static.
pub fn computed(kind: usize, code: Expr) -> Value {
    Value {
        code,
        kind,
        fixed: None,
        raises: false,
    }
}

/// An operand that is to be evaluated: an expression, or a number with its type.
#[derive(Clone, Copy, Debug)]
pub enum Operand<'a> {
    Written(&'a Expression),
    /// A default, with how many names of the scope stand before its declaration: it uses no others.
    Default(&'a Expression, usize),
    Number(usize, usize, i128),
}

/// An operand that was evaluated: the statements before it, and its value.
#[derive(Debug, Drop)]
pub struct Lowered {
    pub place: usize,
    pub code: Vec<Stmt>,
    pub value: Value,
}

/// A value and its place in the text.
#[derive(Debug, Drop)]
pub struct Placed {
    pub place: usize,
    pub value: Value,
}

impl<'a> Operand<'a> {
    /// Its place in the text.
    pub fn place(self) -> usize {
        match self {
            Operand::Written(expression) | Operand::Default(expression, _) => expression.place,
            Operand::Number(place, _, _) => place,
        }
    }
}

/// The one value of a list.
pub fn only_value(list: Vec<Placed>) -> Option<Placed> {
    let mut list = list;
    if list.len() == 1 { list.pop() } else { None }
}

/// The two values of a list.
pub fn two_values(list: Vec<Placed>) -> Option<(Placed, Placed)> {
    let mut list = list;
    if list.len() != 2 {
        return None;
    }
    let second = list.pop()?;
    let first = list.pop()?;
    Some((first, second))
}

/// The values of associations, as operands.
pub fn positional<'a>(
    alloc: Global,
    list: &'a [Association],
) -> Result<Vec<Operand<'a>>, AllocError> {
    let mut operands = Vec::new(alloc);
    for association in list {
        operands.push(Operand::Written(&association.value))?;
    }
    Ok(operands)
}

/// The cell of a slot.
pub fn slot_cell(slot: u16) -> Expr {
    Expr::Cell(Area::Frame, slot)
}

/// The range of a subtype.
pub fn range_of(sub: Sub) -> Range {
    Range {
        low: sub.low,
        high: sub.high,
    }
}

/// The number in the program of an operation's body.
pub fn body_number(operation: usize) -> u16
    ensures { operation ≤ 30000 → result ≡ 2 * operation + 1 }
{
    u16::try_from(operation.saturating_mul(2).saturating_add(1)).unwrap_or(0)
}

/// The value of a variable that gets none: 0 if it has it, or its first one.
pub fn first_value(sub: Sub) -> i128
    ensures { sub.low ≤ℤ sub.high → (sub.low ≤ℤ result) × (result ≤ℤ sub.high) }
{
    if sub.low <= 0 && 0 <= sub.high {
        0
    } else {
        sub.low
    }
}

/// Whether the choice is this name.
pub fn is_name(choice: &Choice, name: u32) -> bool {
    match choice {
        Choice::Value(value) => match value.form {
            Form::Name(found) => found == name,
            _ => false,
        },
        _ => false,
    }
}

/// The place of a choice.
pub fn choice_place(choice: &Choice) -> usize {
    match choice {
        Choice::Value(value) => value.place,
        Choice::Range(low, _) => low.place,
        Choice::Constrained(mark, _, _) => mark.place,
        Choice::Others(place) => *place,
    }
}
