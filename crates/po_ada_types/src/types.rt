// SPDX-License-Identifier: MIT
//! Types and subtypes, and what names stand for.

use po_ada_tree::tree::Expression;
use po_program::{Area, Base, Range};

/// The type of numbers without a type, and of Count (3.4.1, 9.9).
pub const UNIVERSAL: usize = 0;

pub const BOOLEAN: usize = 1;

pub const INTEGER: usize = 2;

pub const LONG_INTEGER: usize = 3;

pub const CHARACTER: usize = 4;

pub const LEAST: i128 = -9_223_372_036_854_775_808;

pub const GREATEST: i128 = 9_223_372_036_854_775_807;

/// A subtype: a type's number, and the range of its values or of its index.
#[derive(Clone, Copy, Debug, PartialEq, Eq)]
pub struct Sub {
    pub kind: usize,
    pub low: i128,
    pub high: i128,
}

/// A component of a record.
#[derive(Clone, Copy, Debug)]
pub struct Field<'a> {
    pub name: u32,
    pub sub: Sub,
    /// How many cells come before it.
    pub first: u16,
    pub default: Option<&'a Expression>,
}

/// What a type is.
#[derive(Debug, Drop)]
pub enum Structure<'a> {
    Universal,
    /// The base range (3.5.4).
    Integer(i128, i128),
    /// The modulus.
    Modular(u128),
    /// The position of the last literal.
    Enumeration(i128),
    /// The index's type, how many indices it has, whether its bounds are open, and the component's subtype.
    Array(usize, usize, bool, Sub),
    Record(Vec<Field<'a>>),
}

/// A type.
#[derive(Debug, Drop)]
pub struct Kind<'a> {
    pub name: u32,
    /// How many cells a value takes; of an array type, a component.
    pub width: u16,
    pub structure: Structure<'a>,
}

/// A variable, by its first cell.
#[derive(Clone, Copy, Debug)]
pub struct Variable {
    pub area: Area,
    pub first: u16,
    /// The slot with its distance from the first cell.
    pub distance: Option<u16>,
    pub sub: Sub,
    pub constant: bool,
}

/// What a name stands for.
#[derive(Clone, Copy, Debug)]
pub enum Meaning {
    Type(Sub),
    /// A static value and its type.
    Number(i128, usize),
    Variable(Variable),
    /// The number of an exception without a message.
    Exception(u32),
    /// The number of an operation.
    Operation(usize),
    Package,
    /// Something outside of the unit that isn't in the subset, and the number of the fault that says so, if there is one.
    Unread(Option<usize>),
    /// A parameter of the entry, which its barrier may not use (9.5.2).
    Hidden,
    /// A name whose declaration has a fault, which was told.
    Faulty,
}

/// A name and what it stands for.
#[derive(Clone, Copy, Debug)]
pub struct Symbol {
    pub name: u32,
    pub meaning: Meaning,
}

/// The base range of a signed type with this range, as GNAT takes it: of 8, 16, 32 or 64 bits (3.5.4).
pub fn base_range(low: i128, high: i128) -> (i128, i128) {
    for limit in [128i128, 32_768, 2_147_483_648] {
        let least = 0i128.saturating_sub(limit);
        if low >= least && high < limit {
            return (least, limit.saturating_sub(1));
        }
    }
    (LEAST, GREATEST)
}

/// What the results of operators can be.
pub fn base_of(structure: &Structure<'_>) -> Option<Base> {
    match structure {
        Structure::Universal => Some(Base::Signed(Range {
            low: LEAST,
            high: GREATEST,
        })),
        Structure::Integer(low, high) => Some(Base::Signed(Range {
            low: *low,
            high: *high,
        })),
        Structure::Modular(modulus) => Some(Base::Modular(*modulus)),
        Structure::Enumeration(_) => Some(Base::Signed(Range {
            low: LEAST,
            high: GREATEST,
        })),
        Structure::Array(_, _, _, _) | Structure::Record(_) => None,
    }
}

/// How many values there are from `low` to `high`, up to 16,384.
pub fn count(sub: Sub) -> u16 {
    if sub.high < sub.low {
        return 0;
    }
    let count = sub
        .high
        .saturating_sub(sub.low)
        .saturating_add(1)
        .min(16_384);
    u16::try_from(count).unwrap_or(16_384)
}
