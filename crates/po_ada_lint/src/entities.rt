// SPDX-License-Identifier: MIT
//! What the names of a text stand for.

use po_ada_tree::tree::{Expression, Name, Profile};

/// What a name stands for.
#[derive(Clone, Copy, Debug, PartialEq, Eq)]
pub enum Sort {
    /// A package, or a protected unit.
    Package,
    /// A type that is known to be scalar (3.2).
    Scalar,
    /// Another type.
    Composite,
    /// What doesn't change: a constant, a literal, a discriminant, a parameter of mode `in`, a loop parameter.
    Value,
    /// A variable outside of protected units.
    Outer,
    /// A variable of the object.
    Data,
    /// A variable of an operation.
    Local,
    /// A variable of which nothing is told: a parameter that can be changed, an object that is returned.
    Untold,
    Exception,
    /// An operation, by its number.
    Operation(usize),
}

/// Something that the text declares.
#[derive(Clone, Copy)]
pub struct Entity {
    pub name: Name,
    pub sort: Sort,
    /// Whether it is a scalar variable that is declared without a value.
    pub is_bare: bool,
    /// How many loops are around its declaration.
    pub loops: usize,
    /// The array whose components a loop parameter stands for (5.5.2).
    pub array: Option<usize>,
}

/// The place of an operation's declaration.
#[derive(Clone, Copy, Debug, PartialEq, Eq)]
pub enum Origin {
    /// Outside of the protected unit.
    Outer,
    Public,
    /// In the private part, or in the body alone.
    Private,
}

/// An operation, and the barrier of an entry.
#[derive(Clone, Copy)]
pub struct Operation<'a> {
    pub entity: usize,
    pub profile: &'a Profile,
    pub origin: Origin,
    pub barrier: Option<&'a Expression>,
    /// The name of the index of an entry family in its body (9.5.2).
    pub index: Option<Name>,
}
