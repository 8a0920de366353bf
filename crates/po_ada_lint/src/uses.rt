// SPDX-License-Identifier: MIT
//! Where and how the operations of a text use what it declares.

use crate::entities::{Entity, Operation};

/// How something is used.
#[derive(Clone, Copy, Debug, PartialEq, Eq)]
pub enum How {
    Read,
    Changed,
    /// Handed to a call that may read it and change it.
    Received,
    /// Named without its value: before an attribute, as a choice.
    Mentioned,
    Called,
    /// An entry before `'Count` (9.9).
    Counted,
    Requeued,
    Raised,
}

/// Which part of a text uses something.
#[derive(Clone, Copy, Debug, PartialEq, Eq)]
pub enum Part {
    Elsewhere,
    /// The barrier of an operation.
    Barrier(usize),
    /// The body of an operation.
    Body(usize),
}

/// A use of something.
#[derive(Clone, Copy)]
pub struct Use {
    pub part: Part,
    /// What is used; nothing if the text doesn't declare it.
    pub entity: Option<usize>,
    pub how: How,
    pub place: usize,
    /// How many loops are around it.
    pub loops: usize,
    /// The loop that it is in.
    pub within: Option<usize>,
}

/// A loop statement (5.5).
#[derive(Clone, Copy)]
pub struct LoopFact {
    pub place: usize,
    pub part: Part,
    /// The loop around it.
    pub within: Option<usize>,
    /// Whether it has neither `while` nor `for`.
    pub is_endless: bool,
    /// Whether a statement in it leaves it.
    pub is_left: bool,
}

/// What is known of a text.
#[derive(Drop)]
pub struct Facts<'a> {
    pub entities: Vec<Entity>,
    pub operations: Vec<Operation<'a>>,
    pub uses: Vec<Use>,
    pub loops: Vec<LoopFact>,
    /// Functions whose end can be reached.
    pub open_ends: Vec<usize>,
    /// Whether a subprogram wasn't read.
    pub has_unread: bool,
}

impl<'a> Facts<'a> {
    /// Something that the text declares, by its number.
    pub fn entity(&self, number: usize) -> Option<Entity> {
        self.entities.get(number).copied()
    }

    /// An operation, by its number.
    pub fn operation(&self, number: usize) -> Option<Operation<'a>> {
        self.operations.get(number).copied()
    }
}
