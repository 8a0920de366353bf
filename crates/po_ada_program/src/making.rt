// SPDX-License-Identifier: MIT
//! A protected unit whose program is made: its data, entries and exceptions, and the operation whose body is read.

ghost use Rattle.std.specs.Prelude.{◌+◌, ◌≤◌, IfOk};

use crate::queue_limits::QueueLimit;
use po_ada_tree::{Faults, Names, Stop};
use po_ada_values::Lowering;
use std::alloc::Global;

/// The data of an object take at most this many cells.
pub const MOST_CELLS: u16 = 16_384;
/// Locals begin here: slots 0 to 7 are parameters, slot 8 is a family's index.
pub const FIRST_LOCAL: u16 = 9;

/// A unit whose program is made.
#[derive(Drop)]
pub struct Making<'a> {
    pub lowering: Lowering<'a>,
    pub cells: u16,
    pub entries: u16,
    pub exceptions: Vec<u32>,
    /// The names of the loops around.
    pub loops: Vec<Option<u32>>,
    /// The operation whose body is read.
    pub current: Option<usize>,
    /// The slot with the exception of the handler around.
    pub handled: Option<u16>,
    /// Whether a postcondition comes after the body.
    pub has_postcondition: bool,
    /// The slot that gets the result of a function: 0, or another before a postcondition, which may use the parameters.
    pub result_slot: u16,
    /// The entries that have a precondition, in the order of their functions.
    pub preconditions: Vec<usize>,
    /// What the entries say of the greatest length of their queues, in the order of their declarations.
    pub limits: Vec<QueueLimit>,
    /// The greatest length of all queues.
    pub max_queue: Option<u64>,
}

impl<'a> Making<'a> {
    /// Nothing is made yet. `bytes` is the text as it was read.
    pub fn new(
        alloc: Global,
        bytes: &'a [u8],
        names: &'a Names,
        faults: &'a mut Faults,
    ) -> Making<'a> {
        Making {
            lowering: Lowering::new(alloc, bytes, names, faults, FIRST_LOCAL),
            cells: 0,
            entries: 0,
            exceptions: Vec::new(alloc),
            loops: Vec::new(alloc),
            current: None,
            handled: None,
            has_postcondition: false,
            result_slot: 0,
            preconditions: Vec::new(alloc),
            limits: Vec::new(alloc),
            max_queue: None,
        }
    }

    /// The first of this many cells of the object's data, which were not used.
    pub fn take_cells(&mut self, place: usize, count: u16) -> Result<u16, Stop>
        ensures { IfOk result (λ first. first + count ≤ 16384) }
    {
        let first = self.cells;
        let after = first.saturating_add(count);
        if after > MOST_CELLS {
            return Err(
                self.lowering
                    .known
                    .refuse(place, "the data of an object take at most 16,384 cells"),
            );
        }
        self.cells = after;
        Ok(first)
    }
}
