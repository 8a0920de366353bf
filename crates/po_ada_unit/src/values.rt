// SPDX-License-Identifier: MIT
//! The values of a call, and the slots that an operation finds.

ghost use Rattle.std.specs.Prelude.{◌≡◌, ◌++◌, length, slice_set, take, drop};
ghost use Rattle.po_ada_unit.specs.Frames.{frame, no_slots};

/// How many cells a call's parameters have together at most.
const CELLS: usize = 8;

/// How many slots all frames have together.
const SLOTS: usize = 256;

/// How often a call may be requeued in a row.
pub const MOST_REQUEUES: u8 = 255;

/// The values of a call's parameters, in their order, and how often the call may still be requeued.
#[derive(Clone, Copy, Debug, PartialEq, Eq)]
pub struct Values {
    pub cells: [i128; 8],
    pub requeues: u8,
}

impl Values {
    /// Returns the values with which a call begins.
    pub fn new(cells: [i128; 8]) -> Values
        ensures cells { result.cells ≡ cells }
        ensures requeues { result.requeues ≡ 255 }
    {
        Values {
            cells,
            requeues: MOST_REQUEUES,
        }
    }
}

/// Returns slots that are all 0.
fn empty_stack() -> [i128; 256]
    ensures { result ≡ no_slots }
{
    [0; SLOTS]
}

/// Puts the values of the parameters and the index of the entry into the first slots.
fn enter(stack: &mut [i128], cells: &[i128], index: i128)
    requires slots { length stack.old ≡ 256 }
    requires cells { length cells.now ≡ 8 }
    ensures { stack.new ≡ slice_set (cells.now ++ drop 8 stack.old) 8 index }
{
    let (first, _) = stack.split_at_mut(CELLS);
    first.copy_from_slice(cells);
    stack[CELLS] = index;
}

/// Returns the slots that an operation finds: the values of the parameters, and the index of the entry.
pub(crate) fn stack_for(cells: &[i128], index: i128) -> [i128; 256]
    requires { length cells.now ≡ 8 }
    ensures { result ≡ frame cells.now index }
{
    let mut stack = empty_stack();
    enter(&mut stack, cells, index);
    stack
}

/// Returns the values of the parameters that an operation leaves.
pub(crate) fn cells_of(stack: &[i128]) -> [i128; 8]
    requires { length stack.now ≡ 256 }
    ensures { result ≡ take 8 stack.now }
{
    let mut cells = [0; CELLS];
    cells.copy_from_slice(&stack[..CELLS]);
    cells
}
