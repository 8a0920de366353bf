// SPDX-License-Identifier: MIT
//! A unit whose function waits for another call of it, which shows whether functions run side by side.

ghost use Rattle.std.specs.Prelude.{◌≡◌, ◌<◌};
ghost use Rattle.test_threads.specs.Signs.{signs_meaning};

use crate::team::TURNS;
use po_unit::{Outcome, Shape, ShapeError, Unit};
use std::alloc::{AllocError, Global};
use std::marker::Model;
use std::sync::Arc;
use std::sync::atomic::{AtomicBool, Ordering};

/// For each of the values 0 and 1, a flag that its function is there, and a note that it saw the other one's flag.
#[derive(Drop)]
pub(crate) struct Board {
    flags: [AtomicBool; 2],
    notes: [AtomicBool; 2],
}

impl Board {
    /// Returns a board on which nothing is set.
    pub(crate) fn new() -> Board {
        Board {
            flags: [AtomicBool::new(false), AtomicBool::new(false)],
            notes: [AtomicBool::new(false), AtomicBool::new(false)],
        }
    }

    /// Sets its own flag, looks for the other one, and notes whether it saw it.
    fn meet(&self, own: usize, other: usize)
        requires { (own < 2) × (other < 2) }
    {
        self.flags[own].store(true, Ordering::SeqCst);
        for _ in 0..TURNS {
            if self.flags[other].load(Ordering::SeqCst) {
                self.notes[own].store(true, Ordering::SeqCst);
                return;
            }
        }
    }

    /// Returns which of the two saw the other.
    pub(crate) fn notes(&self) -> [bool; 2] {
        [
            self.notes[0].load(Ordering::SeqCst),
            self.notes[1].load(Ordering::SeqCst),
        ]
    }
}

/// A unit without entries and procedures, whose data is constant. Its function returns the value that it is given, after it has
/// looked for the function that is given the other of the values 0 and 1.
#[derive(Drop)]
pub(crate) struct Signs {
    board: Arc<Board>,
}

impl Model for Signs {
    ghost use Rattle.test_threads.specs.NoData.{NoData};

    ghost Value = { NoData };

    ghost view = { λ s. record {} };
}

impl Signs {
    /// Makes the unit that writes on this board.
    pub(crate) fn new(board: Arc<Board>) -> Signs {
        Signs { board }
    }

    /// Returns the shape of no declarations.
    pub(crate) fn shape(&self, alloc: Global) -> Result<Shape, ShapeError> {
        Shape::new(alloc, &[])
    }
}

impl Unit for Signs {
    type Value = u64;

    ghost use Rattle.test_threads.specs.Signs.{signs_meaning, signs_lawful};

    ghost meaning = { signs_meaning };

    fn entries(&self) -> u16 {
        0
    }

    fn procedures(&self) -> u16 {
        0
    }

    fn functions(&self) -> u16 {
        1
    }

    /// There is no entry to ask for, so for any number this does what the meaning says: it is closed.
    fn barrier(&self, _e: u16, _counts: &[u64]) -> Result<bool, u32>
        ensures { result ≡ signs_meaning.barrier self.now _e _counts.now }
    {
        Ok(false)
    }

    /// There is no entry to call, so for any number this does what the meaning says: nothing changes.
    fn body(&mut self, _e: u16, v: u64, _counts: &[u64]) -> Outcome<u64>
        ensures { (self.new, result) ≡ signs_meaning.body self.old _e v _counts.now }
    {
        Outcome::Complete(v)
    }

    /// There is no procedure to call, so for any number this does what the meaning says: nothing changes.
    fn procedure(&mut self, _op: u16, v: u64, _counts: &[u64]) -> Result<u64, u32>
        ensures { (self.new, result) ≡ signs_meaning.procedure self.old _op v _counts.now }
    {
        Ok(v)
    }

    fn function(&self, _op: u16, v: u64, _counts: &[u64]) -> Result<u64, u32> {
        if v == 0 {
            self.board.meet(0, 1);
        } else {
            self.board.meet(1, 0);
        }
        Ok(v)
    }

    fn rank(_e: u16, _v: u64) -> u8 {
        0
    }

    fn copy(&self) -> Result<Signs, AllocError> {
        Ok(Signs {
            board: Arc::try_clone(&self.board)?,
        })
    }

    ghost lawful = { signs_lawful };

    ghost use Rattle.std.proofs.Common.{rules};

    ghost equality = { Prim.search rules };
}
