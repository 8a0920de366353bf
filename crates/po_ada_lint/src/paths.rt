// SPDX-License-Identifier: MIT
//! The ways through statements: whether a place can be reached, and which loops are around it.

ghost use Rattle.std.specs.Prelude.{◌≡◌, OnOk, true, false};

use crate::uses::LoopFact;
use po_ada_tree::tree::Name;
use std::alloc::{AllocError, Global};

/// Ways that part: whether their start can be reached, and whether one of them comes to the end.
#[derive(Clone, Copy)]
struct Fork {
    starts: bool,
    ends: bool,
}

/// A loop around the statement, its fork and its number.
#[derive(Clone, Copy)]
struct OpenLoop {
    name: Option<Name>,
    fork: usize,
    number: usize,
}

/// The ways up to a statement.
#[derive(Drop)]
pub struct Paths {
    /// Whether this statement can be reached.
    pub is_reached: bool,
    forks: Vec<Fork>,
    open: Vec<OpenLoop>,
}

impl Paths {
    pub fn new(alloc: Global) -> Paths {
        Paths {
            is_reached: true,
            forks: Vec::new(alloc),
            open: Vec::new(alloc),
        }
    }

    /// How many loops are around the statement.
    pub fn loops(&self) -> usize {
        self.open.len()
    }

    /// The number of the innermost loop.
    pub fn innermost(&self) -> Option<usize> {
        match self.open.last() {
            Some(found) => Some(found.number),
            None => None,
        }
    }

    /// Ways part here.
    pub fn fork(&mut self) -> Result<(), AllocError>
        ensures { OnOk result (self.new.is_reached ≡ self.old.is_reached) }
    {
        self.forks.push(Fork {
            starts: self.is_reached,
            ends: false,
        })?;
        Ok(())
    }

    /// A way has come to its end; the next one begins.
    pub fn merge(&mut self) {
        if let Some(last) = self.forks.last_mut() {
            last.ends = last.ends || self.is_reached;
            self.is_reached = last.starts;
        }
    }

    /// All ways have come to their end.
    pub fn close(&mut self) {
        if let Some(last) = self.forks.pop() {
            self.is_reached = last.ends;
        }
    }

    /// The way ends here.
    pub fn end(&mut self)
        ensures { self.new.is_reached ≡ false }
    {
        self.is_reached = false;
    }

    /// A loop of this number begins. If it has `while` or `for`, it may end at once.
    pub fn open_loop(
        &mut self,
        name: Option<Name>,
        number: usize,
        is_endless: bool,
    ) -> Result<(), AllocError> {
        let fork = self.forks.len();
        self.forks.push(Fork {
            starts: self.is_reached,
            ends: self.is_reached && !is_endless,
        })?;
        self.open.push(OpenLoop { name, fork, number })?;
        Ok(())
    }

    /// The innermost loop ends.
    pub fn close_loop(&mut self) {
        self.open.pop();
        self.close();
    }

    /// How many of the loops around are left by an exit statement with this name (5.7).
    pub fn left_by(&self, name: Option<Name>) -> usize {
        let Some(wanted) = name else {
            return 1;
        };
        let found = self.open.iter().rev().position(|open| match open.name {
            Some(named) => named.number == wanted.number,
            None => false,
        });
        match found {
            Some(position) => position.saturating_add(1),
            None => 0,
        }
    }

    /// An exit statement leaves this many loops, if its condition holds.
    pub fn exit(&mut self, loops: usize, is_conditional: bool)
        ensures ends { is_conditional ≡ false → self.new.is_reached ≡ false }
        ensures goes_on { is_conditional ≡ true → self.new.is_reached ≡ self.old.is_reached }
    {
        let outermost = self.open.len().saturating_sub(loops);
        let reached = self.is_reached;
        if let Some(open) = self.open.get(outermost) {
            if let Some(fork) = self.forks.get_mut(open.fork) {
                fork.ends = fork.ends || reached;
            }
        }
        self.is_reached = reached && is_conditional;
    }

    /// A statement leaves this many of the innermost loops around it.
    pub fn mark_left(&self, loops: usize, facts: &mut Vec<LoopFact>) {
        for open in self.open.iter().rev().take(loops) {
            if let Some(fact) = facts.get_mut(open.number) {
                fact.is_left = true;
            }
        }
    }
}
