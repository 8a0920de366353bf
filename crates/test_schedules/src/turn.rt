// SPDX-License-Identifier: MIT
//! A turn of a schedule: which threads could go on, and which did.

use crate::threads::ThreadSet;

/// A turn of a schedule, and what was tried there.
#[derive(Clone, Copy)]
pub(crate) struct Turn {
    /// The threads that can go on.
    pub(crate) able: ThreadSet,
    /// Those of them that were tried, including the chosen one.
    pub(crate) tried: ThreadSet,
    /// The one that goes on.
    pub(crate) chosen: usize,
    /// The thread that ran before, if it can go on. To choose another one is to interrupt it.
    pub(crate) interrupted: Option<usize>,
    /// How many times threads were interrupted before.
    pub(crate) interruptions: u64,
}

impl Turn {
    /// Returns how many times threads were interrupted, if this one goes on.
    pub(crate) fn interruptions_with(&self, thread: usize) -> u64 {
        match self.interrupted {
            Some(before) if before != thread => self.interruptions.saturating_add(1),
            _ => self.interruptions,
        }
    }

    /// Returns the thread to try next, if there is one and it may interrupt.
    pub(crate) fn next(&self, bound: u64) -> Option<usize> {
        let thread = self.able.first_without(&self.tried)?;
        (self.interruptions_with(thread) <= bound).then_some(thread)
    }
}
