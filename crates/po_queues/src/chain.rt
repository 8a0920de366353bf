// SPDX-License-Identifier: MIT
//! Keys that are linked to their neighbours.

ghost use Rattle.std.specs.Prelude.{◌≡◌, ◌<◌, length, IfSome};
ghost use Rattle.po_queues.specs.InOrder.{either_end, with_after, with_before};

use crate::neighbours::Neighbours;

/// Keys that are linked to their neighbours, and the keys at the two ends.
#[derive(Debug, Drop)]
pub(crate) struct Chain {
    // By key: its neighbours. A key that hasn't arrived has none.
    pub(crate) neighbours: Vec<Neighbours>,
    pub(crate) first: Option<usize>,
    pub(crate) last: Option<usize>,
}

impl Chain {
    /// Makes the two keys neighbours. If there is no key before, the other one becomes the first; if there is none after, the
    /// other one becomes the last.
    pub(crate) fn join(&mut self, before: Option<usize>, after: Option<usize>)
        requires before { IfSome before (λ k. k < length self.old.neighbours.items) }
        requires after { IfSome after (λ k. k < length self.old.neighbours.items) }
        ensures neighbours { self.new.neighbours.items ≡
            with_before (with_after self.old.neighbours.items before after) after before }
        ensures first { self.new.first ≡ either_end before after self.old.first }
        ensures last { self.new.last ≡ either_end after before self.old.last }
    {
        match before {
            Some(key) => self.neighbours[key].after = after,
            None => self.first = after,
        }
        match after {
            Some(key) => self.neighbours[key].before = before,
            None => self.last = before,
        }
    }
}
