// SPDX-License-Identifier: MIT
//! The path through the schedules: depth first through all turns.

use crate::next::Next;
use crate::threads::{MOST, ThreadSet};
use crate::turn::Turn;
use std::alloc::{AllocError, Global};

/// The most turns of a schedule. One with more counts as endless.
pub(crate) const MOST_TURNS: usize = 2_000;

/// Which schedules are tried.
#[derive(Clone, Copy, PartialEq, Eq)]
pub(crate) enum Bound {
    /// Those in which threads that could go on are passed over at most this number of times.
    Interruptions(u64),
    /// All, except those that differ from another one only in the order of steps for which the order makes no difference.
    EveryOrder,
}

/// The turns of the schedule that is tried, with what was tried at each.
#[derive(Drop)]
pub(crate) struct Path {
    turns: Vec<Turn>,
    bound: Bound,
    depth: usize,
    interruptions: u64,
    asleep: ThreadSet,
    is_like_another: bool,
}

impl Path {
    /// Makes a path on which nothing was tried yet.
    pub(crate) fn new(alloc: Global, bound: Bound) -> Result<Path, AllocError> {
        let mut turns = Vec::new(alloc);
        turns.reserve(MOST_TURNS + MOST)?;
        Ok(Path {
            turns,
            bound,
            depth: 0,
            interruptions: 0,
            asleep: ThreadSet::new(),
            is_like_another: false,
        })
    }

    /// Goes back to the first turn.
    pub(crate) fn begin(&mut self) {
        self.depth = 0;
        self.interruptions = 0;
        self.asleep = ThreadSet::new();
        self.is_like_another = false;
    }

    /// Returns whether the schedule was cut off, since it is like one that was tried.
    pub(crate) fn is_like_another(&self) -> bool {
        self.is_like_another
    }

    /// Chooses the thread that goes on, if any can: the one that the path has for this turn, or at a new turn preferably the
    /// one that went on before.
    pub(crate) fn choose(
        &mut self,
        able: &ThreadSet,
        before: Option<usize>,
        next: &[Next; MOST],
    ) -> Option<usize> {
        let lowest = able.first_without(&ThreadSet::new())?;
        let interrupted = before.filter(|thread| able.has(*thread));
        if self.depth == self.turns.len() && !self.is_like_another {
            self.extend(able, interrupted);
        }
        if self.is_like_another {
            return interrupted.or(Some(lowest));
        }
        let turn = *self.turns.get(self.depth)?;
        self.follow(&turn, next);
        Some(turn.chosen)
    }

    /// Adds a turn, unless all threads that can go on are left out.
    fn extend(&mut self, able: &ThreadSet, interrupted: Option<usize>) {
        let lowest = able.first_without(&self.asleep);
        let same = interrupted.filter(|thread| !self.asleep.has(*thread));
        match same.or(lowest) {
            Some(chosen) => self.add_turn(able, interrupted, chosen),
            None => self.is_like_another = true,
        }
    }

    /// Adds a turn in which this thread goes on. There is room for the turn.
    fn add_turn(&mut self, able: &ThreadSet, interrupted: Option<usize>, chosen: usize) {
        let mut tried = self.asleep;
        tried.put(chosen, true);
        let _added = self.turns.push(Turn {
            able: *able,
            tried,
            chosen,
            interrupted,
            interruptions: self.interruptions,
        });
    }

    /// Goes past a turn.
    fn follow(&mut self, turn: &Turn, next: &[Next; MOST]) {
        self.depth = self.depth.saturating_add(1);
        self.interruptions = turn.interruptions_with(turn.chosen);
        if self.bound == Bound::EveryOrder {
            self.keep_asleep(turn, next);
        }
    }

    /// Goes on leaving out threads that were tried before, until a step is taken for which it matters whether it comes before
    /// theirs.
    fn keep_asleep(&mut self, turn: &Turn, next: &[Next; MOST]) {
        let taken = next_of(next, turn.chosen);
        let mut asleep = ThreadSet::new();
        for thread in 0..MOST {
            let is_tried = turn.tried.has(thread) && thread != turn.chosen;
            asleep.put(thread, is_tried && next_of(next, thread).is_apart(taken));
        }
        self.asleep = asleep;
    }

    /// Goes to the next schedule, and returns whether there is one.
    pub(crate) fn go_back(&mut self) -> bool {
        for _ in 0..self.turns.len() {
            let Some(mut turn) = self.turns.pop() else {
                return false;
            };
            if let Some(thread) = turn.next(self.most()) {
                turn.tried.put(thread, true);
                turn.chosen = thread;
                return self.turns.push(turn).is_ok();
            }
        }
        false
    }

    /// Returns how many times a thread may be interrupted.
    fn most(&self) -> u64 {
        match self.bound {
            Bound::Interruptions(most) => most,
            Bound::EveryOrder => u64::MAX,
        }
    }
}

/// Returns what the thread does next.
pub(crate) fn next_of(next: &[Next; MOST], thread: usize) -> Next {
    next.get(thread).copied().unwrap_or(Next::Nothing)
}
