// SPDX-License-Identifier: MIT
//! Whether an object's lock and waiting places let a thread go on, so that only threads go on that wouldn't wait.

use crate::next::Next;
use crate::threads::ThreadSet;
use po_object::steps::SharedStep;

/// Which threads have the lock, and whose sleep would end at once.
#[derive(Clone, Copy)]
pub(crate) struct Places {
    is_changed: bool,
    looks: u64,
    woken: ThreadSet,
    /// Whether one sleep at each seat may end for no reason.
    may_doze: bool,
    dozed: ThreadSet,
    /// Whether a pass was handed over that no thread has taken.
    is_handed_over: bool,
    /// Whether the latest sleep had a reason to end.
    was_woken: bool,
}

impl Places {
    /// Returns places at which no thread has the lock, and none was woken.
    pub(crate) fn new(may_doze: bool) -> Places {
        Places {
            is_changed: false,
            looks: 0,
            woken: ThreadSet::new(),
            may_doze,
            dozed: ThreadSet::new(),
            is_handed_over: false,
            was_woken: true,
        }
    }

    /// Makes the places as they were at first.
    pub(crate) fn renew(&mut self) {
        *self = Places::new(self.may_doze);
    }

    /// Returns whether the latest sleep had a reason to end.
    pub(crate) fn was_woken(&self) -> bool {
        self.was_woken
    }

    /// Returns whether a thread that does this next doesn't wait.
    pub(crate) fn can_go_on(&self, next: Next) -> bool {
        match next {
            Next::Nothing => false,
            Next::Take(SharedStep::Change) => !self.is_changed && self.looks == 0,
            Next::Take(SharedStep::Look) => !self.is_changed,
            Next::Take(SharedStep::Sleep(seat)) => self.woken.has(seat as usize),
            Next::TakeOver => self.is_handed_over,
            _ => true,
        }
    }

    /// Returns whether a thread's sleep may end for no reason.
    pub(crate) fn can_doze(&self, next: Next) -> bool {
        match next {
            Next::Take(SharedStep::Sleep(seat)) => self.may_doze && !self.dozed.has(seat as usize),
            _ => false,
        }
    }

    /// Notes that a thread does this.
    pub(crate) fn go_on(&mut self, next: Next) {
        match next {
            Next::Take(step) => self.take(step),
            Next::HandOver => self.is_handed_over = true,
            Next::TakeOver => self.is_handed_over = false,
            Next::Begin | Next::Nothing => {}
        }
    }

    /// Notes that a step is taken.
    fn take(&mut self, step: SharedStep) {
        match step {
            SharedStep::TryChange | SharedStep::Change => self.is_changed |= self.looks == 0,
            SharedStep::Changed => self.is_changed = false,
            SharedStep::TryLook | SharedStep::Look => self.look(),
            SharedStep::Looked => self.looks = self.looks.saturating_sub(1),
            SharedStep::Flag(_) => {}
            SharedStep::Sleep(seat) => self.sleep(seat as usize),
            SharedStep::Wake(seat) => self.woken.put(seat as usize, true),
        }
    }

    /// Notes that the lock is taken for a look, if it can be.
    fn look(&mut self) {
        if !self.is_changed {
            self.looks = self.looks.saturating_add(1);
        }
    }

    /// Notes that a sleep begins and ends, because it was ended before or for no reason.
    fn sleep(&mut self, seat: usize) {
        self.was_woken = self.woken.has(seat);
        self.woken.put(seat, false);
        if !self.was_woken {
            self.dozed.put(seat, true);
        }
    }
}
