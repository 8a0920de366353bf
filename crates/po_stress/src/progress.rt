// SPDX-License-Identifier: MIT
//! How far a run has come.

use crate::balance::Balance;
use std::sync::atomic::{AtomicBool, AtomicU64, Ordering};

/// How far a run has come, as its threads report it. For a run of the buffer, also whether the values taken out are those put
/// in.
#[derive(Drop)]
pub struct Progress {
    ended: AtomicU64,
    is_short: AtomicBool,
    sum: AtomicU64,
    exclusive_or: AtomicU64,
}

impl Progress {
    /// Returns the progress of a run that hasn't begun.
    pub fn new() -> Progress {
        Progress {
            ended: AtomicU64::new(0),
            is_short: AtomicBool::new(false),
            sum: AtomicU64::new(0),
            exclusive_or: AtomicU64::new(0),
        }
    }

    /// Returns how many calls have ended so far.
    pub fn ended(&self) -> u64 {
        self.ended.load(Ordering::SeqCst)
    }

    /// Counts a call that has ended.
    pub(crate) fn count(&self) {
        self.ended.fetch_add(1, Ordering::SeqCst);
    }

    /// Adds the values that a caller put and took out.
    pub(crate) fn add(&self, balance: Balance) {
        self.sum.fetch_add(balance.sum, Ordering::SeqCst);
        self.exclusive_or
            .fetch_xor(balance.exclusive_or, Ordering::SeqCst);
    }

    /// Returns whether the callers of the buffer took out what was put in, once their run has ended: whether the sum and the
    /// exclusive or of the values, as the callers counted them, are 0. So they are if no value was put or taken out.
    pub fn is_balanced(&self) -> bool {
        self.sum.load(Ordering::SeqCst) == 0 && self.exclusive_or.load(Ordering::SeqCst) == 0
    }

    /// Notes that memory ran out.
    pub(crate) fn note_want(&self) {
        self.is_short.store(true, Ordering::SeqCst);
    }

    /// Returns whether memory ran out.
    pub(crate) fn was_short(&self) -> bool {
        self.is_short.load(Ordering::SeqCst)
    }
}
