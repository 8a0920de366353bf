// SPDX-License-Identifier: MIT
//! What threads share besides their object.

use std::sync::Barrier;
use std::sync::atomic::{AtomicU64, Ordering};
use std::thread;
use std::time::{Clock, Duration};

/// How often a thread looks for something before it gives up, without sleeping between two looks.
pub(crate) const TURNS: u64 = 100_000_000;

/// How often a thread looks whether calls wait or are answered before it gives up: for ten seconds.
pub(crate) const LOOKS: u32 = 10_000;

/// How long it sleeps between two of these looks, in milliseconds.
pub(crate) const PAUSE: u64 = 1;

/// The line from which threads start together, and how many of their calls got the right answer.
#[derive(Drop)]
pub(crate) struct Team {
    pub(crate) line: Barrier,
    answered: AtomicU64,
}

impl Team {
    /// Returns a team that starts when `threads` threads have come to the line.
    pub(crate) fn new(threads: usize) -> Team {
        Team {
            line: Barrier::new(threads),
            answered: AtomicU64::new(0),
        }
    }

    /// Counts a call that got the right answer.
    pub(crate) fn count(&self) {
        self.answered.fetch_add(1, Ordering::SeqCst);
    }

    /// Returns how many calls got the right answer.
    pub(crate) fn answered(&self) -> u64 {
        self.answered.load(Ordering::SeqCst)
    }

    /// Waits until `calls` calls are answered, but not for ever.
    pub(crate) fn wait_for(&self, calls: u64) {
        for _ in 0..TURNS {
            if self.answered() >= calls {
                return;
            }
            thread::yield_now();
        }
    }

    /// Returns whether `calls` calls are answered within ten seconds.
    pub(crate) fn sees_answered<R: Clock>(&self, rt: &R, calls: u64) -> bool {
        for _ in 0..LOOKS {
            if self.answered() >= calls {
                return true;
            }
            thread::sleep(rt, Duration::from_millis(PAUSE));
        }
        false
    }
}
