// SPDX-License-Identifier: MIT
//! How the threads of one caller take turns.

use std::alloc::{AllocError, Global};
use std::sync::Wait;
use std::sync::atomic::{AtomicU64, Ordering};
use std::thread::Parker;
use std::time::Duration;

/// How many milliseconds a thread sleeps at most before it looks anew.
const PAUSE: u64 = 100;

/// The turns of a caller, which has a thread for each object that it calls.
#[derive(Drop)]
pub(crate) struct Turns {
    /// How many steps the caller has.
    length: u64,
    /// How many of them are done.
    done: AtomicU64,
    /// By object: the thread that calls it sleeps here.
    sleepers: Vec<Parker>,
}

impl Turns {
    /// Returns the turns of a caller with this many steps, at this many objects. Fails if memory runs out.
    pub(crate) fn new(alloc: Global, length: u64, objects: usize) -> Result<Turns, AllocError> {
        let mut sleepers = Vec::with_capacity(alloc, objects)?;
        for _ in 0..objects {
            sleepers.push(Parker::new())?;
        }
        Ok(Turns {
            length,
            done: AtomicU64::new(0),
            sleepers,
        })
    }

    /// Returns how many steps are done.
    pub(crate) fn done(&self) -> u64 {
        self.done.load(Ordering::SeqCst)
    }

    /// Returns whether all steps are done.
    pub(crate) fn is_over(&self) -> bool {
        self.done() >= self.length
    }

    /// Notes that a step is done, and wakes the thread of the next one, which is at the object with this position.
    pub(crate) fn advance(&self, next: u16) {
        self.done.fetch_add(1, Ordering::SeqCst);
        if let Some(sleeper) = self.sleepers.get(usize::from(next)) {
            sleeper.unpark();
        }
    }

    /// Has the thread at the object with this position sleep until it is woken, or for a while.
    pub(crate) fn sleep<W: Wait>(&self, rt: &W, object: u16) {
        if let Some(sleeper) = self.sleepers.get(usize::from(object)) {
            sleeper.park_timeout(rt, Duration::from_millis(PAUSE));
        }
    }

    /// Wakes the threads at all objects.
    pub(crate) fn wake_all(&self) {
        for sleeper in self.sleepers.iter() {
            sleeper.unpark();
        }
    }
}
