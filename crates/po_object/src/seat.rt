// SPDX-License-Identifier: MIT
//! The place at which the caller of a seat waits for its call to end.

ghost use Rattle.std.specs.Prelude.{◌≤◌};

use crate::steps::{Hook, SharedStep};
use crossbeam_utils::CachePadded;
use crossbeam_utils::sync::Unparker;
use std::sync::atomic::{AtomicU64, Ordering};
use std::{hint, thread};

/// How many looks a caller makes before it yields the processor at each further look. The thread that ends the call may need
/// the processor.
const QUICK_LOOKS: u32 = 8;

/// The flag if the seat's call waits, and its caller looks for its end.
const WAITS: u64 = 0;

/// The flag if the seat's call has ended.
const ENDED: u64 = 1;

/// The flag if the seat's call waits, and its caller sleeps.
const SLEEPS: u64 = 2;

/// How the caller of a seat is notified. No proof depends on what it says: a caller checks under the lock before it believes
/// it.
#[derive(Drop)]
pub struct Seat {
    flag: CachePadded<AtomicU64>,
    unparker: Unparker,
}

impl Seat {
    /// Returns a seat whose call waits, with the unparker that wakes its caller.
    pub fn new(unparker: Unparker) -> Seat {
        Seat {
            flag: CachePadded::new(AtomicU64::new(WAITS)),
            unparker,
        }
    }

    /// Notes that the seat's call waits. The thread that calls this holds the lock.
    pub fn wait<S: Hook>(&self, steps: &S, seat: u16) {
        steps.reach(SharedStep::Flag(seat));
        self.flag.store(WAITS, Ordering::SeqCst);
    }

    /// Notes that the seat's call has ended, and returns whether its caller sleeps. The thread that calls this holds the lock.
    pub fn end<S: Hook>(&self, steps: &S, seat: u16) -> bool {
        steps.reach(SharedStep::Flag(seat));
        self.flag.swap(ENDED, Ordering::SeqCst) == SLEEPS
    }

    /// Wakes the seat's caller.
    pub fn wake<S: Hook>(&self, steps: &S, seat: u16) {
        steps.reach(SharedStep::Wake(seat));
        self.unparker.unpark();
    }

    /// Looks for a while whether the seat's call has ended. If it hasn't, notes that its caller sleeps. Returns whether it has
    /// ended.
    pub fn look<S: Hook>(&self, steps: &S, seat: u16) -> bool {
        for turn in 0..S::LOOKS {
            steps.reach(SharedStep::Flag(seat));
            if self.flag.load(Ordering::SeqCst) == ENDED {
                return true;
            }
            if turn < QUICK_LOOKS {
                hint::spin_loop();
            } else {
                thread::yield_now();
            }
        }
        steps.reach(SharedStep::Flag(seat));
        self.flag
            .compare_exchange(WAITS, SLEEPS, Ordering::SeqCst, Ordering::SeqCst)
            == Err(ENDED)
    }
}

/// How many callers are woken after the lock is released. Any more are woken before.
const MANY: usize = 4;

/// The seats whose callers sleep and have to be woken.
#[derive(Drop)]
pub struct Sleepers {
    seats: [u16; MANY],
    len: usize,
    ghost within: { len ≤ 4 },
}

impl Sleepers {
    /// Returns none yet.
    pub fn new() -> Sleepers {
        Sleepers {
            seats: [0; MANY],
            len: 0,
        }
    }

    /// Adds a seat, and returns whether there was room for it.
    pub fn add(&mut self, seat: u16) -> bool {
        if self.len >= MANY {
            return false;
        }
        self.seats[self.len] = seat;
        self.len += 1;
        true
    }

    /// Returns the seats that were added.
    pub fn seats(&self) -> &[u16] {
        &self.seats[..self.len]
    }
}
