// SPDX-License-Identifier: MIT
//! Lets the threads of a scene go on, one at a time.

use crate::ending::Ending;
use crate::next::Next;
use crate::path::Bound;
use crate::schedule::Schedule;
use crate::threads::MOST;
use std::alloc::{AllocError, Global};
use std::sync::atomic::{AtomicU64, Ordering};
use std::sync::{Condvar, CondvarTimeouts, Mutex, MutexGuard, Wait};
use std::time::{Clock, Duration};

/// It isn't the thread's turn.
const NOT_YET: u64 = 0;

/// It is the thread's turn.
const NOW: u64 = 1;

/// How often the explorer looks whether a schedule has ended before it gives up.
const LOOKS: u32 = 100;

/// How many milliseconds are between two of these looks, at most.
const PAUSE: u64 = 50;

/// Lets the threads of a scene go on. Only the thread whose turn it is calls it, so no thread has to say which one it is.
#[derive(Drop)]
pub(crate) struct Explorer {
    schedule: Mutex<Schedule>,
    turns: [AtomicU64; MOST],
    ended: Condvar,
}

impl Explorer {
    /// Makes an explorer that has tried no schedule yet.
    pub(crate) fn new(alloc: Global, bound: Bound, may_doze: bool) -> Result<Explorer, AllocError> {
        Ok(Explorer {
            schedule: Mutex::new(Schedule::new(alloc, bound, may_doze)?),
            turns: [
                AtomicU64::new(NOT_YET),
                AtomicU64::new(NOT_YET),
                AtomicU64::new(NOT_YET),
                AtomicU64::new(NOT_YET),
                AtomicU64::new(NOT_YET),
                AtomicU64::new(NOT_YET),
                AtomicU64::new(NOT_YET),
                AtomicU64::new(NOT_YET),
            ],
            ended: Condvar::new(),
        })
    }

    /// Returns the schedule that is tried.
    pub(crate) fn schedule<W: Wait>(&self, rt: &W) -> MutexGuard<'_, Schedule> {
        self.schedule.lock(rt)
    }

    /// Begins a schedule of `threads` threads, which needn't exist yet.
    pub(crate) fn begin<W: Wait>(&self, rt: &W, threads: usize) {
        for turn in &self.turns {
            turn.store(NOT_YET, Ordering::SeqCst);
        }
        let mut schedule = self.schedule.lock(rt);
        schedule.begin(threads);
        self.hand_on(schedule);
    }

    /// Waits until it is the thread's turn.
    pub(crate) fn wait_for_turn<W: Wait>(&self, rt: &W, thread: usize) {
        let Some(turn) = self.turns.get(thread) else {
            return;
        };
        for _ in rt.forever() {
            if turn.swap(NOT_YET, Ordering::SeqCst) == NOW {
                return;
            }
            turn.park(rt, 0);
        }
    }

    /// Notes what the thread whose turn it is does next, and waits until it may do it.
    pub(crate) fn reach<W: Wait>(&self, rt: &W, next: Next) {
        let mut schedule = self.schedule.lock(rt);
        let thread = schedule.current();
        schedule.reach(next);
        if schedule.ending().is_none() && schedule.current() == thread {
            return;
        }
        self.hand_on(schedule);
        self.wait_for_turn(rt, thread);
    }

    /// Notes that the thread whose turn it is has done all.
    pub(crate) fn finish<W: Wait>(&self, rt: &W) {
        let mut schedule = self.schedule.lock(rt);
        schedule.finish();
        self.hand_on(schedule);
    }

    /// Lets the chosen thread go on, or notifies the waiting one that the schedule has ended.
    fn hand_on(&self, schedule: MutexGuard<'_, Schedule>) {
        let thread = schedule.current();
        let has_ended = schedule.ending().is_some();
        drop(schedule);
        if has_ended {
            self.ended.notify_one();
            return;
        }
        if let Some(turn) = self.turns.get(thread) {
            turn.store(NOW, Ordering::SeqCst);
            turn.wake_one();
        }
    }

    /// Waits for the end of the schedule, and returns how it ended.
    pub(crate) fn ending<W: Wait + Clock>(&self, rt: &W) -> Ending {
        let mut schedule = self.schedule.lock(rt);
        for _ in 0..LOOKS {
            if let Some(ending) = schedule.ending() {
                return ending;
            }
            let pause = Duration::from_millis(PAUSE);
            let (guard, _timed_out) = self.ended.wait_timeout(rt, schedule, pause);
            schedule = guard;
        }
        schedule.give_up();
        Ending::Lost
    }
}
