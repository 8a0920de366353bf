// SPDX-License-Identifier: MIT
//! The schedule that is tried: at which step each thread is, and what was done.

use crate::ending::Ending;
use crate::next::Next;
use crate::path::{Bound, MOST_TURNS, Path, next_of};
use crate::places::Places;
use crate::threads::{MOST, ThreadSet};
use std::alloc::{AllocError, Global};

/// What a thread did.
#[derive(Clone, Copy)]
pub(crate) struct Taken {
    /// The thread.
    pub(crate) thread: usize,
    /// What it did.
    pub(crate) step: Next,
}

/// The schedule that is tried, as far as it has come.
#[derive(Drop)]
pub(crate) struct Schedule {
    next: [Next; MOST],
    current: usize,
    places: Places,
    path: Path,
    log: Vec<Taken>,
    ending: Option<Ending>,
}

impl Schedule {
    /// Makes a schedule before the first was tried.
    pub(crate) fn new(alloc: Global, bound: Bound, may_doze: bool) -> Result<Schedule, AllocError> {
        let mut log = Vec::new(alloc);
        log.reserve(MOST_TURNS + MOST)?;
        Ok(Schedule {
            next: [Next::Nothing; MOST],
            current: 0,
            places: Places::new(may_doze),
            path: Path::new(alloc, bound)?,
            log,
            ending: None,
        })
    }

    /// Begins a schedule of `threads` threads, and chooses the one that goes on.
    pub(crate) fn begin(&mut self, threads: usize) {
        for thread in 0..MOST {
            let next = if thread < threads {
                Next::Begin
            } else {
                Next::Nothing
            };
            self.set_next(thread, next);
        }
        self.places.renew();
        self.path.begin();
        self.log.clear();
        self.ending = None;
        self.pass_on(None);
    }

    /// Returns the thread that goes on.
    pub(crate) fn current(&self) -> usize {
        self.current
    }

    /// Returns how the schedule ended, if it has.
    pub(crate) fn ending(&self) -> Option<Ending> {
        self.ending
    }

    /// Notes that the thread that was to go on doesn't come to its next step.
    pub(crate) fn give_up(&mut self) {
        self.ending = Some(Ending::Lost);
    }

    /// Returns whether the latest sleep had a reason to end.
    pub(crate) fn was_woken(&self) -> bool {
        self.places.was_woken()
    }

    /// Returns whether the schedule was cut off, since it is like one that was tried.
    pub(crate) fn is_like_another(&self) -> bool {
        self.path.is_like_another()
    }

    /// Returns the steps that were taken.
    pub(crate) fn log(&self) -> &Vec<Taken> {
        &self.log
    }

    /// Returns what a thread does next.
    pub(crate) fn next(&self, thread: usize) -> Next {
        next_of(&self.next, thread)
    }

    /// Notes what the thread that goes on does next, and chooses the one that goes on then.
    pub(crate) fn reach(&mut self, next: Next) {
        self.set_next(self.current, next);
        self.pass_on(Some(self.current));
    }

    /// Notes that the thread that goes on has done all, and chooses the one that goes on then.
    pub(crate) fn finish(&mut self) {
        self.set_next(self.current, Next::Nothing);
        self.pass_on(None);
    }

    /// Goes to the next schedule, and returns whether there is one.
    pub(crate) fn go_back(&mut self) -> bool {
        self.path.go_back()
    }

    /// Notes what a thread does next.
    fn set_next(&mut self, thread: usize, next: Next) {
        if let Some(place) = self.next.get_mut(thread) {
            *place = next;
        }
    }

    /// Chooses the thread that goes on, or ends the schedule.
    fn pass_on(&mut self, before: Option<usize>) {
        let able = self.able();
        if self.log.len() >= MOST_TURNS {
            self.ending = Some(Ending::Endless);
            return;
        }
        match self.path.choose(&able, before, &self.next) {
            Some(thread) => self.take(thread),
            None => self.ending = Some(self.ending_without()),
        }
    }

    /// Has the thread do what it does next.
    fn take(&mut self, thread: usize) {
        self.current = thread;
        let step = next_of(&self.next, thread);
        if !matches!(step, Next::Begin) {
            self.places.go_on(step);
            let _noted = self.log.push(Taken { thread, step });
        }
    }

    /// Returns how a schedule ends in which no thread goes on.
    fn ending_without(&self) -> Ending {
        let is_done = self.next.iter().all(|next| matches!(next, Next::Nothing));
        if is_done { Ending::Done } else { Ending::Stuck }
    }

    /// Returns the threads that can go on. A sleep that may end for no reason isn't waited for: it counts only if another
    /// thread can go on.
    fn able(&self) -> ThreadSet {
        let mut able = ThreadSet::new();
        let mut able_or_dozing = ThreadSet::new();
        for thread in 0..MOST {
            let next = next_of(&self.next, thread);
            let can_go_on = self.places.can_go_on(next);
            able.put(thread, can_go_on);
            able_or_dozing.put(thread, can_go_on || self.places.can_doze(next));
        }
        if able.is_empty() {
            able
        } else {
            able_or_dozing
        }
    }
}
