// SPDX-License-Identifier: MIT
//! What the threads of a run share.

use crate::tally::Tally;
use crate::turns::Turns;
use std::alloc::{AllocError, Global};
use std::sync::atomic::{AtomicBool, AtomicU64, Ordering};
use std::sync::{Arc, Wait};
use std::thread::Parker;
use std::time::Duration;

/// How many milliseconds the host of an object sleeps at most before it looks anew.
const PAUSE: u64 = 20;

/// How many milliseconds pass before it is looked whether callers wait for ever.
const LOOK: u64 = 5;

/// Who waits at an object, as its host counted.
#[derive(Drop)]
pub(crate) struct Lookout {
    /// Its host sleeps here.
    host: Parker,
    /// Which count the host did last.
    round: AtomicU64,
    /// How many calls waited then.
    waiting: AtomicU64,
}

impl Lookout {
    fn new() -> Lookout {
        Lookout {
            host: Parker::new(),
            round: AtomicU64::new(0),
            waiting: AtomicU64::new(0),
        }
    }
}

/// How far a run is.
#[derive(Drop)]
pub(crate) struct Course {
    /// By caller.
    turns: Vec<Turns>,
    /// By object.
    lookouts: Vec<Lookout>,
    /// The thread that watches over the run sleeps here until it is over.
    watcher: Parker,
    /// It sleeps here while the hosts count.
    counter: Parker,
    /// How many objects are open, with threads for their callers.
    ready: AtomicU64,
    /// Which count is asked for.
    round: AtomicU64,
    /// Whether the run ends before all steps are done.
    is_stopped: AtomicBool,
    /// Whether memory ran out, or a thread couldn't be started.
    is_short: AtomicBool,
    pub(crate) tally: Arc<Tally>,
}

impl Course {
    /// Returns the course of a run that hasn't begun. Fails if memory runs out.
    pub(crate) fn new(
        alloc: Global,
        turns: Vec<Turns>,
        objects: usize,
        tally: Arc<Tally>,
    ) -> Result<Course, AllocError> {
        let mut lookouts = Vec::with_capacity(alloc, objects)?;
        for _ in 0..objects {
            lookouts.push(Lookout::new())?;
        }
        Ok(Course {
            turns,
            lookouts,
            watcher: Parker::new(),
            counter: Parker::new(),
            ready: AtomicU64::new(0),
            round: AtomicU64::new(0),
            is_stopped: AtomicBool::new(false),
            is_short: AtomicBool::new(false),
            tally,
        })
    }

    /// Returns whether all callers have done all their steps.
    pub(crate) fn is_over(&self) -> bool {
        self.turns.iter().all(|turns| turns.is_over())
    }

    /// Returns whether the run ends before all steps are done.
    pub(crate) fn is_stopped(&self) -> bool {
        self.is_stopped.load(Ordering::SeqCst)
    }

    /// Returns whether memory ran out, or a thread couldn't be started.
    pub(crate) fn is_short(&self) -> bool {
        self.is_short.load(Ordering::SeqCst)
    }

    /// Ends the run before all steps are done.
    pub(crate) fn stop(&self) {
        self.is_stopped.store(true, Ordering::SeqCst);
        self.wake_all();
    }

    /// Ends the run since memory ran out, or a thread couldn't be started.
    pub(crate) fn give_up(&self) {
        self.is_short.store(true, Ordering::SeqCst);
        self.stop();
    }

    /// Wakes all threads.
    fn wake_all(&self) {
        for turns in self.turns.iter() {
            turns.wake_all();
        }
        self.wake_watcher();
    }

    /// Wakes the hosts of all objects, and the thread that watches over the run.
    fn wake_watcher(&self) {
        self.wake_hosts();
        self.watcher.unpark();
        self.counter.unpark();
    }

    /// Wakes the hosts of all objects.
    fn wake_hosts(&self) {
        for lookout in self.lookouts.iter() {
            lookout.host.unpark();
        }
    }

    /// Notes that one more object is open. Callers begin once all are.
    pub(crate) fn note_ready(&self) {
        self.ready.fetch_add(1, Ordering::SeqCst);
        if self.has_begun() {
            self.wake_all();
        }
    }

    /// Returns whether all objects are open.
    fn has_begun(&self) -> bool {
        self.ready.load(Ordering::SeqCst) >= self.lookouts.len() as u64
    }

    /// Returns whether the turn with this number has come for the caller.
    fn has_turn(&self, caller: u16, number: u64) -> bool {
        match self.turns.get(usize::from(caller)) {
            Some(turns) => self.has_begun() && turns.done() == number,
            None => false,
        }
    }

    /// Has the thread of the caller at this object sleep until it is woken, or for a while.
    fn sleep<W: Wait>(&self, rt: &W, caller: u16, object: u16) {
        if let Some(turns) = self.turns.get(usize::from(caller)) {
            turns.sleep(rt, object);
        }
    }

    /// Waits until the turn with this number has come for the caller. Returns false if the run ends before that.
    pub(crate) fn await_turn<W: Wait>(
        &self,
        rt: &W,
        caller: u16,
        object: u16,
        number: u64,
    ) -> bool {
        for _ in rt.forever() {
            if self.is_stopped() {
                return false;
            }
            if self.has_turn(caller, number) {
                return true;
            }
            self.sleep(rt, caller, object);
        }
        unreachable!()
    }

    /// Notes that a step of the caller is done. The next one is at the object with this position.
    pub(crate) fn advance(&self, caller: u16, next: u16) {
        let Some(turns) = self.turns.get(usize::from(caller)) else {
            return;
        };
        turns.advance(next);
        if turns.is_over() && self.is_over() {
            self.wake_watcher();
        }
    }

    /// Returns how many steps are done.
    fn moves(&self) -> u64 {
        let mut moves = 0u64;
        for turns in self.turns.iter() {
            moves = moves.saturating_add(turns.done());
        }
        moves
    }

    /// Returns whether the caller has steps that aren't done.
    pub(crate) fn is_under_way(&self, caller: usize) -> bool {
        match self.turns.get(caller) {
            Some(turns) => !turns.is_over(),
            None => false,
        }
    }

    /// Returns how many steps of the caller are done.
    pub(crate) fn done(&self, caller: usize) -> u64 {
        match self.turns.get(caller) {
            Some(turns) => turns.done(),
            None => 0,
        }
    }

    /// Returns how many callers have steps that aren't done.
    fn under_way(&self) -> u64 {
        let mut count = 0u64;
        for turns in self.turns.iter() {
            if !turns.is_over() {
                count = count.saturating_add(1);
            }
        }
        count
    }

    /// Returns which count is asked for.
    pub(crate) fn round(&self) -> u64 {
        self.round.load(Ordering::SeqCst)
    }

    /// Notes how many calls wait at the object with this position, counted after this count was asked for.
    pub(crate) fn note_waiting(&self, object: u16, round: u64, waiting: u64) {
        if let Some(lookout) = self.lookouts.get(usize::from(object)) {
            lookout.waiting.store(waiting, Ordering::SeqCst);
            lookout.round.store(round, Ordering::SeqCst);
            self.counter.unpark();
        }
    }

    /// Has the host of the object with this position sleep until it is woken, or for a while.
    pub(crate) fn sleep_as_host<W: Wait>(&self, rt: &W, object: u16) {
        if let Some(lookout) = self.lookouts.get(usize::from(object)) {
            lookout.host.park_timeout(rt, Duration::from_millis(PAUSE));
        }
    }

    /// Has the thread that watches over the run sleep until it is over, or for a while.
    pub(crate) fn sleep_as_watcher<W: Wait>(&self, rt: &W) {
        self.watcher.park_timeout(rt, Duration::from_millis(LOOK));
    }

    /// Returns whether all hosts have done this count.
    fn is_counted(&self, round: u64) -> bool {
        self.lookouts
            .iter()
            .all(|lookout| lookout.round.load(Ordering::SeqCst) >= round)
    }

    /// Returns how many calls waited at all objects.
    fn waiting(&self) -> u64 {
        let mut waiting = 0u64;
        for lookout in self.lookouts.iter() {
            waiting = waiting.saturating_add(lookout.waiting.load(Ordering::SeqCst));
        }
        waiting
    }

    /// Has all hosts count anew, and returns how many calls wait. Returns none if the run is over, or ends, before that.
    fn count<W: Wait>(&self, rt: &W) -> Option<u64> {
        let round = self.round.fetch_add(1, Ordering::SeqCst).saturating_add(1);
        self.wake_hosts();
        for _ in rt.forever() {
            if self.is_over() || self.is_stopped() {
                return None;
            }
            if self.is_counted(round) {
                return Some(self.waiting());
            }
            self.counter.park_timeout(rt, Duration::from_millis(LOOK));
        }
        unreachable!()
    }

    /// Returns whether callers wait for ever: whether each caller that has steps left has a call that waits.
    ///
    /// The objects aren't looked at in one moment, so they are counted twice. If no step was done meanwhile, and each time as many
    /// calls waited as callers have steps left, then each of these calls waited all the time between the two counts. Only a caller
    /// ends a wait, so none ends any more.
    pub(crate) fn is_stuck<W: Wait>(&self, rt: &W) -> bool {
        let (moves, callers) = (self.moves(), self.under_way());
        callers > 0
            && self.count(rt) == Some(callers)
            && self.count(rt) == Some(callers)
            && self.moves() == moves
    }
}
