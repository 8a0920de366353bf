// SPDX-License-Identifier: MIT
//! What the threads of a round share besides what they work on, and what they did.

use crate::measure::picos_of;
use std::alloc::{AllocError, Global};
use std::io;
use std::sync::atomic::{AtomicU64, Ordering};
use std::sync::{Barrier, Wait};
use std::time::{Clock, Instant};

/// The line from which threads start together, when the first of them left it, when the last one was done, and how often they
/// did what they should.
#[derive(Drop)]
pub(crate) struct Team {
    line: Barrier,
    since: Instant,
    begun: AtomicU64,
    ended: AtomicU64,
    done: AtomicU64,
}

impl Team {
    /// Returns a team that starts when `threads` threads have come to the line.
    pub(crate) fn new<R: Clock>(rt: &R, threads: u16) -> io::Result<Team> {
        Ok(Team {
            line: Barrier::new(usize::from(threads)),
            since: Instant::now(rt)?,
            begun: AtomicU64::new(u64::MAX),
            ended: AtomicU64::new(0),
            done: AtomicU64::new(0),
        })
    }

    /// Returns the nanoseconds since the team was made.
    fn now<R: Clock>(&self, rt: &R) -> u64 {
        match self.since.elapsed(rt) {
            Ok(elapsed) => u64::try_from(elapsed.as_nanos()).unwrap_or(0),
            Err(_) => 0,
        }
    }

    /// Waits for the others at the line, and begins.
    pub(crate) fn begin<R: Clock + Wait>(&self, rt: &R) {
        self.line.wait(rt);
        self.begun.fetch_min(self.now(rt), Ordering::SeqCst);
    }

    /// Notes that the thread is done, and how often it did what it should.
    pub(crate) fn end<R: Clock>(&self, rt: &R, done: u64) {
        self.ended.fetch_max(self.now(rt), Ordering::SeqCst);
        self.done.fetch_add(done, Ordering::SeqCst);
    }

    /// Returns what the threads did.
    pub(crate) fn round(&self) -> Round {
        let (begun, ended) = (
            self.begun.load(Ordering::SeqCst),
            self.ended.load(Ordering::SeqCst),
        );
        Round {
            nanos: ended.saturating_sub(begun),
            done: self.done.load(Ordering::SeqCst),
        }
    }
}

/// What the threads of one round did.
#[derive(Clone, Copy)]
pub(crate) struct Round {
    /// The nanoseconds from the first thread's beginning to the last one's end.
    pub nanos: u64,
    /// How often they did what they should.
    pub done: u64,
}

/// What the rounds of one row took.
#[derive(Drop)]
pub(crate) struct Rounds {
    /// The picoseconds of each round for each time, in rising order.
    picos: Vec<u64>,
    /// How often the work was done in all rounds.
    pub done: u64,
}

impl Rounds {
    /// Returns rounds of nothing yet.
    pub(crate) fn new(alloc: Global) -> Rounds {
        Rounds {
            picos: Vec::new(alloc),
            done: 0,
        }
    }

    /// Adds a round.
    pub(crate) fn add(&mut self, round: Round) -> Result<(), AllocError> {
        self.picos.push(picos_of(round.nanos, round.done))?;
        self.picos.sort_unstable();
        self.done = self.done.saturating_add(round.done);
        Ok(())
    }

    /// Returns the picoseconds for each time, in the median round.
    pub(crate) fn median(&self) -> u64 {
        let middle = self.picos.len() / 2;
        self.picos.get(middle).copied().unwrap_or(0)
    }

    /// Returns the same for the best round.
    pub(crate) fn lowest(&self) -> u64 {
        self.picos.first().copied().unwrap_or(0)
    }

    /// Returns the same for the worst round.
    pub(crate) fn highest(&self) -> u64 {
        self.picos.last().copied().unwrap_or(0)
    }
}
