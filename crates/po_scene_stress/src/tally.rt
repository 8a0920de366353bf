// SPDX-License-Identifier: MIT
//! What is counted over all runs of a scene.

use po_scene::Scene;
use po_stress::Report;
use std::alloc::{AllocError, Global};
use std::sync::atomic::{AtomicU64, Ordering};

/// What the commands of a line came to.
#[derive(Drop)]
pub(crate) struct Mark {
    /// How many of them raised an exception.
    raised: AtomicU64,
    /// The last exception.
    exception: AtomicU64,
    /// How many of them ended by Program_Error.
    failed: AtomicU64,
    /// How many of them were refused.
    refused: AtomicU64,
}

/// How a command came to an end that is told.
#[derive(Clone, Copy)]
pub(crate) enum Mishap {
    /// It raised this exception.
    Raised(u32),
    /// It ended by Program_Error (9.4, 9.5.3).
    Failed,
    /// It was refused.
    Refused,
}

impl Mark {
    fn new() -> Mark {
        Mark {
            raised: AtomicU64::new(0),
            exception: AtomicU64::new(0),
            failed: AtomicU64::new(0),
            refused: AtomicU64::new(0),
        }
    }

    /// Counts a mishap.
    fn count(&self, mishap: Mishap) {
        match mishap {
            Mishap::Raised(exception) => {
                self.exception.store(u64::from(exception), Ordering::SeqCst);
                self.raised.fetch_add(1, Ordering::SeqCst);
            }
            Mishap::Failed => {
                self.failed.fetch_add(1, Ordering::SeqCst);
            }
            Mishap::Refused => {
                self.refused.fetch_add(1, Ordering::SeqCst);
            }
        }
    }

    /// Returns how many commands raised an exception, and the last of these.
    pub(crate) fn raised(&self) -> (u64, u32) {
        let exception = self.exception.load(Ordering::SeqCst);
        (
            self.raised.load(Ordering::SeqCst),
            u32::try_from(exception).unwrap_or(0),
        )
    }

    /// Returns how many commands ended by Program_Error.
    pub(crate) fn failed(&self) -> u64 {
        self.failed.load(Ordering::SeqCst)
    }

    /// Returns how many commands were refused.
    pub(crate) fn refused(&self) -> u64 {
        self.refused.load(Ordering::SeqCst)
    }
}

/// What is counted over all runs of a scene, by all threads.
#[derive(Drop)]
pub(crate) struct Tally {
    /// By line of the scene.
    marks: Vec<Mark>,
    /// By object: after how many commands its invariant didn't hold.
    broken: Vec<AtomicU64>,
    /// How many calls the histories have.
    calls: AtomicU64,
    /// How many objects had answers that differ from their histories.
    different: AtomicU64,
}

impl Tally {
    /// Returns the tally before the first run. Fails if memory runs out.
    pub(crate) fn new(alloc: Global, scene: &Scene) -> Result<Tally, AllocError> {
        let mut marks = Vec::with_capacity(alloc, scene.lines.len())?;
        for _ in 0..scene.lines.len() {
            marks.push(Mark::new())?;
        }
        let mut broken = Vec::with_capacity(alloc, scene.objects.len())?;
        for _ in 0..scene.objects.len() {
            broken.push(AtomicU64::new(0))?;
        }
        Ok(Tally {
            marks,
            broken,
            calls: AtomicU64::new(0),
            different: AtomicU64::new(0),
        })
    }

    /// Counts a mishap of a command of the line with this position.
    pub(crate) fn count(&self, line: usize, mishap: Mishap) {
        if let Some(mark) = self.marks.get(line) {
            mark.count(mishap);
        }
    }

    /// Counts that the invariant of the object with this position didn't hold.
    pub(crate) fn count_broken(&self, object: u16) {
        if let Some(broken) = self.broken.get(usize::from(object)) {
            broken.fetch_add(1, Ordering::SeqCst);
        }
    }

    /// Adds what is said of a closed object.
    pub(crate) fn add(&self, report: Report) {
        self.calls.fetch_add(report.issued, Ordering::SeqCst);
        if report.verdict.is_err() {
            self.different.fetch_add(1, Ordering::SeqCst);
        }
    }

    /// Returns what the commands of the lines came to.
    pub(crate) fn marks(&self) -> &[Mark] {
        self.marks.as_slice()
    }

    /// Returns after how many commands the invariant of the object with this position didn't hold.
    pub(crate) fn broken(&self, object: usize) -> u64 {
        match self.broken.get(object) {
            Some(broken) => broken.load(Ordering::SeqCst),
            None => 0,
        }
    }

    /// Returns how many calls the histories have.
    pub(crate) fn calls(&self) -> u64 {
        self.calls.load(Ordering::SeqCst)
    }

    /// Returns whether all answers were those of the histories.
    pub(crate) fn agrees(&self) -> bool {
        self.different.load(Ordering::SeqCst) == 0
    }
}
