// SPDX-License-Identifier: MIT
//! Commands, in batches.

use crate::engine::{Engine, make_trap};
use crate::measure::Measure;
use po_classic_units::Trap;
use po_core::{Deadline, End};
use std::io;
use std::time::{Clock, Instant};

/// A level of the trap at which the entries of its family are open.
pub(crate) const OPEN: u64 = 3;

/// A command.
#[derive(Clone, Copy)]
pub(crate) enum Command {
    /// A call on the first entry, which is open, and its collection.
    Call,
    /// The same as a conditional call, which is cancelled if the entry is closed (9.7.3).
    Conditional,
    /// The first procedure, with this value.
    Run(u64),
    /// A rise of the clock by 1.
    Tick,
}

impl Command {
    /// Carries the command out, and returns whether it did what it should.
    fn carry_out<E: Engine>(self, engine: &mut E) -> bool {
        match self {
            Command::Call => matches!(engine.call(Deadline::Never), Some(End::Completed(_))),
            Command::Conditional => matches!(engine.call(Deadline::At(0)), Some(End::Cancelled)),
            Command::Run(value) => engine.run(value),
            Command::Tick => engine.raise_clock(),
        }
    }

    /// Carries the command out `times` times, and returns how often it did what it should.
    pub(crate) fn repeat<E: Engine>(self, engine: &mut E, times: u64) -> u64 {
        let mut done = 0u64;
        for _ in 0..times {
            if self.carry_out(engine) {
                done = done.saturating_add(1);
            }
        }
        done
    }

    /// Adds a batch of the command to the measure.
    pub(crate) fn measure<E: Engine, R: Clock>(
        self,
        rt: &R,
        engine: &mut E,
        times: u64,
        measure: &mut Measure,
    ) -> io::Result<()> {
        let start = Instant::now(rt)?;
        let done = self.repeat(engine, times);
        measure.add(rt, start, done)
    }

    /// Makes an object whose first entry is open, and adds a batch of the command on it to the measure.
    pub(crate) fn measure_alone<E: Engine<Unit = Trap>, R: Clock + AllocGlobal>(
        self,
        rt: &R,
        times: u64,
        measure: &mut Measure,
    ) -> io::Result<()> {
        let mut engine: E = make_trap(rt.alloc())?;
        engine.run(OPEN);
        self.measure(rt, &mut engine, times, measure)
    }
}
