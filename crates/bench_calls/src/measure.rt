// SPDX-License-Identifier: MIT
//! What batches of commands took.

use std::io;
use std::time::{Clock, Instant};

/// What the batches of one measurement took.
#[derive(Clone, Copy)]
pub(crate) struct Measure {
    /// How many commands of all batches did what they should.
    pub commands: u64,
    /// How many nanoseconds all batches took.
    nanos: u64,
    /// How many picoseconds a command took in the batch, or series of batches, in which it took the least.
    pub picos: u64,
}

impl Measure {
    /// Returns a measure without a batch.
    pub(crate) fn new() -> Measure {
        Measure {
            commands: 0,
            nanos: 0,
            picos: u64::MAX,
        }
    }

    /// Adds a batch of `commands` commands, which began at `start` and ends now.
    pub(crate) fn add<R: Clock>(
        &mut self,
        rt: &R,
        start: Instant,
        commands: u64,
    ) -> io::Result<()> {
        self.count(nanos_since(rt, start)?, commands);
        Ok(())
    }

    /// Adds a series of batches as if it were one, so that the average over the series counts.
    pub(crate) fn add_series(&mut self, series: Measure) {
        self.count(series.nanos, series.commands);
    }

    /// Counts a batch of `commands` commands, which took `nanos` nanoseconds.
    pub(crate) fn count(&mut self, nanos: u64, commands: u64) {
        self.commands = self.commands.saturating_add(commands);
        self.nanos = self.nanos.saturating_add(nanos);
        self.picos = self.picos.min(picos_of(nanos, commands));
    }
}

/// Returns the nanoseconds since `start`.
pub(crate) fn nanos_since<R: Clock>(rt: &R, start: Instant) -> io::Result<u64> {
    let elapsed = start.elapsed(rt)?;
    Ok(u64::try_from(elapsed.as_nanos()).unwrap_or(u64::MAX))
}

/// Returns the picoseconds that one of `commands` commands took, or the largest number if there were none.
pub(crate) fn picos_of(nanos: u64, commands: u64) -> u64 {
    let picos = nanos.saturating_mul(1_000).checked_div(commands);
    picos.unwrap_or(u64::MAX)
}
