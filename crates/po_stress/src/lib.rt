// SPDX-License-Identifier: MIT
//! Loads a protected object: many threads call it, and then all their answers are compared with its history.
//!
//! `stress` makes a run over an object that records its history and gives its `Report`; `stress_watched` does the same while
//! another thread watches the run's `Progress`. `stress_bounded` makes a run over an object with fixed memory and gives its
//! `Totals`. A `StressUnit` says which unit is loaded and what its threads do.
//!
//! Begin with runs.rt, whose contracts specs/Runs.antt and specs/BoundedRuns.antt define. Then job.rt has what each thread
//! does, and run.rt has a run from its first call to its closing.
#![tactic(auto)]

mod balance;
mod caller;
mod counting;
mod ends;
mod error;
mod job;
mod kinds;
mod loaded;
mod piece;
mod progress;
mod report;
mod run;
mod runs;
mod sums;
mod threads;
mod totals;
mod unit;

pub use error::StressError;
pub use progress::Progress;
pub use report::Report;
pub use runs::{MOST_CALLS, MOST_THREADS, stress, stress_bounded, stress_watched};
pub use totals::Totals;
pub use unit::StressUnit;
