// SPDX-License-Identifier: MIT
//! Threads over an object: jobs that call it, each from a seat of its own, and a thread that raises its clock as time goes by.
//!
//! `start` starts a thread that does a `Job` with a shared `Object` and a `Pass`, and joining the thread gives the pass back.
//! `Ticker::start` starts the thread that ticks, so that timed calls expire; `Ticker::stop` ends it.
//!
//! Begin with job.rt and starting.rt. ticker.rt is what a program uses of the clock, and ticking.rt what its thread does.
#![tactic(auto)]

mod job;
mod starting;
mod ticker;
mod ticking;
mod watch;

pub use job::Job;
pub use starting::start;
pub use ticker::Ticker;
