// SPDX-License-Identifier: MIT
//! Runs of scenes in which each caller is a thread.
//!
//! `stress_scene` makes the objects of a scene, and has each caller carry out its commands at the same time as the others, again and
//! again. Each object keeps its history, and when a run is over, each answer that a caller got is compared with it, as `po_stress`
//! does. The report tells how often callers waited for ever, and which commands raised exceptions.
//!
//! A seat of an object belongs to one thread, so a caller is a thread for each object that it calls; these take turns. One more thread
//! for each object hosts it: it opens and closes the object, and counts who waits. `Course` is what all threads of a run share.
//!
//! Begin with run.rt, then host.rt and job.rt.
#![tactic(auto)]

mod course;
mod host;
mod job;
mod report;
mod run;
mod step;
mod tally;
mod turns;

pub use crate::report::{Report, Verdict};
pub use crate::run::{MOST_RUNS, stress_scene};
