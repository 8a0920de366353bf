// SPDX-License-Identifier: MIT
//! A unit that doesn't come with the runtime, as an example of one of your own: a latch.
//!
//! Calls on the entry of a `Latch` wait until it has had a given number of arrivals.
//! docs/YOUR_UNIT.md goes through this crate step by step, and says how to copy it.
//!
//! Begin with latch.rt: the Ada text of the unit, its data, its operations and its tests.
//! specs/Latch.antt says what the operations mean, and the prover checks that the code does that.
#![tactic(auto)]

mod latch;

pub use latch::Latch;
