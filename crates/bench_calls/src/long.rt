// SPDX-License-Identifier: MIT
//! Makes many calls on one core with fixed memory, to show that this memory doesn't grow.

use crate::commands::Command;
use crate::measure::Measure;
use crate::plan::{MANY, Plan, ROUNDS};
use crate::report::line;
use po_classic_units::Trap;
use po_core::BoundedCore;
use std::io::{self, Print};
use std::time::Clock;

/// Issues and collects `calls` calls on one core with fixed memory, and prints what one of them
/// took.
pub(crate) fn print<R: Print + Clock + AllocGlobal>(rt: &R, calls: u64) -> io::Result<()> {
    let mut all = Measure::new();
    Command::Call.measure_alone::<BoundedCore<Trap>, R>(rt, calls, &mut all)?;
    line(rt, &Plan::full(MANY, ROUNDS), "bounded", all, all)
}
