// SPDX-License-Identifier: MIT
//! The lines of the program.

use crate::measure::Measure;
use crate::plan::Plan;
use std::io::{self, Print};

/// Ends a line whose name and count are printed. If only counts are printed, it adds nothing more, otherwise the nanoseconds of
/// each of the times, which are picoseconds, and the ratio of the first time to the unit.
pub(crate) fn end_line<R: Print>(rt: &R, plan: &Plan, times: &[u64], unit: u64) -> io::Result<()> {
    if plan.times {
        for picos in times {
            print!(rt; " {}.{}", picos / 1_000, picos / 100 % 10)?;
        }
        let first = times.first().copied().unwrap_or(0);
        let ratio = first.saturating_mul(100).checked_div(unit).unwrap_or(0);
        print!(rt; " {}.{:02}", ratio / 100, ratio % 100)?;
    }
    println!(rt;)
}

/// Prints a measurement: its name, its commands, the nanoseconds of one command, and their ratio to those of the unit.
pub(crate) fn line<R: Print>(
    rt: &R,
    plan: &Plan,
    name: &str,
    measure: Measure,
    unit: Measure,
) -> io::Result<()> {
    print!(rt; "{name} {}", measure.commands)?;
    end_line(rt, plan, &[measure.picos], unit.picos)
}

/// Prints a measurement at two sizes. The second line's ratio is that of the second size to the first.
pub(crate) fn pair<R: Print>(
    rt: &R,
    plan: &Plan,
    name: &str,
    few: (u64, Measure),
    many: (u64, Measure),
) -> io::Result<()> {
    for (size, measure) in [few, many] {
        print!(rt; "{name}/{size} {}", measure.commands)?;
        end_line(rt, plan, &[measure.picos], few.1.picos)?;
    }
    Ok(())
}
