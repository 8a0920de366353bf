// SPDX-License-Identifier: MIT
//! Runs of three threads that meet ten times, whose allocations are refused: such a run ends because memory runs out, and one
//! made after it agrees. One run is over an object that records its history, the other over one with fixed memory.

use crate::refusals::Refusals;
use po_streams::OverStd;
use po_stress::{Progress, StressError, StressUnit, stress_bounded, stress_watched};
use std::io::{self, Print};
use std::sync::{Arc, Wait};
use std::thread::Threads;

/// Has three threads meet ten times, at an object with fixed memory or at one that records its history, and prints the run's
/// line.
fn meet<R: Threads + Wait + Print + AllocGlobal + Copy + Send + 'static>(
    rt: R,
    is_bounded: bool,
) -> Result<(), StressError> {
    let Ok(progress) = Arc::new(rt.alloc(), Progress::new()) else {
        return Err(StressError::OutOfMemory);
    };
    let mut output = OverStd::new(io::writer(&rt));
    if is_bounded {
        let totals = stress_bounded(rt, &progress, StressUnit::Meeting, 3, 10)?;
        let _status = totals.write(&mut output);
    } else {
        let report = stress_watched(rt, &progress, StressUnit::Meeting, 3, 10)?;
        let _status = report.write(&mut output);
    }
    Ok(())
}

/// Has them meet, once more if memory runs out, and counts how often it does.
fn meet_again<R: Threads + Wait + Print + AllocGlobal + Copy + Send + 'static>(
    rt: R,
    is_bounded: bool,
    refusals: &mut Refusals,
) -> io::Result<()> {
    for _ in 0..2 {
        match meet(rt, is_bounded) {
            Ok(()) => return Ok(()),
            Err(StressError::OutOfMemory) => refusals.note(true),
            Err(fault) => println!(rt; "{fault}")?,
        }
    }
    println!(rt; "refused twice")
}

/// Makes both runs, and counts how often memory runs out.
pub(crate) fn run<R: Threads + Wait + Print + AllocGlobal + Copy + Send + 'static>(
    rt: R,
    refusals: &mut Refusals,
) -> io::Result<()> {
    meet_again(rt, false, refusals)?;
    meet_again(rt, true, refusals)
}
