// SPDX-License-Identifier: MIT
//! Runs whose report isn't just one line: races, and a run with one thread too many.

use po_stress::{Progress, StressError, StressUnit, stress, stress_bounded};
use std::io::{self, Print};
use std::sync::{Arc, Wait};
use std::thread::Threads;

/// Prints a race of eight threads. How many calls complete or are cancelled depends on the schedule, but together they are 800.
fn print_race<R: Threads + Wait + Print + AllocGlobal + Copy + Send + 'static>(
    rt: R,
) -> io::Result<()> {
    match stress(rt, StressUnit::Race, 8, 100) {
        Ok(report) => println!(rt;
            "race: issued {}, completed or cancelled {}, program_error {}, {:?}",
            report.issued,
            report.completed.saturating_add(report.cancelled),
            report.program_error,
            report.verdict
        ),
        Err(fault) => println!(rt; "race: {fault}"),
    }
}

/// Prints the same race on an object with fixed memory.
fn print_bounded_race<R: Threads + Wait + Print + AllocGlobal + Copy + Send + 'static>(
    rt: R,
) -> io::Result<()> {
    let progress = Arc::new(rt.alloc(), Progress::new())?;
    match stress_bounded(rt, &progress, StressUnit::Race, 8, 100) {
        Ok(totals) => println!(rt;
            "race with fixed memory: issued {}, completed or cancelled {}, program_error {}, {}",
            totals.issued,
            totals.completed.saturating_add(totals.cancelled),
            totals.program_error,
            totals.agree()
        ),
        Err(fault) => println!(rt; "race with fixed memory: {fault}"),
    }
}

/// Prints what is said about an odd number of threads.
fn print_odd<R: Threads + Wait + Print + AllocGlobal + Copy + Send + 'static>(
    rt: R,
    unit: StressUnit,
) -> io::Result<()> {
    match stress(rt, unit, 3, 10) {
        Ok(report) => println!(rt; "{unit:?}: issued {}", report.issued),
        Err(fault) => println!(rt; "{unit:?}: {fault:?}, {fault}"),
    }
}

/// Prints the runs.
pub(crate) fn print_all<R: Threads + Wait + Print + AllocGlobal + Copy + Send + 'static>(
    rt: R,
) -> io::Result<()> {
    print_race(rt)?;
    print_bounded_race(rt)?;
    print_odd(rt, StressUnit::Buffer)?;
    print_odd(rt, StressUnit::Race)?;
    print_odd(rt, StressUnit::Allocator)?;
    println!(rt; "{}", StressError::OutOfMemory)
}
