// SPDX-License-Identifier: MIT
//! Reports made by hand, and sinks that don't take a whole line.

use crate::sinks::Narrow;
use po_object::{Agreed, ReconcileError};
use po_streams::OverStd;
use po_stress::{Report, Totals};
use std::io::{self, Print, Write};

/// Returns a report with this verdict.
fn report(verdict: Result<Agreed, ReconcileError>) -> Report {
    Report {
        issued: 3,
        completed: 1,
        cancelled: 2,
        program_error: 0,
        verdict,
    }
}

/// Prints what a sink takes of a report's line if it has room for `room` bytes, and what `write` answers.
fn print_line<R: Print + AllocGlobal>(
    rt: &R,
    report: &Report,
    room: usize,
    fails: bool,
) -> io::Result<()> {
    let mut sink = Narrow::new(rt.alloc(), room, fails);
    let answer = report.write(&mut sink);
    io::writer(rt).write_all(sink.bytes.as_slice())?;
    println!(rt; "{answer:?}")
}

/// Prints the line of numbers that don't agree: three calls were issued, and two of them ended.
fn print_difference<R: Print>(rt: &R) -> io::Result<()> {
    let totals = Totals {
        issued: 3,
        completed: 1,
        cancelled: 1,
        program_error: 0,
    };
    let answer = totals.write(&mut OverStd::new(io::writer(rt)));
    println!(rt; "{answer:?}")
}

/// Prints the lines of all kinds of reports, and of sinks that end in the middle of one.
pub(crate) fn print_all<R: Print + AllocGlobal>(rt: &R) -> io::Result<()> {
    let agreed = report(Ok(Agreed));
    print_line(rt, &agreed, 1000, true)?;
    print_line(
        rt,
        &report(Err(ReconcileError::Mismatch { seat: 1, place: 0 })),
        1000,
        true,
    )?;
    print_line(
        rt,
        &report(Err(ReconcileError::Gap { place: 5 })),
        1000,
        true,
    )?;
    print_line(rt, &agreed, 20, true)?;
    print_line(rt, &agreed, 20, false)?;
    print_difference(rt)
}
