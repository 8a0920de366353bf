// SPDX-License-Identifier: MIT
//! `pobj stress`: many threads call one object, and their answers are compared with its history, or the numbers of calls are.

ghost use Rattle.std.specs.Prelude.{◌≤◌};
ghost use Rattle.po_stress.specs.declared.runs.TheConstants.{MOST_THREADS, MOST_CALLS};

use crate::asked::refuse_load;
use crate::watch::Watch;
use po_command_line::CommandError;
use po_language::RunError;
use po_streams::{IoFailed, OverStd, Sink};
use po_stress::{
    Progress, Report, StressError, StressUnit, Totals, stress_bounded, stress_watched,
};
use std::io::{self, BufWriter, Eprint, Print, Write};
use std::sync::{Arc, Wait};
use std::thread::Threads;

/// The exit status if the values taken out aren't those put in.
const UNBALANCED: u8 = 3;

/// What a run is asked to do.
#[derive(Clone, Copy)]
pub(crate) struct Load {
    pub(crate) unit: StressUnit,
    pub(crate) threads: u16,
    pub(crate) calls: u32,
    pub(crate) is_bounded: bool,
    pub(crate) ghost threads_within: { (1 ≤ threads) × (threads ≤ MOST_THREADS) },
    pub(crate) ghost calls_within: { (1 ≤ calls) × (calls ≤ MOST_CALLS) },
}

/// The result of a run.
#[derive(Clone, Copy)]
enum Told {
    /// All answers were compared with the history.
    Answers(Report),
    /// The memory was fixed, and the numbers were compared.
    Numbers(Totals),
}

impl Told {
    /// Writes its line, and returns the status.
    fn write<W: Sink>(&self, writer: &mut W) -> Result<u8, IoFailed> {
        match self {
            Told::Answers(report) => report.write(writer),
            Told::Numbers(totals) => totals.write(writer),
        }
    }
}

/// Writes the line of a run to standard output, and returns the status.
fn write<R: Print + AllocGlobal>(rt: &R, told: &Told) -> Result<u8, RunError> {
    let Ok(output) = BufWriter::new(rt.alloc(), io::writer(rt)) else {
        return Err(RunError::Memory);
    };
    let mut writer = OverStd::new(output);
    let written = told.write(&mut writer);
    match (written, writer.into_inner().flush()) {
        (Ok(status), Ok(())) => Ok(status),
        _ => Err(RunError::Write),
    }
}

/// Carries out the run.
fn carry_out<R: Threads + Wait + AllocGlobal + Copy + Send + 'static>(
    rt: R,
    progress: &Arc<Progress>,
    load: Load,
) -> Result<Told, StressError> {
    let Load {
        unit,
        threads,
        calls,
        is_bounded,
    } = load;
    if is_bounded {
        Ok(Told::Numbers(stress_bounded(rt, progress, unit, threads, calls)?))
    } else {
        Ok(Told::Answers(stress_watched(rt, progress, unit, threads, calls)?))
    }
}

/// Returns this status if the values taken out are those put in. If not, says so on standard error, and returns `UNBALANCED`.
fn balanced<R: Eprint>(rt: &R, progress: &Progress, status: u8) -> u8 {
    if progress.is_balanced() {
        return status;
    }
    // If standard error can't be written to, the status alone says so.
    let _told = eprintln!(rt; "pobj: what the threads got isn't what they put");
    UNBALANCED
}

/// Carries out the run, writes its line, and returns the status. On a terminal it shows meanwhile how far the run has come.
pub(crate) fn run<R: Print + Eprint + Threads + Wait + AllocGlobal + Copy + Send + 'static>(
    rt: R,
    load: Load,
    terminal: bool,
) -> Result<u8, CommandError> {
    let Ok(progress) = Arc::new(rt.alloc(), Progress::new()) else {
        return Err(CommandError::Run(RunError::Memory));
    };
    let watch = if terminal {
        Watch::start(rt, &progress)
    } else {
        None
    };
    let told = carry_out(rt, &progress, load);
    if let Some(watch) = watch {
        watch.stop(&rt);
    }
    match told {
        Ok(told) => Ok(balanced(&rt, &progress, write(&rt, &told)?)),
        Err(StressError::OutOfMemory) => Err(CommandError::Run(RunError::Memory)),
        Err(fault) => {
            let reason = format!(in rt.alloc(); "{fault}")?;
            Err(CommandError::from(refuse_load(rt.alloc(), reason.as_str())?))
        }
    }
}
