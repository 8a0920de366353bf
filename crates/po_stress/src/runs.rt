// SPDX-License-Identifier: MIT
//! The runs that load a unit.

ghost use Rattle.std.specs.Prelude.{◌≡◌, ◌≤◌, ◌%◌, ◌↔◌, Err, IfOk, IfErr, true};
ghost use Rattle.po_classic_units.specs.Sizes.{IsSize};
ghost use Rattle.po_classic_units.specs.Buffer.{buffer_meaning};
ghost use Rattle.po_classic_units.specs.Allocator.{allocator_meaning};
ghost use Rattle.po_classic_units.specs.Meeting.{meeting_meaning};
ghost use Rattle.po_stress.specs.Runs.{IsRun, IsRunOf};
ghost use Rattle.po_stress.specs.BoundedRuns.{IsBoundedRun, IsBoundedRunOf};
ghost use Rattle.po_stress.specs.Starts.{started};
ghost use Rattle.po_stress.specs.Units.{is_paired};

use crate::error::StressError;
use crate::job::Job;
use crate::kinds::{run, run_bounded};
use crate::progress::Progress;
use crate::report::Report;
use crate::totals::Totals;
use crate::unit::StressUnit;
use po_classic_units::{Allocator, Buffer, Meeting, ScriptUnit};
use po_object::Keeper;
use po_unit::Unit;
use std::alloc::AllocError;
use std::marker::Brand;
use std::sync::ledger::Blank;
use std::sync::{Arc, Wait};
use std::thread::Threads;

/// The most threads of a run.
pub const MOST_THREADS: u16 = 64;

/// The most calls of a thread.
pub const MOST_CALLS: u32 = 100_000;

/// How many values the buffer of a run has room for.
const CAPACITY: u16 = 4;

/// How many values the buffer of a race has room for.
const RACE_CAPACITY: u16 = 2;

/// How many pieces the allocator of a run has.
const PIECES: u16 = 3;

/// Runs threads over an object that records the history of this unit.
fn run_recorded<
    U: ScriptUnit + Unit<Value = u64> + Send + Sync + Drop + 'static,
    W: Threads + Wait + AllocGlobal + Copy + Send + 'static,
>(rt: W, unit: U, progress: &Arc<Progress>, job: Job, threads: u16) -> Result<Report, StressError>
    ensures report { IfOk result (IsRun U.meaning (started unit (U.known.declarations unit)) threads job.calls) }
    ensures fault { IfErr result (λ fault. fault ≡ StressError.OutOfMemory) }
{
    let shape = unit.shape(rt.alloc()).map_err(|_| AllocError)?;
    let parts = u64::from(threads) + 1;
    let (calls, procedures) = (Blank::new(parts), Blank::new(parts));
    run::<U, Brand, Brand, W>(
        rt,
        unit,
        shape,
        progress,
        job,
        threads,
        calls,
        procedures,
        Keeper::open(),
    )
}

/// Runs threads over an object of this unit with fixed memory, enough for one call of each thread.
fn run_fixed<
    U: ScriptUnit + Unit<Value = u64> + Send + Sync + Drop + 'static,
    W: Threads + Wait + AllocGlobal + Copy + Send + 'static,
>(rt: W, unit: U, progress: &Arc<Progress>, job: Job, threads: u16) -> Result<Totals, StressError>
    ensures totals { IfOk result (IsBoundedRun U.meaning (started unit (U.known.declarations unit)) threads job.calls) }
    ensures fault { IfErr result (λ fault. fault ≡ StressError.OutOfMemory) }
{
    let shape = unit.shape(rt.alloc()).map_err(|_| AllocError)?;
    let parts = u64::from(threads) + 1;
    let (calls, procedures, free) = (Blank::new(parts), Blank::new(parts), Blank::new(parts));
    run_bounded::<U, Brand, Brand, Brand, W>(
        rt,
        unit,
        shape,
        progress,
        job,
        threads,
        calls,
        procedures,
        free,
        Keeper::open(),
    )
}

/// Returns whether half of the unit's threads would wait for the other half, and their number is odd.
fn is_uneven(unit: StressUnit, threads: u16) -> bool
    ensures { (result ≡ true) ↔ ((is_paired unit ≡ true) × (threads % 2 ≡ 1)) }
{
    unit.is_paired() && threads % 2 == 1
}

/// Runs threads over an object of the unit.
fn load<W: Threads + Wait + AllocGlobal + Copy + Send + 'static>(
    rt: W,
    progress: &Arc<Progress>,
    unit: StressUnit,
    threads: u16,
    calls: u32,
) -> Result<Report, StressError>
    requires { (1 ≤ threads) × (threads ≤ MOST_THREADS) }
    ensures report { IfOk result (IsRunOf unit threads calls) }
    ensures fault { IfErr result (λ fault. fault ≡ StressError.OutOfMemory) }
{
    let job = Job { unit, calls };
    match unit {
        StressUnit::Buffer => run_recorded(
            rt,
            Buffer::new(rt.alloc(), CAPACITY)?,
            progress,
            job,
            threads,
        ),
        StressUnit::Allocator => run_recorded(rt, Allocator::new(PIECES), progress, job, threads),
        StressUnit::Meeting => run_recorded(rt, Meeting::new(threads), progress, job, threads),
        StressUnit::Race => run_recorded(
            rt,
            Buffer::new(rt.alloc(), RACE_CAPACITY)?,
            progress,
            job,
            threads,
        ),
    }
}

/// Runs threads over an object of the unit with fixed memory.
fn load_fixed<W: Threads + Wait + AllocGlobal + Copy + Send + 'static>(
    rt: W,
    progress: &Arc<Progress>,
    unit: StressUnit,
    threads: u16,
    calls: u32,
) -> Result<Totals, StressError>
    requires { (1 ≤ threads) × (threads ≤ MOST_THREADS) }
    ensures totals { IfOk result (IsBoundedRunOf unit threads calls) }
    ensures fault { IfErr result (λ fault. fault ≡ StressError.OutOfMemory) }
{
    let job = Job { unit, calls };
    match unit {
        StressUnit::Buffer => run_fixed(
            rt,
            Buffer::new(rt.alloc(), CAPACITY)?,
            progress,
            job,
            threads,
        ),
        StressUnit::Allocator => run_fixed(rt, Allocator::new(PIECES), progress, job, threads),
        StressUnit::Meeting => run_fixed(rt, Meeting::new(threads), progress, job, threads),
        StressUnit::Race => run_fixed(
            rt,
            Buffer::new(rt.alloc(), RACE_CAPACITY)?,
            progress,
            job,
            threads,
        ),
    }
}

/// Has `threads` threads make `calls` calls each on one object, closes it, and reports whether all their answers agree with the
/// object's history.
pub fn stress<W: Threads + Wait + AllocGlobal + Copy + Send + 'static>(
    rt: W,
    unit: StressUnit,
    threads: u16,
    calls: u32,
) -> Result<Report, StressError>
    requires threads { (1 ≤ threads) × (threads ≤ MOST_THREADS) }
    requires calls { (1 ≤ calls) × (calls ≤ MOST_CALLS) }
    // The run is refused exactly if half of the threads would wait for the other half and their number is odd.
    ensures odd { (result ≡ Err StressError.OddThreads) ↔ ((is_paired unit ≡ true) × (threads % 2 ≡ 1)) }
    ensures report { IfOk result (IsRunOf unit threads calls) }
{
    if is_uneven(unit, threads) {
        return Err(StressError::OddThreads);
    }
    let Ok(progress) = Arc::new(rt.alloc(), Progress::new()) else {
        return Err(StressError::OutOfMemory);
    };
    load(rt, &progress, unit, threads, calls)
}

/// Does what `stress` does, while another thread can watch how far the run has come.
pub fn stress_watched<W: Threads + Wait + AllocGlobal + Copy + Send + 'static>(
    rt: W,
    progress: &Arc<Progress>,
    unit: StressUnit,
    threads: u16,
    calls: u32,
) -> Result<Report, StressError>
    requires threads { (1 ≤ threads) × (threads ≤ MOST_THREADS) }
    requires calls { (1 ≤ calls) × (calls ≤ MOST_CALLS) }
    ensures odd { (result ≡ Err StressError.OddThreads) ↔ ((is_paired unit ≡ true) × (threads % 2 ≡ 1)) }
    ensures report { IfOk result (IsRunOf unit threads calls) }
{
    if is_uneven(unit, threads) {
        return Err(StressError::OddThreads);
    }
    load(rt, progress, unit, threads, calls)
}

/// Has `threads` threads make `calls` calls each on one object with fixed memory, closes it, and adds up how many calls its
/// core issued and how the threads' calls ended. Another thread can watch how far the run has come.
pub fn stress_bounded<W: Threads + Wait + AllocGlobal + Copy + Send + 'static>(
    rt: W,
    progress: &Arc<Progress>,
    unit: StressUnit,
    threads: u16,
    calls: u32,
) -> Result<Totals, StressError>
    requires threads { (1 ≤ threads) × (threads ≤ MOST_THREADS) }
    requires calls { (1 ≤ calls) × (calls ≤ MOST_CALLS) }
    ensures odd { (result ≡ Err StressError.OddThreads) ↔ ((is_paired unit ≡ true) × (threads % 2 ≡ 1)) }
    ensures totals { IfOk result (IsBoundedRunOf unit threads calls) }
{
    if is_uneven(unit, threads) {
        return Err(StressError::OddThreads);
    }
    load_fixed(rt, progress, unit, threads, calls)
}
