// SPDX-License-Identifier: MIT
//! What differs between runs over the two kinds of objects: how the object is opened, and what is said of it once it is closed.

ghost use Rattle.std.specs.Prelude.{◌≡◌, ◌≤◌, ◌+◌, true, false, [], Some, All, IfOk, IfErr, IfSome, length};
ghost use Rattle.std.specs.Arc.{arc_value};
ghost use Rattle.po_receipts.specs.Answers.{NonePending};
ghost use Rattle.po_object.specs.Seats.{AreFresh};
ghost use Rattle.po_object.specs.Stories.{IsStory};
ghost use Rattle.po_stress.specs.Ends.{AreEndsOfAll, all_of, calls_of};
ghost use Rattle.po_stress.specs.Starts.{started};
ghost use Rattle.po_stress.specs.Runs.{IsRun};
ghost use Rattle.po_stress.specs.BoundedRuns.{IsBoundedRun};

use crate::ends::Ends;
use crate::error::StressError;
use crate::job::Job;
use crate::progress::Progress;
use crate::report::Report;
use crate::run::run_over;
use crate::totals::Totals;
use po_core::{BoundedCore, Core, Event, Order, Record, Start};
use po_object::{
    BoundedClosed, BoundedObject, Closed, Keeper, Object, OpenError, Pass, Receipts, Story,
};
use po_unit::{Shape, Unit};
use std::alloc::{AllocError, Global};
use std::sync::ledger::{Blank, Ledger};
use std::sync::{Arc, Wait};
use std::thread::Threads;

/// The first call is number 1, the first event has place 0, and queues may grow without limit.
const START: Start = Start {
    first_number: 1,
    first_place: 0,
    max_queue: None,
};

/// Drops what a refused opening hands back.
fn let_go<U: Unit<Value = u64> + Drop, R: Record<U> + Drop>(_fault: OpenError<U, R>) -> AllocError {
    AllocError
}

/// Puts the object in a place that threads can share, and returns it with its passes.
fn share<
    U: Unit<Value = u64> + Drop,
    C: Story<U, u64>,
    P: Ledger,
    F: Ledger,
    R: Record<U> + Drop,
    Q: Receipts<u64>,
>(
    alloc: Global,
    object: Object<U, C, P, F, R, Q>,
    passes: Vec<Pass<u64, C, P, F, Q>>,
) -> Result<(Arc<Object<U, C, P, F, R, Q>>, Vec<Pass<u64, C, P, F, Q>>), AllocError>
    ensures object { IfOk result (λ r. arc_value r.0 ≡ object) }
    ensures passes { IfOk result (λ r. r.1.items ≡ passes.items) }
{
    let object = Arc::new(alloc, object)?;
    Ok((object, passes))
}

/// Opens an object over the core that threads can share, with a fresh pass for each seat.
fn open_shared<
    U: Unit<Value = u64> + Drop,
    C: Story<U, u64>,
    P: Ledger,
    F: Ledger,
    R: Record<U> + Drop,
    Q: Receipts<u64>,
>(
    alloc: Global,
    core: Core<U, R>,
    threads: u16,
    calls: Blank,
    procedures: Blank,
    log: Keeper<Event<u64>>,
) -> Result<(Arc<Object<U, C, P, F, R, Q>>, Vec<Pass<u64, C, P, F, Q>>), AllocError>
    requires shape { core.object.setup.shape ≡ C.shape }
    requires story { IsStory U.meaning core.object.setup C.setup C.end_of }
    requires log { (log.name ≡ C.log) × (log.items ≡ []) }
    requires calls { (calls.name ≡ C.name) × (calls.parts ≡ C.parts) × (calls.parts ≡ threads + 1) }
    requires procedures { (procedures.name ≡ P.name) × (procedures.parts ≡ P.parts) × (procedures.parts ≡ threads + 1) }
    requires unbounded { (Q.is_bounded ≡ false) × (R.is_bounded ≡ false) }
    ensures seats { IfOk result (λ r. arc_value r.0 ≡ threads) }
    ensures fresh { IfOk result (λ r. AreFresh threads r.1.items) }
{
    match Object::<U, C, P, F, R, Q>::open(alloc, core, threads, calls, procedures, log) {
        Ok((object, passes)) => {
            let shared = share(alloc, object, passes)?;
            Ok(shared)
        }
        Err(fault) => Err(let_go(fault)),
    }
}

/// Opens an object over the core that threads can share and that takes no memory later, with a fresh pass for each seat.
fn open_shared_bounded<
    U: Unit<Value = u64> + Drop,
    C: Story<U, u64>,
    P: Ledger,
    F: Ledger,
    R: Record<U> + Drop,
    Q: Receipts<u64>,
>(
    alloc: Global,
    core: Core<U, R>,
    threads: u16,
    calls: Blank,
    procedures: Blank,
    free: Blank,
    log: Keeper<Event<u64>>,
) -> Result<(Arc<Object<U, C, P, F, R, Q>>, Vec<Pass<u64, C, P, F, Q>>), AllocError>
    requires shape { core.object.setup.shape ≡ C.shape }
    requires story { IsStory U.meaning core.object.setup C.setup C.end_of }
    requires log { (log.name ≡ C.log) × (log.items ≡ []) }
    requires most { IfSome core.capacity (λ most. threads ≤ most) }
    requires calls { (calls.name ≡ C.name) × (calls.parts ≡ C.parts) × (calls.parts ≡ threads + 1) }
    requires procedures { (procedures.name ≡ P.name) × (procedures.parts ≡ P.parts) × (procedures.parts ≡ threads + 1) }
    requires free { (free.name ≡ F.name) × (free.parts ≡ F.parts) × (free.parts ≡ threads + 1) }
    requires bounded { (Q.is_bounded ≡ true) × (R.is_bounded ≡ true) }
    ensures seats { IfOk result (λ r. arc_value r.0 ≡ threads) }
    ensures fresh { IfOk result (λ r. AreFresh threads r.1.items) }
{
    match Object::<U, C, P, F, R, Q>::open_bounded(
        alloc, core, threads, calls, procedures, free, log,
    ) {
        Ok((object, passes)) => {
            let shared = share(alloc, object, passes)?;
            Ok(shared)
        }
        Err(fault) => Err(let_go(fault.fault)),
    }
}

/// Opens an object over a core of the unit, has threads call it, closes it, and reports on it.
pub(crate) fn run<
    U: Unit<Value = u64> + Send + Sync + Drop + 'static,
    C: Story<U, u64> + Send + Sync + 'static,
    P: Ledger + Send + Sync + 'static,
    W: Threads + Wait + AllocGlobal + Copy + Send + 'static,
>(
    rt: W,
    unit: U,
    shape: Shape,
    progress: &Arc<Progress>,
    job: Job,
    threads: u16,
    calls: Blank,
    procedures: Blank,
    log: Keeper<Event<u64>>,
) -> Result<Report, StressError>
    requires shape { shape ≡ C.shape }
    requires story { IsStory U.meaning (started unit shape) C.setup C.end_of }
    requires log { (log.name ≡ C.log) × (log.items ≡ []) }
    requires calls { (calls.name ≡ C.name) × (calls.parts ≡ C.parts) × (calls.parts ≡ threads + 1) }
    requires procedures { (procedures.name ≡ P.name) × (procedures.parts ≡ P.parts) × (procedures.parts ≡ threads + 1) }
    ensures report { IfOk result (IsRun U.meaning (started unit shape) threads job.calls) }
    ensures fault { IfErr result (λ fault. fault ≡ StressError.OutOfMemory) }
{
    let core = Core::start(rt.alloc(), unit, shape, Order::Textual, START).map_err(|_| AllocError)?;
    let (object, passes) = open_shared(rt.alloc(), core, threads, calls, procedures, log)?;
    let object: Arc<Object<U, C, P>> = object;
    let (closed, _ends) = run_over(rt, object, passes, progress, job, threads)?;
    Ok(report_on(&closed, job.calls))
}

/// Opens an object with fixed memory over a core of the unit, has threads call it, closes it, and adds up its totals.
pub(crate) fn run_bounded<
    U: Unit<Value = u64> + Send + Sync + Drop + 'static,
    C: Story<U, u64> + Send + Sync + 'static,
    P: Ledger + Send + Sync + 'static,
    F: Ledger + Send + Sync + 'static,
    W: Threads + Wait + AllocGlobal + Copy + Send + 'static,
>(
    rt: W,
    unit: U,
    shape: Shape,
    progress: &Arc<Progress>,
    job: Job,
    threads: u16,
    calls: Blank,
    procedures: Blank,
    free: Blank,
    log: Keeper<Event<u64>>,
) -> Result<Totals, StressError>
    requires shape { shape ≡ C.shape }
    requires story { IsStory U.meaning (started unit shape) C.setup C.end_of }
    requires log { (log.name ≡ C.log) × (log.items ≡ []) }
    requires calls { (calls.name ≡ C.name) × (calls.parts ≡ C.parts) × (calls.parts ≡ threads + 1) }
    requires procedures { (procedures.name ≡ P.name) × (procedures.parts ≡ P.parts) × (procedures.parts ≡ threads + 1) }
    requires free { (free.name ≡ F.name) × (free.parts ≡ F.parts) × (free.parts ≡ threads + 1) }
    ensures totals { IfOk result (IsBoundedRun U.meaning (started unit shape) threads job.calls) }
    ensures fault { IfErr result (λ fault. fault ≡ StressError.OutOfMemory) }
{
    let most = usize::from(threads);
    let core = BoundedCore::with_capacity(
        rt.alloc(),
        unit,
        shape,
        Order::Textual,
        START,
        most,
    ).map_err(|_| AllocError)?;
    let (object, passes) = open_shared_bounded(
        rt.alloc(),
        core,
        threads,
        calls,
        procedures,
        free,
        log,
    )?;
    let object: Arc<BoundedObject<U, C, P, F>> = object;
    let (closed, ends) = run_over(rt, object, passes, progress, job, threads)?;
    Ok(totals_of(&closed, ends, job.calls))
}

/// Returns the report on a closed object whose passes counted `calls` calls each, with what holds of each such object.
fn report_on<U: Unit<Value = u64>>(closed: &Closed<U>, calls: u32) -> Report
    requires tallies { All (λ pass. pass.calls ≡ calls) closed.now.passes }
    requires pending { NonePending closed.now.passes }
    ensures { IsRun U.meaning closed.now.core.object.setup (length closed.now.passes) calls result }
{
    // Only for the prover: these three steps state what holds of each closed object.
    closed.closing_totals();
    closed.every_answer();
    closed.core().headline();
    Report::of(closed)
}

/// Returns the totals of a closed object, with what holds of each such object.
fn totals_of<U: Unit<Value = u64>>(closed: &BoundedClosed<U>, ends: Ends, calls: u32) -> Totals
    requires tallies { All (λ pass. pass.calls ≡ calls) closed.now.passes }
    requires pending { NonePending closed.now.passes }
    requires ends { AreEndsOfAll closed.now.passes ends }
    requires all { all_of ends ≡ calls_of closed.now.passes }
    ensures { IsBoundedRun U.meaning closed.now.core.object.setup (length closed.now.passes) calls result }
{
    // Only for the prover: these three steps state what holds of each closed object.
    closed.closing_totals();
    closed.every_answer();
    closed.core().headline();
    Totals::of(closed.core().issued(), ends)
}
