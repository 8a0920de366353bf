// SPDX-License-Identifier: MIT
//! A run over an opened object, from its first call to its closing.

ghost use Rattle.std.specs.Prelude.{◌≡◌, ◌≤◌, Some, All, IfOk, IfErr, OnOk, length, vec_len};
ghost use Rattle.std.specs.Arc.{arc_value};
ghost use Rattle.po_receipts.specs.Answers.{NonePending};
ghost use Rattle.po_object.specs.Seats.{AreFresh, OneEach, AreBySeat};
ghost use Rattle.po_stress.specs.Ends.{AreEndsOfAll, AreUnused, all_of, calls_of};

use crate::caller::Caller;
use crate::ends::Ends;
use crate::error::StressError;
use crate::job::Job;
use crate::progress::Progress;
use crate::threads::load;
use po_core::Record;
use po_object::{CallLedger, Closed, Object, Pass, Receipts, Story};
use po_unit::Unit;
use std::alloc::{AllocError, Global};
use std::sync::ledger::Ledger;
use std::sync::{Arc, Wait};
use std::thread::Threads;

/// Makes a caller for each pass.
fn seat_all<C: CallLedger<u64>, P: Ledger, F: Ledger, Q: Receipts<u64>>(
    alloc: Global,
    mut passes: Vec<Pass<u64, C, P, F, Q>>,
) -> Result<Vec<Caller<C, P, F, Q>>, AllocError>
    requires { AreUnused passes.items }
{
    let mut callers = Vec::with_capacity(alloc, passes.len())?;
    while let Some(pass) = passes.pop() {
        callers.push_reserved(Caller::new(pass));
    }
    Ok(callers)
}

/// Returns the passes of all callers and how their calls ended, if each pass counted `calls` calls, and otherwise an error.
///
/// A pass that counted fewer calls was refused one: memory ran out for it, or for another thread before.
fn leave_all<C: CallLedger<u64>, P: Ledger, F: Ledger, Q: Receipts<u64>>(
    alloc: Global,
    mut callers: Vec<Caller<C, P, F, Q>>,
    calls: u32,
) -> Result<(Vec<Pass<u64, C, P, F, Q>>, Ends), StressError>
    requires { vec_len callers ≤ 65_535 }
    ensures tallies { IfOk result (λ r. All (λ pass. pass.calls ≡ calls) r.0.items) }
    ensures free { IfOk result (λ r. NonePending r.0.items) }
    ensures ends { IfOk result (λ r. AreEndsOfAll r.0.items r.1) }
    ensures all { IfOk result (λ r. all_of r.1 ≡ calls_of r.0.items) }
    ensures fault { IfErr result (λ fault. fault ≡ StressError.OutOfMemory) }
{
    let mut passes = Vec::with_capacity(alloc, callers.len())?;
    let mut all = Ends::new();
    while let Some(caller) = callers.pop() {
        let (pass, ends) = caller.leave();
        if pass.calls() != u64::from(calls) {
            return Err(StressError::OutOfMemory);
        }
        all.add(ends);
        passes.push_reserved(pass);
    }
    Ok((passes, all))
}

/// Has a thread for each caller make all its calls, and waits until they end. The callers are back in `callers` then.
fn call_from<
    U: Unit<Value = u64> + Send + Sync + Drop + 'static,
    C: Story<U, u64> + Send + Sync + 'static,
    P: Ledger + Send + Sync + 'static,
    F: Ledger + Send + Sync + 'static,
    R: Record<U> + Send + Sync + Drop + 'static,
    Q: Receipts<u64> + Send + Sync + 'static,
    W: Threads + Wait + AllocGlobal + Copy + Send + 'static,
>(
    rt: W,
    object: &Arc<Object<U, C, P, F, R, Q>>,
    progress: &Arc<Progress>,
    job: Job,
    threads: u16,
    callers: &mut Vec<Caller<C, P, F, Q>>,
) -> Result<(), AllocError>
    ensures { OnOk result (vec_len callers.new ≤ threads) }
{
    let running = Vec::with_capacity(rt.alloc(), callers.len())?;
    load(rt, object, progress, job, callers, running);
    if progress.was_short() || callers.len() > usize::from(threads) {
        return Err(AllocError);
    }
    Ok(())
}

/// Has a thread for each pass make all its calls. Returns the passes, and how the calls ended.
fn call_from_all<
    U: Unit<Value = u64> + Send + Sync + Drop + 'static,
    C: Story<U, u64> + Send + Sync + 'static,
    P: Ledger + Send + Sync + 'static,
    F: Ledger + Send + Sync + 'static,
    R: Record<U> + Send + Sync + Drop + 'static,
    Q: Receipts<u64> + Send + Sync + 'static,
    W: Threads + Wait + AllocGlobal + Copy + Send + 'static,
>(
    rt: W,
    object: &Arc<Object<U, C, P, F, R, Q>>,
    progress: &Arc<Progress>,
    job: Job,
    threads: u16,
    passes: Vec<Pass<u64, C, P, F, Q>>,
) -> Result<(Vec<Pass<u64, C, P, F, Q>>, Ends), StressError>
    requires { AreFresh threads passes.items }
    ensures tallies { IfOk result (λ r. All (λ pass. pass.calls ≡ job.calls) r.0.items) }
    ensures free { IfOk result (λ r. NonePending r.0.items) }
    ensures ends { IfOk result (λ r. AreEndsOfAll r.0.items r.1) }
    ensures all { IfOk result (λ r. all_of r.1 ≡ calls_of r.0.items) }
    ensures fault { IfErr result (λ fault. fault ≡ StressError.OutOfMemory) }
{
    let mut callers = seat_all(rt.alloc(), passes)?;
    call_from(rt, object, progress, job, threads, &mut callers)?;
    leave_all(rt.alloc(), callers, job.calls)
}

/// Closes the object. All threads have ended, so no one else has the object, and each seat's pass is here.
fn close<
    U: Unit<Value = u64> + Drop,
    C: Story<U, u64>,
    P: Ledger,
    F: Ledger,
    R: Record<U> + Drop,
    Q: Receipts<u64>,
>(
    object: Arc<Object<U, C, P, F, R, Q>>,
    passes: Vec<Pass<u64, C, P, F, Q>>,
) -> Result<Closed<U, R, Q>, StressError>
    ensures one_each { OnOk result (OneEach (arc_value object) passes.items × (length passes.items ≡ arc_value object)) }
    ensures by_seat { IfOk result (λ closed. AreBySeat (arc_value object) passes.items closed.passes) }
    ensures made { IfOk result (λ closed. C.setup ≡ Some closed.core.object.setup) }
    ensures fault { IfErr result (λ fault. fault ≡ StressError.OutOfMemory) }
{
    let Ok(object) = Arc::try_unwrap(object) else {
        return Err(StressError::OutOfMemory);
    };
    match object.close(passes) {
        Ok(closed) => Ok(closed),
        Err(_) => Err(StressError::OutOfMemory),
    }
}

/// Has threads call the object, from each of its passes, and closes it. Returns it and how the calls ended, `job.calls` for
/// each pass.
pub(crate) fn run_over<
    U: Unit<Value = u64> + Send + Sync + Drop + 'static,
    C: Story<U, u64> + Send + Sync + 'static,
    P: Ledger + Send + Sync + 'static,
    F: Ledger + Send + Sync + 'static,
    R: Record<U> + Send + Sync + Drop + 'static,
    Q: Receipts<u64> + Send + Sync + 'static,
    W: Threads + Wait + AllocGlobal + Copy + Send + 'static,
>(
    rt: W,
    object: Arc<Object<U, C, P, F, R, Q>>,
    passes: Vec<Pass<u64, C, P, F, Q>>,
    progress: &Arc<Progress>,
    job: Job,
    threads: u16,
) -> Result<(Closed<U, R, Q>, Ends), StressError>
    requires seats { arc_value object ≡ threads }
    requires fresh { AreFresh threads passes.items }
    ensures seats { IfOk result (λ r. length r.0.passes ≡ threads) }
    ensures made { IfOk result (λ r. C.setup ≡ Some r.0.core.object.setup) }
    ensures tallies { IfOk result (λ r. All (λ pass. pass.calls ≡ job.calls) r.0.passes) }
    ensures free { IfOk result (λ r. NonePending r.0.passes) }
    ensures ends { IfOk result (λ r. AreEndsOfAll r.0.passes r.1) }
    ensures all { IfOk result (λ r. all_of r.1 ≡ calls_of r.0.passes) }
    ensures fault { IfErr result (λ fault. fault ≡ StressError.OutOfMemory) }
{
    let (passes, ends) = call_from_all(rt, &object, progress, job, threads, passes)?;
    let closed = close(object, passes)?;
    Ok((closed, ends))
}
