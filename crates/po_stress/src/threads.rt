// SPDX-License-Identifier: MIT
//! The threads of a run.

ghost use Rattle.std.specs.Prelude.{◌≤◌, ◌+◌, vec_len, vec_capacity};

use crate::job::{Job, call_all, disturb, give_up};
use crate::loaded::Loaded;
use crate::progress::Progress;
use crate::unit::StressUnit;
use po_core::Refusal;
use std::alloc::AllocError;
use std::sync::{Arc, Wait};
use std::thread::{self, JoinHandle, Threads};

/// Starts a thread that makes all calls of the caller, and gives the caller back.
fn start<O: Loaded + Send + Sync + Drop + 'static, W: Threads + Wait + Copy + Send + 'static>(
    rt: W,
    object: Arc<O>,
    progress: Arc<Progress>,
    caller: O::Caller,
    what: Job,
) -> Result<JoinHandle<O::Caller>, AllocError> {
    let job = move || -> O::Caller { call_all(&rt, &*object, &*progress, caller, what) };
    Ok(thread::spawn(&rt, job)?)
}

/// Starts a thread that raises the clock `ticks` times, and each time tries to cancel the call of each seat.
fn start_disturbing<
    O: Loaded + Send + Sync + Drop + 'static,
    W: Threads + Wait + Copy + Send + 'static,
>(
    rt: W,
    object: Arc<O>,
    progress: Arc<Progress>,
    ticks: u32,
) -> Result<JoinHandle<()>, AllocError> {
    let job = move || disturb(&rt, &*object, &*progress, ticks);
    Ok(thread::spawn(&rt, job)?)
}

/// Starts a thread for each caller. `threads` has room for all of them.
fn start_callers<
    O: Loaded + Send + Sync + Drop + 'static,
    W: Threads + Wait + Copy + Send + 'static,
>(
    rt: W,
    object: &Arc<O>,
    progress: &Arc<Progress>,
    job: Job,
    callers: &mut Vec<O::Caller>,
    threads: &mut Vec<JoinHandle<O::Caller>>,
) -> Result<(), AllocError>
    requires { vec_len threads.old + vec_len callers.old ≤ vec_capacity threads.old }
{
    while let Some(caller) = callers.pop() {
        let shared = Arc::try_clone(object)?;
        let course = Arc::try_clone(progress)?;
        threads.push_reserved(start(rt, shared, course, caller, job)?);
    }
    Ok(())
}

/// Starts all threads. A race has one more, which disturbs the others.
fn start_all<O: Loaded + Send + Sync + Drop + 'static, W: Threads + Wait + Copy + Send + 'static>(
    rt: W,
    object: &Arc<O>,
    progress: &Arc<Progress>,
    job: Job,
    callers: &mut Vec<O::Caller>,
    threads: &mut Vec<JoinHandle<O::Caller>>,
) -> Result<Option<JoinHandle<()>>, AllocError>
    requires { vec_len threads.old + vec_len callers.old ≤ vec_capacity threads.old }
{
    start_callers(rt, object, progress, job, callers, threads)?;
    if job.unit != StressUnit::Race {
        return Ok(None);
    }
    let shared = Arc::try_clone(object)?;
    let course = Arc::try_clone(progress)?;
    Ok(Some(start_disturbing(rt, shared, course, job.calls)?))
}

/// Has all threads call the object, and waits until they end. The callers are back in `callers` then.
///
/// If a thread can't be started, the object is finalized, so that the others end.
pub(crate) fn load<
    O: Loaded + Send + Sync + Drop + 'static,
    W: Threads + Wait + Copy + Send + 'static,
>(
    rt: W,
    object: &Arc<O>,
    progress: &Arc<Progress>,
    job: Job,
    callers: &mut Vec<O::Caller>,
    mut threads: Vec<JoinHandle<O::Caller>>,
)
    requires { vec_len threads + vec_len callers.old ≤ vec_capacity threads }
{
    let started = start_all(rt, object, progress, job, callers, &mut threads);
    if started.is_err() {
        give_up(&rt, &**object, &**progress, Refusal::OutOfMemory);
    }
    while let Some(thread) = threads.pop() {
        if callers.push(thread.join(&rt)).is_err() {
            progress.note_want();
        }
    }
    if let Ok(Some(disturber)) = started {
        disturber.join(&rt);
    }
}
