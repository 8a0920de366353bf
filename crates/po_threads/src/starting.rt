// SPDX-License-Identifier: MIT
//! How a thread that does a job is started.

use crate::job::Job;
use po_core::Record;
use po_object::{Object, Pass, Receipts, Story};
use po_unit::Unit;
use std::alloc::AllocError;
use std::sync::ledger::Ledger;
use std::sync::{Arc, Wait};
use std::thread::{self, JoinHandle, Threads};

/// Starts a thread that does the job with the object, from the seat of the pass. Joining it gives the pass back.
///
/// Returns `Err` if memory runs out or no thread can be made. Then the job and the pass are gone, so the object can't be
/// closed.
pub fn start<
    U: Unit + Drop + Send + Sync + 'static,
    C: Story<U, U::Value> + Send + Sync + 'static,
    P: Ledger + Send + Sync + 'static,
    F: Ledger + Send + Sync + 'static,
    R: Record<U> + Drop + Send + Sync + 'static,
    Q: Receipts<U::Value> + Send + Sync + 'static,
    J: Job<Object<U, C, P, F, R, Q>, Pass<U::Value, C, P, F, Q>> + Drop + Send + 'static,
    W: Threads + Wait + Copy + Send + 'static,
>(
    rt: W,
    object: Arc<Object<U, C, P, F, R, Q>>,
    pass: Pass<U::Value, C, P, F, Q>,
    job: J,
) -> Result<JoinHandle<Pass<U::Value, C, P, F, Q>>, AllocError>
where
    U::Value: Send + Sync + 'static,
{
    let work = move || -> Pass<U::Value, C, P, F, Q> { job.run(&rt, &*object, pass) };
    Ok(thread::spawn(&rt, work)?)
}
