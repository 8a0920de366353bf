// SPDX-License-Identifier: MIT
//! What the thread of a ticker does.

use crate::watch::Watch;
use po_core::{Record, Refusal};
use po_object::{Object, Receipts, Story};
use po_unit::Unit;
use std::alloc::AllocError;
use std::sync::ledger::Ledger;
use std::sync::{Arc, Wait};
use std::thread::{self, JoinHandle, Threads};
use std::time::Clock;

/// Raises the clock to the time of the watch, if the time can be read.
fn tick<
    U: Unit,
    C: Story<U, U::Value>,
    P: Ledger,
    F: Ledger,
    R: Record<U>,
    Q: Receipts<U::Value>,
    W: Wait + Clock,
>(rt: &W, object: &Object<U, C, P, F, R, Q>, watch: &Watch) -> Result<(), Refusal> {
    if let Ok(millis) = watch.millis(rt) {
        let _clock = object.tick(rt, millis)?;
    }
    Ok(())
}

/// Ticks every period of the watch until it is stopped, and then once more. Returns why the object refused a tick, if it did.
///
/// Each turn reads whether to stop before it reads the time, so the last tick raises the clock at least to the moment of the
/// stop, however long it waited for the lock.
fn tick_often<
    U: Unit,
    C: Story<U, U::Value>,
    P: Ledger,
    F: Ledger,
    R: Record<U>,
    Q: Receipts<U::Value>,
    W: Wait + Clock,
>(rt: &W, object: &Object<U, C, P, F, R, Q>, watch: &Watch) -> Option<Refusal> {
    for _ in rt.forever() {
        let is_last = watch.is_stopped();
        if let Err(refusal) = tick(rt, object, watch) {
            return Some(refusal);
        }
        if is_last {
            return None;
        }
        watch.sleep(rt);
    }
    unreachable!()
}

/// Starts a thread that ticks every period of the watch.
pub(crate) fn start_ticking<
    U: Unit + Drop + Send + Sync + 'static,
    C: Story<U, U::Value> + Send + Sync + 'static,
    P: Ledger + Send + Sync + 'static,
    F: Ledger + Send + Sync + 'static,
    R: Record<U> + Drop + Send + Sync + 'static,
    Q: Receipts<U::Value> + Send + Sync + 'static,
    W: Threads + Wait + Clock + Copy + Send + 'static,
>(
    rt: W,
    object: Arc<Object<U, C, P, F, R, Q>>,
    watch: Arc<Watch>,
) -> Result<JoinHandle<Option<Refusal>>, AllocError>
where
    U::Value: Send + Sync + 'static,
{
    let job = move || -> Option<Refusal> { tick_often(&rt, &*object, &*watch) };
    Ok(thread::spawn(&rt, job)?)
}
