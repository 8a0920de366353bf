// SPDX-License-Identifier: MIT
//! A thread that raises an object's clock as time goes by.

use crate::ticking::start_ticking;
use crate::watch::Watch;
use po_core::{Record, Refusal};
use po_object::{Object, Receipts, Story};
use po_unit::Unit;
use std::io;
use std::sync::ledger::Ledger;
use std::sync::{Arc, Wait};
use std::thread::{JoinHandle, Threads};
use std::time::{Clock, Duration};

/// A thread that raises an object's clock to the milliseconds of real time since the thread was started, so that timed calls
/// expire. Their deadlines are in the same milliseconds.
///
/// It ticks, sleeps for a period with nothing locked, and ticks again. It ends when it is stopped or dropped, or when the
/// object refuses a tick: it was finalized, no number is left, or memory ran out. Each tick of a recorded object takes memory.
/// While the time can't be read it doesn't tick.
pub struct Ticker {
    watch: Arc<Watch>,
    thread: JoinHandle<Option<Refusal>>,
}

impl Ticker {
    /// Starts the thread, which ticks at once and then every period. If the period is zero, it ticks without a pause.
    ///
    /// Fails if memory runs out, no thread can be made, or the time can't be read.
    pub fn start<
        U: Unit + Drop + Send + Sync + 'static,
        C: Story<U, U::Value> + Send + Sync + 'static,
        P: Ledger + Send + Sync + 'static,
        F: Ledger + Send + Sync + 'static,
        R: Record<U> + Drop + Send + Sync + 'static,
        Q: Receipts<U::Value> + Send + Sync + 'static,
        W: Threads + Wait + Clock + AllocGlobal + Copy + Send + 'static,
    >(rt: W, object: Arc<Object<U, C, P, F, R, Q>>, period: Duration) -> io::Result<Ticker>
    where
        U::Value: Send + Sync + 'static,
    {
        let watch = Arc::new(rt.alloc(), Watch::new(&rt, period)?)?;
        let thread = start_ticking(rt, object, Arc::try_clone(&watch)?)?;
        Ok(Ticker { watch, thread })
    }

    /// Stops the thread and waits until it has ended. Its last tick raises the clock at least to the time of this call, so each
    /// timed call that is due by now expires. Returns why the object refused a tick, if it did.
    pub fn stop<W: Threads>(self, rt: &W) -> Option<Refusal> {
        let Self { watch, thread } = self;
        watch.stop();
        thread.join(rt)
    }
}

/// Dropping a ticker stops its thread, but doesn't wait for its end.
impl Drop for Ticker {
    fn drop(self) {
        let Self {
            watch,
            thread: _thread,
        } = self;
        watch.stop();
    }
}
