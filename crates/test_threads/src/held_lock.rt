// SPDX-License-Identifier: MIT
//! A waiting caller holds nothing: another thread sees its call in the queue, and lets it go.
//!
//! If it held the lock, that would show: the other thread could neither find the waiting call nor let it go.

use crate::buffers::{GET, PUT};
use crate::shared::Shared;
use crate::stage::Stage;
use crate::threads::{Work, sees_waiting, single};
use std::io::{self, Print};
use std::sync::Wait;
use std::thread::Threads;
use std::time::Clock;

/// One thread waits in Get, and this one puts a value into the buffer.
pub(crate) fn play<
    P: Send + Drop + 'static,
    O: Shared<P> + Send + Sync + Drop + 'static,
    R: Threads + Wait + Clock + Print + Copy + Send + 'static,
>(rt: R, stage: &mut Stage<P, O>) -> io::Result<()> {
    stage.start(rt, Work::Calls(GET, 1))?;
    if !sees_waiting(&rt, &*stage.object, single(GET), 1) {
        return println!(rt; "no call is seen to wait");
    }
    println!(rt; "Put 7: {:?}", stage.call(&rt, PUT, 7))?;
    stage.come_back(&rt, "Get 0", 1)?;
    Ok(())
}
