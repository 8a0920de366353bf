// SPDX-License-Identifier: MIT
//! A call that lets sleepers go and waits itself: one command queues it and ends six other calls, whose callers are woken.

use crate::companies::{STAY, WAIT, make_company};
use crate::scenes::Scene;
use crate::shared::Shared;
use crate::stage::Stage;
use crate::threads::{Work, sees_waiting, single};
use crate::{bounded, recorded};
use po_core::End;
use std::io::{self, Print};
use std::sync::Wait;
use std::thread::Threads;
use std::time::{Clock, CpuClock};

/// How many callers wait for company: more than the four that are woken after the lock is left.
const WAITERS: u64 = 6;

/// The seat of the caller that stays.
const STAYING: u16 = 6;

/// One seat for each caller.
const SEATS: u16 = 7;

/// Six callers sleep in Wait. A seventh calls Stay, and waits until its call is cancelled; the six come back before that.
pub(crate) fn play<
    P: Send + Drop + 'static,
    O: Shared<P> + Send + Sync + Drop + 'static,
    R: Threads + Wait + Clock + Print + Copy + Send + 'static,
>(rt: R, stage: &mut Stage<P, O>) -> io::Result<()> {
    stage.start_all(rt, WAITERS, Work::Call(WAIT, 7, End::Completed(7)))?;
    if !sees_waiting(&rt, &*stage.object, single(WAIT), WAITERS) {
        return println!(rt; "not all calls are seen to wait");
    }
    stage.start(rt, Work::Call(STAY, 0, End::Cancelled))?;
    if !stage.print_answered(&rt, "came back", WAITERS)? {
        return Ok(());
    }
    println!(rt;
        "cancel the seventh: {:?}",
        stage.object.cancel_seat(&rt, STAYING)
    )?;
    stage.gather(&rt, "came back", WAITERS + 1)
}

/// Plays the scene on an object of each kind, on which no one has called.
pub(crate) fn run<
    R: Threads + Wait + Clock + CpuClock + Print + AllocGlobal + Copy + Send + 'static,
>(rt: R) -> io::Result<()> {
    let alloc = rt.alloc();
    recorded::show(rt, make_company(alloc)?, SEATS, Scene::Company)?;
    bounded::show(rt, make_company(alloc)?, SEATS, Scene::Company)
}
