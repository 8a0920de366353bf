// SPDX-License-Identifier: MIT
//! An object that is finalized while callers sleep: each of them is told, and no one can call it any more.

use crate::buffers::{GET, PUT, buffer};
use crate::scenes::{NOT_CLOSED, Scene};
use crate::shared::Shared;
use crate::stage::Stage;
use crate::threads::{Work, sees_waiting, single};
use crate::{bounded, recorded};
use po_classic_units::Buffer;
use po_core::End;
use po_laws::buffer_law;
use po_object::{Closed, every_answer, reconcile};
use std::io::{self, Print};
use std::sync::Wait;
use std::thread::Threads;
use std::time::{Clock, CpuClock};

/// How many callers wait.
const WAITERS: u64 = 8;

/// One seat for each of them, and one more.
const SEATS: u16 = 9;

/// Eight callers wait, and the object is finalized. Then a ninth calls it.
pub(crate) fn play<
    P: Send + Drop + 'static,
    O: Shared<P> + Send + Sync + Drop + 'static,
    R: Threads + Wait + Clock + Print + Copy + Send + 'static,
>(rt: R, stage: &mut Stage<P, O>) -> io::Result<()> {
    stage.start_all(rt, WAITERS, Work::Call(GET, 0, End::ProgramError))?;
    if !sees_waiting(&rt, &*stage.object, single(GET), WAITERS) {
        return println!(rt; "not all calls are seen to wait");
    }
    println!(rt; "finalize: {:?}", stage.object.end_all(&rt))?;
    println!(rt; "Put 1: {:?}", stage.call(&rt, PUT, 1))?;
    stage.gather(&rt, "Program_Error", WAITERS)
}

/// Returns whether all receipts agree with the history and the buffer was new, so that the history has the buffer's law.
fn is_lawful(closed: &Closed<Buffer>) -> bool {
    if reconcile(closed, &[]).is_err() || !closed.core().opening().is_new() {
        return false;
    }
    // Only for the prover: states what then holds of the answers and of the history.
    every_answer(closed, &[]);
    buffer_law(closed.core(), &[]);
    true
}

/// Plays the scene on a buffer for one value, into which no one puts any.
pub(crate) fn run<
    R: Threads + Wait + Clock + CpuClock + Print + AllocGlobal + Copy + Send + 'static,
>(rt: R) -> io::Result<()> {
    let alloc = rt.alloc();
    match recorded::perform(rt, buffer(alloc)?, SEATS, Scene::Finalized)? {
        Some(shelf) => println!(rt; "the buffer's law: {}", is_lawful(&shelf.closed))?,
        None => println!(rt; "{NOT_CLOSED}")?,
    }
    bounded::show(rt, buffer(alloc)?, SEATS, Scene::Finalized)
}
