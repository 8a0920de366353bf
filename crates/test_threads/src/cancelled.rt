// SPDX-License-Identifier: MIT
//! Callers whose calls another thread tries to cancel: one is cancelled, the other is kept and then let go.

use crate::scenes::{Made, Scene};
use crate::shared::Shared;
use crate::stage::Stage;
use crate::threads::{Work, sees_waiting};
use crate::{bounded, recorded};
use po_classic_units::{Allocator, ScriptUnit};
use po_core::End;
use po_unit::EntryRef;
use std::alloc::{AllocError, Global};
use std::io::{self, Print};
use std::sync::Wait;
use std::thread::Threads;
use std::time::{Clock, CpuClock};

/// The entry that asks for some of the resource, and may be cancelled.
const REQUEST: u16 = 0;

/// The entry that asks for some of the resource, and may not be cancelled.
const CLAIM: u16 = 1;

/// The entry where callers wait that ask for one.
const GRANT: EntryRef = EntryRef {
    declaration: 2,
    index: Some(1),
};

/// The procedure that gives some back.
const RELEASE: u16 = 0;

/// Makes an allocator of one.
fn allocator(alloc: Global) -> Result<Made<Allocator>, AllocError> {
    let unit = Allocator::new(1);
    let shape = unit.shape(alloc).map_err(|_| AllocError)?;
    Ok((unit, shape))
}

/// Starts a thread that asks for one and should be answered in this way, and returns whether its call and all others, `calls`
/// in all, are seen to wait.
fn ask<
    P: Send + Drop + 'static,
    O: Shared<P> + Send + Sync + Drop + 'static,
    R: Threads + Wait + Clock + Copy + Send + 'static,
>(
    rt: R,
    stage: &mut Stage<P, O>,
    entry: u16,
    end: End<u64>,
    calls: u64,
) -> Result<bool, AllocError> {
    stage.start(rt, Work::Call(entry, 1, end))?;
    Ok(sees_waiting(&rt, &*stage.object, GRANT, calls))
}

/// Tries to cancel both calls. Only the call of seat 2 may be cancelled, so its caller comes back. Then seat 0 gives back the
/// one that it has, so that the caller of seat 1 comes back.
fn end_both<P: Drop, O: Shared<P> + Drop, R: Threads + Wait + Clock + Print>(
    rt: &R,
    stage: &mut Stage<P, O>,
) -> io::Result<()> {
    println!(rt; "cancel seat 1: {:?}", stage.object.cancel_seat(rt, 1))?;
    println!(rt; "cancel seat 2: {:?}", stage.object.cancel_seat(rt, 2))?;
    if !stage.come_back(rt, "Request 1", 2)? {
        return Ok(());
    }
    println!(rt; "cancel seat 2: {:?}", stage.object.cancel_seat(rt, 2))?;
    println!(rt; "Release 1: {:?}", stage.run(rt, RELEASE, 1))?;
    stage.come_back(rt, "Claim 1", 3)?;
    Ok(())
}

/// Seat 0 has the only one. Seats 1 and 2 wait for it, and both their calls are to be cancelled.
pub(crate) fn play<
    P: Send + Drop + 'static,
    O: Shared<P> + Send + Sync + Drop + 'static,
    R: Threads + Wait + Clock + Print + Copy + Send + 'static,
>(rt: R, stage: &mut Stage<P, O>) -> io::Result<()> {
    stage.start(rt, Work::Call(REQUEST, 1, End::Completed(1)))?;
    if !stage.come_back(&rt, "Request 1", 1)? {
        return Ok(());
    }
    if !ask(rt, stage, CLAIM, End::Completed(1), 1)? {
        return println!(rt; "no call is seen to wait");
    }
    if !ask(rt, stage, REQUEST, End::Cancelled, 2)? {
        return println!(rt; "not both calls are seen to wait");
    }
    end_both(&rt, stage)
}

/// Plays the scene on an allocator of one with three seats, each in a thread of its own.
pub(crate) fn run<
    R: Threads + Wait + Clock + CpuClock + Print + AllocGlobal + Copy + Send + 'static,
>(rt: R) -> io::Result<()> {
    let alloc = rt.alloc();
    recorded::show(rt, allocator(alloc)?, 3, Scene::Cancelled)?;
    bounded::show(rt, allocator(alloc)?, 3, Scene::Cancelled)
}
