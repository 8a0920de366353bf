// SPDX-License-Identifier: MIT
//! A run with very many waiting calls, and a cut of very many events.

use po_classic_units::{Broadcast, ScriptUnit};
use po_core::{Core, Deadline, End, Event, Order};
use po_unit::EntryRef;
use std::process::Abort;
use std::test::Fail;

/// How many calls wait at a time.
const CROWD: u64 = 100_000;

/// The entry Receive.
const RECEIVE: EntryRef = EntryRef {
    declaration: 0,
    index: None,
};

/// Calls the entry `CROWD` times, and checks that as many calls wait.
fn gather<R: Abort>(rt: &R, core: &mut Core<Broadcast>, deadline: Deadline) -> Result<(), Fail> {
    for _ in 0..CROWD {
        let _ticket = core.issue(0, RECEIVE, 0, deadline)?;
    }
    assert_eq!(rt; core.count(RECEIVE)?, CROWD);
    Ok(())
}

/// Checks that the latest command ended `ended` calls, that none waits, the place of the next event, and how the last call
/// ended.
fn look<R: Abort>(
    rt: &R,
    core: &Core<Broadcast>,
    ended: usize,
    place: u128,
    end: End<u64>,
) -> Result<(), Fail> {
    let last = core.outcome(core.next_number().saturating_sub(1));
    assert_eq!(rt;
        (
            core.ended_now().len(),
            core.count(RECEIVE),
            core.place(),
            last
        ),
        (ended, Ok(0), place, Some(end))
    );
    Ok(())
}

/// Gives a message, which all waiting calls receive.
fn serve_all<R: Abort>(
    rt: &R,
    core: &mut Core<Broadcast>,
    message: u64,
    place: u128,
) -> Result<(), Fail> {
    gather(rt, core, Deadline::Never)?;
    let _reply = core.procedure(0, 0, message)?;
    look(rt, core, 100_000, place, End::Completed(message))
}

/// Has all calls expire at once.
fn expire_all<R: Abort>(rt: &R, core: &mut Core<Broadcast>, place: u128) -> Result<(), Fail> {
    gather(rt, core, Deadline::At(5))?;
    let _clock = core.tick(5)?;
    look(rt, core, 100_000, place, End::Cancelled)
}

/// Cancels calls one by one.
fn cancel_all<R: Abort>(rt: &R, core: &mut Core<Broadcast>, place: u128) -> Result<(), Fail> {
    gather(rt, core, Deadline::Never)?;
    let next = core.next_number();
    for n in next.saturating_sub(CROWD)..next {
        let _how = core.cancel_number(n)?;
    }
    look(rt, core, 1, place, End::Cancelled)
}

/// Cuts off more than a million events.
fn cut_all<R: Abort>(rt: &R, core: &mut Core<Broadcast>) -> Result<(), Fail> {
    let volume = core.cut()?;
    assert_eq!(rt;
        (
            volume.first_place(),
            volume.events().len(),
            volume.events().last()
        ),
        (0, 1_000_004, Some(&Event::Serve(0)))
    );
    assert_eq!(rt; (core.events().len(), core.place()), (0, 1_000_004));
    Ok(())
}

/// Has the finalization end all calls, in one event.
fn finalize_all<R: Abort>(rt: &R, core: &mut Core<Broadcast>, place: u128) -> Result<(), Fail> {
    gather(rt, core, Deadline::Never)?;
    core.finalize()?;
    look(rt, core, 100_000, place, End::ProgramError)
}

/// Does all of it. Each call leaves two events, and each message, tick and finalization leaves one.
fn run_all<R: Abort>(rt: &R, core: &mut Core<Broadcast>) -> Result<(), Fail> {
    serve_all(rt, core, 7, 200_001)?;
    expire_all(rt, core, 400_002)?;
    cancel_all(rt, core, 600_002)?;
    serve_all(rt, core, 8, 800_003)?;
    serve_all(rt, core, 9, 1_000_004)?;
    cut_all(rt, core)?;
    finalize_all(rt, core, 1_100_005)
}

#[test]
fn crowds_wait_and_go(rt: HostRuntime) -> Result<(), Fail> {
    let unit = Broadcast::new();
    let shape = unit.shape(rt.alloc())?;
    let mut core = Core::new(rt.alloc(), unit, shape, Order::Textual, 1)?;
    run_all(&rt, &mut core)
}
