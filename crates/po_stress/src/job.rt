// SPDX-License-Identifier: MIT
//! What the threads of a run do.

use crate::balance::Balance;
use crate::loaded::Loaded;
use crate::progress::Progress;
use crate::unit::StressUnit;
use po_core::{End, Refusal};
use po_unit::EntryRef;
use std::sync::Wait;

/// The first entry of a unit: Put of a buffer, Request of an allocator, Wait of a meeting.
const FIRST: EntryRef = EntryRef {
    declaration: 0,
    index: None,
};

/// The entry Get of a buffer.
const GET: EntryRef = EntryRef {
    declaration: 1,
    index: None,
};

/// The procedure Release of an allocator.
const RELEASE: u16 = 0;

/// What each thread of a run with a seat does: `calls` calls on the unit.
#[derive(Clone, Copy)]
pub(crate) struct Job {
    pub(crate) unit: StressUnit,
    pub(crate) calls: u32,
}

impl Job {
    /// Returns the entry that this seat of a buffer calls, and the value of its call number `j`, counted from 0.
    fn exchange(self, seat: u16, j: u32) -> (EntryRef, u64) {
        if is_putting(seat) {
            (
                FIRST,
                u64::from(seat) * u64::from(self.calls) + u64::from(j),
            )
        } else {
            (GET, 0)
        }
    }
}

/// Returns whether this seat of a buffer puts values. The others take them out.
fn is_putting(seat: u16) -> bool {
    seat % 2 == 0
}

/// Puts a value or takes one out, whichever the seat does, and adds it to the balance.
fn exchange_once<O: Loaded, W: Wait>(
    rt: &W,
    object: &O,
    caller: &mut O::Caller,
    balance: &mut Balance,
    job: Job,
    j: u32,
) -> Result<(), Refusal> {
    let seat = O::seat_of(caller);
    let (entry, value) = job.exchange(seat, j);
    match object.enter(rt, caller, entry, value)? {
        End::Completed(_) if is_putting(seat) => balance.put(value),
        End::Completed(got) => balance.get(got),
        _ => {}
    }
    Ok(())
}

/// Returns how many pieces call number `j` of this seat, counted from 0, requests from an allocator: 1 to 3.
fn pieces(seat: u16, j: u32) -> u64 {
    1 + (u64::from(seat) + u64::from(j)) % 3
}

/// Makes call number `j` of the caller, counted from 0. With an allocator, it then releases the pieces.
fn call_once<O: Loaded, W: Wait>(
    rt: &W,
    object: &O,
    caller: &mut O::Caller,
    balance: &mut Balance,
    job: Job,
    j: u32,
) -> Result<(), Refusal> {
    let seat = O::seat_of(caller);
    match job.unit {
        StressUnit::Buffer => exchange_once(rt, object, caller, balance, job, j),
        StressUnit::Allocator => {
            let many = pieces(seat, j);
            let _end = object.enter(rt, caller, FIRST, many)?;
            object.run_procedure(rt, caller, RELEASE, many)
        }
        StressUnit::Meeting => {
            let _end = object.enter(rt, caller, FIRST, u64::from(j))?;
            Ok(())
        }
        StressUnit::Race => {
            let (entry, value) = job.exchange(seat, j);
            object.enter_before(rt, caller, entry, value, u64::from(j) + 1)
        }
    }
}

/// Ends the run after a thread was refused: notes that memory ran out, and finalizes the object, so that no other thread waits
/// for what this one no longer does. If the object is already finalized, another thread has done so.
pub(crate) fn give_up<O: Loaded, W: Wait>(
    rt: &W,
    object: &O,
    progress: &Progress,
    refusal: Refusal,
) {
    if refusal != Refusal::Finalized {
        progress.note_want();
        object.end_all(rt);
    }
}

/// Makes all calls of a caller, and gives the caller back.
pub(crate) fn call_all<O: Loaded, W: Wait>(
    rt: &W,
    object: &O,
    progress: &Progress,
    mut caller: O::Caller,
    job: Job,
) -> O::Caller {
    let mut balance = Balance::new();
    for j in 0..job.calls {
        if let Err(refusal) = call_once(rt, object, &mut caller, &mut balance, job, j) {
            give_up(rt, object, progress, refusal);
            break;
        }
        progress.count();
    }
    progress.add(balance);
    caller
}

/// Raises the clock to this time, and tries to cancel the call of each seat, in turn.
fn disturb_once<O: Loaded, W: Wait>(rt: &W, object: &O, time: u64) -> Result<(), Refusal> {
    object.raise_clock(rt, time)?;
    for seat in 0..object.seat_count() {
        object.cancel_seat(rt, seat);
    }
    Ok(())
}

/// Raises the clock to 1, 2 and so on, and each time tries to cancel the call of each seat.
pub(crate) fn disturb<O: Loaded, W: Wait>(rt: &W, object: &O, progress: &Progress, ticks: u32) {
    for n in 0..ticks {
        if let Err(refusal) = disturb_once(rt, object, u64::from(n) + 1) {
            give_up(rt, object, progress, refusal);
            break;
        }
    }
}
