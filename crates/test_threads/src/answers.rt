// SPDX-License-Identifier: MIT
//! What one thread is answered by calls that never wait.

use crate::buffers::{GET, PUT};
use crate::shared::Shared;
use crate::stage::Stage;
use crate::threads::single;
use std::io::{self, Print};
use std::sync::Wait;

/// The first number that no entry of a buffer has.
const NO_ENTRY: u16 = 2;

/// The clock is raised, once in vain; nothing waits, and nothing can be cancelled. Then the object is finalized.
pub(crate) fn play<P: Drop, O: Shared<P> + Drop, R: Wait + Print>(
    rt: &R,
    stage: &mut Stage<P, O>,
) -> io::Result<()> {
    let object = &*stage.object;
    println!(rt; "tick 5: {:?}", object.raise_clock(rt, 5))?;
    println!(rt; "tick 3: {:?}", object.raise_clock(rt, 3))?;
    println!(rt; "calls in Get: {:?}", object.count_waiting(single(GET)))?;
    println!(rt;
        "calls in no entry: {:?}",
        object.count_waiting(single(NO_ENTRY))
    )?;
    println!(rt; "cancel seat 0: {:?}", object.cancel_seat(rt, 0))?;
    println!(rt; "finalize: {:?}", object.end_all(rt))?;
    println!(rt; "finalize: {:?}", object.end_all(rt))?;
    println!(rt; "tick 7: {:?}", object.raise_clock(rt, 7))?;
    println!(rt; "Put 1: {:?}", stage.call(rt, PUT, 1))
}
