// SPDX-License-Identifier: MIT
//! The objects on which threads work.

use crate::monitor::race_on_monitor;
use crate::objects::{race_bounded, race_recorded};
use crate::team::Round;
use crate::work::{Kind, Task, Work};
use po_classic_units::{Allocator, Buffer, Meeting, ScriptUnit, Trap};
use std::io;
use std::sync::Wait;
use std::thread::Threads;
use std::time::Clock;

/// How many values the buffer has room for.
const ROOM: u16 = 4;

/// How many pieces the allocator has.
const PIECES: u16 = 3;

/// How many threads there may be.
pub(crate) const MOST_THREADS: u16 = 64;

/// Has threads do the task on an object of this unit.
fn race_on<
    U: ScriptUnit + Send + Sync + 'static,
    R: Threads + Wait + Clock + AllocGlobal + Copy + Send + 'static,
>(rt: R, unit: U, task: Task) -> io::Result<Round> {
    match task.kind {
        Kind::Recorded => race_recorded(rt, unit, task),
        Kind::Bounded => race_bounded(rt, unit, task),
    }
}

/// Has threads do the task once.
pub(crate) fn race_once<R: Threads + Wait + Clock + AllocGlobal + Copy + Send + 'static>(
    rt: R,
    task: Task,
) -> io::Result<Round> {
    match task.work {
        Work::Mutex | Work::Monitor => race_on_monitor(rt, task),
        Work::Procedure | Work::Function | Work::Entry => race_on(rt, Trap::new(), task),
        Work::Buffer => race_on(rt, Buffer::new(rt.alloc(), ROOM)?, task),
        Work::Allocator => race_on(rt, Allocator::new(PIECES), task),
        Work::Meeting => race_on(rt, Meeting::new(task.threads.clamp(1, MOST_THREADS)), task),
    }
}
