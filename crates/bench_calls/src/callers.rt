// SPDX-License-Identifier: MIT
//! What a thread does over and over with the thing that the threads share.

use crate::team::Team;
use crate::work::{Task, Work};
use po_unit::EntryRef;
use std::sync::Wait;
use std::time::Clock;

/// A level of the trap at which the entries of its family are open.
const OPEN: u64 = 3;

/// The first single entry, and the second one.
const SINGLE: [EntryRef; 2] = [
    EntryRef {
        declaration: 0,
        index: None,
    },
    EntryRef {
        declaration: 1,
        index: None,
    },
];

/// The first entry of the first family.
const FIRST: EntryRef = EntryRef {
    declaration: 0,
    index: Some(1),
};

/// Something that the threads of a round call. Each thread carries a pass.
pub(crate) trait Called<P> {
    /// Calls an entry (9.5.3), and returns whether its body completed.
    fn enter<R: Wait>(&self, rt: &R, pass: &mut P, entry: EntryRef, value: u64) -> bool;

    /// Runs the first procedure (9.5.1), and returns whether it completed.
    fn run<R: Wait>(&self, rt: &R, pass: &mut P, value: u64) -> bool;

    /// Calls the first function (9.5.1), and returns whether it completed.
    fn read<R: Wait>(&self, rt: &R, value: u64) -> bool;
}

/// Does the work once, and returns whether all answers were as they should be.
fn work_once<O: Called<P>, P, R: Wait>(
    rt: &R,
    object: &O,
    pass: &mut P,
    work: Work,
    thread: u64,
    turn: u64,
) -> bool {
    match work {
        Work::Mutex | Work::Procedure => object.run(rt, pass, OPEN),
        Work::Function => object.read(rt, turn),
        Work::Entry => object.enter(rt, pass, FIRST, turn),
        Work::Monitor | Work::Buffer => {
            object.enter(rt, pass, SINGLE[(thread % 2) as usize], turn)
        }
        Work::Allocator => {
            let pieces = 1 + thread.wrapping_add(turn) % 3;
            object.enter(rt, pass, SINGLE[0], pieces) && object.run(rt, pass, pieces)
        }
        Work::Meeting => object.enter(rt, pass, SINGLE[0], turn),
    }
}

/// Does the work of the thread with this number as often as the task says.
pub(crate) fn carry_out<O: Called<P>, P: Drop, R: Wait + Clock>(
    rt: &R,
    object: &O,
    team: &Team,
    mut pass: P,
    task: Task,
    thread: u64,
) {
    if matches!(task.work, Work::Entry) {
        object.run(rt, &mut pass, OPEN);
    }
    team.begin(rt);
    let mut done = 0u64;
    for turn in 0..task.turns {
        if work_once(rt, object, &mut pass, task.work, thread, turn) {
            done = done.saturating_add(1);
        }
    }
    team.end(rt, done);
}
