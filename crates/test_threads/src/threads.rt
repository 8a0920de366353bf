// SPDX-License-Identifier: MIT
//! The threads that use an object.

use crate::shared::Shared;
use crate::team::{LOOKS, PAUSE, Team};
use po_core::End;
use po_unit::EntryRef;
use std::alloc::AllocError;
use std::sync::{Arc, Wait};
use std::thread::{self, JoinHandle, Threads};
use std::time::{Clock, Duration};

/// How many milliseconds waiting callers are given to fall asleep. Before they do, they look for the ends of their calls a
/// hundred times.
const UNTIL_ASLEEP: u64 = 100;

/// What a thread does once its team starts.
#[derive(Clone, Copy)]
pub(crate) enum Work {
    /// Call this single entry the given number of times, with the values from 0 on; each call should complete.
    Calls(u16, u64),
    /// Call this single entry once, with this value; the call should end in this way.
    Call(u16, u64, End<u64>),
    /// Call the function with this value, which it should give back.
    Function(u64),
}

/// Returns the single entry with this number.
pub(crate) fn single(entry: u16) -> EntryRef {
    EntryRef {
        declaration: entry,
        index: None,
    }
}

/// Returns whether `calls` calls are seen to wait on the entry within ten seconds. If so, it first gives their callers time to
/// fall asleep.
pub(crate) fn sees_waiting<P, O: Shared<P>, R: Clock>(
    rt: &R,
    object: &O,
    entry: EntryRef,
    calls: u64,
) -> bool {
    for _ in 0..LOOKS {
        if object.count_waiting(entry) == Ok(Some(calls)) {
            thread::sleep(rt, Duration::from_millis(UNTIL_ASLEEP));
            return true;
        }
        thread::sleep(rt, Duration::from_millis(PAUSE));
    }
    false
}

/// Does the work, counts the answers that were as they should be, and gives the pass back.
fn carry_out<P, O: Shared<P>, R: Wait>(
    rt: &R,
    object: &O,
    team: &Team,
    mut pass: P,
    work: Work,
) -> P {
    team.line.wait(rt);
    match work {
        Work::Calls(entry, calls) => {
            for value in 0..calls {
                let answer = object.enter(rt, &mut pass, single(entry), value);
                if let Some(Ok(End::Completed(_))) = answer {
                    team.count();
                }
            }
        }
        Work::Call(entry, value, end) => {
            if object.enter(rt, &mut pass, single(entry), value) == Some(Ok(end)) {
                team.count();
            }
        }
        Work::Function(value) => {
            if object.ask_function(rt, 0, value) == Ok(Ok(value)) {
                team.count();
            }
        }
    }
    pass
}

/// Starts a thread that does the work and gives its pass back.
pub(crate) fn start<
    P: Send + Drop + 'static,
    O: Shared<P> + Send + Sync + Drop + 'static,
    R: Threads + Wait + Copy + Send + 'static,
>(
    rt: R,
    object: Arc<O>,
    team: Arc<Team>,
    pass: P,
    what: Work,
) -> Result<JoinHandle<P>, AllocError> {
    let job = move || -> P { carry_out(&rt, &*object, &*team, pass, what) };
    Ok(thread::spawn(&rt, job)?)
}
