// SPDX-License-Identifier: MIT
//! The scenes: what the threads of each do.

use crate::act::Act;
use crate::station::{CHANGE, GET, NEVER, OPEN, PASS, PUT, RELEASE, SIGNAL, SPOIL, STAY};

/// A scene. Thread n calls from seat n. The thread that ends the others' calls comes last, so that the others sleep in the
/// first schedules.
#[derive(Clone, Copy, PartialEq, Eq)]
pub(crate) enum Scene {
    /// One puts, the other gets.
    Pair,
    /// One puts twice into room for one, the other gets twice.
    Twice,
    /// One command queues its caller's call and ends another's, whose caller then lets the first go.
    Requeue,
    /// A call is cancelled that no one else ends.
    Cancel,
    /// A second call, beside the command that ended the first.
    Again,
    /// A requeue finds the queue full, and so ends a call while its caller goes to sleep.
    Full,
    /// The history is cut while a call waits.
    Cut,
    /// A cut of the history is refused because memory runs out, while a call waits.
    Uncut,
    /// The places of the history are spent: while a call waits, whatever else is asked for is refused.
    Spent,
    /// A pass whose call waited is handed to the thread that ended the call, and waits again.
    Hand,
    /// A pass whose call didn't wait is handed over, and then its next call waits.
    HandAtOnce,
    /// A timed call, a thread that may serve it, and the clock that comes to its deadline.
    Tick,
    /// Two put, and one gets twice.
    Three,
    /// Two wait, and the object is finalized.
    Final,
    /// A call is cancelled or served; if it comes after both, the object is finalized.
    Abort,
    /// Functions and counts beside calls.
    Readers,
    /// As `Requeue`, with two calls that wait.
    RequeueTwo,
    /// As `Again`, beside a thread that cancels whichever call it finds.
    AgainAbort,
    /// A barrier faults, and so ends two calls.
    Fault,
    /// A pass is handed to a third thread. Its call waits, while the wake-up for the first thread's call may still be to come.
    HandOn,
    /// Five callers, whose calls one procedure ends.
    Five,
}

/// What the threads of a scene do, each one act after another.
type Script = &'static [&'static [Act]];

const PAIR: Script = &[&[Act::Call(PUT, 1)], &[Act::Call(GET, 0)]];

const TWICE: Script = &[
    &[Act::Call(PUT, 1), Act::Call(PUT, 2)],
    &[Act::Call(GET, 0), Act::Call(GET, 0)],
];

const REQUEUE: Script = &[
    &[Act::Call(OPEN, 1)],
    &[Act::Call(PASS, 2), Act::Call(RELEASE, 3)],
];

const CANCEL: Script = &[&[Act::Call(NEVER, 0)], &[Act::Cancel(0), Act::Finalize]];

const AGAIN: Script = &[
    &[Act::Timed(GET, 5), Act::Call(PASS, 1)],
    &[Act::Tick(5), Act::Procedure(SIGNAL)],
];

const FULL: Script = &[
    &[Act::Call(CHANGE, 1), Act::Call(RELEASE, 2)],
    &[Act::Call(OPEN, 3)],
];

const CUT: Script = &[&[Act::Call(GET, 0)], &[Act::Cut, Act::Call(PUT, 1)]];

const UNCUT: Script = &[
    &[Act::Call(OPEN, 1)],
    &[Act::Cut, Act::Call(RELEASE, 2), Act::Cut],
];

const SPENT: Script = &[
    &[Act::Timed(GET, 5)],
    &[Act::Procedure(SIGNAL), Act::Tick(5), Act::Finalize],
];

const HAND: Script = &[
    &[Act::Call(GET, 0), Act::HandOver, Act::Tick(5)],
    &[Act::Call(PUT, 1), Act::TakeOver, Act::Timed(GET, 5)],
];

const HAND_AT_ONCE: Script = &[
    &[Act::Call(PUT, 1), Act::HandOver, Act::Tick(5)],
    &[Act::Call(GET, 0), Act::TakeOver, Act::Timed(GET, 5)],
];

const TICK: Script = &[
    &[Act::Timed(GET, 5)],
    &[Act::Conditional(PUT)],
    &[Act::Tick(5)],
];

const THREE: Script = &[
    &[Act::Call(PUT, 1)],
    &[Act::Call(PUT, 2)],
    &[Act::Call(GET, 0), Act::Call(GET, 0)],
];

const FINAL: Script = &[
    &[Act::Call(NEVER, 1)],
    &[Act::Call(NEVER, 2)],
    &[Act::Finalize],
];

const ABORT: Script = &[
    &[Act::Call(GET, 0)],
    &[Act::Conditional(PUT)],
    &[Act::Cancel(0), Act::Finalize],
];

const READERS: Script = &[
    &[Act::Call(PUT, 1), Act::Function],
    &[Act::Call(GET, 0)],
    &[Act::Function, Act::Count(STAY)],
];

const REQUEUE_TWO: Script = &[
    &[Act::Call(OPEN, 1)],
    &[Act::Call(PASS, 2), Act::Call(RELEASE, 3)],
    &[Act::Call(PASS, 4)],
];

const AGAIN_ABORT: Script = &[
    &[Act::Timed(GET, 5), Act::Call(PASS, 1)],
    &[Act::Tick(5), Act::Procedure(SIGNAL)],
    &[Act::Cancel(0)],
];

const FAULT: Script = &[
    &[Act::Call(PASS, 1)],
    &[Act::Call(PASS, 2)],
    &[Act::Procedure(SPOIL)],
];

const HAND_ON: Script = &[
    &[Act::Call(GET, 0), Act::HandOver, Act::Tick(5)],
    &[Act::TakeOver, Act::Timed(GET, 5)],
    &[Act::Call(PUT, 1)],
];

const FIVE: Script = &[
    &[Act::Call(PASS, 1)],
    &[Act::Call(PASS, 2)],
    &[Act::Call(PASS, 3)],
    &[Act::Call(PASS, 4)],
    &[Act::Call(PASS, 5)],
    &[Act::Procedure(SIGNAL)],
];

/// All scenes, those of two threads first.
pub(crate) const SCENES: [Scene; 21] = [
    Scene::Pair,
    Scene::Twice,
    Scene::Requeue,
    Scene::Cancel,
    Scene::Again,
    Scene::Full,
    Scene::Cut,
    Scene::Uncut,
    Scene::Spent,
    Scene::Hand,
    Scene::HandAtOnce,
    Scene::Tick,
    Scene::Three,
    Scene::Final,
    Scene::Abort,
    Scene::Readers,
    Scene::RequeueTwo,
    Scene::AgainAbort,
    Scene::Fault,
    Scene::HandOn,
    Scene::Five,
];

impl Scene {
    /// Returns the scene's name.
    pub(crate) fn name(self) -> &'static str {
        match self {
            Scene::Pair => "pair",
            Scene::Twice => "twice",
            Scene::Requeue => "requeue",
            Scene::Cancel => "cancel",
            Scene::Again => "again",
            Scene::Full => "full",
            Scene::Cut => "cut",
            Scene::Uncut => "uncut",
            Scene::Spent => "spent",
            Scene::Hand => "hand",
            Scene::HandAtOnce => "hand_at_once",
            Scene::Tick => "tick",
            Scene::Three => "three",
            Scene::Final => "final",
            Scene::Abort => "abort",
            Scene::Readers => "readers",
            Scene::RequeueTwo => "requeue_two",
            Scene::AgainAbort => "again_abort",
            Scene::Fault => "fault",
            Scene::HandOn => "hand_on",
            Scene::Five => "five",
        }
    }

    /// Returns what its threads do.
    fn script(self) -> Script {
        match self {
            Scene::Pair => PAIR,
            Scene::Twice => TWICE,
            Scene::Requeue => REQUEUE,
            Scene::Cancel => CANCEL,
            Scene::Again => AGAIN,
            Scene::Full => FULL,
            Scene::Cut => CUT,
            Scene::Uncut => UNCUT,
            Scene::Spent => SPENT,
            Scene::Hand => HAND,
            Scene::HandAtOnce => HAND_AT_ONCE,
            Scene::Tick => TICK,
            Scene::Three => THREE,
            Scene::Final => FINAL,
            Scene::Abort => ABORT,
            Scene::Readers => READERS,
            Scene::RequeueTwo => REQUEUE_TWO,
            Scene::AgainAbort => AGAIN_ABORT,
            Scene::Fault => FAULT,
            Scene::HandOn => HAND_ON,
            Scene::Five => FIVE,
        }
    }

    /// Returns how many threads it has, which is also the number of seats.
    pub(crate) fn threads(self) -> u16 {
        match self {
            Scene::Five => 6,
            Scene::Tick
            | Scene::Three
            | Scene::Final
            | Scene::Abort
            | Scene::Readers
            | Scene::RequeueTwo
            | Scene::AgainAbort
            | Scene::Fault
            | Scene::HandOn => 3,
            _ => 2,
        }
    }

    /// Returns what a thread does.
    pub(crate) fn acts(self, thread: usize) -> &'static [Act] {
        match self.script().get(thread) {
            Some(acts) => *acts,
            None => &[],
        }
    }

    /// Returns how many times a thread asks for a call or a procedure.
    pub(crate) fn asks(self, thread: usize) -> usize {
        self.acts(thread)
            .iter()
            .filter(|act| act.needs_pass())
            .count()
    }

    /// Returns whether it is also played with memory refused.
    pub(crate) fn has_refusals(self) -> bool {
        matches!(
            self,
            Scene::Pair
                | Scene::Requeue
                | Scene::Cancel
                | Scene::Again
                | Scene::Tick
                | Scene::Three
                | Scene::Abort
                | Scene::Fault
        )
    }

    /// Returns the place of the first event in the history.
    pub(crate) fn first_place(self) -> u64 {
        if self == Scene::Spent {
            u64::MAX - 1
        } else {
            0
        }
    }

    /// Returns how many calls may wait on an entry.
    pub(crate) fn max_queue(self) -> Option<u64> {
        (self == Scene::Full).then_some(1)
    }

    /// Returns how many of its schedules are played at most: with six threads there are too many for any test.
    pub(crate) fn most_schedules(self) -> u64 {
        if self == Scene::Five {
            1_000
        } else {
            1_000_000
        }
    }
}
