// SPDX-License-Identifier: MIT
//! The numbers of include/pobj.h.

ghost use Rattle.std.specs.Prelude.{◌≡◌, ◌<◌, ◌+◌, ◌*◌};
ghost use Rattle.po_driven.specs.declared.action.Action.TheVariants.{Refused};
ghost use Rattle.po_c.specs.Told.{number_of_action, barrier_named, entry_named, number_of_cancellation, has_mark as is_marked, arriving_named, body_end_named, requeue_named};

use po_driven::{Action, Arriving, Barrier, BodyEnd, Cancellation, Deadline, Requeue};

/// Returns an action and an entry as one number.
#[inline(always)]
fn with_entry(action: u64, entry: u16) -> u64
    requires { action < 256 }
    ensures { result ≡ action + 256 * entry }
{
    action + 256 * u64::from(entry)
}

/// Returns the action as a number for C.
#[inline(always)]
pub fn answer_of(action: Action) -> u64
    ensures { result ≡ number_of_action action }
{
    match action {
        Action::Rest => 0,
        Action::Evaluate(entry) => with_entry(1, entry),
        Action::Run(entry) => with_entry(2, entry),
        Action::Queued(entry) => with_entry(3, entry),
        Action::Cancelled => 4,
        Action::ProgramError => 5,
        Action::NoMemory => 6,
        Action::Refused => 7,
    }
}

/// Returns the answer to a step if there is no object. It is cold, so that a step of an object costs no more for it.
#[cold]
#[inline(never)]
pub fn refused() -> u64
    ensures { result ≡ number_of_action Refused }
{
    answer_of(Action::Refused)
}

/// Returns what C says about a barrier: 0 closed, 1 open, any other number that it raised an exception.
pub fn barrier_of(number: u64) -> Barrier
    ensures { result ≡ barrier_named number }
{
    match number {
        0 => Barrier::Closed,
        1 => Barrier::Open,
        _ => Barrier::Raised,
    }
}

/// Returns the entry of this number, or one that no object has, if the number is too great.
pub fn entry_of(number: u64) -> u16
    ensures { result ≡ entry_named number }
{
    if number < 65535 { number as u16 } else { 65535 }
}

/// Returns whether the mark is among those that C added.
#[inline(always)]
fn has_mark(marks: u64, mark: u64) -> bool
    requires { 0 < mark }
    ensures { result ≡ is_marked marks mark }
{
    marks / mark % 2 == 1
}

/// Returns the call that C issues. Marks: 1 due, 2 by a requeue without abort, 4 aborted.
#[inline(always)]
pub fn arriving_of(caller: u64, entry: u64, marks: u64) -> Arriving<u64>
    ensures { result ≡ arriving_named caller entry marks }
{
    Arriving {
        entry: entry_of(entry),
        value: caller,
        without_abort: has_mark(marks, 2),
        aborted: has_mark(marks, 4),
        deadline: if has_mark(marks, 1) {
            Deadline::At(0)
        } else {
            Deadline::Never
        },
    }
}

/// Returns how C says that a body ended: 0 completed, 1 failed, 2 and 3 requeued to the entry, without and with abort, 4
/// requeued elsewhere. Any other number names no entry, and so is refused.
pub fn body_end_of(how: u64, entry: u64, marks: u64) -> BodyEnd
    ensures { result ≡ body_end_named how entry marks }
{
    match how {
        0 => BodyEnd::Completed,
        1 => BodyEnd::Failed,
        4 => BodyEnd::RequeuedElsewhere,
        _ => BodyEnd::Requeued(Requeue {
            target: if how < 4 { entry_of(entry) } else { 65535 },
            with_abort: how == 3,
            aborted: has_mark(marks, 4),
            due: has_mark(marks, 1),
        }),
    }
}

/// Returns how C says that a body requeued its call within the object: 2 without and 3 with abort. Any other number names no entry.
#[inline(always)]
pub fn requeue_of(how: u64, entry: u64, marks: u64) -> Requeue
    ensures { result ≡ requeue_named how entry marks }
{
    Requeue {
        target: if how == 2 || how == 3 {
            entry_of(entry)
        } else {
            65535
        },
        with_abort: how == 3,
        aborted: has_mark(marks, 4),
        due: has_mark(marks, 1),
    }
}

/// Returns what came of an attempt to cancel, as a number for C.
pub fn number_of(cancellation: Cancellation) -> u64
    ensures { result ≡ number_of_cancellation cancellation }
{
    match cancellation {
        Cancellation::Made => 0,
        Cancellation::Kept => 1,
        Cancellation::Unknown => 2,
        Cancellation::Refused => 3,
    }
}
