// SPDX-License-Identifier: MIT
//! What one thread asks an object, and what it is answered.

use po_core::{Attempt, End, Refusal};
use po_object::{Object, Pass, Story};
use po_unit::{EntryRef, Unit};
use std::fmt::Debug;
use std::process::Abort;
use std::sync::Wait;
use std::sync::ledger::Ledger;

/// The entry Put.
pub const PUT: EntryRef = EntryRef {
    declaration: 0,
    index: None,
};

/// The entry Get.
pub const GET: EntryRef = EntryRef {
    declaration: 1,
    index: None,
};

/// What an object is asked. The values of procedures and functions are 0.
#[derive(Clone, Copy)]
pub enum Ask {
    /// Call the entry with this value.
    Call(EntryRef, u64),
    /// Call it the same way, and give up if the call isn't selected at once.
    Conditional(EntryRef, u64),
    /// Call it the same way, and give up at the time that comes last.
    Timed(EntryRef, u64, u64),
    /// Run the procedure with this number.
    Procedure(u16),
    /// Call the function with this number.
    Function(u16),
    /// Raise the clock to this time.
    Tick(u64),
    /// Count the calls that are queued on the entry.
    Count(EntryRef),
    /// Cancel the call of this seat.
    CancelSeat(u16),
    /// Finalize the object.
    Finalize,
}

/// What the object answers.
#[derive(Clone, Copy, Debug, PartialEq)]
pub enum Answer {
    /// How the call ended.
    Ended(End<u64>),
    /// What the procedure or the function replied.
    Replied(Result<u64, u32>),
    /// What the clock shows.
    Clock(u64),
    /// How many calls are queued.
    Counted(Option<u64>),
    /// The outcome of the attempt to cancel.
    Attempted(Attempt),
    /// The object is finalized.
    Finalized,
}

/// Asserts that the value seen is the value wanted.
pub fn same<T: PartialEq + Debug + Drop, R: Abort>(rt: &R, seen: T, wanted: T) {
    assert_eq!(rt; seen, wanted);
}

/// Asks with a pass that has no pending call. A pass that has one gets the refusal of an unknown
/// call.
fn answer_of<U: Unit<Value = u64>, C: Story<U, u64>, P: Ledger, R: Wait>(
    rt: &R,
    object: &Object<U, C, P>,
    pass: &mut Pass<u64, C, P>,
    what: Ask,
) -> Result<Answer, Refusal> {
    if pass.pending() {
        return Err(Refusal::UnknownCall);
    }
    match what {
        Ask::Call(entry, value) => Ok(Answer::Ended(object.call(rt, pass, entry, value)?)),
        Ask::Conditional(entry, value) => Ok(Answer::Ended(object.conditional(
            rt, pass, entry, value,
        )?)),
        Ask::Timed(entry, value, time) => Ok(Answer::Ended(object.timed(
            rt, pass, entry, value, time,
        )?)),
        Ask::Procedure(op) => Ok(Answer::Replied(object.procedure(rt, pass, op, 0)?)),
        Ask::Function(op) => Ok(Answer::Replied(object.function(rt, op, 0)?)),
        Ask::Tick(time) => Ok(Answer::Clock(object.tick(rt, time)?)),
        Ask::Count(entry) => Ok(Answer::Counted(object.try_count(entry)?)),
        Ask::CancelSeat(seat) => Ok(Answer::Attempted(object.cancel_seat(rt, seat)?)),
        Ask::Finalize => {
            object.finalize(rt)?;
            Ok(Answer::Finalized)
        }
    }
}

/// Asks all of these in turn, and asserts that each answer is the one beside it.
pub fn ask_all<U: Unit<Value = u64>, C: Story<U, u64>, P: Ledger, R: Abort + Wait>(
    rt: &R,
    object: &Object<U, C, P>,
    pass: &mut Pass<u64, C, P>,
    rows: &[(Ask, Result<Answer, Refusal>)],
) {
    for (what, wanted) in rows {
        same(rt, answer_of(rt, object, pass, *what), *wanted);
    }
}
