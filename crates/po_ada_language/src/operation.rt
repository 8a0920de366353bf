// SPDX-License-Identifier: MIT
//! The operations on the object of a script.

use po_calls::Deadline;
use po_unit::EntryRef;

/// An operation on the object of a script, whose calls have values of the type `V`.
#[derive(Clone, Copy, Debug, PartialEq, Eq)]
pub enum Operation<V> {
    /// Calls an entry (9.5.3): simply, conditionally (9.7.3) or timed (9.7.2), by its deadline.
    Call {
        entry: EntryRef,
        value: V,
        deadline: Deadline,
    },
    /// Runs a protected procedure (9.5.1).
    Procedure {
        op: u16,
        value: V,
    },
    /// Calls a protected function (9.5.1).
    Function {
        op: u16,
        value: V,
    },
    /// Tries to cancel the call with this number (9.5.3).
    Cancel(u64),
    /// Raises the clock to this time, unless it is already later.
    Tick(u64),
    /// Finalizes the object (9.4).
    Finalize,
    /// Shows how many calls are queued on each entry (9.9), the clock, and the number of the next call.
    Show,
}
