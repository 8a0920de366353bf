// SPDX-License-Identifier: MIT
//! What happens to the calls of a driven object.

use po_calls::End;
use po_engine::Arriving;
use po_unit::Outcome;

/// What happens to the calls of a driven object. Each is one part of a step of a protected action (specs/Happening.antt).
#[derive(Clone, Copy)]
pub enum Happening {
    /// A call with an open barrier is accepted, and its body runs.
    Served(Arriving<u64>),
    /// A call with a closed barrier is accepted: it is queued, or ends if this many or more are queued on its entry.
    Arrived(Arriving<u64>, Option<u64>),
    /// The first call on the entry is selected, and its body runs.
    Selected(u16),
    /// The call whose body has run ends.
    Ended(End<u64>),
    /// The call whose body has run is requeued to another object or a task, and has left this one.
    RequeuedElsewhere,
    /// The call whose body has run is due from now on.
    Due,
    /// The call whose body has run is requeued, or ends if this many or more are queued on its new entry.
    Requeued(Outcome<u64>, Option<u64>),
    /// The call that was queued first of all ends by Program_Error.
    Broken,
    /// The queued call with this number is cancelled.
    Cancelled(u64),
    /// The queued call with this number can't be cancelled, and is marked as aborted.
    Marked(u64),
    /// The object is finalized.
    Finalized,
}
