// SPDX-License-Identifier: MIT
//! The events of a protected object's history.

use po_calls::Deadline;

/// One event of a history. The first five begin a protected action (9.5.1). The last three are inner events: they continue an
/// action.
#[derive(Clone, Copy, Debug, PartialEq, Eq)]
pub enum Event<V> {
    /// Call `n` is issued on entry `e` with value `v` (9.5.3).
    Issue {
        n: u64,
        owner: u16,
        e: u16,
        v: V,
        deadline: Deadline,
    },
    /// Procedure `op` runs with value `v`, and replies with a value or the number of an exception (9.5.1).
    Procedure {
        owner: u16,
        op: u16,
        v: V,
        reply: Result<V, u32>,
    },
    /// Someone tries to cancel this call, which waits (9.5.3).
    Cancel(u64),
    /// The clock rises to this time, unless it is already past it.
    Tick(u64),
    /// The object is finalized (9.4).
    Finalize,
    /// The entry is open, and the first call on its queue is selected (9.5.3).
    Serve(u16),
    /// The barrier of this entry faults, and all queued calls end with Program_Error (9.5.3).
    Break(u16),
    /// This call, which is due, is cancelled (9.7.2, 9.7.3).
    Expire(u64),
}
