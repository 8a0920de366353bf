// SPDX-License-Identifier: MIT
//! What the threads of a run need of an object.

use po_core::{End, Refusal};
use po_unit::EntryRef;
use std::sync::Wait;

/// An object that the threads of a run call. Each thread carries a caller, which has a seat of the object.
pub(crate) trait Loaded {
    /// What a thread carries: its pass, which has no pending call.
    type Caller: Send + Drop + 'static;

    /// Returns how many seats the object has.
    fn seat_count(&self) -> u16;

    /// Returns the caller's seat.
    fn seat_of(caller: &Self::Caller) -> u16;

    /// Calls an entry, and waits until the call has ended (9.5.3).
    fn enter<W: Wait>(
        &self,
        rt: &W,
        caller: &mut Self::Caller,
        entry: EntryRef,
        value: u64,
    ) -> Result<End<u64>, Refusal>;

    /// Calls an entry, and gives the call up if it isn't selected before the deadline (9.7.2).
    fn enter_before<W: Wait>(
        &self,
        rt: &W,
        caller: &mut Self::Caller,
        entry: EntryRef,
        value: u64,
        deadline: u64,
    ) -> Result<(), Refusal>;

    /// Runs a procedure (9.5.1).
    fn run_procedure<W: Wait>(
        &self,
        rt: &W,
        caller: &mut Self::Caller,
        op: u16,
        value: u64,
    ) -> Result<(), Refusal>;

    /// Raises the clock.
    fn raise_clock<W: Wait>(&self, rt: &W, time: u64) -> Result<(), Refusal>;

    /// Tries to cancel the seat's call, if one is queued (9.5.3).
    fn cancel_seat<W: Wait>(&self, rt: &W, seat: u16);

    /// Finalizes the object, unless it is already finalized (9.4).
    fn end_all<W: Wait>(&self, rt: &W);
}
