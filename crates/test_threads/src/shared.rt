// SPDX-License-Identifier: MIT
//! What the tests ask of an object that threads share, whether it keeps its history or not.

use po_core::{Attempt, End, Refusal, Volume};
use po_unit::EntryRef;
use std::io::{self, Print};
use std::sync::Wait;

/// An object that threads call, each with a pass of this type.
pub(crate) trait Shared<P> {
    /// Calls an entry, unless a call of the pass is pending.
    fn enter<R: Wait>(
        &self,
        rt: &R,
        pass: &mut P,
        entry: EntryRef,
        value: u64,
    ) -> Option<Result<End<u64>, Refusal>>;

    /// Runs a procedure, unless a call of the pass is pending.
    fn run_procedure<R: Wait>(
        &self,
        rt: &R,
        pass: &mut P,
        op: u16,
        value: u64,
    ) -> Option<Result<Result<u64, u32>, Refusal>>;

    /// Returns what a function replies.
    fn ask_function<R: Wait>(
        &self,
        rt: &R,
        op: u16,
        value: u64,
    ) -> Result<Result<u64, u32>, Refusal>;

    /// Raises the clock, and returns it.
    fn raise_clock<R: Wait>(&self, rt: &R, time: u64) -> Result<u64, Refusal>;

    /// Tries to cancel the seat's call.
    fn cancel_seat<R: Wait>(&self, rt: &R, seat: u16) -> Result<Attempt, Refusal>;

    /// Finalizes the object.
    fn end_all<R: Wait>(&self, rt: &R) -> Result<(), Refusal>;

    /// Returns how many calls wait on the entry, if the lock is free.
    fn count_waiting(&self, entry: EntryRef) -> Result<Option<u64>, Refusal>;

    /// Cuts the history, if the object keeps one.
    fn cut_history<R: Wait>(&self, rt: &R) -> Result<Option<Volume<u64>>, Refusal>;

    /// Prints what the pass keeps of its calls.
    fn print_pass<R: Print>(rt: &R, name: &str, pass: &P) -> io::Result<()>;
}
