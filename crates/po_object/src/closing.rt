// SPDX-License-Identifier: MIT
//! How an object is closed, and what is left of it.

ghost use Rattle.std.specs.Prelude.{◌≡◌, ◌↔◌, true, All, Some, ◌+◌, ◌^◌, ◌<◌, ◌≤◌, IfOk, IfErr, IfSome, IfNone, OnOk, length, vec_len, slice_index, slice_set, sum_by};
ghost use mathlib.Core.List.{IsPrefix};
ghost use Rattle.po_object.specs.Seats.{OneEach, IsMissing, AreBySeat, ArePlaced, AreCounts};
ghost use Rattle.po_object.specs.Faults.{KeepsAll};
ghost use Rattle.po_object.specs.Closing.{IsClosed};
ghost use Rattle.po_receipts.specs.Answers.{AnswersAreOwn, HasClosingTotals, HasNoOthers, NonePending};
ghost use Rattle.po_receipts.specs.OneHistory.{IsWholeHistory, IsWholeLog, state_after};
ghost use Rattle.po_receipts.specs.Told.{IsToldOf};

use crate::error::CloseError;
use crate::front::{Front, Log};
use crate::ledgers::{CallLedger, SeatParts, Story};
use crate::object::Object;
use crate::steps::Hook;
use crate::{LockedCore, Pass};
use po_core::{Core, Event, Record, Recorded, Unrecorded};
use po_history::Trace;
use po_log::Seen;
use po_receipts::{ClosedPass, Receipt, Receipts, none_pending};
use po_unit::Unit;
use std::marker::Model;
use std::sync::ledger::{Ledger, Share};

/// An object that was closed, so that no one can call it any more. Contracts see it as its core, its passes and its whole
/// history.
#[derive(Drop)]
pub struct Closed<
    U: Unit,
    R: Record<U> = Recorded<U>,
    Q: Receipts<<U as Unit>::Value> = Vec<Receipt<<U as Unit>::Value>>,
> {
    core: Core<U, R>,
    passes: Vec<ClosedPass<U::Value, Q>>,
    log: Seen<Event<U::Value>>,
}

/// A closed object that took no memory for its calls.
pub type BoundedClosed<U> = Closed<U, Unrecorded<U>, Trace<Receipt<<U as Unit>::Value>>>;

impl<U: Unit, R: Record<U>, Q: Receipts<U::Value>> Model for Closed<U, R, Q> {
    ghost use Rattle.po_object.specs.Closing.{ClosedView, IsClosed};

    ghost Value = { ClosedView U U.Value };

    ghost view = { λ c. record { core = c.core; passes = c.passes.items; log = c.log.items } };

    ghost invariant = { λ c. IsClosed U.meaning (record { core = c.core; passes = c.passes.items; log = c.log.items }) };
}

impl<U: Unit, R: Record<U>, Q: Receipts<U::Value>> Closed<U, R, Q> {
    /// Returns the core.
    pub fn core(&self) -> &Core<U, R>
        ensures { result.now ≡ self.now.core }
    {
        &self.core
    }

    /// Returns the passes, by rising seat.
    pub fn passes(&self) -> &[ClosedPass<U::Value, Q>]
        ensures { result.now ≡ self.now.passes }
    {
        self.passes.as_slice()
    }

    /// Returns the whole history, from the opening on, which only proofs know.
    pub fn log(&self) -> &Seen<Event<U::Value>>
        ensures { result.now.items ≡ self.now.log }
    {
        &self.log
    }

    /// Returns whether no pass has a call that was accepted but has no receipt. The calls of `Object` leave none pending.
    pub fn none_pending(&self) -> bool
        ensures { (result ≡ true) ↔ NonePending self.now.passes }
    {
        none_pending(self.passes())
    }

    /// Proves what holds of every closed object. The pass of a seat is at the seat's place. In the whole history as many calls
    /// were issued, and as many procedures ran, as the passes counted, and only seats asked for them. Each pass has seen a
    /// beginning of it. If no call is pending, the receipts of each seat are those that the history gives it.
    pub fn closing_totals(&self)
        ensures { IsClosed U.meaning self.now }
    {
        // Only for the prover: the use of a field brings in the invariant.
        let _ = &self.core;
    }

    /// Proves that what every caller was answered is the history's answer to that caller's own call, each once and in the
    /// caller's order. This history is one of serial protected actions of one thread (9.5.1), and has no other calls and
    /// procedures.
    ///
    /// It holds with or without a record in memory, whatever was cut off.
    pub fn every_answer(&self)
        // `none_pending` says so: the calls of `Object` leave none pending.
        requires { NonePending self.now.passes }
        ensures own { AnswersAreOwn (state_after U.meaning self.now.core.object.setup self.now.log).ended self.now.log self.now.passes }
        ensures serial { IsWholeHistory U.meaning self.now.core.object.setup self.now.log }
        ensures none_other { HasNoOthers self.now.log self.now.passes }
        // The log is what was cut off, in its order, and the events since.
        ensures whole { IsWholeLog U.meaning self.now.core.object self.now.log }
    {
        self.core.headline();
        self.closing_totals();
    }
}

impl<
    U: Unit,
    C: Story<U, U::Value>,
    P: Ledger,
    F: Ledger,
    R: Record<U>,
    Q: Receipts<U::Value>,
    S: Hook,
> Object<U, C, P, F, R, Q, S> {
    /// Closes the object, if each seat has exactly one of the passes. Takes no memory.
    ///
    /// Otherwise the error names the lowest seat that doesn't, and hands everything back: the passes as they were, and the
    /// object with the same number of seats, which is all that contracts see of it.
    pub fn close(
        self,
        passes: Vec<Pass<U::Value, C, P, F, Q>>,
    ) -> Result<Closed<U, R, Q>, CloseError<U, C, P, F, R, Q, S>>
        ensures one_each { OnOk result (OneEach self passes.items × (length passes.items ≡ self)) }
        ensures by_seat { IfOk result (λ closed. AreBySeat self passes.items closed.passes) }
        ensures totals { IfOk result (λ closed. HasClosingTotals closed.core closed.passes) }
        // It is the object that was opened.
        ensures setup { IfOk result (λ closed. C.setup ≡ Some closed.core.object.setup) }
        ensures fault { IfErr result (λ fault. KeepsAll self passes.items fault) }
    {
        let front = self.front();
        self.close_after(&front, passes)
    }

    /// Closes the object as `close` does. What the front has seen is then a beginning of the closed object's history.
    pub fn close_after(
        self,
        front: &Front<U::Value, C>,
        passes: Vec<Pass<U::Value, C, P, F, Q>>,
    ) -> Result<Closed<U, R, Q>, CloseError<U, C, P, F, R, Q, S>>
        ensures one_each { OnOk result (OneEach self passes.items × (length passes.items ≡ self)) }
        ensures by_seat { IfOk result (λ closed. AreBySeat self passes.items closed.passes) }
        ensures totals { IfOk result (λ closed. HasClosingTotals closed.core closed.passes) }
        ensures setup { IfOk result (λ closed. C.setup ≡ Some closed.core.object.setup) }
        ensures seen { IfOk result (λ closed. IsPrefix front.now closed.log) }
        ensures fault { IfErr result (λ fault. KeepsAll self passes.items fault) }
    {
        let mut object = self;
        if let Some(seat) = object.missing(&passes) {
            return Err(CloseError::PassMissing {
                seat,
                object,
                passes,
            });
        }
        let Object {
            locked,
            seats: _seats,
            calls,
            procedures,
            room,
            counts: _counts,
            opening: _opening,
            steps: _steps,
        } = object;
        let closed = gather(
            locked.into_inner(),
            front,
            room,
            passes,
            &calls,
            &procedures,
        );
        Ok(closed)
    }
}

impl<
    U: Unit,
    C: Story<U, U::Value>,
    P: Ledger,
    F: Ledger,
    R: Record<U>,
    Q: Receipts<U::Value>,
    S: Hook,
> Object<U, C, P, F, R, Q, S> {
    /// Returns the lowest seat that doesn't have exactly one of the passes.
    fn missing(&mut self, passes: &Vec<Pass<U::Value, C, P, F, Q>>) -> Option<u16>
        ensures same { self.new ≡ self.old }
        ensures some { IfSome result (λ s. IsMissing self.old passes.now.items s) }
        ensures none { IfNone result (OneEach self.old passes.now.items) }
    {
        count(&mut self.counts, passes);
        for seat in 0..self.calls.seats {
            if self.counts[seat as usize] != 1 {
                return Some(seat);
            }
        }
        None
    }
}

/// Counts the passes of each seat.
fn count<V: Copy, C: CallLedger<V>, P: Ledger, F: Ledger, Q: Receipts<V>>(
    counts: &mut Vec<usize>,
    passes: &Vec<Pass<V, C, P, F, Q>>,
)
    ensures { AreCounts (vec_len counts.old) passes.now.items counts.new.items }
{
    counts.as_mut_slice().fill(0);
    for i in 0..passes.len() {
        count_one(counts, passes[i].seat());
    }
}

/// Counts one more pass of the seat, if there is such a seat.
fn count_one(counts: &mut Vec<usize>, seat: u16)
    requires { seat < vec_len counts.old → slice_index counts.old.items seat + 1 < 2 ^ 64 }
    ensures within { seat < vec_len counts.old →
        counts.new.items ≡ slice_set counts.old.items seat (slice_index counts.old.items seat + 1) }
    ensures past { vec_len counts.old ≤ seat → counts.new.items ≡ counts.old.items }
{
    let seat = seat as usize;
    if seat < counts.len() {
        counts[seat] += 1;
    }
}

/// Takes the core out, with the passes by rising seat. What the front has seen is a beginning of the log.
fn gather<
    U: Unit,
    C: Story<U, U::Value>,
    P: Ledger,
    F: Ledger,
    R: Record<U>,
    Q: Receipts<U::Value>,
>(
    locked: LockedCore<U, C, P, F, R, Q>,
    front: &Front<U::Value, C>,
    room: Vec<ClosedPass<U::Value, Q>>,
    passes: Vec<Pass<U::Value, C, P, F, Q>>,
    calls: &SeatParts<C>,
    procedures: &SeatParts<P>,
) -> Closed<U, R, Q>
    requires room { vec_len room ≡ calls.now.seats }
    requires seats { procedures.now.seats ≡ calls.now.seats }
    requires one_each { OneEach calls.now.seats passes.items }
    ensures length { length passes.items ≡ calls.now.seats }
    ensures by_seat { AreBySeat calls.now.seats passes.items result.passes }
    ensures totals { HasClosingTotals result.core result.passes }
    ensures setup { C.setup ≡ Some result.core.object.setup }
    ensures seen { IsPrefix front.now result.log }
{
    let (core, mut calls_book, mut procedures_book, mut made, mut ran, mut log) =
        locked.take_apart();
    core.headline();
    // Only for the prover: the use of the field brings in the invariant of `procedures`.
    let _seats = procedures.seats;
    let spent = collect(calls.seats, room, passes, &mut made, &mut ran, &mut log);
    calls_book.audit(&mut made);
    procedures_book.audit(&mut ran);
    log.recall(front);
    Closed {
        core,
        passes: spent,
        log: log.into_seen(),
    }
}

/// Puts each pass into the room of its seat, and merges its parts of the ledgers into these. What the callers were told is in
/// the log.
fn collect<V: Copy, C: CallLedger<V>, P: Ledger, F: Ledger, Q: Receipts<V>>(
    seats: u16,
    room: Vec<ClosedPass<V, Q>>,
    passes: Vec<Pass<V, C, P, F, Q>>,
    made: &mut Share<C>,
    ran: &mut Share<P>,
    log: &mut Log<V, C>,
) -> Vec<ClosedPass<V, Q>>
    requires room { vec_len room ≡ seats }
    requires parts { (made.old.parts ≡ 1) × (ran.old.parts ≡ 1) }
    requires bound { 1 ≤ C.parts }
    requires amounts { (made.old.amount ≡ 0) × (ran.old.amount ≡ 0) }
    ensures room { vec_len result ≡ seats }
    ensures parts { (made.new.parts ≡ length passes.items + 1) × (ran.new.parts ≡ length passes.items + 1) }
    ensures bound { made.new.parts ≤ C.parts }
    ensures calls { made.new.amount ≡ sum_by (λ pass. pass.calls) passes.items }
    ensures procedures { ran.new.amount ≡ sum_by (λ pass. pass.procedures) passes.items }
    ensures placed { ArePlaced seats passes.items result.items }
    ensures told { All (IsToldOf C.end_of log.old) passes.items }
    ensures same_log { log.new ≡ log.old }
{
    let mut room = room;
    for pass in passes {
        let seat = pass.seat() as usize;
        let spent = pass.spend(made, ran, log);
        if seat < room.len() {
            room[seat] = spent;
        }
    }
    room
}
