// SPDX-License-Identifier: MIT
//! What a caller carries.

ghost use Rattle.std.specs.Prelude.{◌≡◌, ◌<◌, ◌≤◌, ◌+◌, ◌⊎◌, ◌↔◌, true, IsSome, []};
ghost use mathlib.Core.List.{IsPrefix};
ghost use Rattle.po_receipts.specs.Passes.{PassView, IsTallied, fresh};
ghost use Rattle.po_receipts.specs.Told.{IsTold, IsToldOf};
ghost use Rattle.po_object.specs.Filing.{seeing};
ghost use Rattle.po_object.specs.Reservations.{reserved};

use crate::front::{Front, Log};
use crate::ledgers::CallLedger;
use crate::reservation::Reservation;
use crate::steps::Hook;
use crossbeam_utils::sync::Parker;
use po_history::Trace;
use po_receipts::{Asked, ClosedPass, Receipt, Receipts};
use std::alloc::Global;
use std::marker::Model;
use std::sync::Wait;
use std::sync::ledger::{Ledger, Share};

/// The right to call an object from one seat. Opening the object hands out one for each seat, and none can be copied. It files
/// a receipt for each accepted call and procedure, in memory or only for proofs. It has seen the history up to its last answer.
#[derive(Drop)]
pub struct Pass<
    V: Copy,
    C: CallLedger<V>,
    P: Ledger,
    F: Ledger = C,
    Q: Receipts<V> = Vec<Receipt<V>>,
> {
    pub(crate) seat: u16,
    pub(crate) calls: u64,
    pub(crate) procedures: u64,
    pub(crate) made: Share<C>,
    pub(crate) ran: Share<P>,
    pub(crate) reservation: Reservation<F>,
    pub(crate) pending: Option<Asked<V>>,
    pub(crate) receipts: Q,
    pub(crate) parker: Parker,
    pub(crate) front: Front<V, C>,
}

/// A pass whose receipts only proofs know.
pub type BoundedPass<V, C, P, F> = Pass<V, C, P, F, Trace<Receipt<V>>>;

impl<V: Copy, C: CallLedger<V>, P: Ledger, F: Ledger, Q: Receipts<V>> Model
    for Pass<V, C, P, F, Q> {
    ghost use Rattle.std.specs.Prelude.{◌≡◌, ◌<◌, ◌+◌, IsSome};
    ghost use Rattle.po_object.specs.Reservations.{reserved_for};
    ghost use Rattle.po_receipts.specs.Passes.{PassView, IsTallied};
    ghost use Rattle.po_receipts.specs.Told.{IsTold};

    ghost Value = { PassView V };

    ghost view = { λ p. record {
      seat = p.seat;
      calls = p.calls;
      procedures = p.procedures;
      pending = p.pending;
      receipts = Q.items p.receipts;
      seen = p.front;
    } };

    ghost invariant = { λ p. record {
      tallied : IsTallied (record {
        seat = p.seat;
        calls = p.calls;
        procedures = p.procedures;
        pending = p.pending;
        receipts = Q.items p.receipts;
        seen = p.front;
      });
      told : IsTold C.end_of (record {
        seat = p.seat;
        calls = p.calls;
        procedures = p.procedures;
        pending = p.pending;
        receipts = Q.items p.receipts;
        seen = p.front;
      });
      parts : (p.made.parts ≡ 1) × (p.ran.parts ≡ 1);
      amounts : (p.made.amount ≡ p.calls) × (p.ran.amount ≡ p.procedures);
      room : IsSome p.pending → Q.HasRoom p.receipts;
      reservation : p.reservation ≡ reserved_for Q.is_bounded p.pending;
      seat : p.seat + 1 < C.parts;
    } };
}

impl<V: Copy, C: CallLedger<V>, P: Ledger, F: Ledger, Q: Receipts<V>> Pass<V, C, P, F, Q> {
    pub(crate) fn new(
        seat: u16,
        made: Share<C>,
        ran: Share<P>,
        reservation: Reservation<F>,
        parker: Parker,
        front: Front<V, C>,
        alloc: Global,
    ) -> Pass<V, C, P, F, Q>
        requires parts { (made.parts ≡ 1) × (ran.parts ≡ 1) }
        requires amounts { (made.amount ≡ 0) × (ran.amount ≡ 0) }
        requires reservation { reservation ≡ reserved Q.is_bounded 1 }
        // The ledger has a part for each seat, and one more.
        requires seat { seat + 1 < C.parts }
        requires front { front ≡ [] }
        ensures { result ≡ fresh seat }
    {
        Pass {
            seat,
            calls: 0,
            procedures: 0,
            made,
            ran,
            reservation,
            pending: None,
            receipts: Q::none(alloc),
            parker,
            front,
        }
    }

    /// Returns the seat from which it calls: the owner of its calls in the history.
    pub fn seat(&self) -> u16
        ensures { result ≡ self.now.seat }
    {
        self.seat
    }

    /// Returns how many calls were accepted.
    pub fn calls(&self) -> u64
        ensures { result ≡ self.now.calls }
    {
        self.calls
    }

    /// Returns how many procedures were accepted.
    pub fn procedures(&self) -> u64
        ensures { result ≡ self.now.procedures }
    {
        self.procedures
    }

    /// Returns whether a call was accepted that has no receipt yet. Between two calls of an `Object`, none is pending.
    pub fn pending(&self) -> bool
        ensures { (result ≡ true) ↔ IsSome self.now.pending }
    {
        self.pending.is_some()
    }

    /// Returns how far its caller has seen the history of the object, for another caller, which has no seat.
    pub fn front(&self) -> Front<V, C>
        ensures { result ≡ self.now.seen }
    {
        self.front.again()
    }

    /// Lets its caller see what another one has seen too: later answers come after that.
    pub fn see(&mut self, front: &Front<V, C>)
        ensures own { IsPrefix self.old.seen self.new.seen }
        ensures other { IsPrefix front.now self.new.seen }
        ensures alone { (self.new.seen ≡ self.old.seen) ⊎ (self.new.seen ≡ front.now) }
        ensures same { self.new ≡ seeing self.old self.new.seen }
    {
        self.front.see(front);
    }

    /// Proves that there is one receipt for each call, except a pending one, and one for each procedure, and that each receipt
    /// says what happened in the history that the caller has seen.
    pub fn recall_invariant(&self)
        ensures tallied { IsTallied self.now }
        ensures told { IsTold C.end_of self.now }
    {
        // Only for the prover: the use of a field brings in the invariant.
        let _ = &self.receipts;
    }

    /// Returns the call that has no receipt yet.
    pub(crate) fn asked(&self) -> Option<Asked<V>>
        ensures { result ≡ self.now.pending }
    {
        self.pending
    }

    /// Merges the pass's parts of the ledgers into these, and returns the rest. What its caller was told is in the log.
    pub(crate) fn spend(
        self,
        made: &mut Share<C>,
        ran: &mut Share<P>,
        log: &mut Log<V, C>,
    ) -> ClosedPass<V, Q>
        ensures same { result ≡ self }
        ensures told { IsToldOf C.end_of log.old self }
        ensures same_log { log.new ≡ log.old }
        ensures calls { (made.new.parts ≡ made.old.parts + 1) × (made.new.amount ≡ made.old.amount + self.calls) }
        ensures procedures { (ran.new.parts ≡ ran.old.parts + 1) × (ran.new.amount ≡ ran.old.amount + self.procedures) }
        ensures apart { (made.new.parts ≤ C.parts) × (ran.new.parts ≤ P.parts) }
    {
        let Pass {
            seat,
            calls,
            procedures,
            made: own_made,
            ran: own_ran,
            reservation: _reservation,
            pending,
            receipts,
            parker: _parker,
            front,
        } = self;
        log.recall(&front);
        made.merge(own_made);
        ran.merge(own_ran);
        let seen = front.into_seen();
        ClosedPass::new(seat, calls, procedures, pending, receipts, seen)
    }

    /// Sleeps until the seat is notified. A sleep may also end for no reason.
    pub(crate) fn sleep<W: Wait, S: Hook>(&self, rt: &W, steps: &S) {
        if steps.sleeps(self.seat) {
            self.parker.park(rt);
        }
    }
}

impl<V: Copy, C: CallLedger<V>, P: Ledger, F: Ledger> Pass<V, C, P, F, Vec<Receipt<V>>> {
    /// Returns the receipts, in the order in which they were filed.
    pub fn receipts(&self) -> &[Receipt<V>]
        ensures { result.now ≡ self.now.receipts }
    {
        self.receipts.as_slice()
    }
}
