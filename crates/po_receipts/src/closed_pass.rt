// SPDX-License-Identifier: MIT
//! The passes of a closed object.

ghost use Rattle.std.specs.Prelude.{◌≡◌};
ghost use Rattle.po_receipts.specs.Passes.{PassView, IsTallied};

use crate::asked::Asked;
use crate::receipt::Receipt;
use crate::receipts::Receipts;
use po_core::Event;
use po_log::Seen;
use std::marker::Model;

/// A pass that can make no more calls. Contracts see it as the same `PassView` as before.
#[derive(Drop)]
pub struct ClosedPass<V: Copy, Q: Receipts<V> = Vec<Receipt<V>>> {
    seat: u16,
    calls: u64,
    procedures: u64,
    pending: Option<Asked<V>>,
    receipts: Q,
    seen: Seen<Event<V>>,
}

impl<V: Copy, Q: Receipts<V>> Model for ClosedPass<V, Q> {
    ghost use Rattle.po_receipts.specs.Passes.{PassView, IsTallied};

    ghost Value = { PassView V };

    ghost view = { λ s. record {
      seat = s.seat;
      calls = s.calls;
      procedures = s.procedures;
      pending = s.pending;
      receipts = Q.items s.receipts;
      seen = s.seen.items;
    } };

    ghost invariant = { λ s. IsTallied (record {
      seat = s.seat;
      calls = s.calls;
      procedures = s.procedures;
      pending = s.pending;
      receipts = Q.items s.receipts;
      seen = s.seen.items;
    }) };
}

impl<V: Copy, Q: Receipts<V>> ClosedPass<V, Q> {
    /// Returns the pass of this seat, from the numbers of accepted calls and procedures, the call that has no receipt yet, the
    /// receipts of all others, and what its caller has seen of the history.
    pub fn new(
        seat: u16,
        calls: u64,
        procedures: u64,
        pending: Option<Asked<V>>,
        receipts: Q,
        seen: Seen<Event<V>>,
    ) -> ClosedPass<V, Q>
        requires { IsTallied (record { seat = seat; calls = calls; procedures = procedures; pending = pending; receipts = Q.items receipts; seen = seen.items }) }
        ensures { result ≡ record { seat = seat; calls = calls; procedures = procedures; pending = pending; receipts = Q.items receipts; seen = seen.items } }
    {
        ClosedPass {
            seat,
            calls,
            procedures,
            pending,
            receipts,
            seen,
        }
    }

    /// Returns the seat that made these calls: their owner in the history.
    pub fn seat(&self) -> u16
        ensures { result ≡ self.now.seat }
    {
        self.seat
    }

    /// Returns how many calls were accepted.
    pub fn calls(&self) -> u64
        ensures { result ≡ self.now.calls }
    {
        self.calls
    }

    /// Returns how many procedures were accepted.
    pub fn procedures(&self) -> u64
        ensures { result ≡ self.now.procedures }
    {
        self.procedures
    }

    /// Returns the call that was accepted but has no receipt, if there is one.
    pub fn pending(&self) -> Option<Asked<V>>
        ensures { result ≡ self.now.pending }
    {
        self.pending
    }

    /// Proves the tallies: there is one receipt for each call, except a pending one, and one for each procedure.
    pub fn recall_invariant(&self)
        ensures { IsTallied self.now }
    {
        // Only for the prover: the use of a field brings in the invariant.
        let _ = &self.receipts;
    }
}

impl<V: Copy> ClosedPass<V, Vec<Receipt<V>>> {
    /// Returns the receipts, in the order in which they were filed.
    pub fn receipts(&self) -> &[Receipt<V>]
        ensures { result.now ≡ self.now.receipts }
    {
        self.receipts.as_slice()
    }
}
