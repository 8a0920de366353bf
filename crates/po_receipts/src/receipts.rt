// SPDX-License-Identifier: MIT
//! How the receipts of a pass are kept: in memory, or only for proofs.

ghost use Rattle.std.specs.Prelude.{◌≡◌, ◌<◌, ◌∷◌, ◌++◌, [], Bool, true, false, List, IfOk, OnOk, OnErr, vec_len, vec_capacity};
ghost use Rattle.po_receipts.specs.declared.receipt.Receipt.{Receipt as Filed};

use crate::receipt::Receipt;
use po_history::Trace;
use std::alloc::{AllocError, Global};

/// The receipts of a pass, in the order in which they were filed: in memory, or known only to proofs.
pub trait Receipts<V: Copy>: Drop {
    /// The receipts.
    ghost items: { Self → List (Filed V) };

    /// There is room for one more.
    ghost HasRoom: { Self → Type 0 };

    /// They take no memory.
    ghost is_bounded: { Bool };

    /// Returns no receipts.
    fn none(alloc: Global) -> Self
        ensures { items result ≡ [] };

    /// Makes room for one more.
    fn make_room(&mut self) -> Result<(), AllocError>
        ensures same { items self.new ≡ items self.old }
        ensures room { OnOk result (HasRoom self.new) }
        ensures kept { OnErr result (HasRoom self.old → HasRoom self.new) }
        ensures refused { OnErr result (is_bounded ≡ false) };

    /// Files a receipt as the last one.
    fn file(&mut self, receipt: Receipt<V>)
        requires { HasRoom self.old }
        ensures { items self.new ≡ items self.old ++ receipt ∷ [] };
}

impl<V: Copy> Receipts<V> for Vec<Receipt<V>> {
    ghost items = { λ r. r.items };

    ghost HasRoom = { λ r. vec_len r < vec_capacity r };

    ghost is_bounded = { false };

    fn none(alloc: Global) -> Vec<Receipt<V>> {
        Vec::new(alloc)
    }

    fn make_room(&mut self) -> Result<(), AllocError> {
        self.reserve(1)
    }

    fn file(&mut self, receipt: Receipt<V>)
        requires { vec_len self.old < vec_capacity self.old }
        ensures { self.new.items ≡ self.old.items ++ receipt ∷ [] }
    {
        self.push_reserved(receipt);
    }
}

impl<V: Copy> Receipts<V> for Trace<Receipt<V>> {
    ghost items = { λ r. r.items };

    ghost HasRoom = { λ r. Unit {0} };

    ghost is_bounded = { true };

    fn none(_alloc: Global) -> Trace<Receipt<V>> {
        Trace::new()
    }

    fn make_room(&mut self) -> Result<(), AllocError> {
        Ok(())
    }

    fn file(&mut self, receipt: Receipt<V>)
        ensures { self.new.items ≡ self.old.items ++ receipt ∷ [] }
    {
        *self = self.then(&receipt);
    }
}
