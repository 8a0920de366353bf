// SPDX-License-Identifier: MIT
//! Receipts for which memory is refused.

ghost use Rattle.std.specs.Prelude.{◌≡◌, ◌<◌, ◌∷◌, ◌++◌, [], false, vec_len, vec_capacity};

use po_object::{Receipt, Receipts};
use std::alloc::{AllocError, Global};

/// Receipts in memory. The room for each is refused once, and granted when it is asked for again.
#[derive(Drop)]
pub(crate) struct Refusing {
    receipts: Vec<Receipt<u64>>,
    was_refused: bool,
}

impl Receipts<u64> for Refusing {
    ghost items = { λ r. r.receipts.items };

    ghost HasRoom = { λ r. vec_len r.receipts < vec_capacity r.receipts };

    ghost is_bounded = { false };

    fn none(alloc: Global) -> Refusing {
        Refusing {
            receipts: Vec::new(alloc),
            was_refused: false,
        }
    }

    fn make_room(&mut self) -> Result<(), AllocError> {
        self.was_refused = !self.was_refused;
        if self.was_refused {
            return Err(AllocError);
        }
        self.receipts.reserve(1)
    }

    fn file(&mut self, receipt: Receipt<u64>)
        requires { vec_len self.old.receipts < vec_capacity self.old.receipts }
        ensures { self.new.receipts.items ≡ self.old.receipts.items ++ receipt ∷ [] }
    {
        self.receipts.push_reserved(receipt);
    }
}
