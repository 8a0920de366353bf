// SPDX-License-Identifier: MIT
//! The two ledgers of an object: one of its accepted calls, and one of its procedures. The first also says which object it is.

ghost use Rattle.std.specs.Prelude.{◌≡◌, ◌+◌, ℕ, List, [], Option, None};
ghost use Rattle.po_unit.specs.declared.decl.Decl.{Decl};
ghost use Rattle.po_calls.specs.declared.end.End.{End};
ghost use Rattle.po_history.specs.declared.event.Event.{Event};
ghost use Rattle.po_core.specs.Setup.{Setup};

use std::marker::{Brand, PhantomData};
use std::sync::ledger::Ledger;

/// A ledger of accepted calls. It names what only the core behind the lock knows: the declarations of the entries that are
/// called, the log of the object's history, and how each call has ended by a given point of that history.
pub trait CallLedger<V>: Ledger {
    ghost shape: { List Decl };

    ghost log: { ℕ };

    ghost end_of: { List (Event V) → ℕ → Option (End V) };
}

impl<V> CallLedger<V> for Brand {
    ghost shape = { [] };

    ghost log = { 0 };

    ghost end_of = { λ log number. None };
}

/// A ledger of accepted calls that says what its object was made with, so that an answer can speak of the object's whole
/// history. A ledger that doesn't say so can't open an object.
pub trait Story<U, V>: CallLedger<V> {
    ghost setup: { Option (Setup U) };
}

impl<U, V> Story<U, V> for Brand {
    ghost setup = { None };
}

/// The fact that a ledger is cut into a part for each seat and one more, which the object keeps.
#[derive(Drop)]
pub struct SeatParts<L: Ledger> {
    /// How many seats there are.
    pub seats: u16,
    /// The ledger.
    pub of: PhantomData<L>,
    pub ghost whole: { L.parts ≡ seats + 1 },
}
