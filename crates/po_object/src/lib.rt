// SPDX-License-Identifier: MIT
//! A protected object that any number of threads call, each through a pass that files the answers it gets.
//!
//! An `Object` has its core behind a lock. `open` makes it over a new `Core` and hands out a `Pass` for each seat. `call`,
//! `conditional`, `timed` and `procedure` take a pass; `function`, `tick`, `cut` and others need none. `close` takes all passes
//! back and gives a `Closed`, and `reconcile` compares its receipts with its history. A `BoundedObject` takes all its memory
//! when it is opened.
//!
//! A `Front` is how far a caller has seen the history, so that each answer can be placed after what it has seen.
//!
//! Begin with object.rt, then read locked_core.rt, the value behind the lock, and seat.rt, where callers sleep. opening.rt,
//! closing.rt and reconciliation.rt are the object's beginning and end.
#![tactic(auto)]

mod closing;
mod error;
pub mod front;
mod latest;
pub mod ledgers;
mod locked_core;
mod object;
mod opening;
mod pass;
mod reconciliation;
mod reservation;
pub mod seat;
pub mod steps;

pub use closing::{BoundedClosed, Closed};
pub use error::{BoundedOpenError, CloseError, OpenError};
pub use front::Front;
pub use ledgers::{CallLedger, Story};
pub use locked_core::{BoundedLockedCore, LockedCore};
pub use object::{BoundedObject, Object};
pub use pass::{BoundedPass, Pass};
pub use po_log::Keeper;
pub use po_receipts::{Agreed, Asked, ClosedPass, Receipt, Receipts, ReconcileError};
pub use reconciliation::{are_volumes, every_answer, reconcile};
