// SPDX-License-Identifier: MIT
//! What a unit is: the data of a protected object, its entries with their numbers (9.5.2), barriers and bodies, and its
//! procedures and functions.
//!
//! `Unit` is the trait of such data. Its `meaning` says as functions what the operations do, and the contracts of the other
//! crates speak of that meaning. `Outcome` is how an entry body ends: it completes, propagates an exception, or requeues its
//! call. `Shape` numbers the entries that a list of declarations (`Decl`) declares. It turns the name of an entry (`EntryRef`)
//! into its number, and back.
//!
//! Begin with `unit.rt` and `specs/Meaning.antt`; then `shape.rt`.
#![tactic(auto)]

mod decl;
mod error;
mod outcome;
mod shape;
mod unit;

pub use decl::{Decl, EntryRef};
pub use error::{IndexError, ShapeError};
pub use outcome::Outcome;
pub use shape::Shape;
pub use unit::Unit;
