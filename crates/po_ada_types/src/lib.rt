// SPDX-License-Identifier: MIT
//! Types, the meanings of names, and the values of static operators: what is known while an Ada text gets its meaning.
//!
//! Begin with `types.rt` and `known.rt`.
#![tactic(auto)]

mod folding;
mod kinds;
mod known;
mod marks;
mod types;

pub use crate::folding::{folded, folded_prefix, within};
pub use crate::known::Known;
pub use crate::types::{
    BOOLEAN, CHARACTER, Field, GREATEST, INTEGER, Kind, LEAST, Meaning, Structure, Sub, Symbol,
    UNIVERSAL, Variable, base_of, base_range, count,
};
