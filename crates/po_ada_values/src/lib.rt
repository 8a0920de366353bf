// SPDX-License-Identifier: MIT
//! From the expressions of an Ada text to those of its program: operators, names, calls, aggregates, ranges.
//!
//! Begin with `expressions.rt`.
#![tactic(auto)]

mod attributes;
mod calls;
mod choices;
mod conditionals;
mod exceptions;
mod expressions;
mod giving;
mod loops;
mod lowering;
mod names;
mod operators;
mod values;

pub use crate::conditionals::Subject;
pub use crate::giving::Steady;
pub use crate::loops::Opened;
pub use crate::lowering::{Declared, LEVELS, Lowering, MOST_SLOTS, Parameter, sequence};
pub use crate::values::{Denoted, Part, Value, body_number, choice_place, range_of, slot_cell};
