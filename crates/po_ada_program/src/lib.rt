// SPDX-License-Identifier: MIT
//! From the syntax tree of an Ada text to the program of its protected object: names and types.
//!
//! `object_of` makes the program and the names for scripts, for values of the discriminants. What is wrong is told by faults.
//! This is tested, not proved, beyond that it ends and never panics.
//!
//! Begin with `object.rt` and `unit.rt`.
#![tactic(auto)]

mod actions;
mod aspects;
mod declared_names;
mod declaring;
mod making;
mod object;
mod outside;
mod preconditions;
mod queue_limits;
mod unit;
mod variable_names;

pub use crate::object::{Made, heading_of, object_of};
