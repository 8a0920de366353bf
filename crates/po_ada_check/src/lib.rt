// SPDX-License-Identifier: MIT
//! Scripts on protected objects that Ada texts declare, which are read and not carried out: each fault is told, and each line that
//! is sure to be refused, whatever was carried out before it.
//!
//! A `Checker` answers each line with what is wrong with it, over any `Texts` of `po_ada_language` that makes a `CheckedObject`.
//!
//! Begin with check.rt.
#![tactic(auto)]

pub mod check;
pub mod object;
mod refusals;
mod warning;

pub use crate::check::{Checker, Verdict};
pub use crate::object::CheckedObject;
pub use crate::refusals::sure_refusal;
pub use crate::warning::push_warning;
