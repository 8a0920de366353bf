// SPDX-License-Identifier: MIT
//! Scripts that are read and not carried out: each fault is explained, and each line that is sure to be refused whatever was
//! carried out before it.
//!
//! `check_script` reads a script and tells a `Report` each `Finding`, line by line; its `Verdict` says whether there was any.
//! `TextReport` is the report that writes a line of text for each finding. A `Claim` is the part of a finding that contracts
//! speak of: the line, the kind of fault or the refusal, and what was `Known` about the unit. `CheckError` says why a check
//! ended early.
//!
//! Begin with `check_script` at the end of `check.rt`, and with `specs/Claims.antt`. `specs/Warnings.antt` says what a warning
//! means for a run. The texts are in `explain_fault.rt` and `explain_refusal.rt`.
#![tactic(auto)]

pub mod check;
mod checker;
pub mod claim;
pub mod error;
mod explain_fault;
mod explain_refusal;
pub mod finding;
pub mod known;
mod names;
mod nearest;
pub mod report;
pub mod text_report;
pub mod verdict;
mod wording;

pub use crate::check::check_script;
pub use crate::claim::Claim;
pub use crate::error::CheckError;
pub use crate::finding::{Finding, Found};
pub use crate::known::Known;
pub use crate::report::Report;
pub use crate::text_report::{TextReport, push_explanation};
pub use crate::verdict::Verdict;
