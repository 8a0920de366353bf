// SPDX-License-Identifier: MIT
//! What a check says about a line.

use crate::known::Known;
use po_core::Refusal;
use po_language::FaultKind;

/// What a check says about a line, and what is known about the unit there. Lines are numbered from 1.
#[derive(Clone, Copy, Debug, PartialEq, Eq)]
pub enum Claim {
    /// This line has this fault.
    HasFault {
        line: u64,
        kind: FaultKind,
        known: Known,
    },
    /// The command of this line is sure to be refused, with this refusal, whatever was carried out before it.
    IsRefused {
        line: u64,
        refusal: Refusal,
        known: Known,
    },
}
