// SPDX-License-Identifier: MIT
//! What a check finds in a line.

ghost use Rattle.std.specs.Prelude.{◌≡◌};
ghost use Rattle.po_check.specs.Reports.{claim_of};

use crate::claim::Claim;
use crate::known::Known;
use po_core::Refusal;
use po_language::{LineError, Operation};

/// What is found in a line.
#[derive(Clone, Copy, Debug, PartialEq, Eq)]
pub enum Found {
    /// A fault.
    Fault(LineError),
    /// An operation that is sure to be refused.
    Refused(Operation, Refusal),
}

/// What a check finds in a line.
#[derive(Clone, Copy, Debug, PartialEq, Eq)]
pub struct Finding {
    /// The number of the line, from 1.
    pub number: u64,
    /// What is known about the unit that was begun.
    pub known: Known,
    /// What is found.
    pub found: Found,
}

impl Finding {
    /// Returns what it says about the line.
    pub fn claim(&self) -> Claim
        ensures { result ≡ claim_of self.now }
    {
        match self.found {
            Found::Fault(fault) => Claim::HasFault {
                line: self.number,
                kind: fault.kind(),
                known: self.known,
            },
            Found::Refused(_, refusal) => Claim::IsRefused {
                line: self.number,
                refusal,
                known: self.known,
            },
        }
    }
}
