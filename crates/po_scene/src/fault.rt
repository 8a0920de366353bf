// SPDX-License-Identifier: MIT
//! The faults that scenes alone have.

use po_ada_language::{LineFault, Stop};
use po_language::FaultKind;
use std::alloc::Global;

/// Returns why a line isn't read, for this reason.
pub(crate) fn refused(alloc: Global, reason: &str) -> Stop {
    match String::from_str(alloc, reason) {
        Ok(detail) => Stop::Fault(LineFault {
            kind: FaultKind::BadArgument,
            detail,
        }),
        Err(_) => Stop::OutOfMemory,
    }
}
