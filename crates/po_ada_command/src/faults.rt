// SPDX-License-Identifier: MIT
//! Tells faults.

use po_ada_language::LineFault;
use po_ada_script::RunFault;
use po_command_line::{FINDINGS, NAME, NO_MEANS};
use po_language::RunError;
use std::io::Eprint;

/// Prints the fault of a line.
fn print_line<R: Eprint>(rt: &R, number: u64, fault: &LineFault) {
    let kind = fault.kind;
    let detail = fault.detail.as_str();
    if detail.is_empty() {
        let _ = eprintln!(rt; "{NAME}: line {number}: {kind}");
    } else {
        let _ = eprintln!(rt; "{NAME}: line {number}: {kind}: {detail}");
    }
}

/// Prints a fault, and returns the status: 1 if a script, a scene or an Ada text has the fault; 4 if memory ran out, or a read or a
/// write failed.
pub fn print_fault<R: Eprint>(rt: &R, fault: &RunFault) -> u8 {
    let means = match fault {
        RunFault::Line { number, fault } => {
            print_line(rt, *number, fault);
            return FINDINGS;
        }
        RunFault::Text(lines) => {
            let _ = eprint!(rt; "{lines}");
            return FINDINGS;
        }
        RunFault::Unread(name) => {
            let _ = eprintln!(rt; "{NAME}: {name} can't be read");
            return NO_MEANS;
        }
        RunFault::Read => RunError::Read,
        RunFault::Write => RunError::Write,
        RunFault::OutOfMemory => RunError::Memory,
    };
    let _ = eprintln!(rt; "{NAME}: {means}");
    NO_MEANS
}
