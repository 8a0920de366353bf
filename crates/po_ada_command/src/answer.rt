// SPDX-License-Identifier: MIT
//! Prints answers.

use po_ada_script::RunFault;
use std::io::Print;

/// Prints the text on standard output.
pub fn print_text<R: Print>(rt: &R, text: &str) -> Result<(), RunFault> {
    match print!(rt; "{text}") {
        Ok(()) => Ok(()),
        Err(_) => Err(RunFault::Write),
    }
}
