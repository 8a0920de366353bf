// SPDX-License-Identifier: MIT
//! Tells the faults of a scene.

use crate::asked::CheckAsked;
use crate::scene::check;
use po_ada_command::{print_fault, print_text};
use po_ada_script::RunFault;
use po_command_line::{FINDINGS, GOOD};
use std::io::{Eprint, Print};
use std::rt::Files;

/// Prints the faults of the scene. Returns whether it has none.
fn checked<R: Print + Files + AllocGlobal>(rt: &R, asked: CheckAsked) -> Result<bool, RunFault> {
    let faults = check(rt, asked.scene, asked.unit)?;
    print_text(rt, faults.as_str())?;
    Ok(faults.is_empty())
}

/// Prints the faults of the scene that is asked for, and returns the status.
pub(crate) fn run<R: Print + Eprint + Files + AllocGlobal>(rt: &R, asked: CheckAsked) -> u8 {
    match checked(rt, asked) {
        Ok(true) => GOOD,
        Ok(false) => FINDINGS,
        Err(fault) => print_fault(rt, &fault),
    }
}
