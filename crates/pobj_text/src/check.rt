// SPDX-License-Identifier: MIT
//! Reads an Ada text, and tells its faults, or those of a script on its object.

use crate::script::answer_script;
use po_ada_check::Verdict;
use po_ada_command::{open, print_fault};
use po_ada_script::{RunFault, fault_at};
use po_ada_session::{Check, hints_on};
use po_command_line::{FINDINGS, GOOD};
use std::io::{self, BufWriter, Eprint, Input, Print};
use std::rt::Files;

/// Reads the text of the file whole, and returns the lines of its hints. Fails if it has a fault.
fn hints<R: Files + AllocGlobal>(rt: &R, name: String) -> Result<String, RunFault> {
    let file = open(rt, name)?;
    match hints_on(rt.alloc(), &file) {
        Ok(hints) => Ok(hints),
        Err(stop) => Err(fault_at(0, stop)),
    }
}

/// Reads the text of the file whole, and prints its faults, or the hints on it. Returns the status.
pub(crate) fn check_text<R: Eprint + Files + AllocGlobal>(rt: &R, name: String) -> u8 {
    match hints(rt, name) {
        Ok(hints) => {
            let _ = eprint!(rt; "{hints}");
            GOOD
        }
        Err(fault) => print_fault(rt, &fault),
    }
}

/// Checks the script on standard input on the object of the file of this name, and writes what is found.
fn checked<R: Input + Print + Files + AllocGlobal>(
    rt: &R,
    name: String,
) -> Result<Verdict, RunFault> {
    let mut session = Check::new(rt.alloc(), Some(open(rt, name)?));
    let Ok(output) = BufWriter::new(rt.alloc(), io::writer(rt)) else {
        return Err(RunFault::OutOfMemory);
    };
    answer_script(rt, &mut session, output)?;
    Ok(session.verdict())
}

/// Checks the script on standard input on the object of the file of this name. Returns the status.
pub(crate) fn check_script_of<R: Input + Print + Eprint + Files + AllocGlobal>(
    rt: &R,
    name: String,
) -> u8 {
    match checked(rt, name) {
        Ok(Verdict::Clean) => GOOD,
        Ok(Verdict::Faulty) => FINDINGS,
        Err(fault) => print_fault(rt, &fault),
    }
}
