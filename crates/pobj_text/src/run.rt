// SPDX-License-Identifier: MIT
//! Carries out a script from standard input on a protected object that is an Ada text.

use crate::script::answer_script;
use po_ada_command::{open, print_fault};
use po_ada_script::RunFault;
use po_ada_session::{Run, TextFile};
use po_command_line::GOOD;
use std::io::{self, BufWriter, Eprint, Input, Print};
use std::rt::Files;

/// Reads the file that the command line names, if it names one.
fn given<R: Files + AllocGlobal>(
    rt: &R,
    name: Option<String>,
) -> Result<Option<TextFile>, RunFault> {
    match name {
        Some(name) => Ok(Some(open(rt, name)?)),
        None => Ok(None),
    }
}

/// Carries out the script on standard input. If someone types it, each answer is written at once.
fn answer<R: Input + Print + Files + AllocGlobal>(
    rt: &R,
    name: Option<String>,
    is_typed: bool,
) -> Result<(), RunFault> {
    let mut session = Run::new(rt.alloc(), given(rt, name)?);
    if is_typed {
        return answer_script(rt, &mut session, io::writer(rt));
    }
    match BufWriter::new(rt.alloc(), io::writer(rt)) {
        Ok(output) => answer_script(rt, &mut session, output),
        Err(_) => Err(RunFault::OutOfMemory),
    }
}

/// Carries out the script on standard input, on the object of this file or of one that the script names. Returns the status.
pub(crate) fn run<R: Input + Print + Eprint + Files + AllocGlobal>(
    rt: &R,
    name: Option<String>,
    is_typed: bool,
) -> u8 {
    match answer(rt, name, is_typed) {
        Ok(()) => GOOD,
        Err(fault) => print_fault(rt, &fault),
    }
}
