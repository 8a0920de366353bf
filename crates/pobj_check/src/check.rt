// SPDX-License-Identifier: MIT
//! Reads a script, carries out nothing, and explains its faults.

use po_check::{CheckError, TextReport, Verdict, check_script};
use po_command_line::{FINDINGS, GOOD, NAME, NO_MEANS};
use po_streams::OverStd;
use std::fs::File;
use std::io::{self, BufWriter, Eprint, Input, Print, Read, Write};
use std::rt::Files;

/// Checks the script that the reader gives, and writes what is found to standard output.
fn check_from<R: Print + AllocGlobal, T: Read + Drop>(
    rt: &R,
    input: T,
) -> Result<Verdict, CheckError> {
    let alloc = rt.alloc();
    let Ok(output) = BufWriter::new(alloc, io::writer(rt)) else {
        return Err(CheckError::Memory);
    };
    let mut reader = OverStd::new(input);
    let mut report = TextReport::new(alloc, OverStd::new(output));
    let verdict = check_script(alloc, &mut reader, &mut report);
    match report.into_sink().into_inner().flush() {
        Ok(()) => verdict,
        Err(_) => Err(CheckError::Write),
    }
}

/// Returns the status of a check. Prints the check's fault, if it has one.
fn status_of<R: Eprint>(rt: &R, checked: Result<Verdict, CheckError>) -> u8 {
    match checked {
        Ok(Verdict::Clean) => GOOD,
        Ok(Verdict::Faulty) => FINDINGS,
        Err(fault) => {
            let _ = eprintln!(rt; "{NAME}: {fault}");
            NO_MEANS
        }
    }
}

/// Checks the script in the file, or on standard input if no file is named, and returns the status.
pub(crate) fn check<R: Input + Print + Eprint + Files + AllocGlobal>(
    rt: &R,
    file: Option<String>,
) -> u8 {
    let Some(path) = file else {
        return status_of(rt, check_from(rt, rt.reader()));
    };
    match File::open(rt, path.as_str()) {
        Ok(file) => status_of(rt, check_from(rt, file)),
        Err(error) => {
            let _ = eprintln!(rt; "{NAME}: {path} can't be opened: {error}");
            NO_MEANS
        }
    }
}
