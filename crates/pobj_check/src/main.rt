// SPDX-License-Identifier: MIT
//! The program for `pobj check`: it reads a script, carries out nothing, and explains the script's faults.
#![tactic(auto)]

mod asked;
mod check;

use po_command_line::CommandError;
use std::env::Env;
use std::io::{Eprint, Input, Print};
use std::process::ExitCode;
use std::rt::Files;

/// Checks the script that the words of the command line name, and returns the status.
fn start<R: Env + Input + Print + Eprint + Files + AllocGlobal>(
    rt: &R,
) -> Result<u8, CommandError> {
    let file = asked::parse(rt)?;
    Ok(check::check(rt, file))
}

fn main(rt: HostRuntime) -> ExitCode {
    let status = match start(&rt) {
        Ok(status) => status,
        Err(fault) => fault.print(&rt),
    };
    ExitCode::from(status)
}
