// SPDX-License-Identifier: MIT
//! The program for `pobj run --unit FILE` and `pobj check --unit FILE`: it reads a protected object that is an Ada text, and
//! carries out a script from standard input on it.
#![tactic(auto)]

mod asked;
mod check;
mod run;
mod script;

use asked::Asked;
use po_command_line::CommandError;
use std::env::Env;
use std::io::{Eprint, Input, IsTerminal, Print};
use std::process::ExitCode;
use std::rt::Files;

/// Does what the words of the command line ask for, and returns the status. `is_typed` says whether someone types the script.
fn start<R: Env + Input + Print + Eprint + Files + AllocGlobal>(
    rt: &R,
    is_typed: bool,
) -> Result<u8, CommandError> {
    match asked::parse(rt)? {
        Asked::Run(file) => Ok(run::run(rt, file, is_typed)),
        Asked::CheckText(file) => Ok(check::check_text(rt, file)),
        Asked::CheckScript(file) => Ok(check::check_script_of(rt, file)),
    }
}

fn main(rt: HostRuntime) -> ExitCode {
    let is_typed = rt.stdin().is_terminal();
    let status = match start(&rt, is_typed) {
        Ok(status) => status,
        Err(fault) => fault.print(&rt),
    };
    ExitCode::from(status)
}
