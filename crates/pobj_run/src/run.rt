// SPDX-License-Identifier: MIT
//! Carries out a script from standard input on a protected object.

ghost use Rattle.std.specs.Prelude.{◌≡◌, false};

use crate::terminals::Terminals;
use po_language::RunError;
use po_script::run_script;
use po_streams::{OverStd, Source};
use std::alloc::Global;
use std::io::{self, BufWriter, Eprint, Input, Print, Write};

/// What someone who types a script is told.
const HINT: &str =
    "pobj: each line is carried out when it is ended; Ctrl-D at its beginning ends the script";

/// Carries out the script that the source gives. If it succeeds, every answer has been written.
fn carry_out<S: Source, W: Write + Drop>(
    alloc: Global,
    source: &mut S,
    output: W,
) -> Result<(), RunError>
    requires { (S.failed source.old ≡ false) × (S.ended source.old ≡ false) }
{
    let mut writer = OverStd::new(output);
    let ran = run_script(alloc, source, &mut writer);
    match writer.into_inner().flush() {
        Ok(()) => ran,
        Err(_) => Err(RunError::Write),
    }
}

/// Carries out the script that the source gives. If someone types it, each answer is written at once.
fn answer<R: Print + AllocGlobal, S: Source>(
    rt: &R,
    source: &mut S,
    terminals: Terminals,
) -> Result<(), RunError>
    requires { (S.failed source.old ≡ false) × (S.ended source.old ≡ false) }
{
    let alloc = rt.alloc();
    if terminals.input {
        return carry_out(alloc, source, io::writer(rt));
    }
    match BufWriter::new(alloc, io::writer(rt)) {
        Ok(output) => carry_out(alloc, source, output),
        Err(_) => Err(RunError::Memory),
    }
}

/// Carries out the script on standard input. Someone who types it is told how.
pub(crate) fn run<R: Input + Print + Eprint + AllocGlobal>(
    rt: &R,
    terminals: Terminals,
) -> Result<(), RunError> {
    if terminals.input && terminals.errors {
        let _ = eprintln!(rt; "{HINT}");
    }
    answer(rt, &mut OverStd::new(rt.reader()), terminals)
}
