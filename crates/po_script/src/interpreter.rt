// SPDX-License-Identifier: MIT
//! Carries out the lines of a script.

ghost use Rattle.std.specs.Prelude.{◌≡◌, ◌≤◌, ◌||◌, length, OnOk, IfErr, None};
ghost use Rattle.po_script.specs.Script.{begun_after};

use crate::session::Session;
use crate::units::ScriptObject;
use po_language::{Command, RunError, UnitChoice, command_of};
use po_streams::{Sink, write_all};
use std::alloc::Global;

/// The state of a script between two lines.
#[derive(Drop)]
pub(crate) struct Interpreter<O> {
    /// The unit that the latest `unit` line began.
    pub(crate) begun: Option<UnitChoice>,
    /// The object, which the commands are carried out on.
    pub(crate) session: Session<O>,
    /// The lines that answer the latest command.
    reply: String,
}

/// Returns which unit the script has begun, after the command.
fn begun_after(begun: Option<UnitChoice>, command: Command) -> Option<UnitChoice>
    ensures { result ≡ begun_after begun command }
{
    match command {
        Command::Begin(beginning) => Some(beginning.unit),
        _ => begun,
    }
}

impl<O: ScriptObject + Drop> Interpreter<O> {
    ghost use Rattle.po_script.specs.Session.{state_of, opening_state};
    ghost use Rattle.po_script.specs.Interpreter.{CarriesOut, Fails};

    /// Returns an interpreter before the first line.
    pub(crate) fn new(alloc: Global) -> Interpreter<O>
        ensures begun { result.begun ≡ None }
        ensures session { state_of O.object result.session ≡ opening_state O.units }
    {
        Interpreter {
            begun: None,
            session: Session::new(),
            reply: String::new(alloc),
        }
    }

    /// Carries out line `number`, and writes its answer.
    pub(crate) fn carry_out<W: Sink>(
        &mut self,
        alloc: Global,
        number: u64,
        line: &[u8],
        writer: &mut W,
    ) -> Result<(), RunError>
        ensures ok { OnOk result (CarriesOut O.units O.object self.old self.new line.now
            (W.taken writer.old) (W.taken writer.new)) }
        ensures fine { OnOk result ((W.failed writer.new ≡ W.failed writer.old)
            × (W.stuck writer.new ≡ W.stuck writer.old)) }
        ensures err { IfErr result (λ fault. Fails O.units O.object fault self.old number line.now
            (W.taken writer.old) (W.taken writer.new)
            (W.failed writer.old || W.stuck writer.old) (W.failed writer.new || W.stuck writer.new)) }
    {
        let command = match command_of::<O>(self.begun, line) {
            Err(fault) => {
                let kind = fault.kind();
                return Err(RunError::Script { line: number, kind });
            }
            Ok(None) => return Ok(()),
            Ok(Some(command)) => command,
        };
        self.begun = begun_after(self.begun, command);
        self.session.answer(alloc, command, &mut self.reply)?;
        match write_all(writer, self.reply.as_bytes()) {
            Ok(()) => Ok(()),
            Err(_) => Err(RunError::Write),
        }
    }
}
