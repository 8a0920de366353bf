// SPDX-License-Identifier: MIT
//! A session, which carries out the commands of a script.

ghost use Rattle.std.specs.Prelude.{◌≡◌, OnOk, OnErr, string_bytes};
ghost use Rattle.po_script.specs.Operations.{IsEither};

use crate::units::ScriptObject;
use po_language::Command;
use std::alloc::{AllocError, Global};

/// A session: the object that the latest `unit` line began, if one did.
#[derive(Drop)]
pub struct Session<O> {
    object: Option<O>,
}

#[tactic(auto, unfolding(crate::specs::Session::opening_state, crate::specs::Session::after, crate::specs::Session::answer))]
impl<O: ScriptObject + Drop> Session<O> {
    ghost use Rattle.po_language.specs.Commands.{CanBegin};
    ghost use Rattle.po_script.specs.Session.{state_of, opening_state, after, answer};
    ghost use Rattle.po_script.specs.Units.{listed};

    /// Returns a session before its first command.
    pub fn new() -> Session<O>
        ensures { state_of O.object result ≡ opening_state O.units }
    {
        Session { object: None }
    }

    /// Carries out the command, and makes the text of `reply` the lines that answer it.
    ///
    /// If memory runs out, the command may or may not have happened, and `reply` is unspecified. The run then ends without
    /// writing any of it.
    pub fn answer(
        &mut self,
        alloc: Global,
        command: Command,
        reply: &mut String,
    ) -> Result<(), AllocError>
        requires { CanBegin (listed O.units) command }
        ensures state { OnOk result (state_of O.object self.new ≡ after O.units (state_of O.object self.old) command) }
        ensures failed { OnErr result (IsEither (state_of O.object self.new) (state_of O.object self.old) (after O.units (state_of O.object self.old) command)) }
        ensures text { OnOk result (string_bytes reply.new ≡ answer O.units (state_of O.object self.old) command) }
    {
        reply.clear();
        match command {
            Command::Begin(beginning) => {
                let begun = O::begin(alloc, beginning.unit.number, beginning)?;
                drop(self.object.replace(begun));
                Ok(())
            }
            Command::Operate(operation) => match &mut self.object {
                Some(object) => object.dispatch(operation, reply),
                None => Ok(()),
            },
        }
    }
}
