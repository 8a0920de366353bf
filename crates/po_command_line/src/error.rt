// SPDX-License-Identifier: MIT
//! Why a program doesn't do what it was asked for, or doesn't finish it.

ghost use Rattle.std.specs.Prelude.{◌≡◌, ◌≢◌, ◌⊎◌};
ghost use Rattle.clap.specs.Values.{kind_of};
ghost use Rattle.po_command_line.specs.Statuses.{status_of};

use crate::commands::NAME;
use crate::status::{GOOD, NO_MEANS, USAGE, status_of};
use clap::Error;
use clap::error::ErrorKind;
use po_language::RunError;
use std::alloc::AllocError;
use std::io::{Eprint, Print};

/// Why a program doesn't do what it was asked for, or doesn't finish it.
#[derive(Drop)]
pub enum CommandError {
    /// The words of the command line ask for help, or are refused.
    Words(Error),
    /// The script has a fault, memory ran out, or a read or a write failed.
    Run(RunError),
}

impl From<RunError> for CommandError {
    ghost use Rattle.std.specs.Prelude.{◌≡◌};
    ghost use Rattle.po_command_line.specs.declared.error.CommandError.TheVariants.{Run};

    ghost from_gives = { λ fault given. given ≡ Run fault };

    fn from(fault: RunError) -> CommandError {
        CommandError::Run(fault)
    }
}

impl From<AllocError> for CommandError {
    ghost use Rattle.std.specs.Prelude.{◌≡◌};
    ghost use Rattle.po_command_line.specs.declared.error.CommandError.TheVariants.{Run};
    ghost use Rattle.po_language.specs.declared.run_error.RunError.TheVariants.{Memory};

    ghost from_gives = { λ _ given. given ≡ Run Memory };

    fn from(_error: AllocError) -> CommandError {
        CommandError::Run(RunError::Memory)
    }
}

impl From<Error> for CommandError {
    ghost use Rattle.std.specs.Prelude.{◌≡◌, ◌≢◌};
    ghost use Rattle.clap.specs.Values.{kind_of};
    ghost use Rattle.clap.specs.declared.error.kind.ErrorKind.TheVariants.{OutOfMemory};
    ghost use Rattle.po_command_line.specs.declared.error.CommandError.TheVariants.{Run, Words};
    ghost use Rattle.po_language.specs.declared.run_error.RunError.TheVariants.{Memory};

    ghost from_gives = { λ error given. (kind_of error ≡ OutOfMemory → given ≡ Run Memory)
        × (kind_of error ≢ OutOfMemory → given ≡ Words error) };

    fn from(error: Error) -> CommandError {
        if error.kind() == ErrorKind::OutOfMemory {
            CommandError::Run(RunError::Memory)
        } else {
            CommandError::Words(error)
        }
    }
}

impl CommandError {
    /// Prints the fault, or the help that was asked for, and returns the status: 0 for help, 2 for refused words, and 4 if
    /// their text can't be printed.
    pub fn print<R: Print + Eprint>(&self, rt: &R) -> u8
        ensures run { (fault : RunError) → self.now ≡ CommandError.Run fault → result ≡ status_of fault }
        ensures help { (error : Error) → self.now ≡ CommandError.Words error
            → (kind_of error ≡ ErrorKind.DisplayHelp) ⊎ (kind_of error ≡ ErrorKind.DisplayVersion)
            → (result ≡ 0) ⊎ (result ≡ 4) }
        ensures refused { (error : Error) → self.now ≡ CommandError.Words error
            → kind_of error ≢ ErrorKind.DisplayHelp → kind_of error ≢ ErrorKind.DisplayVersion
            → (result ≡ 2) ⊎ (result ≡ 4) }
    {
        match self {
            CommandError::Words(error) => print_words(rt, error),
            CommandError::Run(fault) => {
                let _ = eprintln!(rt; "{NAME}: {fault}");
                status_of(fault)
            }
        }
    }
}

/// Prints the text of help or of refused words, and returns the status.
fn print_words<R: Print + Eprint>(rt: &R, error: &Error) -> u8
    ensures help { (kind_of error.now ≡ ErrorKind.DisplayHelp) ⊎ (kind_of error.now ≡ ErrorKind.DisplayVersion)
        → (result ≡ 0) ⊎ (result ≡ 4) }
    ensures refused { kind_of error.now ≢ ErrorKind.DisplayHelp → kind_of error.now ≢ ErrorKind.DisplayVersion
        → (result ≡ 2) ⊎ (result ≡ 4) }
{
    if error.print(rt).is_err() {
        let _ = eprintln!(rt; "{NAME}: {}", RunError::Write);
        return NO_MEANS;
    }
    if error.use_stderr() { USAGE } else { GOOD }
}
