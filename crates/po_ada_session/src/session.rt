// SPDX-License-Identifier: MIT
//! What answers the lines of a script on an Ada text.

use crate::file::TextFile;
use crate::texts::TextFiles;
use po_ada_check::{Checker, Verdict};
use po_ada_language::Interpreter;
use po_ada_script::{Answers, RunFault, TextObject};
use po_ada_unit::AdaUnit;
use std::alloc::Global;

/// What answers the lines of a script on an Ada text.
pub trait Session: Answers {
    /// Takes the file that the script names.
    fn take_file(&mut self, file: TextFile);
}

/// Carries out a script.
#[derive(Drop)]
pub struct Run {
    interpreter: Interpreter<TextObject<AdaUnit>, TextFiles>,
}

/// Tells the faults of a script, and the lines that are sure to be refused.
#[derive(Drop)]
pub struct Check {
    checker: Checker<TextFiles>,
}

impl Run {
    /// Returns a run before the first line. The command line may name a file.
    pub fn new(alloc: Global, given: Option<TextFile>) -> Run {
        Run {
            interpreter: Interpreter::new(alloc, TextFiles::new(given)),
        }
    }
}

impl Check {
    /// Returns a check before the first line. The command line may name a file.
    pub fn new(alloc: Global, given: Option<TextFile>) -> Check {
        Check {
            checker: Checker::new(alloc, TextFiles::new(given)),
        }
    }

    /// Returns whether anything was found.
    pub fn verdict(&self) -> Verdict {
        self.checker.verdict()
    }
}

impl Answers for Run {
    fn take(&mut self, alloc: Global, number: u64, line: &[u8]) -> Result<(), RunFault> {
        self.interpreter.take(alloc, number, line)
    }

    fn answer(&self) -> &[u8] {
        self.interpreter.answer()
    }
}

impl Answers for Check {
    fn take(&mut self, alloc: Global, number: u64, line: &[u8]) -> Result<(), RunFault> {
        self.checker.take(alloc, number, line)
    }

    fn answer(&self) -> &[u8] {
        self.checker.answer()
    }
}

impl Session for Run {
    fn take_file(&mut self, file: TextFile) {
        self.interpreter.texts_mut().take(file);
    }
}

impl Session for Check {
    fn take_file(&mut self, file: TextFile) {
        self.checker.texts_mut().take(file);
    }
}
