// SPDX-License-Identifier: MIT
//! A check of the lines of a script.

use crate::object::CheckedObject;
use po_ada_language::{Interpreter, LineFault, Stop, Texts, push_fault};
use po_ada_script::{Answers, RunFault, fault_at};
use std::alloc::{AllocError, Global};
use std::fmt::Write;

/// Whether a check found anything.
#[derive(Clone, Copy, Debug, PartialEq, Eq)]
pub enum Verdict {
    /// It found nothing.
    Clean,
    /// It found a fault, or a line that is sure to be refused.
    Faulty,
}

/// What tells the faults of the lines of a script, and the lines that are sure to be refused.
#[derive(Drop)]
pub struct Checker<T> {
    interpreter: Interpreter<CheckedObject, T>,
    /// What was found in the latest line.
    finding: String,
    verdict: Verdict,
}

/// Adds the warning of the line with this number.
fn push_warning(text: &mut String, number: u64, warning: &str) -> Result<(), AllocError> {
    write!(text, "line {number}: ")?;
    text.push_str(warning)?;
    text.push_str("\n")
}

impl<T: Texts<CheckedObject> + Drop> Checker<T> {
    /// Returns a checker before the first line.
    pub fn new(alloc: Global, texts: T) -> Checker<T> {
        Checker {
            interpreter: Interpreter::new(alloc, texts),
            finding: String::new(alloc),
            verdict: Verdict::Clean,
        }
    }

    /// Returns what makes the object.
    pub fn texts_mut(&mut self) -> &mut T {
        self.interpreter.texts_mut()
    }

    /// Returns whether anything was found.
    pub fn verdict(&self) -> Verdict {
        self.verdict
    }

    /// Notes the fault of the line with this number.
    fn blame(&mut self, number: u64, fault: &LineFault) -> Result<(), RunFault> {
        self.verdict = Verdict::Faulty;
        push_fault(&mut self.finding, number, fault)?;
        Ok(())
    }

    /// Notes the warning of the line with this number, if it has one.
    fn warn(&mut self, number: u64) -> Result<(), RunFault> {
        let warning = self.interpreter.reply_text();
        if warning.is_empty() {
            return Ok(());
        }
        self.verdict = Verdict::Faulty;
        push_warning(&mut self.finding, number, warning)?;
        Ok(())
    }
}

impl<T: Texts<CheckedObject> + Drop> Answers for Checker<T> {
    /// Finds what is wrong with the line. Ends the check at a first command that makes no object: nothing more can be said.
    fn take(&mut self, alloc: Global, number: u64, line: &[u8]) -> Result<(), RunFault> {
        self.finding.clear();
        match self.interpreter.carry_out(alloc, line) {
            Ok(()) => self.warn(number),
            Err(Stop::Fault(fault)) if self.interpreter.has_object() => self.blame(number, &fault),
            Err(stop) => Err(fault_at(number, stop)),
        }
    }

    fn answer(&self) -> &[u8] {
        self.finding.as_bytes()
    }
}
