// SPDX-License-Identifier: MIT
//! A report that writes a line of text for each finding.

use crate::error::CheckError;
use crate::explain_fault::push_fault;
use crate::explain_refusal::push_refusal;
use crate::finding::{Finding, Found};
use crate::known::Known;
use crate::report::Report;
use po_streams::{Sink, write_all};
use po_unit::Shape;
use std::alloc::{AllocError, Global};

/// What is added to a fault before a unit is begun.
const FORM_ALONE: &str = "; until a unit is begun, only the form of lines is judged";

/// A report that writes a line of text for each finding to a sink. It doesn't say what it was told, since no contract is about
/// the texts.
#[derive(Drop)]
pub struct TextReport<W> {
    alloc: Global,
    sink: W,
    /// The line that was written last.
    text: String,
}

/// Adds the line of text that explains the finding, without a newline.
pub fn push_explanation(
    alloc: Global,
    text: &mut String,
    finding: Finding,
    line: &[u8],
    shape: Option<&Shape>,
) -> Result<(), AllocError> {
    match finding.found {
        Found::Fault(fault) => {
            push_fault(alloc, text, finding.number, line, fault)?;
            if finding.known == Known::Nothing {
                text.push_str(FORM_ALONE)?;
            }
            Ok(())
        }
        Found::Refused(operation, refusal) => {
            push_refusal(alloc, text, finding, line, shape, operation, refusal)
        }
    }
}

impl<W> TextReport<W> {
    /// Makes a report over a sink.
    pub fn new(alloc: Global, sink: W) -> TextReport<W> {
        TextReport {
            alloc,
            sink,
            text: String::new(alloc),
        }
    }

    /// Returns the sink itself.
    pub fn into_sink(self) -> W {
        let TextReport {
            alloc: _,
            sink,
            text: _,
        } = self;
        sink
    }
}

impl<W: Sink> Report for TextReport<W> {
    ghost use Rattle.std.specs.Prelude.{None, ◌||◌};

    ghost told = { λ _. None };

    ghost failed = { λ r. W.failed r.sink || W.stuck r.sink };

    fn report(
        &mut self,
        finding: Finding,
        line: &[u8],
        shape: Option<&Shape>,
    ) -> Result<(), CheckError> {
        self.text.clear();
        push_explanation(self.alloc, &mut self.text, finding, line, shape)?;
        self.text.push_str("\n")?;
        match write_all(&mut self.sink, self.text.as_bytes()) {
            Ok(()) => Ok(()),
            Err(_) => Err(CheckError::Write),
        }
    }
}
