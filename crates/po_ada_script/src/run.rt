// SPDX-License-Identifier: MIT
//! Runs a script, from its bytes to its answers.

ghost use Rattle.std.specs.Prelude.{◌≡◌, ◌<◌, ◌∷◌, List, ℕ};
ghost use Rattle.po_script.specs.Cutter.{total_of, waiting};
ghost use Rattle.po_script.specs.declared.cutter.TheConstants.{SCRIPT_LIMIT};

use po_ada_language::{Interpreter, LineFault, ScriptedObject, Stop, Texts};
use po_language::FaultKind;
use po_script::cutter::{Cutter, Piece, SCRIPT_LIMIT};
use po_streams::{Sink, Source, write_all};
use std::alloc::{AllocError, Global};

/// Why a run ended early.
#[derive(Debug, Drop)]
pub enum RunFault {
    /// The line with this number has a fault.
    Line { number: u64, fault: LineFault },
    /// The Ada text has faults: the lines that tell them.
    Text(String),
    /// The script names the file of this name, which hasn't been read. The line that does so can be answered once it is.
    Unread(String),
    /// A read of the script failed.
    Read,
    /// A write failed, or took no byte.
    Write,
    /// Memory ran out.
    OutOfMemory,
}

impl From<AllocError> for RunFault {
    fn from(_error: AllocError) -> RunFault {
        RunFault::OutOfMemory
    }
}

/// Returns why the run ends early at the line with this number.
pub fn fault_at(number: u64, stop: Stop) -> RunFault {
    match stop {
        Stop::Fault(fault) => RunFault::Line { number, fault },
        Stop::Text(text) => RunFault::Text(text),
        Stop::Unread(name) => RunFault::Unread(name),
        Stop::OutOfMemory => RunFault::OutOfMemory,
    }
}

/// What answers the lines of a script.
pub trait Answers {
    /// Answers the line with this number.
    fn take(&mut self, alloc: Global, number: u64, line: &[u8]) -> Result<(), RunFault>;

    /// Returns the lines that answer the latest line.
    fn answer(&self) -> &[u8];
}

impl<O: ScriptedObject + Drop, T: Texts<O> + Drop> Answers for Interpreter<O, T> {
    fn take(&mut self, alloc: Global, number: u64, line: &[u8]) -> Result<(), RunFault> {
        match self.carry_out(alloc, line) {
            Ok(()) => Ok(()),
            Err(stop) => Err(fault_at(number, stop)),
        }
    }

    fn answer(&self) -> &[u8] {
        self.reply()
    }
}

/// Returns this fault of the line being read.
fn fault(alloc: Global, lines: &Cutter, kind: FaultKind) -> RunFault {
    RunFault::Line {
        number: lines.number(),
        fault: LineFault {
            kind,
            detail: String::new(alloc),
        },
    }
}

/// Answers the line that was read, and writes the answer.
fn answer_line<A: Answers, W: Sink>(
    alloc: Global,
    lines: &Cutter,
    answers: &mut A,
    writer: &mut W,
) -> Result<(), RunFault> {
    answers.take(alloc, lines.number(), lines.line())?;
    match write_all(writer, answers.answer()) {
        Ok(()) => Ok(()),
        Err(_) => Err(RunFault::Write),
    }
}

/// Answers the line that the next byte, a newline, ends.
fn newline<A: Answers, W: Sink>(
    alloc: Global,
    lines: &mut Cutter,
    answers: &mut A,
    writer: &mut W,
) -> Result<(), RunFault>
    requires room { total_of lines.old < SCRIPT_LIMIT }
    requires next { (more : List ℕ) × (waiting lines.old ≡ 10 ∷ more) }
{
    answer_line(alloc, lines, answers, writer)?;
    lines.newline();
    Ok(())
}

/// Reads a script to its end, from the line on that is being cut, and writes what answers its lines. A line that isn't answered
/// stays with `lines`. Each step but the last takes a byte, so there are at most as many as a script has bytes, and one more.
pub fn answer_lines<A: Answers, R: Source, W: Sink>(
    alloc: Global,
    lines: &mut Cutter,
    answers: &mut A,
    reader: &mut R,
    writer: &mut W,
) -> Result<(), RunFault> {
    for _ in 0..=SCRIPT_LIMIT {
        let Ok(piece) = lines.next(reader) else {
            return Err(RunFault::Read);
        };
        match piece {
            Piece::Letter => {
                if lines.is_too_long() {
                    return Err(fault(alloc, lines, FaultKind::LineTooLong));
                }
            }
            Piece::Newline => newline(alloc, lines, answers, writer)?,
            Piece::End => return answer_line(alloc, lines, answers, writer),
            Piece::Past => return Err(fault(alloc, lines, FaultKind::ScriptTooLong)),
        }
    }
    Err(fault(alloc, lines, FaultKind::ScriptTooLong))
}
