// SPDX-License-Identifier: MIT
//! Runs a script, from its bytes to its answers.

ghost use Rattle.std.specs.Prelude.{◌≡◌, ◌+◌, ◌<◌, ◌≤◌, ◌∷◌, [], ◌||◌, List, Option, ℕ, Bool, true, false, length, OnOk, IfOk, IfErr};
ghost use Rattle.std.specs.Io.KnownBytes.{Consumes, IsAtEnd};
ghost use Rattle.po_streams.specs.Source.{CountsMore};
ghost use Rattle.po_script.specs.Ends.{EndsWell, EndsAs};
ghost use Rattle.po_script.specs.declared.cutter.TheConstants.{SCRIPT_LIMIT};

use crate::cutter::{Cutter, Piece};
use crate::interpreter::Interpreter;
use crate::units::{ScriptObject, Units};
use po_language::{FaultKind, RunError};
use po_streams::{Sink, Source};
use std::alloc::Global;

/// A script as far as it is carried out.
#[derive(Drop)]
struct Run<O> {
    lines: Cutter,
    interpreter: Interpreter<O>,
}

impl<O: ScriptObject + Drop> Run<O> {
    ghost use Rattle.po_script.specs.Run.{Stands, GoesOn, FailsAt};
    ghost use Rattle.po_script.specs.Cutter.{number_of, total_of, waiting};

    /// Returns a run that has read nothing.
    fn new(alloc: Global) -> Result<Run<O>, RunError>
        ensures ok { IfOk result (λ run. (start : Option (List ℕ)) (first : Option ℕ) (had : Option (List ℕ))
            → Stands O.units O.object run [] start start first first had had) }
        ensures err { IfErr result (λ fault. fault ≡ RunError.Memory) }
    {
        let lines = Cutter::new(alloc)?;
        Ok(Run {
            lines,
            interpreter: Interpreter::new(alloc),
        })
    }

    /// Returns this fault of the line being read.
    fn fault(&self, kind: FaultKind) -> RunError
        ensures { result ≡ RunError.Script (number_of self.now.lines) kind }
    {
        RunError::Script {
            line: self.lines.number(),
            kind,
        }
    }

    /// Carries out the line that the next byte, a newline, ends.
    fn newline<W: Sink>(&mut self, alloc: Global, writer: &mut W) -> Result<(), RunError>
        requires room { total_of self.old.lines < SCRIPT_LIMIT }
        requires next { (more : List ℕ) × (waiting self.old.lines ≡ 10 ∷ more) }
        ensures ok { OnOk result (GoesOn O.units O.object self.old self.new (10 ∷ [])
            (W.taken writer.old) (W.taken writer.new)) }
        ensures fine { OnOk result ((W.failed writer.new ≡ W.failed writer.old)
            × (W.stuck writer.new ≡ W.stuck writer.old)) }
        ensures total { OnOk result (total_of self.new.lines ≡ total_of self.old.lines + 1) }
        ensures err { IfErr result (λ fault. (ended : Bool) → FailsAt O.units O.object fault self.old ended
            (W.taken writer.old) (W.taken writer.new)
            (W.failed writer.old || W.stuck writer.old) (W.failed writer.new || W.stuck writer.new)) }
    {
        self.interpreter
            .carry_out(alloc, self.lines.number(), self.lines.line(), writer)?;
        self.lines.newline();
        Ok(())
    }

    /// Carries out the last line, the bytes after the last newline.
    fn finish<W: Sink>(&mut self, alloc: Global, writer: &mut W) -> Result<(), RunError>
        ensures ok { OnOk result ((bytes : List ℕ) (start left : Option (List ℕ)) (first reads : Option ℕ) (had : Option (List ℕ))
            → Stands O.units O.object self.old bytes start left first reads had (W.taken writer.old)
            → (W.failed writer.old || W.stuck writer.old) ≡ false
            → EndsWell O.units bytes had (W.taken writer.new) true false (W.failed writer.new || W.stuck writer.new)) }
        ensures err { IfErr result (λ fault. waiting self.old.lines ≡ [] → FailsAt O.units O.object fault self.old true
            (W.taken writer.old) (W.taken writer.new)
            (W.failed writer.old || W.stuck writer.old) (W.failed writer.new || W.stuck writer.new)) }
    {
        self.interpreter
            .carry_out(alloc, self.lines.number(), self.lines.line(), writer)?;
        Ok(())
    }

    /// Reads the script from its beginning to its end, and carries it out.
    fn read_on<R: Source, W: Sink>(
        &mut self,
        alloc: Global,
        reader: &mut R,
        writer: &mut W,
    ) -> Result<(), RunError>
        requires fresh { Stands O.units O.object self.old [] (R.left reader.old) (R.left reader.old)
            (R.reads reader.old) (R.reads reader.old) (W.taken writer.old) (W.taken writer.old) }
        requires reader { (R.failed reader.old ≡ false) × (R.ended reader.old ≡ false) }
        requires writer { (W.failed writer.old || W.stuck writer.old) ≡ false }
        ensures reads { (more : ℕ) × (more ≤ SCRIPT_LIMIT + 1)
            × CountsMore (R.reads reader.old) (R.reads reader.new) more }
        ensures ok { OnOk result ((bytes : List ℕ) × Consumes (R.left reader.old) (R.left reader.new) bytes
            × EndsWell O.units bytes (W.taken writer.old) (W.taken writer.new) (R.ended reader.new) (R.failed reader.new)
            (W.failed writer.new || W.stuck writer.new)) }
        ensures end { OnOk result (IsAtEnd (R.left reader.new)) }
        ensures err { IfErr result (λ fault. (bytes : List ℕ) × Consumes (R.left reader.old) (R.left reader.new) bytes
            × EndsAs O.units fault bytes (W.taken writer.old) (W.taken writer.new) (R.ended reader.new) (R.failed reader.new)
            (W.failed writer.new || W.stuck writer.new)) }
    {
        loop {
            let step = match self.lines.next(reader) {
                Ok(step) => step,
                Err(_) => return Err(RunError::Read),
            };
            match step {
                Piece::Letter => {
                    if self.lines.is_too_long() {
                        return Err(self.fault(FaultKind::LineTooLong));
                    }
                }
                Piece::Newline => self.newline(alloc, writer)?,
                Piece::End => return self.finish(alloc, writer),
                Piece::Past => return Err(self.fault(FaultKind::ScriptTooLong)),
            }
        }
    }
}

/// Runs the script that the reader gives over the units of the list `O`, and writes the answers.
fn run_over<O: ScriptObject + Drop, R: Source, W: Sink>(
    alloc: Global,
    reader: &mut R,
    writer: &mut W,
) -> Result<(), RunError>
    requires reader { (R.failed reader.old ≡ false) × (R.ended reader.old ≡ false) }
    requires writer { (W.failed writer.old || W.stuck writer.old) ≡ false }
    ensures reads { (more : ℕ) × (more ≤ SCRIPT_LIMIT + 1)
        × CountsMore (R.reads reader.old) (R.reads reader.new) more }
    ensures ok { OnOk result ((bytes : List ℕ) × Consumes (R.left reader.old) (R.left reader.new) bytes
        × EndsWell O.units bytes (W.taken writer.old) (W.taken writer.new) (R.ended reader.new) (R.failed reader.new)
        (W.failed writer.new || W.stuck writer.new)) }
    ensures end { OnOk result (IsAtEnd (R.left reader.new)) }
    ensures err { IfErr result (λ fault. (bytes : List ℕ) × Consumes (R.left reader.old) (R.left reader.new) bytes
        × EndsAs O.units fault bytes (W.taken writer.old) (W.taken writer.new) (R.ended reader.new) (R.failed reader.new)
        (W.failed writer.new || W.stuck writer.new)) }
{
    let mut run: Run<O> = Run::new(alloc)?;
    let ran = run.read_on(alloc, reader, writer);
    drop(run);
    ran
}

/// Runs the script that the reader gives, and writes the answers.
pub fn run_script<R: Source, W: Sink>(
    alloc: Global,
    reader: &mut R,
    writer: &mut W,
) -> Result<(), RunError>
    requires reader { (R.failed reader.old ≡ false) × (R.ended reader.old ≡ false) }
    requires writer { (W.failed writer.old || W.stuck writer.old) ≡ false }
    ensures reads { (more : ℕ) × (more ≤ SCRIPT_LIMIT + 1)
        × CountsMore (R.reads reader.old) (R.reads reader.new) more }
    ensures ok { OnOk result ((bytes : List ℕ) × Consumes (R.left reader.old) (R.left reader.new) bytes
        × EndsWell ⟦<Units as ScriptObject>⟧.units bytes (W.taken writer.old) (W.taken writer.new) (R.ended reader.new) (R.failed reader.new)
        (W.failed writer.new || W.stuck writer.new)) }
    ensures end { OnOk result (IsAtEnd (R.left reader.new)) }
    ensures err { IfErr result (λ fault. (bytes : List ℕ) × Consumes (R.left reader.old) (R.left reader.new) bytes
        × EndsAs ⟦<Units as ScriptObject>⟧.units fault bytes (W.taken writer.old) (W.taken writer.new) (R.ended reader.new) (R.failed reader.new)
        (W.failed writer.new || W.stuck writer.new)) }
{
    run_over::<Units, R, W>(alloc, reader, writer)
}
