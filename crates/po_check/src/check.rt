// SPDX-License-Identifier: MIT
//! A check of a script, from its bytes to the report.

ghost use Rattle.std.specs.Prelude.{◌≡◌, ◌+◌, ◌<◌, ◌≤◌, ◌∷◌, ◌++◌, [], List, Option, ℕ, false, nat_lt, if◌then◌else◌, length, OnOk, IfOk, IfErr};
ghost use Rattle.std.specs.Io.KnownBytes.{Consumes};
ghost use Rattle.po_streams.specs.Source.{CountsMore};
ghost use Rattle.po_check.specs.Checked.{IsChecked, EndsEarly};
ghost use Rattle.po_check.specs.Claims.{claims_of, verdict_of, first_fault};
ghost use Rattle.po_check.specs.Reports.{Tells};
ghost use Rattle.po_check.specs.Warnings.{WarningsComeTrue};
ghost use Rattle.po_language.specs.Faults.{kind_of};
ghost use Rattle.po_language.specs.declared.command.FaultKind.{FaultKind};
ghost use Rattle.po_script.specs.Script.{script_of};
ghost use Rattle.po_script.specs.Units.{listed};
ghost use Rattle.po_script.specs.declared.cutter.TheConstants.{SCRIPT_LIMIT};

use crate::checker::Checker;
use crate::error::CheckError;
use crate::finding::{Finding, Found};
use crate::report::Report;
use crate::verdict::Verdict;
use po_language::{LineError, Reason, Span};
use po_script::cutter::{Cutter, Piece};
use po_script::facts::refused_behind;
use po_script::{ScriptObject, Units};
use po_streams::Source;
use std::alloc::Global;

/// A script, as far as it has been checked.
#[derive(Drop)]
struct Check {
    lines: Cutter,
    checker: Checker,
}

impl Check {
    ghost use Rattle.po_check.specs.Check.{Stands, GoesOn, EndsIn};
    ghost use Rattle.po_check.specs.declared.claim.Claim.{Claim};
    ghost use Rattle.po_script.specs.Cutter.{kept, total_of, waiting};

    /// Makes a check that has read nothing.
    fn new<O: ScriptObject>(alloc: Global) -> Result<Check, CheckError>
        ensures ok { IfOk result (λ check. (start : Option (List ℕ)) (first : Option ℕ) (had : Option (List Claim))
            → Stands O.units check [] start start first first had had) }
        ensures err { IfErr result (λ fault. fault ≡ CheckError.Memory) }
    {
        let lines = Cutter::new(alloc)?;
        Ok(Check {
            lines,
            checker: Checker::new(),
        })
    }

    /// Checks the line that ends here. The next byte is its newline.
    fn newline<O: ScriptObject, P: Report>(
        &mut self,
        alloc: Global,
        report: &mut P,
    ) -> Result<(), CheckError>
        requires room { total_of self.old.lines < SCRIPT_LIMIT }
        requires next { (more : List ℕ) × (waiting self.old.lines ≡ 10 ∷ more) }
        ensures ok { OnOk result (GoesOn O.units self.old self.new (10 ∷ []) (P.told report.old) (P.told report.new)) }
        ensures total { OnOk result (total_of self.new.lines ≡ total_of self.old.lines + 1) }
        ensures fine { OnOk result (P.failed report.new ≡ P.failed report.old) }
        ensures err { IfErr result (λ fault. EndsIn O.units fault self.old (P.told report.old) (P.told report.new) (P.failed report.old) (P.failed report.new)) }
    {
        self.checker
            .check::<O, P>(alloc, self.lines.number(), self.lines.line(), report)?;
        self.lines.newline();
        Ok(())
    }

    /// Checks what comes after the last newline.
    fn finish<O: ScriptObject, P: Report>(
        &mut self,
        alloc: Global,
        report: &mut P,
    ) -> Result<Verdict, CheckError>
        requires { waiting self.old.lines ≡ [] }
        ensures ok { IfOk result (λ verdict. (bytes : List ℕ) (start left : Option (List ℕ)) (first reads : Option ℕ) (had : Option (List Claim))
            → Stands O.units self.old bytes start left first reads had (P.told report.old)
            → Tells had (P.told report.new) (claims_of O.units bytes) × (verdict ≡ verdict_of (claims_of O.units bytes))) }
        ensures fine { OnOk result (P.failed report.new ≡ P.failed report.old) }
        ensures err { IfErr result (λ fault. EndsIn O.units fault self.old (P.told report.old) (P.told report.new) (P.failed report.old) (P.failed report.new)) }
    {
        self.checker
            .check::<O, P>(alloc, self.lines.number(), self.lines.line(), report)?;
        Ok(self.checker.verdict)
    }

    /// Returns the fault of the line at whose end the script becomes too long.
    fn limit_fault(&self) -> LineError
        ensures { kind_of result.reason ≡ (if nat_lt 4096 (length (kept self.now.lines)) then FaultKind.LineTooLong else FaultKind.ScriptTooLong) }
    {
        let reason = if self.lines.is_too_long() {
            Reason::LineTooLong
        } else {
            Reason::ScriptTooLong
        };
        LineError {
            reason,
            word: 0,
            span: Span {
                start: self.lines.line().len(),
                length: 0,
            },
        }
    }

    /// Tells the report that there are more bytes than a script may have.
    fn past_limit<O: ScriptObject, P: Report>(
        &mut self,
        report: &mut P,
    ) -> Result<Verdict, CheckError>
        requires all { total_of self.old.lines ≡ SCRIPT_LIMIT }
        requires next { (byte : ℕ) × (more : List ℕ) × (waiting self.old.lines ≡ byte ∷ more) }
        ensures ok { IfOk result (λ verdict. (bytes : List ℕ) (start left : Option (List ℕ)) (first reads : Option ℕ) (had : Option (List Claim))
            → Stands O.units self.old bytes start left first reads had (P.told report.old)
            → Tells had (P.told report.new) (claims_of O.units (bytes ++ waiting self.old.lines))
            × (verdict ≡ verdict_of (claims_of O.units (bytes ++ waiting self.old.lines)))) }
        ensures fine { OnOk result (P.failed report.new ≡ P.failed report.old) }
        ensures err { IfErr result (λ fault. EndsIn O.units fault self.old (P.told report.old) (P.told report.new) (P.failed report.old) (P.failed report.new)) }
    {
        let finding = Finding {
            number: self.lines.number(),
            known: self.checker.known,
            found: Found::Fault(self.limit_fault()),
        };
        report.report(finding, self.lines.line(), None)?;
        Ok(Verdict::Faulty)
    }

    /// Reads the script from its beginning to its end, or to the most bytes that it may have, and tells the report what is
    /// found.
    fn read_on<O: ScriptObject, R: Source, P: Report>(
        &mut self,
        alloc: Global,
        reader: &mut R,
        report: &mut P,
    ) -> Result<Verdict, CheckError>
        requires fresh { Stands O.units self.old [] (R.left reader.old) (R.left reader.old)
            (R.reads reader.old) (R.reads reader.old) (P.told report.old) (P.told report.old) }
        requires reader { (R.failed reader.old ≡ false) × (R.ended reader.old ≡ false) }
        ensures reads { (more : ℕ) × (more ≤ SCRIPT_LIMIT + 1)
            × CountsMore (R.reads reader.old) (R.reads reader.new) more }
        ensures ok { IfOk result (λ verdict. (bytes : List ℕ) × Consumes (R.left reader.old) (R.left reader.new) bytes
            × IsChecked O.units verdict bytes (P.told report.old) (P.told report.new) (R.left reader.new) (R.ended reader.new) (R.failed reader.new) (P.failed report.old) (P.failed report.new)) }
        ensures err { IfErr result (λ fault. (bytes : List ℕ) × Consumes (R.left reader.old) (R.left reader.new) bytes
            × EndsEarly O.units fault bytes (P.told report.old) (P.told report.new) (R.failed reader.new) (P.failed report.old) (P.failed report.new)) }
    {
        loop {
            let step = match self.lines.next(reader) {
                Ok(step) => step,
                Err(_) => return Err(CheckError::Read),
            };
            match step {
                Piece::Letter => {}
                Piece::Newline => self.newline::<O, P>(alloc, report)?,
                Piece::End => return self.finish::<O, P>(alloc, report),
                Piece::Past => return self.past_limit::<O, P>(report),
            }
        }
    }
}

/// Checks the script that the reader gives, with the units of a list.
fn check_over<O: ScriptObject, R: Source, P: Report>(
    alloc: Global,
    reader: &mut R,
    report: &mut P,
) -> Result<Verdict, CheckError>
    requires reader { (R.failed reader.old ≡ false) × (R.ended reader.old ≡ false) }
    ensures reads { (more : ℕ) × (more ≤ SCRIPT_LIMIT + 1)
        × CountsMore (R.reads reader.old) (R.reads reader.new) more }
    ensures ok { IfOk result (λ verdict. (bytes : List ℕ) × Consumes (R.left reader.old) (R.left reader.new) bytes
        × IsChecked O.units verdict bytes (P.told report.old) (P.told report.new) (R.left reader.new) (R.ended reader.new) (R.failed reader.new) (P.failed report.old) (P.failed report.new)) }
    ensures err { IfErr result (λ fault. (bytes : List ℕ) × Consumes (R.left reader.old) (R.left reader.new) bytes
        × EndsEarly O.units fault bytes (P.told report.old) (P.told report.new) (R.failed reader.new) (P.failed report.old) (P.failed report.new)) }
    ensures first { (bytes : List ℕ) → first_fault (claims_of O.units bytes) ≡ (script_of (listed O.units) bytes).fault }
    ensures warned { WarningsComeTrue O.units }
{
    // Only for the prover: sure refusals come true after any commands.
    refused_behind::<O>();
    let mut check = Check::new::<O>(alloc)?;
    let verdict = check.read_on::<O, R, P>(alloc, reader, report);
    drop(check);
    verdict
}

/// Checks the script that the reader gives, and carries out nothing. Tells the report what is found, line by line, as it is
/// found: each fault, and each line that is sure to be refused whatever was carried out before it. Memory doesn't grow with the
/// script.
///
/// The first fault that is told is the one that ends a run of the same bytes. If a read fails, the report was told all that
/// there is to say about the whole lines of what was read. If the report fails, or memory runs out, it was told the first part
/// of what there is to say, and no more. The check fails with `Write` only if a write of the report has failed.
pub fn check_script<R: Source, P: Report>(
    alloc: Global,
    reader: &mut R,
    report: &mut P,
) -> Result<Verdict, CheckError>
    requires reader { (R.failed reader.old ≡ false) × (R.ended reader.old ≡ false) }
    ensures reads { (more : ℕ) × (more ≤ SCRIPT_LIMIT + 1)
        × CountsMore (R.reads reader.old) (R.reads reader.new) more }
    ensures ok { IfOk result (λ verdict. (bytes : List ℕ) × Consumes (R.left reader.old) (R.left reader.new) bytes
        × IsChecked ⟦<Units as ScriptObject>⟧.units verdict bytes (P.told report.old) (P.told report.new) (R.left reader.new) (R.ended reader.new) (R.failed reader.new) (P.failed report.old) (P.failed report.new)) }
    ensures err { IfErr result (λ fault. (bytes : List ℕ) × Consumes (R.left reader.old) (R.left reader.new) bytes
        × EndsEarly ⟦<Units as ScriptObject>⟧.units fault bytes (P.told report.old) (P.told report.new) (R.failed reader.new) (P.failed report.old) (P.failed report.new)) }
    // The first fault that is told is the one that a run ends with. There is one exactly if a run has one.
    ensures first { (bytes : List ℕ) → first_fault (claims_of ⟦<Units as ScriptObject>⟧.units bytes)
        ≡ (script_of (listed ⟦<Units as ScriptObject>⟧.units) bytes).fault }
    // If a line has a warning of a refusal, a run that reaches the line refuses it with that refusal.
    ensures warned { WarningsComeTrue ⟦<Units as ScriptObject>⟧.units }
{
    check_over::<Units, R, P>(alloc, reader, report)
}
