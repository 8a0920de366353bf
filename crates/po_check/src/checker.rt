// SPDX-License-Identifier: MIT
//! A checker of the lines of a script, one after another.

ghost use Rattle.std.specs.Prelude.{◌≡◌, ℕ, IfOk, OnOk, IfErr, IfSome, Some, None};
ghost use Rattle.po_check.specs.Checked.{facts_known};
ghost use Rattle.po_check.specs.Claims.{says, known_after, claims_at, verdict_with};
ghost use Rattle.po_check.specs.Reports.{Tells, TellsFirst, FailsAs, claims_of_found};
ghost use Rattle.po_language.specs.Commands.{CanBegin};
ghost use Rattle.po_language.specs.Faults.{by_kind};
ghost use Rattle.po_script.specs.Units.{listed};

use crate::error::CheckError;
use crate::finding::{Finding, Found};
use crate::known::Known;
use crate::report::Report;
use crate::verdict::Verdict;
use po_language::{Command, LineError, Reason, Span, command_of, form_of};
use po_script::cutter::LINE_LIMIT;
use po_script::{ScriptObject, UnitFacts};
use po_unit::Shape;
use std::alloc::{AllocError, Global};

/// Returns the fault of a line that has too many bytes.
fn too_long() -> LineError
    ensures { result.reason ≡ Reason.LineTooLong }
{
    LineError {
        reason: Reason::LineTooLong,
        word: 0,
        span: Span {
            start: LINE_LIMIT,
            length: 0,
        },
    }
}

/// Returns what the line says, given what is known about the unit.
fn says<O: ScriptObject>(known: Known, line: &[u8]) -> Result<Option<Command>, LineError>
    ensures exact { by_kind result ≡ says (listed O.units) known line.now }
    ensures valid { IfOk result (λ command. IfSome command (CanBegin (listed O.units))) }
{
    if line.len() > LINE_LIMIT {
        return Err(too_long());
    }
    match known {
        Known::Nothing => command_of::<O>(None, line),
        Known::Begun(unit) => command_of::<O>(Some(unit), line),
        Known::Unclear => form_of::<O>(line),
    }
}

/// What the lines so far say about the unit, and whether anything was found in them.
#[derive(Drop)]
pub(crate) struct Checker {
    /// What is known about the unit.
    pub(crate) known: Known,
    /// The facts of the unit, if it is known.
    pub(crate) facts: Option<UnitFacts>,
    /// Whether anything was found.
    pub(crate) verdict: Verdict,
}

impl Checker {
    /// Makes the checker that has seen no line.
    pub(crate) fn new() -> Checker
        ensures known { result.known ≡ Known.Nothing }
        ensures facts { result.facts ≡ None }
        ensures verdict { result.verdict ≡ Verdict.Clean }
    {
        Checker {
            known: Known::Nothing,
            facts: None,
            verdict: Verdict::Clean,
        }
    }

    /// Returns what is found in a line that says this.
    fn found<O: ScriptObject>(&self, said: Result<Option<Command>, LineError>) -> Option<Found>
        ensures { self.now.facts ≡ facts_known O.units self.now.known
            → (n : ℕ) → claims_of_found n self.now.known result ≡ claims_at O.units self.now.known n (by_kind said) }
    {
        match (said, &self.facts) {
            (Err(fault), _) => Some(Found::Fault(fault)),
            (Ok(Some(Command::Operate(operation))), Some(facts)) => {
                let refusal = facts.refusal(operation)?;
                Some(Found::Refused(operation, refusal))
            }
            (Ok(_), _) => None,
        }
    }

    /// Returns the declarations of the unit's entries, if the unit is known.
    fn shape(&self) -> Option<&Shape> {
        match &self.facts {
            Some(facts) => Some(facts.shape()),
            None => None,
        }
    }

    /// Tells the report what was found in a line.
    fn tell<P: Report>(
        &mut self,
        number: u64,
        line: &[u8],
        found: Option<Found>,
        report: &mut P,
    ) -> Result<(), CheckError>
        ensures known { self.new.known ≡ self.old.known }
        ensures facts { self.new.facts ≡ self.old.facts }
        ensures told { OnOk result (Tells (P.told report.old) (P.told report.new) (claims_of_found number self.old.known found)) }
        ensures verdict { OnOk result (self.new.verdict ≡ verdict_with self.old.verdict (claims_of_found number self.old.known found)) }
        ensures fine { OnOk result (P.failed report.new ≡ P.failed report.old) }
        ensures err { IfErr result (λ fault. FailsAs fault (P.failed report.old) (P.failed report.new) × (P.told report.new ≡ P.told report.old)) }
    {
        let Some(found) = found else {
            return Ok(());
        };
        let finding = Finding {
            number,
            known: self.known,
            found,
        };
        report.report(finding, line, self.shape())?;
        self.verdict = Verdict::Faulty;
        Ok(())
    }

    /// Notes the unit that a line begins, or should have begun.
    fn learn<O: ScriptObject>(
        &mut self,
        alloc: Global,
        said: Result<Option<Command>, LineError>,
    ) -> Result<(), AllocError>
        requires valid { IfOk said (λ command. IfSome command (CanBegin (listed O.units))) }
        ensures known { OnOk result (self.new.known ≡ known_after self.old.known (by_kind said)) }
        ensures facts { OnOk result (self.old.facts ≡ facts_known O.units self.old.known
            → self.new.facts ≡ facts_known O.units self.new.known) }
        ensures verdict { self.new.verdict ≡ self.old.verdict }
    {
        match said {
            Ok(Some(Command::Begin(beginning))) => {
                let unit = beginning.unit;
                let facts = O::facts(alloc, unit.number, unit.size)?;
                self.facts = Some(facts);
                self.known = Known::Begun(unit);
                Ok(())
            }
            Err(_) if self.known == Known::Nothing => {
                self.known = Known::Unclear;
                Ok(())
            }
            _ => Ok(()),
        }
    }

    /// Checks the line of this number, and tells the report what is found in it.
    pub(crate) fn check<O: ScriptObject, P: Report>(
        &mut self,
        alloc: Global,
        number: u64,
        line: &[u8],
        report: &mut P,
    ) -> Result<(), CheckError>
        ensures known { OnOk result (self.new.known ≡ known_after self.old.known (says (listed O.units) self.old.known line.now)) }
        ensures facts { OnOk result (self.old.facts ≡ facts_known O.units self.old.known
            → self.new.facts ≡ facts_known O.units self.new.known) }
        ensures told { OnOk result (self.old.facts ≡ facts_known O.units self.old.known
            → Tells (P.told report.old) (P.told report.new)
            (claims_at O.units self.old.known number (says (listed O.units) self.old.known line.now))) }
        ensures verdict { OnOk result (self.old.facts ≡ facts_known O.units self.old.known
            → self.new.verdict ≡ verdict_with self.old.verdict
            (claims_at O.units self.old.known number (says (listed O.units) self.old.known line.now))) }
        ensures fine { OnOk result (P.failed report.new ≡ P.failed report.old) }
        ensures err { IfErr result (λ fault. FailsAs fault (P.failed report.old) (P.failed report.new) × (self.old.facts ≡ facts_known O.units self.old.known
            → TellsFirst (P.told report.old) (P.told report.new)
            (claims_at O.units self.old.known number (says (listed O.units) self.old.known line.now)))) }
    {
        let said = says::<O>(self.known, line);
        let found = self.found::<O>(said);
        self.tell(number, line, found, report)?;
        self.learn::<O>(alloc, said)?;
        Ok(())
    }
}
