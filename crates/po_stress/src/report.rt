// SPDX-License-Identifier: MIT
//! What is said of a run.

ghost use Rattle.std.specs.Prelude.{◌≡◌, ◌||◌, true, IfOk, IsOk, OnOk, OnErr, sum_by};
ghost use Rattle.std.specs.Io.KnownBytes.{Appends};
ghost use Rattle.po_stress.specs.Reports.{IsReportOf, AddUpTo, TakesPart, counts_line, gap_line, mismatch_line, line_of, status_of};

use crate::counting::{Ending, ended, issued};
use crate::piece::{Piece, write_pieces};
use crate::sums::recall_sums;
use crate::totals::Totals;
use po_core::Volume;
use po_object::{Agreed, Closed, ReconcileError, reconcile};
use po_streams::{IoFailed, Sink};
use po_unit::Unit;

/// The exit status if all answers agree with the history.
pub(crate) const GOOD: u8 = 0;

/// The exit status if they don't.
pub(crate) const MISMATCH: u8 = 3;

/// The outcome of a run: the numbers of calls, as the history of the closed object has them, and whether the answers to the
/// threads agree with that history.
#[derive(Clone, Copy, Debug, PartialEq, Eq)]
pub struct Report {
    /// How many calls were issued.
    pub issued: u64,
    /// How many of them completed, or ended by an exception that their body raised.
    pub completed: u64,
    /// How many of them were cancelled.
    pub cancelled: u64,
    /// How many of them ended by Program_Error.
    pub program_error: u64,
    /// The answer of the reconciliation.
    pub verdict: Result<Agreed, ReconcileError>,
}

impl Report {
    /// Returns the report on a closed object whose history was never cut.
    pub fn of<U: Unit>(closed: &Closed<U>) -> Report
        ensures told { IsReportOf closed.now result }
        // If all answers agree, the passes counted as many calls as were issued, and each of these ended in one of three ways.
        ensures sums { IsOk result.verdict → AddUpTo (sum_by (λ pass. pass.calls) closed.now.passes) result }
    {
        let core = closed.core();
        let volumes: [Volume<U::Value>; 0] = [];
        let verdict = reconcile(closed, &volumes);
        recall_sums(closed, verdict);
        Report {
            issued: issued(core.events()),
            completed: ended(core, Ending::Done),
            cancelled: ended(core, Ending::GivenUp),
            program_error: ended(core, Ending::Failed),
            verdict,
        }
    }

    /// Writes the line of the report, and returns the exit status: 0 if all agrees, otherwise 3.
    ///
    /// At an error the sink took some of the line's bytes, and then failed or took none.
    pub fn write<W: Sink>(&self, writer: &mut W) -> Result<u8, IoFailed>
        ensures status { IfOk result (λ status. status ≡ status_of self.now.verdict) }
        ensures ok { OnOk result (Appends (W.taken writer.old) (W.taken writer.new) (line_of self.now)) }
        ensures fine { OnOk result ((W.failed writer.new ≡ W.failed writer.old) × (W.stuck writer.new ≡ W.stuck writer.old)) }
        ensures err { OnErr result (TakesPart (W.taken writer.old) (W.taken writer.new) (line_of self.now)
            × ((W.failed writer.new || W.stuck writer.new) ≡ true)) }
    {
        self.write_line(writer)?;
        Ok(status(self.verdict))
    }

    /// Writes the line of the report.
    fn write_line<W: Sink>(&self, writer: &mut W) -> Result<(), IoFailed>
        ensures ok { OnOk result (Appends (W.taken writer.old) (W.taken writer.new) (line_of self.now)) }
        ensures fine { OnOk result ((W.failed writer.new ≡ W.failed writer.old) × (W.stuck writer.new ≡ W.stuck writer.old)) }
        ensures err { OnErr result (TakesPart (W.taken writer.old) (W.taken writer.new) (line_of self.now)
            × ((W.failed writer.new || W.stuck writer.new) ≡ true)) }
    {
        match self.verdict {
            Ok(_) => self.write_counts(writer),
            Err(ReconcileError::Gap { place }) => write_gap(writer, place),
            Err(ReconcileError::Mismatch { seat, place }) => write_mismatch(writer, seat, place),
        }
    }

    /// Writes the line of a run whose answers agree with the history.
    fn write_counts<W: Sink>(&self, writer: &mut W) -> Result<(), IoFailed>
        ensures ok { OnOk result (Appends (W.taken writer.old) (W.taken writer.new) (counts_line self.now)) }
        ensures fine { OnOk result ((W.failed writer.new ≡ W.failed writer.old) × (W.stuck writer.new ≡ W.stuck writer.old)) }
        ensures err { OnErr result (TakesPart (W.taken writer.old) (W.taken writer.new) (counts_line self.now)
            × ((W.failed writer.new || W.stuck writer.new) ≡ true)) }
    {
        let totals = Totals {
            issued: self.issued,
            completed: self.completed,
            cancelled: self.cancelled,
            program_error: self.program_error,
        };
        totals.write_with(writer, " agreed\n")
    }
}

/// Returns the exit status of a verdict.
fn status(verdict: Result<Agreed, ReconcileError>) -> u8
    ensures { result ≡ status_of verdict }
{
    match verdict {
        Ok(_) => GOOD,
        Err(_) => MISMATCH,
    }
}

/// Writes the line of a run whose history has a gap.
fn write_gap<W: Sink>(writer: &mut W, place: u64) -> Result<(), IoFailed>
    ensures ok { OnOk result (Appends (W.taken writer.old) (W.taken writer.new) (gap_line place)) }
    ensures fine { OnOk result ((W.failed writer.new ≡ W.failed writer.old) × (W.stuck writer.new ≡ W.stuck writer.old)) }
    ensures err { OnErr result (TakesPart (W.taken writer.old) (W.taken writer.new) (gap_line place)
        × ((W.failed writer.new || W.stuck writer.new) ≡ true)) }
{
    let pieces = [
        Piece::Words("gap place "),
        Piece::Number(place),
        Piece::Words("\n"),
    ];
    write_pieces(writer, &pieces)
}

/// Writes the line of a run in which the receipts of a seat differ from the history.
fn write_mismatch<W: Sink>(writer: &mut W, seat: u16, place: usize) -> Result<(), IoFailed>
    ensures ok { OnOk result (Appends (W.taken writer.old) (W.taken writer.new) (mismatch_line seat place)) }
    ensures fine { OnOk result ((W.failed writer.new ≡ W.failed writer.old) × (W.stuck writer.new ≡ W.stuck writer.old)) }
    ensures err { OnErr result (TakesPart (W.taken writer.old) (W.taken writer.new) (mismatch_line seat place)
        × ((W.failed writer.new || W.stuck writer.new) ≡ true)) }
{
    let pieces = [
        Piece::Words("mismatch seat "),
        Piece::Number(u64::from(seat)),
        Piece::Words(" place "),
        Piece::Number(place as u64),
        Piece::Words("\n"),
    ];
    write_pieces(writer, &pieces)
}
