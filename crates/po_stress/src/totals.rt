// SPDX-License-Identifier: MIT
//! The outcome of a run over an object with fixed memory.

ghost use Rattle.std.specs.Prelude.{◌≡◌, ◌||◌, true, IfOk, OnOk, OnErr};
ghost use Rattle.std.specs.Io.KnownBytes.{Appends};
ghost use Rattle.po_stress.specs.Totals.{agree, last_words, line_with, totals_line, totals_status};
ghost use Rattle.po_stress.specs.Reports.{TakesPart};

use crate::ends::Ends;
use crate::piece::{Piece, write_pieces};
use crate::report::{GOOD, MISMATCH};
use po_streams::{IoFailed, Sink};

/// The outcome of a run over an object with fixed memory: how many calls its core issued, and how its callers' calls ended, as
/// they counted.
#[derive(Clone, Copy, Debug, PartialEq, Eq)]
pub struct Totals {
    /// How many calls were issued.
    pub issued: u64,
    /// How many completed, or ended by an exception that their body raised.
    pub completed: u64,
    /// How many were cancelled.
    pub cancelled: u64,
    /// How many ended by Program_Error.
    pub program_error: u64,
}

impl Totals {
    /// Returns the totals of a core that issued `issued` calls, with the ends that its callers counted.
    pub(crate) fn of(issued: u64, ends: Ends) -> Totals
        ensures issued { result.issued ≡ issued }
        ensures completed { result.completed ≡ ends.completed }
        ensures cancelled { result.cancelled ≡ ends.cancelled }
        ensures program_error { result.program_error ≡ ends.program_error }
    {
        Totals {
            issued,
            completed: ends.completed,
            cancelled: ends.cancelled,
            program_error: ends.program_error,
        }
    }

    /// Returns whether as many calls ended as were issued.
    pub fn agree(&self) -> bool
        ensures { result ≡ agree self.now }
    {
        let ended = u128::from(self.completed)
            + u128::from(self.cancelled)
            + u128::from(self.program_error);
        u128::from(self.issued) == ended
    }

    /// Writes the line of the totals, and returns the exit status: 0 if they agree, otherwise 3.
    ///
    /// At an error the sink took some of the line's bytes, and then failed or took none.
    pub fn write<W: Sink>(&self, writer: &mut W) -> Result<u8, IoFailed>
        ensures status { IfOk result (λ status. status ≡ totals_status self.now) }
        ensures ok { OnOk result (Appends (W.taken writer.old) (W.taken writer.new) (totals_line self.now)) }
        ensures fine { OnOk result ((W.failed writer.new ≡ W.failed writer.old) × (W.stuck writer.new ≡ W.stuck writer.old)) }
        ensures err { OnErr result (TakesPart (W.taken writer.old) (W.taken writer.new) (totals_line self.now)
            × ((W.failed writer.new || W.stuck writer.new) ≡ true)) }
    {
        self.write_with(writer, self.words())?;
        Ok(self.status())
    }

    /// Returns the words after the numbers.
    fn words(&self) -> &'static str
        ensures { result.now ≡ last_words self.now }
    {
        if self.agree() {
            " agreed\n"
        } else {
            " differ\n"
        }
    }

    /// Returns the exit status.
    fn status(&self) -> u8
        ensures { result ≡ totals_status self.now }
    {
        if self.agree() { GOOD } else { MISMATCH }
    }

    /// Writes the numbers, and these words after them.
    pub(crate) fn write_with<W: Sink>(
        &self,
        writer: &mut W,
        words: &'static str,
    ) -> Result<(), IoFailed>
        ensures ok { OnOk result (Appends (W.taken writer.old) (W.taken writer.new) (line_with words.now self.now)) }
        ensures fine { OnOk result ((W.failed writer.new ≡ W.failed writer.old) × (W.stuck writer.new ≡ W.stuck writer.old)) }
        ensures err { OnErr result (TakesPart (W.taken writer.old) (W.taken writer.new) (line_with words.now self.now)
            × ((W.failed writer.new || W.stuck writer.new) ≡ true)) }
    {
        let pieces = [
            Piece::Words("issued "),
            Piece::Number(self.issued),
            Piece::Words(" completed "),
            Piece::Number(self.completed),
            Piece::Words(" cancelled "),
            Piece::Number(self.cancelled),
            Piece::Words(" program_error "),
            Piece::Number(self.program_error),
            Piece::Words(words),
        ];
        write_pieces(writer, &pieces)
    }
}
