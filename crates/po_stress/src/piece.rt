// SPDX-License-Identifier: MIT
//! The pieces of a line.

ghost use Rattle.std.specs.Prelude.{◌≡◌, ◌||◌, true, flat_map, OnOk, OnErr};
ghost use Rattle.std.specs.Io.KnownBytes.{Appends};
ghost use Rattle.po_stress.specs.Pieces.{text_of};
ghost use Rattle.po_stress.specs.Reports.{TakesPart};

use itoa::Buffer;
use po_streams::{IoFailed, Sink, write_all};

/// A piece of a line.
#[derive(Clone, Copy)]
pub(crate) enum Piece {
    /// Words.
    Words(&'static str),
    /// A number, in decimal.
    Number(u64),
}

/// Writes bytes.
fn write_bytes<W: Sink>(writer: &mut W, bytes: &[u8]) -> Result<(), IoFailed>
    ensures ok { OnOk result (Appends (W.taken writer.old) (W.taken writer.new) bytes.now) }
    ensures fine { OnOk result ((W.failed writer.new ≡ W.failed writer.old) × (W.stuck writer.new ≡ W.stuck writer.old)) }
    ensures err { OnErr result (TakesPart (W.taken writer.old) (W.taken writer.new) bytes.now
        × ((W.failed writer.new || W.stuck writer.new) ≡ true)) }
{
    write_all(writer, bytes)
}

/// Writes a piece.
fn write_piece<W: Sink>(writer: &mut W, piece: Piece) -> Result<(), IoFailed>
    ensures ok { OnOk result (Appends (W.taken writer.old) (W.taken writer.new) (text_of piece)) }
    ensures fine { OnOk result ((W.failed writer.new ≡ W.failed writer.old) × (W.stuck writer.new ≡ W.stuck writer.old)) }
    ensures err { OnErr result (TakesPart (W.taken writer.old) (W.taken writer.new) (text_of piece)
        × ((W.failed writer.new || W.stuck writer.new) ≡ true)) }
{
    match piece {
        Piece::Words(words) => write_bytes(writer, words.as_bytes()),
        Piece::Number(number) => {
            let mut digits = Buffer::new();
            write_bytes(writer, digits.format(number).as_bytes())
        }
    }
}

/// Writes the pieces one after another.
pub(crate) fn write_pieces<W: Sink>(writer: &mut W, pieces: &[Piece]) -> Result<(), IoFailed>
    ensures ok { OnOk result (Appends (W.taken writer.old) (W.taken writer.new) (flat_map text_of pieces.now)) }
    ensures fine { OnOk result ((W.failed writer.new ≡ W.failed writer.old) × (W.stuck writer.new ≡ W.stuck writer.old)) }
    ensures err { OnErr result (TakesPart (W.taken writer.old) (W.taken writer.new) (flat_map text_of pieces.now)
        × ((W.failed writer.new || W.stuck writer.new) ≡ true)) }
{
    let Some((first, rest)) = pieces.split_first() else {
        return Ok(());
    };
    write_piece(writer, *first)?;
    write_pieces(writer, rest)
}
