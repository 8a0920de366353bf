// SPDX-License-Identifier: MIT
//! How a fault is shown: its file, line and column, and the line with a mark under the place.

ghost use Rattle.std.specs.Prelude.{◌≡◌, ◌+◌, ◌≤◌, ◌==◌, count_by, take};

use crate::fault::Fault;
use std::alloc::{AllocError, Global};

/// At most this many bytes of a line are shown.
const MOST_SHOWN: usize = 120;

/// The place of a fault: its line and column, from 1, and the bytes of the line.
#[derive(Clone, Copy, Debug)]
pub struct Position<'a> {
    pub line: usize,
    pub column: usize,
    pub text: &'a [u8],
}

/// The bytes before this place.
fn bytes_before(text: &[u8], place: usize) -> &[u8]
    ensures { result.now ≡ take place text.now }
{
    text.get(..place).unwrap_or(text)
}

/// The number of the line that comes after these bytes, from 1.
fn line_after(before: &[u8]) -> usize
    ensures { result ≡ count_by (λ byte. byte == 10) before.now + 1 }
{
    before.iter().filter(|byte| **byte == b'\n').count() + 1
}

/// The number of the column that comes after these bytes, from 1.
fn column_after(before: &[u8]) -> usize
    ensures { 1 ≤ result }
{
    before
        .iter()
        .rev()
        .take_while(|byte| **byte != b'\n')
        .count()
        + 1
}

/// The position of the byte at this place.
pub fn position_of(text: &[u8], place: usize) -> Position<'_>
    ensures line { result.line ≡ count_by (λ byte. byte == 10) (take place text.now) + 1 }
    ensures column { 1 ≤ result.column }
{
    let before = bytes_before(text, place);
    let column = column_after(before);
    let start = (before.len() + 1).saturating_sub(column);
    let rest = text.get(start..).unwrap_or(&[]);
    let length = rest
        .iter()
        .take_while(|byte| **byte != b'\n' && **byte != b'\r')
        .count();
    Position {
        line: line_after(before),
        column,
        text: rest.get(..length).unwrap_or(rest),
    }
}

/// A byte of the text as it is shown.
fn shown(byte: u8) -> char {
    if byte == b'\t' || byte.is_ascii_graphic() {
        char::from(byte)
    } else {
        ' '
    }
}

/// A byte under which no mark is.
fn unmarked(byte: u8) -> char {
    if byte == b'\t' { '\t' } else { ' ' }
}

/// The line, and a mark under the place; of a long line the part around the place.
fn marked(alloc: Global, position: &Position<'_>) -> Result<String, AllocError> {
    let from = position.column.saturating_sub(MOST_SHOWN);
    let part = position.text.get(from..).unwrap_or(&[]);
    let mut lines = String::from_str(alloc, "    ")?;
    for byte in part.iter().take(MOST_SHOWN) {
        lines.push(shown(*byte))?;
    }
    lines.push_str("\n    ")?;
    let before = position.column.saturating_sub(from).saturating_sub(1);
    for byte in part.iter().take(before) {
        lines.push(unmarked(*byte))?;
    }
    lines.push_str("^\n")?;
    Ok(lines)
}

/// `FILE:LINE:COLUMN: MESSAGE`, the line, and a mark under the place.
pub fn report(alloc: Global, file: &str, text: &[u8], fault: &Fault) -> Result<String, AllocError> {
    let position = position_of(text, fault.place);
    let (line, column) = (position.line, position.column);
    let mut shown = format!(in alloc; "{file}:{line}:{column}: ")?;
    shown.push_str(fault.message.as_str())?;
    shown.push('\n')?;
    let lines = marked(alloc, &position)?;
    shown.push_str(lines.as_str())?;
    Ok(shown)
}
