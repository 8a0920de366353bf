// SPDX-License-Identifier: MIT
//! The place of a word in its line.

ghost use Rattle.std.specs.Prelude.{◌≡◌, drop};
ghost use Rattle.po_language.specs.Spans.{IsSpanOf, IsSuffix};
ghost use Rattle.po_language.specs.Words.{words};

use crate::words::cut_word;

/// A run of bytes of a line.
#[derive(Clone, Copy, Debug, PartialEq, Eq)]
pub struct Span {
    /// How many bytes come before it.
    pub start: usize,
    /// How many bytes it has.
    pub length: usize,
}

/// Returns what comes after this many words of the line, or what is left if there are fewer.
fn behind_words(line: &[u8], number: usize) -> &[u8]
    ensures words { words result.now ≡ drop number (words line.now) }
    ensures suffix { IsSuffix line.now result.now }
{
    let mut rest = line;
    for _ in 0..number {
        let Some((_, behind)) = cut_word(rest) else {
            return rest;
        };
        rest = behind;
    }
    rest
}

/// Returns the place of the line's word with this number, counted from 0; the end of the line if there is none.
pub fn span_of(line: &[u8], number: usize) -> Span
    ensures { IsSpanOf line.now number result }
{
    let rest = behind_words(line, number);
    match cut_word(rest) {
        Some((word, behind)) => Span {
            start: line.len() - (word.len() + behind.len()),
            length: word.len(),
        },
        None => Span {
            start: line.len(),
            length: 0,
        },
    }
}
