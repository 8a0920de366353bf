// SPDX-License-Identifier: MIT
//! Parts of the texts that explain findings.

use crate::nearest::nearest;
use po_language::Span;
use std::alloc::{AllocError, Global};
use std::fmt::Write;

/// The most bytes of a word that are shown.
const SHOWN: usize = 40;

/// Adds the place: the line, and the column, counted in bytes from 1.
pub(crate) fn push_position(text: &mut String, number: u64, span: Span) -> Result<(), AllocError> {
    let column = span.start.saturating_add(1);
    write!(text, "line {number}, column {column}: ")
}

/// Adds a byte as it is, or its number if it isn't printable.
fn push_byte(text: &mut String, byte: u8) -> Result<(), AllocError> {
    if byte.is_ascii_graphic() {
        text.push(char::from(byte))?;
        Ok(())
    } else {
        write!(text, "\\x{byte:02x}")
    }
}

/// Adds the word between quotes, cut short if it is long.
pub(crate) fn push_word(text: &mut String, word: &[u8]) -> Result<(), AllocError> {
    text.push_str("'")?;
    for byte in word.iter().take(SHOWN) {
        push_byte(text, *byte)?;
    }
    if word.len() > SHOWN {
        text.push_str("..")?;
    }
    text.push_str("'")
}

/// Adds these words, with a comma between them.
pub(crate) fn push_words(text: &mut String, words: &[&'static str]) -> Result<(), AllocError> {
    let mut first = true;
    for word in words {
        if !first {
            text.push_str(", ")?;
        }
        first = false;
        text.push_str(word)?;
    }
    Ok(())
}

/// Adds the nearest known word, and returns whether one is near.
pub(crate) fn push_nearest(
    alloc: Global,
    text: &mut String,
    word: &[u8],
    known: &[&'static str],
) -> Result<bool, AllocError> {
    let Some(near) = nearest(alloc, word, known)? else {
        return Ok(false);
    };
    write!(text, "; did you mean '{near}'?")?;
    Ok(true)
}

/// Adds which words are known, or that there are none.
pub(crate) fn push_known(
    text: &mut String,
    kind: &str,
    known: &[&'static str],
) -> Result<(), AllocError> {
    if known.is_empty() {
        return write!(text, "; it has no {kind}");
    }
    write!(text, "; the {kind} are ")?;
    push_words(text, known)
}
