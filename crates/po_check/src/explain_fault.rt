// SPDX-License-Identifier: MIT
//! The explanation of a fault.

use crate::names::{COMMANDS, OPTIONS, unit_names};
use crate::wording::{push_known, push_nearest, push_position, push_word};
use po_language::words::{cut_word, number};
use po_language::{Argument, LineError, Reason, Span, UnitPart};
use std::alloc::{AllocError, Global};
use std::fmt::Write;

/// The bytes with which some editors begin a file.
const BYTE_ORDER_MARK: [u8; 3] = [0xef, 0xbb, 0xbf];

/// Returns the word at the place.
fn word_at(line: &[u8], span: Span) -> &[u8] {
    if span.start > line.len() {
        return &[];
    }
    match cut_word(&line[span.start..]) {
        Some((word, _)) => word,
        None => &[],
    }
}

/// Returns the place of the first tab in the word.
fn tab_in(word: &[u8], span: Span) -> Option<Span> {
    let before = word.iter().position(|byte| *byte == b'\t')?;
    Some(Span {
        start: span.start.saturating_add(before),
        length: 1,
    })
}

/// Returns whether each byte is a digit, and there is one.
fn is_digits(word: &[u8]) -> bool {
    !word.is_empty() && word.iter().all(|byte| byte.is_ascii_digit())
}

/// Adds what is wrong with a byte that no word may have, and returns whether there is one. If there is none, adds nothing.
fn push_bytes(
    text: &mut String,
    line_number: u64,
    line: &[u8],
    fault: LineError,
) -> Result<bool, AllocError> {
    let word = word_at(line, fault.span);
    if line_number == 1 && line.starts_with(&BYTE_ORDER_MARK) {
        text.push_str("line 1: begins with a byte order mark; a script has none")?;
        return Ok(true);
    }
    if word.last() == Some(&b'\r') {
        write!(
            text,
            "line {line_number}: ends with a carriage return; lines end with only a newline"
        )?;
        return Ok(true);
    }
    let Some(span) = tab_in(word, fault.span) else {
        return Ok(false);
    };
    push_position(text, line_number, span)?;
    text.push_str("a tab; only spaces separate words")?;
    Ok(true)
}

/// Adds what is wrong with a word that should be a number.
fn push_number(text: &mut String, word: &[u8], what: &str) -> Result<(), AllocError> {
    if word.is_empty() {
        return write!(text, "a word is missing: the {what}, a number");
    }
    push_word(text, word)?;
    if word.first() == Some(&b'-') {
        return write!(
            text,
            " is no {what}; a {what} is a number from 0 up, without a sign"
        );
    }
    if !is_digits(word) {
        return write!(
            text,
            " is no {what}; a {what} is a number of decimal digits"
        );
    }
    if word.len() > 20 {
        return write!(text, " is no {what}; a number has at most 20 digits");
    }
    write!(
        text,
        " is too big; a {what} is at most 18446744073709551615"
    )
}

/// Adds what is wrong with a word that should be a name.
fn push_name(text: &mut String, word: &[u8], what: &str) -> Result<(), AllocError> {
    if word.is_empty() {
        return write!(text, "a word is missing: the name of {what}");
    }
    push_word(text, word)?;
    write!(
        text,
        " is no name; the name of {what} is a letter, then letters, digits and _, at most 32"
    )
}

/// Adds what is wrong with a word that should be an entry.
fn push_entry(text: &mut String, word: &[u8]) -> Result<(), AllocError> {
    if word.is_empty() {
        return text.push_str("a word is missing: an entry");
    }
    push_word(text, word)?;
    text.push_str(
        " is no entry; an entry is a name, or a name and an index without spaces, as Grant(1)",
    )
}

/// Adds that nothing more was expected.
fn push_end(text: &mut String, word: &[u8]) -> Result<(), AllocError> {
    push_word(text, word)?;
    text.push_str(" is a word too many")
}

/// Adds what is wrong with a word that should be a unit's name.
fn push_unit(alloc: Global, text: &mut String, word: &[u8]) -> Result<(), AllocError> {
    let units = unit_names(alloc)?;
    if word.is_empty() {
        text.push_str("a word is missing: the name of a unit")?;
    } else {
        text.push_str("unknown unit ")?;
        push_word(text, word)?;
    }
    text.push_str(
        "; the units are buffer N, signal, broadcast, pulse, meeting N, allocator N, relay, trap",
    )?;
    push_nearest(alloc, text, word, units.as_slice())?;
    Ok(())
}

/// Adds what is wrong with a word that should be a unit's size.
fn push_size(text: &mut String, word: &[u8]) -> Result<(), AllocError> {
    if word.is_empty() {
        return text.push_str("a word is missing: the unit's size, a number from 1 to 1024");
    }
    push_word(text, word)?;
    text.push_str(" is no size; the size of this unit is a number from 1 to 1024")
}

/// Adds what may follow a unit.
fn push_option(alloc: Global, text: &mut String, word: &[u8]) -> Result<(), AllocError> {
    push_word(text, word)?;
    if number(word).is_some() {
        return text.push_str(" is a word too many; no number belongs here");
    }
    text.push_str(
        " is a word too many; after a unit there may be an order (textual, oldest, rotating), and then max M",
    )?;
    push_nearest(alloc, text, word, &OPTIONS)?;
    Ok(())
}

/// Adds what is wrong with a `unit` line.
fn push_unit_part(
    alloc: Global,
    text: &mut String,
    word: &[u8],
    part: UnitPart,
) -> Result<(), AllocError> {
    match part {
        UnitPart::Name => push_unit(alloc, text, word),
        UnitPart::Size => push_size(text, word),
        UnitPart::OrderOrMax => push_option(alloc, text, word),
        UnitPart::Limit => push_number(text, word, "queue limit"),
        UnitPart::End => push_end(text, word),
    }
}

/// Adds what is wrong with another line.
fn push_argument(text: &mut String, word: &[u8], argument: Argument) -> Result<(), AllocError> {
    match argument {
        Argument::Entry => push_entry(text, word),
        Argument::Procedure => push_name(text, word, "a procedure"),
        Argument::Function => push_name(text, word, "a function"),
        Argument::Value => push_number(text, word, "value"),
        Argument::Time => push_number(text, word, "time"),
        Argument::CallNumber => push_number(text, word, "call number"),
        Argument::End => push_end(text, word),
    }
}

/// Adds what the fault says about its word.
fn push_reason(
    alloc: Global,
    text: &mut String,
    word: &[u8],
    reason: Reason,
) -> Result<(), AllocError> {
    match reason {
        Reason::ScriptTooLong => text.push_str(
            "a script has at most 67108864 bytes; the check ends here",
        ),
        Reason::LineTooLong => text.push_str("a line has at most 4096 bytes"),
        Reason::UnknownCommand => {
            text.push_str("unknown command ")?;
            push_word(text, word)?;
            if push_nearest(alloc, text, word, &COMMANDS)? {
                return Ok(());
            }
            push_known(text, "commands", &COMMANDS)
        }
        Reason::NoUnit => {
            push_word(text, word)?;
            text.push_str(" comes before a unit; a script begins with a line such as unit buffer 2")
        }
        Reason::SecondUnit => text.push_str("a second unit; a script has one"),
        Reason::BadUnit(part) => push_unit_part(alloc, text, word, part),
        Reason::BadArgument(argument) => push_argument(text, word, argument),
    }
}

/// Adds the explanation of the fault of the line with this number.
pub(crate) fn push_fault(
    alloc: Global,
    text: &mut String,
    line_number: u64,
    line: &[u8],
    fault: LineError,
) -> Result<(), AllocError> {
    if push_bytes(text, line_number, line, fault)? {
        return Ok(());
    }
    push_position(text, line_number, fault.span)?;
    push_reason(alloc, text, word_at(line, fault.span), fault.reason)
}
