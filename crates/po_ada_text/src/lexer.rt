// SPDX-License-Identifier: MIT
//! Cuts a text into its lexical elements (2.2).

use crate::sign::{Sign, double_sign, single_sign};
use po_ada_tree::fault::{Faults, Stop};
use po_ada_tree::names::{Names, Word};
use po_ada_tree::reserved::Reserved;
use std::alloc::Global;

/// A text has at most this many elements.
pub const MOST_ELEMENTS: usize = 1_000_000;

/// A lexical element.
#[derive(Clone, Copy, Debug, PartialEq, Eq)]
pub enum Element {
    Name(u32),
    Reserved(Reserved),
    Number(u64),
    /// A real literal, whose value isn't kept (2.4.1).
    Real,
    /// A character literal: its byte.
    Character(u8),
    /// A string literal: how many bytes come before what stands between its quotes, and before the closing quote.
    Text(usize, usize),
    Sign(Sign),
    /// The end of the text.
    End,
}

/// An element and how many bytes come before it.
#[derive(Clone, Copy, Debug)]
pub struct Placed {
    pub element: Element,
    pub place: usize,
}

fn is_letter(byte: u8) -> bool {
    byte.is_ascii_alphabetic() || byte == b'_'
}

fn is_letter_or_digit(byte: u8) -> bool {
    is_letter(byte) || byte.is_ascii_digit()
}

fn is_blank(byte: u8) -> bool {
    byte == b' ' || (9..=13).contains(&byte)
}

/// The byte at this index, or a line's end after the text.
fn byte_at(text: &[u8], index: usize) -> u8 {
    match text.get(index) {
        Some(byte) => *byte,
        None => b'\n',
    }
}

/// The bytes from this index on.
fn rest(text: &[u8], from: usize) -> &[u8] {
    text.get(from..).unwrap_or(&[])
}

/// Whether an underline begins or ends the word, or comes after another (2.3).
fn has_stray_underline(word: &[u8]) -> bool {
    let mut last = b'_';
    for byte in word {
        if *byte == b'_' && last == b'_' {
            return true;
        }
        last = *byte;
    }
    last == b'_'
}

/// How many letters, digits and underlines there are from here on.
fn word_length(text: &[u8], from: usize) -> usize {
    rest(text, from)
        .iter()
        .take_while(|byte| is_letter_or_digit(**byte))
        .count()
}

/// How many bytes there are from here to the end of the line.
fn line_length(text: &[u8], from: usize) -> usize {
    rest(text, from)
        .iter()
        .take_while(|byte| **byte != b'\n')
        .count()
}

/// How many bytes there are from here to a quotation mark or the end of the line.
fn quoted_length(text: &[u8], from: usize) -> usize {
    rest(text, from)
        .iter()
        .take_while(|byte| **byte != b'"' && **byte != b'\n')
        .count()
}

/// How many blanks there are from here on.
fn blank_length(text: &[u8], from: usize) -> usize {
    rest(text, from)
        .iter()
        .take_while(|byte| is_blank(**byte))
        .count()
}

/// How many bytes from here on can begin no element.
fn foreign_length(text: &[u8], from: usize) -> usize {
    rest(text, from)
        .iter()
        .take_while(|byte| is_foreign(**byte))
        .count()
}

/// Whether no element begins with this byte.
fn is_foreign(byte: u8) -> bool {
    !is_letter_or_digit(byte) && !is_blank(byte) && byte != b'"' && single_sign(byte).is_none()
}

/// The digit's value; 255 if this is none.
fn digit_value(byte: u8) -> u8 {
    match byte {
        b'0'..=b'9' => byte - b'0',
        b'a'..=b'f' => byte - b'a' + 10,
        b'A'..=b'F' => byte - b'A' + 10,
        _ => 255,
    }
}

/// The number with one digit more; none if it needs more than 64 bits.
fn with_digit(number: u64, base: u64, digit: u8) -> Option<u64> {
    number.checked_mul(base)?.checked_add(u64::from(digit))
}

/// How many bytes the mark takes with which editors begin a text in UTF-8.
fn mark_length(text: &[u8]) -> usize {
    if text.starts_with(&[0xEF, 0xBB, 0xBF]) {
        3
    } else {
        0
    }
}

/// What a lexer returns: the elements and the names of a text.
#[derive(Drop)]
pub struct Lexed {
    pub elements: Vec<Placed>,
    pub names: Names,
}

/// A text that is cut.
#[derive(Drop)]
struct Lexer<'a> {
    alloc: Global,
    text: &'a [u8],
    next: usize,
    elements: Vec<Placed>,
    names: Names,
    faults: &'a mut Faults,
}

impl<'a> Lexer<'a> {
    /// Tells a fault at this place.
    fn tell(&mut self, place: usize, message: &str) -> Result<(), Stop> {
        if !self.faults.is_full() {
            self.faults
                .add(place, String::from_str(self.alloc, message)?)?;
        }
        Ok(())
    }

    fn byte(&self, ahead: usize) -> u8 {
        byte_at(self.text, self.next.saturating_add(ahead))
    }

    fn skip(&mut self, length: usize) {
        self.next = self.next.saturating_add(length);
    }

    fn push(&mut self, place: usize, element: Element) -> Result<(), Stop> {
        self.elements.push(Placed { element, place })?;
        Ok(())
    }

    /// Whether a name or a closing parenthesis came last, so that an apostrophe begins an attribute (2.2).
    fn follows_name(&self) -> bool {
        match self.elements.last() {
            Some(placed) => matches!(
                placed.element,
                Element::Name(_)
                    | Element::Sign(Sign::RightParenthesis)
                    | Element::Sign(Sign::RightBracket)
                    | Element::Text(_, _)
                    | Element::Character(_)
            ),
            None => false,
        }
    }

    /// A name or a reserved word.
    fn word(&mut self) -> Result<(), Stop> {
        let place = self.next;
        let length = word_length(self.text, place);
        self.skip(length);
        let bytes = self.text.get(place..self.next).unwrap_or(&[]);
        if has_stray_underline(bytes) {
            self.tell(
                place,
                "a name has single underlines, between letters and digits (2.3)",
            )?;
        }
        let element = match self.names.word(bytes)? {
            Word::Reserved(reserved) => Element::Reserved(reserved),
            Word::Name(name) => Element::Name(name),
        };
        self.push(place, element)
    }

    /// The numeral of this base from here on, as a number (2.4.1). None if it is too great, has no digit or one that isn't of the
    /// base, or if an underline doesn't stand between two digits.
    fn numeral(&mut self, base: u64) -> Option<u64> {
        let mut number = Some(0u64);
        let mut ends_well = false;
        for _ in 0..self.text.len() {
            let byte = self.byte(0);
            let digit = digit_value(byte);
            if byte != b'_' && (digit == 255 || digit > 9 && base < 11) {
                break;
            }
            number = match number {
                Some(so_far) if byte == b'_' && ends_well => Some(so_far),
                Some(so_far) if u64::from(digit) < base => with_digit(so_far, base, digit),
                _ => None,
            };
            ends_well = byte != b'_';
            self.skip(1);
        }
        if ends_well { number } else { None }
    }

    /// The number multiplied by the base to the power of what stands after `E`, if it stands here (2.4.1).
    fn scaled(&mut self, number: Option<u64>, base: u64) -> Option<u64> {
        if self.byte(0) != b'e' && self.byte(0) != b'E' {
            return number;
        }
        self.skip(1);
        if self.byte(0) == b'+' {
            self.skip(1);
        }
        let power = self.numeral(10)?;
        let mut scaled = number?;
        for _ in 0..power.min(64) {
            scaled = scaled.checked_mul(base)?;
        }
        if power > 64 && scaled > 0 {
            None
        } else {
            Some(scaled)
        }
    }

    /// The rest of a number between signs `#` (2.4.2).
    fn based(&mut self, base: Option<u64>) -> Option<u64> {
        self.skip(1);
        let base = base?;
        if !(2..=16).contains(&base) {
            return None;
        }
        let number = self.numeral(base);
        if self.byte(0) != b'#' {
            return None;
        }
        self.skip(1);
        self.scaled(number, base)
    }

    /// What comes after the point of a real literal (2.4.1).
    fn real(&mut self, place: usize) -> Result<(), Stop> {
        self.skip(1);
        self.numeral(10);
        if self.byte(0) == b'e' || self.byte(0) == b'E' {
            self.skip(1);
            if self.byte(0) == b'+' || self.byte(0) == b'-' {
                self.skip(1);
            }
            self.numeral(10);
        }
        self.push(place, Element::Real)
    }

    /// A numeric literal (2.4).
    fn number(&mut self) -> Result<(), Stop> {
        let place = self.next;
        let mut number = self.numeral(10);
        if self.byte(0) == b'#' {
            number = self.based(number);
        } else {
            number = self.scaled(number, 10);
        }
        if self.byte(0) == b'.' && self.byte(1).is_ascii_digit() {
            return self.real(place);
        }
        if is_letter(self.byte(0)) {
            self.tell(
                place,
                "a number is followed by a letter: write a space between them, and 16#FF# for a number of base 16 (2.4)",
            )?;
            let length = word_length(self.text, self.next);
            self.skip(length);
        } else if number.is_none() {
            self.tell(
                place,
                "expected a number up to 2 ** 64 - 1, with digits of its base, as 1_000 or 16#FF# (2.4)",
            )?;
        }
        self.push(place, Element::Number(number.unwrap_or(0)))
    }

    /// A string literal (2.6).
    fn string(&mut self) -> Result<(), Stop> {
        let place = self.next;
        for _ in 0..self.text.len() {
            self.skip(1);
            let length = quoted_length(self.text, self.next);
            self.skip(length);
            if self.byte(0) != b'"' {
                self.tell(place, "the string doesn't end on its line (2.6)")?;
                break;
            }
            self.skip(1);
            if self.byte(0) != b'"' {
                break;
            }
        }
        let after = place.saturating_add(1);
        let end = self.next.saturating_sub(1).max(after);
        self.push(place, Element::Text(after, end))
    }

    /// A character literal (2.5).
    fn character(&mut self) -> Result<(), Stop> {
        let (place, byte) = (self.next, self.byte(1));
        self.skip(3);
        self.push(place, Element::Character(byte))
    }

    /// A delimiter, or bytes that no element begins with.
    fn delimiter(&mut self) -> Result<(), Stop> {
        let place = self.next;
        if let Some(sign) = double_sign(self.byte(0), self.byte(1)) {
            self.skip(2);
            return self.push(place, Element::Sign(sign));
        }
        if let Some(sign) = single_sign(self.byte(0)) {
            self.skip(1);
            return self.push(place, Element::Sign(sign));
        }
        let length = foreign_length(self.text, place).max(1);
        self.skip(length);
        self.tell(
            place,
            "no element of Ada begins with this character: names have the letters A to Z, digits and underlines here (2.1)",
        )
    }

    /// Reads the next element, or skips blanks or a comment.
    fn element(&mut self) -> Result<(), Stop> {
        let (byte, next) = (self.byte(0), self.byte(1));
        if is_blank(byte) {
            let length = blank_length(self.text, self.next);
            self.skip(length);
            Ok(())
        } else if byte == b'-' && next == b'-' {
            let length = line_length(self.text, self.next);
            self.skip(length);
            Ok(())
        } else if is_letter(byte) {
            self.word()
        } else if byte.is_ascii_digit() {
            self.number()
        } else if byte == b'"' {
            self.string()
        } else if byte == b'\'' && self.byte(2) == b'\'' && !self.follows_name() {
            self.character()
        } else {
            self.delimiter()
        }
    }

    /// Reads all elements.
    fn elements(&mut self) -> Result<(), Stop> {
        for _ in 0..self.text.len() {
            if self.next >= self.text.len() {
                break;
            }
            if self.elements.len() >= MOST_ELEMENTS {
                self.tell(
                    self.next,
                    "a text has at most 1,000,000 words, numbers and signs",
                )?;
                break;
            }
            self.element()?;
        }
        Ok(())
    }
}

/// The elements of a text, without its end. What is wrong is told, and left out.
pub fn cut(alloc: Global, text: &[u8], faults: &mut Faults) -> Result<Lexed, Stop> {
    let names = Names::new(alloc)?;
    let mut lexer = Lexer {
        alloc,
        text,
        next: mark_length(text),
        elements: Vec::new(alloc),
        names,
        faults,
    };
    lexer.elements()?;
    let Lexer {
        elements,
        names,
        ..
    } = lexer;
    Ok(Lexed { elements, names })
}
