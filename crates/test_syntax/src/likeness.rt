// SPDX-License-Identifier: MIT
//! A syntax tree as a line of text without places, in which names and strings are written out: equal for equal trees.

use po_ada_tree::tree::Item;
use po_ada_tree::{Names, Text};
use std::alloc::{AllocError, Global};

/// What the number after a word of the line is.
#[derive(Clone, Copy, PartialEq, Eq)]
enum Sense {
    /// A place, which is left out.
    Place,
    /// The number of a name.
    Name,
    /// The place of a string's beginning or end.
    String,
    /// Itself.
    Number,
}

/// A line that is made.
#[derive(Drop)]
struct Likeness<'a> {
    names: &'a Names,
    bytes: &'a [u8],
    line: Vec<u8>,
    sense: Sense,
    /// The place at which a string begins, if this was read.
    start: Option<usize>,
}

/// Whether the byte is of a word.
fn is_letter(byte: u8) -> bool {
    byte.is_ascii_alphabetic() || byte == b'_'
}

/// The word, number or sign of a line that begins here.
fn token_at(line: &[u8], from: usize) -> &[u8] {
    let rest = line.get(from..).unwrap_or(&[]);
    let length = match rest.first() {
        Some(first) if is_letter(*first) => {
            rest.iter().take_while(|byte| is_letter(**byte)).count()
        }
        Some(first) if first.is_ascii_digit() => {
            rest.iter().take_while(|byte| byte.is_ascii_digit()).count()
        }
        _ => 1,
    };
    rest.get(..length).unwrap_or(rest)
}

/// What the number after this word is.
fn sense_after(word: &[u8]) -> Sense {
    if word == b"place".as_slice() || word == b"Others".as_slice() {
        Sense::Place
    } else if word == b"Name".as_slice() || word == b"number".as_slice() {
        Sense::Name
    } else if word == b"Text".as_slice() {
        Sense::String
    } else {
        Sense::Number
    }
}

/// The number of these digits.
fn number_of(digits: &[u8]) -> usize {
    let mut number = 0usize;
    for digit in digits {
        let value = usize::from(digit.wrapping_sub(b'0'));
        number = number.saturating_mul(10).saturating_add(value);
    }
    number
}

impl<'a> Likeness<'a> {
    /// Adds a word, a number or a sign.
    fn token(&mut self, token: &[u8]) -> Result<(), AllocError> {
        match token.first() {
            Some(first) if is_letter(*first) => self.sense = sense_after(token),
            Some(first) if first.is_ascii_digit() => return self.digits(token),
            _ => {}
        }
        self.line.extend_from_slice(token)
    }

    /// Adds what the number of these digits stands for.
    fn digits(&mut self, digits: &[u8]) -> Result<(), AllocError> {
        match self.sense {
            Sense::Place => Ok(()),
            Sense::Number => self.line.extend_from_slice(digits),
            Sense::Name => self.name(number_of(digits)),
            Sense::String => self.string(number_of(digits)),
        }
    }

    /// Adds a name in small letters.
    fn name(&mut self, number: usize) -> Result<(), AllocError> {
        let number = u32::try_from(number).unwrap_or(u32::MAX);
        for byte in self.names.written(number).as_bytes() {
            self.line.push(byte.to_ascii_lowercase())?;
        }
        Ok(())
    }

    /// Takes the place of a string's beginning, or adds the string that ends at this place.
    fn string(&mut self, place: usize) -> Result<(), AllocError> {
        match self.start.take() {
            Some(start) => {
                let content = self.bytes.get(start..place).unwrap_or(&[]);
                self.line.extend_from_slice(content)
            }
            None => {
                self.start = Some(place);
                Ok(())
            }
        }
    }

    /// Adds all words, numbers and signs of this line.
    fn add(&mut self, line: &[u8]) -> Result<(), AllocError> {
        let mut from = 0usize;
        for _ in 0..line.len() {
            let token = token_at(line, from);
            if token.is_empty() {
                break;
            }
            self.token(token)?;
            from = from.saturating_add(token.len());
        }
        Ok(())
    }
}

/// An item as a line. Of one that isn't read only its name counts: why it isn't is no part of the tree.
fn shown(alloc: Global, item: &Item) -> Result<String, AllocError> {
    match item {
        Item::Unread(unread) => {
            let name = unread.name;
            format!(in alloc; "Unread({name:?})")
        }
        _ => format!(in alloc; "{item:?}"),
    }
}

/// The tree of a text as a line, but for its places. Its strings stand in these bytes.
pub fn line_of(alloc: Global, text: &Text, bytes: &[u8]) -> Result<Vec<u8>, AllocError> {
    let mut made = Likeness {
        names: &text.names,
        bytes,
        line: Vec::new(alloc),
        sense: Sense::Number,
        start: None,
    };
    for item in text.items.iter() {
        let shown = shown(alloc, item)?;
        made.add(shown.as_bytes())?;
    }
    let Likeness { line, .. } = made;
    Ok(line)
}
