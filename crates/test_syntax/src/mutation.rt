// SPDX-License-Identifier: MIT
//! Texts that were changed at places that are drawn by lot.

use po_ada_samples::Lot;
use po_ada_tree::reserved::RESERVED;
use std::alloc::{AllocError, Global};

/// What is put around a word, any number of times.
const NESTS: [(&str, &str); 20] = [
    ("(", ")"),
    ("(", ")"),
    ("[", "]"),
    ("F (", ")"),
    ("T'(", ")"),
    ("A'Max (1, ", ")"),
    ("A.", ""),
    ("- ", ""),
    ("not ", ""),
    ("1 + ", ""),
    ("True and then ", ""),
    ("", " & 1"),
    ("(1 in 2 | ", ")"),
    ("(if True then 1 else ", ")"),
    ("(case A is when 1 => ", ", when others => 0)"),
    ("(for all I in 1 .. 2 => ", ")"),
    ("begin ", " end;"),
    ("if True then ", " else null; end if;"),
    ("case A is when others => ", " end case;"),
    ("for I in 1 .. 2 loop ", " end loop;"),
];

/// A part of a text: how many bytes come before it, and before its end.
#[derive(Clone, Copy)]
struct Part {
    from: usize,
    to: usize,
}

impl Part {
    /// The bytes of the part.
    fn of(self, text: &[u8]) -> &[u8] {
        text.get(self.from..self.to).unwrap_or(&[])
    }
}

/// Whether the byte is of a word.
fn is_letter(byte: u8) -> bool {
    byte.is_ascii_alphanumeric() || byte == b'_'
}

/// How many letters there are from here on.
fn letters_after(text: &[u8], from: usize) -> usize {
    text.iter()
        .skip(from)
        .take_while(|byte| is_letter(**byte))
        .count()
}

/// How many letters there are before here.
fn letters_before(text: &[u8], to: usize) -> usize {
    text.get(..to)
        .unwrap_or(&[])
        .iter()
        .rev()
        .take_while(|byte| is_letter(**byte))
        .count()
}

/// The word or sign at or after this place.
fn word_at(text: &[u8], place: usize) -> Part {
    let blanks = text
        .iter()
        .skip(place)
        .take_while(|byte| byte.is_ascii_whitespace())
        .count();
    let found = place.saturating_add(blanks);
    let after = letters_after(text, found);
    if after == 0 {
        return Part {
            from: found,
            to: found.saturating_add(1).min(text.len()),
        };
    }
    Part {
        from: found.saturating_sub(letters_before(text, found)),
        to: found.saturating_add(after),
    }
}

/// The line at this place, with its end.
fn line_at(text: &[u8], place: usize) -> Part {
    let before = text.get(..place).unwrap_or(&[]);
    let start = before
        .iter()
        .rev()
        .take_while(|byte| **byte != b'\n')
        .count();
    let length = text
        .iter()
        .skip(place)
        .take_while(|byte| **byte != b'\n')
        .count();
    Part {
        from: place.saturating_sub(start),
        to: place
            .saturating_add(length)
            .saturating_add(1)
            .min(text.len()),
    }
}

/// How many bytes from here on are between a parenthesis and the one that closes it, with both.
fn group_length(text: &[u8], from: usize) -> usize {
    let mut depth = 0usize;
    let mut length = 0usize;
    for byte in text.iter().skip(from) {
        length = length.saturating_add(1);
        if *byte == b'(' {
            depth = depth.saturating_add(1);
        }
        if *byte == b')' {
            depth = depth.saturating_sub(1);
        }
        if depth == 0 {
            break;
        }
    }
    length
}

/// What stands in parentheses at or after this place; if nothing does, the last byte.
fn group_at(text: &[u8], place: usize) -> Part {
    let before = text
        .iter()
        .skip(place)
        .take_while(|byte| **byte != b'(')
        .count();
    let from = place
        .saturating_add(before)
        .min(text.len().saturating_sub(1));
    Part {
        from,
        to: from.saturating_add(group_length(text, from)),
    }
}

/// The text with these pieces in the place of a part.
fn spliced(
    alloc: Global,
    text: &[u8],
    part: Part,
    pieces: &[&[u8]],
) -> Result<Vec<u8>, AllocError> {
    let mut changed = Vec::new(alloc);
    changed.extend_from_slice(text.get(..part.from).unwrap_or(&[]))?;
    for piece in pieces {
        changed.extend_from_slice(*piece)?;
    }
    changed.extend_from_slice(text.get(part.to..).unwrap_or(&[]))?;
    Ok(changed)
}

/// The text with a word put between many signs.
fn nested(alloc: Global, text: &[u8], word: Part, lot: &mut Lot) -> Result<Vec<u8>, AllocError> {
    let (opening, closing) = match NESTS.get(lot.below(NESTS.len())) {
        Some(found) => *found,
        None => ("(", ")"),
    };
    let most = if lot.below(4) == 0 { 130 } else { 5 };
    let depth = lot.below(most).saturating_add(1);
    let mut middle = Vec::new(alloc);
    for _ in 0..depth {
        middle.extend_from_slice(opening.as_bytes())?;
    }
    middle.extend_from_slice(word.of(text))?;
    for _ in 0..depth {
        middle.extend_from_slice(closing.as_bytes())?;
    }
    spliced(alloc, text, word, &[middle.as_slice()])
}

/// The text of the reserved word that comes after this many others.
fn reserved_text(number: usize) -> &'static str {
    let mut left = number;
    for (text, _) in RESERVED.iter() {
        if left == 0 {
            return *text;
        }
        left -= 1;
    }
    ""
}

/// The text with a reserved word in the place of a word, or before it.
fn reworded(alloc: Global, text: &[u8], word: Part, lot: &mut Lot) -> Result<Vec<u8>, AllocError> {
    let reserved = reserved_text(lot.below(RESERVED.len()));
    let mut middle = Vec::new(alloc);
    middle.extend_from_slice(reserved.as_bytes())?;
    if lot.below(2) != 0 {
        middle.extend_from_slice(b" ")?;
        middle.extend_from_slice(word.of(text))?;
    }
    spliced(alloc, text, word, &[middle.as_slice()])
}

/// The text with two words that come one after the other swapped.
fn swapped(alloc: Global, text: &[u8], word: Part) -> Result<Vec<u8>, AllocError> {
    let next = word_at(text, word.to);
    let both = Part {
        from: word.from,
        to: next.to,
    };
    spliced(alloc, text, both, &[next.of(text), b" ", word.of(text)])
}

/// The text with a byte changed into any other.
fn miswritten(
    alloc: Global,
    text: &[u8],
    place: usize,
    lot: &mut Lot,
) -> Result<Vec<u8>, AllocError> {
    let byte = u8::try_from(lot.below(256)).unwrap_or(0);
    let part = Part {
        from: place,
        to: place.saturating_add(1).min(text.len()),
    };
    spliced(alloc, text, part, &[&[byte]])
}

/// The text with one change of a word.
fn changed_word(
    alloc: Global,
    text: &[u8],
    place: usize,
    lot: &mut Lot,
) -> Result<Vec<u8>, AllocError> {
    let word = word_at(text, place);
    let other = word_at(text, lot.below(text.len()));
    let (first, second) = (word.of(text), other.of(text));
    match lot.below(8) {
        0 => spliced(alloc, text, word, &[]),
        1 => spliced(alloc, text, word, &[first, b" ", first]),
        2 => spliced(alloc, text, word, &[second, b" ", first]),
        3 => swapped(alloc, text, word),
        4 => reworded(alloc, text, word, lot),
        5 | 6 => nested(alloc, text, word, lot),
        _ => spliced(alloc, text, word, &[second]),
    }
}

/// The text with one change of a line, of what is in parentheses, or of a byte.
fn changed_part(
    alloc: Global,
    text: &[u8],
    place: usize,
    lot: &mut Lot,
) -> Result<Vec<u8>, AllocError> {
    let (line, group) = (line_at(text, place), group_at(text, place));
    let elsewhere = lot.below(text.len());
    let (other_line, other_group) = (line_at(text, elsewhere), group_at(text, elsewhere));
    match lot.below(8) {
        0 => spliced(alloc, text, line, &[]),
        1 => spliced(alloc, text, line, &[line.of(text), line.of(text)]),
        2 => spliced(alloc, text, line, &[other_line.of(text)]),
        3 => spliced(alloc, text, line, &[line.of(text), other_line.of(text)]),
        4 | 5 => spliced(alloc, text, group, &[other_group.of(text)]),
        6 => spliced(alloc, text, group, &[b"(", group.of(text), b")"]),
        _ => miswritten(alloc, text, place, lot),
    }
}

/// The text with one change.
fn changed(alloc: Global, text: &[u8], lot: &mut Lot) -> Result<Vec<u8>, AllocError> {
    let place = lot.below(text.len());
    if lot.below(2) == 0 {
        changed_word(alloc, text, place, lot)
    } else {
        changed_part(alloc, text, place, lot)
    }
}

/// The text with one to four changes.
pub fn mutant(alloc: Global, text: &[u8], lot: &mut Lot) -> Result<Vec<u8>, AllocError> {
    let mut mutated = changed(alloc, text, lot)?;
    for _ in 0..lot.below(4).saturating_sub(1) {
        mutated = changed(alloc, mutated.as_slice(), lot)?;
    }
    Ok(mutated)
}
