// SPDX-License-Identifier: MIT
//! The words of a line, and the forms that a word may have.

ghost use Rattle.std.specs.Prelude.{◌≡◌, ◌≢◌, ℕ, List, ◌∷◌, ◌++◌, [], MatchOption, IfSome, IfOk, OnOk, IfErr, ◌≤◌, ◌+◌, ◌*◌, ◌^◌, if◌then◌else◌, nat_lt, None, length};
ghost use Rattle.std.specs.List.{prefix_len, list_all};
ghost use Rattle.std.specs.Char.{is_ascii_digit};
ghost use Rattle.po_language.specs.Words.{words, is_space, is_word_byte, is_name_byte, is_before_index, number_of, digits_value, is_name, index_of, magnitude_of, positive_of, negative_of, entry_parts, bracketed};

use crate::error::WordError;

/// Returns how many spaces come first.
fn space_count(line: &[u8]) -> usize
    ensures value { result ≡ prefix_len is_space line.now }
    ensures within { result ≤ length line.now }
{
    line.iter().take_while(|b| **b == b' ').count()
}

/// Returns how many bytes come before the first space.
fn word_length(line: &[u8]) -> usize
    ensures value { result ≡ prefix_len is_word_byte line.now }
    ensures within { result ≤ length line.now }
{
    line.iter().take_while(|b| **b != b' ').count()
}

/// Returns the first word of the line, and what follows it.
#[tactic(auto, using(crate::proofs::WordLemmas::first_word, crate::proofs::WordLemmas::no_word, std::proofs::lemmas::Grind::common_steps))]
pub fn cut_word(line: &[u8]) -> Option<(&[u8], &[u8])>
    ensures words { MatchOption result (words line.now ≡ [])
        (λ cut. words line.now ≡ cut.0.now ∷ words cut.1.now) }
    ensures placed { IfSome result (λ cut. (before : List ℕ) × (line.now ≡ before ++ (cut.0.now ++ cut.1.now))) }
{
    let line = &line[space_count(line)..];
    if line.is_empty() {
        return None;
    }
    Some(line.split_at(word_length(line)))
}

/// Returns the first word of the line and what follows it, or this fault if there is none.
pub(crate) fn next_word(line: &[u8], fault: WordError) -> Result<(&[u8], &[u8]), WordError>
    ensures ok { IfOk result (λ cut. words line.now ≡ cut.0.now ∷ words cut.1.now) }
    ensures err { IfErr result (λ wanting. (words line.now ≡ []) × (wanting ≡ fault)) }
{
    match cut_word(line) {
        Some(cut) => Ok(cut),
        None => Err(fault),
    }
}

/// Fails with this fault if a word follows.
pub(crate) fn no_word(line: &[u8], fault: WordError) -> Result<(), WordError>
    ensures ok { OnOk result (words line.now ≡ []) }
    ensures err { IfErr result (λ more. (words line.now ≢ []) × (more ≡ fault)) }
{
    match cut_word(line) {
        Some(_) => Err(fault),
        None => Ok(()),
    }
}

/// Returns whether each byte is a decimal digit.
fn all_digits(word: &[u8]) -> bool
    ensures { result ≡ list_all is_ascii_digit word.now }
{
    word.iter().all(|b| b.is_ascii_digit())
}

/// Returns the number with one more digit, if 64 bits hold it.
fn push_digit(value: u64, digit: u64) -> Option<u64>
    ensures { let next = value * 10 + digit in
        result ≡ (if nat_lt next (2 ^ 64) then Some next else None) }
{
    value.checked_mul(10)?.checked_add(digit)
}

/// Returns what the digits say, if 64 bits hold it.
#[tactic(auto, using(crate::proofs::WordLemmas::too_high, std::proofs::lemmas::Grind::common_steps))]
fn value(word: &[u8]) -> Option<u64>
    ensures { let said = digits_value word.now in
        result ≡ (if nat_lt said (2 ^ 64) then Some said else None) }
{
    let mut value: u64 = 0;
    for b in word {
        match push_digit(value, u64::from(b.saturating_sub(b'0'))) {
            Some(next) => value = next,
            None => return None,
        }
    }
    Some(value)
}

/// Returns the number that the word writes: one to twenty digits.
pub fn number(word: &[u8]) -> Option<u64>
    ensures { result ≡ number_of word.now }
{
    if word.is_empty() || word.len() > 20 || !all_digits(word) {
        return None;
    }
    value(word)
}

/// Returns whether each byte may be part of a name.
fn all_name_bytes(word: &[u8]) -> bool
    ensures { result ≡ list_all is_name_byte word.now }
{
    word.iter().all(|b| b.is_ascii_alphanumeric() || *b == b'_')
}

/// Returns whether the word is a name.
pub fn is_name(word: &[u8]) -> bool
    ensures { result ≡ is_name word.now }
{
    match word {
        [first, rest @ ..] => {
            first.is_ascii_alphabetic() && rest.len() <= 31 && all_name_bytes(rest)
        }
        [] => false,
    }
}

/// Returns the number of one to ten digits.
fn magnitude(word: &[u8]) -> Option<u64>
    ensures { result ≡ magnitude_of word.now }
{
    if word.len() > 10 {
        return None;
    }
    number(word)
}

/// Returns the number, if 32 bits with a sign hold it.
fn positive_of(magnitude: u64) -> Option<i32>
    ensures { result ≡ positive_of magnitude }
{
    if magnitude > 2147483647 {
        return None;
    }
    Some(magnitude as i32)
}

/// Returns the number's negative, if 32 bits with a sign hold it.
fn negative_of(magnitude: u64) -> Option<i32>
    ensures { result ≡ negative_of magnitude }
{
    if magnitude > 2147483648 {
        return None;
    }
    Some(-(magnitude as i64) as i32)
}

/// Returns the index that the word writes.
pub fn index(word: &[u8]) -> Option<i32>
    ensures { result ≡ index_of word.now }
{
    match word {
        [b'-', digits @ ..] => negative_of(magnitude(digits)?),
        _ => positive_of(magnitude(word)?),
    }
}

/// A word that names an entry.
#[derive(Clone, Copy, Debug)]
pub struct EntryWord<'a> {
    /// The entry's name.
    pub name: &'a [u8],
    /// The index of a family's member.
    pub index: Option<i32>,
}

/// Returns how many bytes come before the first parenthesis.
fn name_length(word: &[u8]) -> usize
    ensures value { result ≡ prefix_len is_before_index word.now }
    ensures within { result ≤ length word.now }
{
    word.iter().take_while(|b| **b != b'(').count()
}

/// Returns what is between the parentheses.
fn between(rest: &[u8]) -> Option<&[u8]>
    ensures { MatchOption result (bracketed rest.now ≡ None)
        (λ inner. bracketed rest.now ≡ Some inner.now) }
{
    match rest {
        [b'(', inner @ .., b')'] => Some(inner),
        _ => None,
    }
}

/// Returns the parts of the word, if it names an entry: a name, and perhaps an index in parentheses.
pub fn entry_word(word: &[u8]) -> Option<EntryWord<'_>>
    ensures { MatchOption result (entry_parts word.now ≡ None)
        (λ parts. entry_parts word.now ≡ Some (parts.name.now, parts.index)) }
{
    let (name, rest) = word.split_at(name_length(word));
    if !is_name(name) {
        return None;
    }
    if rest.is_empty() {
        return Some(EntryWord { name, index: None });
    }
    let index = index(between(rest)?)?;
    Some(EntryWord {
        name,
        index: Some(index),
    })
}
