// SPDX-License-Identifier: MIT
//! The table of a text's names.

use crate::reserved::{RESERVED, Reserved};
use std::alloc::{AllocError, Global};
use std::collections::HashMap;

/// What a word is.
#[derive(Clone, Copy, Debug, PartialEq, Eq)]
pub enum Word {
    /// A reserved word (2.9).
    Reserved(Reserved),
    /// A name, by its number in the table.
    Name(u32),
}

/// The words of a text. Two words that differ in case alone are one (2.3).
#[derive(Drop)]
pub struct Names {
    alloc: Global,
    words: HashMap<String, Word>,
    written: Vec<String>,
}

/// The word in small letters.
fn small_letters(alloc: Global, text: &[u8]) -> Result<String, AllocError> {
    let mut small = String::new(alloc);
    for byte in text {
        small.push(char::from(byte.to_ascii_lowercase()))?;
    }
    Ok(small)
}

/// The word as it is written.
fn as_written(alloc: Global, text: &[u8]) -> Result<String, AllocError> {
    let mut written = String::new(alloc);
    for byte in text {
        written.push(char::from(*byte))?;
    }
    Ok(written)
}

impl Names {
    /// A table that knows the reserved words alone.
    pub fn new(alloc: Global) -> Result<Names, AllocError> {
        let mut words = HashMap::new(alloc);
        for (text, reserved) in RESERVED.iter() {
            words.insert(String::from_str(alloc, text)?, Word::Reserved(*reserved))?;
        }
        Ok(Names {
            alloc,
            words,
            written: Vec::new(alloc),
        })
    }

    /// What this word is; a name that is new gets the next number.
    pub fn word(&mut self, text: &[u8]) -> Result<Word, AllocError> {
        let small = small_letters(self.alloc, text)?;
        if let Some(word) = self.words.get(small.as_str()) {
            return Ok(*word);
        }
        let written = as_written(self.alloc, text)?;
        let word = Word::Name(u32::try_from(self.written.len()).unwrap_or(u32::MAX));
        self.written.push(written)?;
        self.words.insert(small, word)?;
        Ok(word)
    }

    /// The number of this name, if the text has it.
    pub fn find(&self, small: &str) -> Option<u32> {
        match self.words.get(small) {
            Some(Word::Name(number)) => Some(*number),
            _ => None,
        }
    }

    /// The name of this number as the text wrote it first; nothing if there is no such number.
    pub fn written(&self, name: u32) -> &str {
        match self.written.get(name as usize) {
            Some(text) => text.as_str(),
            None => "",
        }
    }
}
