// SPDX-License-Identifier: MIT
//! An Ada text, as it was read from its file.

use po_ada_language::Stop;
use po_ada_program::Made;
use po_ada_reading::{AdaText, read, unit_names};
use po_ada_tree::{Fault, report};
use std::alloc::{AllocError, Global};

/// What the name of a file with a package's declaration ends with.
pub const DECLARATION: &str = ".ads";

/// What the name of a file with a body ends with. A main program is one.
pub const BODY: &str = ".adb";

/// The file whose text comes before that of another.
#[derive(Debug, Drop)]
struct Before {
    name: String,
    /// How many bytes of the whole text are from it.
    length: usize,
}

/// An Ada text, as it was read from its file. A package's declaration can be in a file of its own, which comes first.
#[derive(Debug, Drop)]
pub struct TextFile {
    /// The name of the last file.
    name: String,
    /// What is in the files, one after the other.
    bytes: Vec<u8>,
    declaration: Option<Before>,
}

/// Returns the last part of a path.
fn last_part(path: &str) -> &str {
    match path.rsplit_once('/') {
        Some((_, last)) => last,
        None => path,
    }
}

/// Returns the name without what the names of such files end with.
fn stem_of(name: &str) -> &str {
    match name.strip_suffix(BODY).or(name.strip_suffix(DECLARATION)) {
        Some(stem) => stem,
        None => name,
    }
}

impl TextFile {
    /// Returns the text of one file.
    pub fn new(name: String, bytes: Vec<u8>) -> TextFile {
        TextFile {
            name,
            bytes,
            declaration: None,
        }
    }

    /// Returns the text of two files: the declaration of a package, which comes first, and its body, which is this text.
    pub fn after(self, declaration: TextFile) -> Result<TextFile, AllocError> {
        let TextFile {
            name: before,
            mut bytes,
            ..
        } = declaration;
        bytes.reserve(self.bytes.len().saturating_add(1))?;
        bytes.push(b'\n')?;
        let length = bytes.len();
        bytes.extend_from_slice(self.bytes.as_slice())?;
        Ok(TextFile {
            name: self.name,
            bytes,
            declaration: Some(Before {
                name: before,
                length,
            }),
        })
    }

    /// Returns what is in the files.
    pub fn bytes(&self) -> &[u8] {
        self.bytes.as_slice()
    }

    /// Returns whether one of the files has this name.
    pub fn is_of(&self, name: &str) -> bool {
        self.name.as_str() == name
            || matches!(&self.declaration, Some(before) if before.name.as_str() == name)
    }

    /// Returns whether the word is the file's name, without folder and ending.
    pub(crate) fn is_called(&self, word: &[u8]) -> bool {
        stem_of(last_part(self.name.as_str())).as_bytes() == word
    }

    /// Returns the file that has this place of the text: its name, what is in it, and how many bytes come before it.
    fn part_with(&self, place: usize) -> (&str, &[u8], usize) {
        let whole = self.bytes.as_slice();
        match &self.declaration {
            None => (self.name.as_str(), whole, 0),
            Some(before) if place < before.length => {
                let part = whole.get(..before.length).unwrap_or(whole);
                (before.name.as_str(), part, 0)
            }
            Some(before) => {
                let part = whole.get(before.length..).unwrap_or(&[]);
                (self.name.as_str(), part, before.length)
            }
        }
    }

    /// Returns the lines that tell these faults or hints.
    pub(crate) fn lines_of(&self, alloc: Global, faults: &[Fault]) -> Result<String, AllocError> {
        let mut lines = String::new(alloc);
        for fault in faults {
            let (name, bytes, start) = self.part_with(fault.place);
            let mut fault = fault.copy(alloc)?;
            fault.place = fault.place.saturating_sub(start);
            let told = report(alloc, name, bytes, &fault)?;
            lines.push_str(told.as_str())?;
        }
        Ok(lines)
    }

    /// Returns why no object is made of a text with these faults.
    fn faulty(&self, alloc: Global, faults: &[Fault]) -> Stop {
        match self.lines_of(alloc, faults) {
            Ok(lines) => Stop::Text(lines),
            Err(_) => Stop::OutOfMemory,
        }
    }

    /// Returns the names of the text's protected units, at least one.
    pub(crate) fn units(&self, alloc: Global) -> Result<Vec<String>, Stop> {
        match unit_names(alloc, self.bytes.as_slice())? {
            Ok(names) => Ok(names),
            Err(faults) => Err(self.faulty(alloc, faults.as_slice())),
        }
    }

    /// Reads the text, with its protected unit of this name; if none is asked for, with its only one.
    pub(crate) fn text(&self, alloc: Global, unit: Option<&str>) -> Result<AdaText, Stop> {
        match read(alloc, self.bytes.as_slice(), unit)? {
            Ok(text) => Ok(text),
            Err(faults) => Err(self.faulty(alloc, faults.as_slice())),
        }
    }

    /// Reads the text, if it has a protected unit of this name.
    pub(crate) fn text_of_unit(&self, alloc: Global, unit: &[u8]) -> Result<Option<AdaText>, Stop> {
        let Ok(unit) = str::from_utf8(unit) else {
            return Ok(None);
        };
        match read(alloc, self.bytes.as_slice(), Some(unit))? {
            Ok(text) => Ok(Some(text)),
            Err(_) => Ok(None),
        }
    }

    /// Makes the program of the text's object whose discriminants have these values, and its names.
    pub(crate) fn program(
        &self,
        alloc: Global,
        text: &AdaText,
        discriminants: &[i128],
    ) -> Result<Made, Stop> {
        match text.object(alloc, discriminants)? {
            Ok(made) => Ok(made),
            Err(faults) => Err(self.faulty(alloc, faults.as_slice())),
        }
    }
}
