// SPDX-License-Identifier: MIT
//! Makes the object of a script from the text of a file.

use crate::file::TextFile;
use po_ada_check::CheckedObject;
use po_ada_language::{
    FileChoice, Settings, Stop, Texts, bad_unit, fault_of, no_object, settings_of,
};
use po_ada_names::{Heading, ObjectNames};
use po_ada_program::Made;
use po_ada_reading::AdaText;
use po_ada_script::{TextObject, push_exception};
use po_ada_unit::{AdaUnit, SetupError};
use po_language::FaultKind;
use std::alloc::{AllocError, Global};
use std::sync::Arc;

/// The fault of a name that isn't text.
pub const NOT_TEXT: &str = "the name of the file isn't UTF-8";

/// The fault of a name for the file of the command line, if there is none.
pub const NO_FILE: &str =
    "expected 'file' and the name of a file, since the command line names none by --unit";

/// The files whose Ada texts a script can have.
#[derive(Debug, Drop)]
pub struct TextFiles {
    /// The file that the command line names.
    given: Option<TextFile>,
    /// The file that the script names.
    named: Option<TextFile>,
}

/// Returns whether the word is the unit's name, in any case of letters.
fn is_unit_name(heading: &Heading, word: &[u8]) -> bool {
    match str::from_utf8(word) {
        Ok(word) => heading.unit.as_str().eq_ignore_ascii_case(word),
        Err(_) => false,
    }
}

/// Reads the file's text, which goes by this name: that of its protected unit, or, if it has only one, the file's own.
fn text_called(alloc: Global, file: &TextFile, word: &[u8]) -> Result<AdaText, Stop> {
    if let Some(text) = file.text_of_unit(alloc, word)? {
        return Ok(text);
    }
    let text = file.text(alloc, None)?;
    if is_unit_name(text.heading(), word) || file.is_called(word) {
        Ok(text)
    } else {
        Err(bad_unit(alloc, text.heading().unit.as_str(), Some(word)))
    }
}

/// Returns why there is no object whose declarations raise this exception.
fn raised(alloc: Global, names: &ObjectNames, exception: u32) -> Result<String, AllocError> {
    let mut text = String::from_str(alloc, "the declarations of the object raise ")?;
    push_exception(&mut text, names, exception)?;
    Ok(text)
}

/// Makes the unit of a program.
fn unit_of(alloc: Global, made: Made) -> Result<(AdaUnit, ObjectNames), Stop> {
    let Made { program, names } = made;
    match AdaUnit::new(alloc, Arc::new(alloc, program)?) {
        Ok(unit) => Ok((unit, names)),
        Err(SetupError::OutOfMemory) => Err(Stop::OutOfMemory),
        Err(SetupError::Raised(exception)) => {
            let reason = raised(alloc, &names, exception)?;
            Err(no_object(alloc, reason.as_str()))
        }
    }
}

/// Makes the unit of the file's text, as the words state it. Returns its names and the words' settings too.
pub fn unit_of_file(
    alloc: Global,
    file: &TextFile,
    choice: FileChoice<'_>,
    words: &[u8],
) -> Result<(AdaUnit, ObjectNames, Settings), Stop> {
    let text = match choice {
        FileChoice::Given(Some(word)) => text_called(alloc, file, word)?,
        FileChoice::Given(None) | FileChoice::Named(_) => file.text(alloc, None)?,
    };
    let settings = settings_of(alloc, text.heading(), words)?;
    let made = file.program(alloc, &text, settings.discriminants.as_slice())?;
    let (unit, names) = unit_of(alloc, made)?;
    Ok((unit, names, settings))
}

impl TextFiles {
    /// Returns the files of a script: that of the command line, if it names one.
    pub fn new(given: Option<TextFile>) -> TextFiles {
        TextFiles { given, named: None }
    }

    /// Takes the file that the script names.
    pub(crate) fn take(&mut self, file: TextFile) {
        drop(self.named.replace(file));
    }

    /// Returns the file that the script names by these bytes.
    fn named(&self, alloc: Global, name: &[u8]) -> Result<&TextFile, Stop> {
        let Ok(name) = str::from_utf8(name) else {
            return Err(no_object(alloc, NOT_TEXT));
        };
        match &self.named {
            Some(file) if file.is_of(name) => Ok(file),
            _ => Err(Stop::Unread(String::from_str(alloc, name)?)),
        }
    }

    /// Returns the file that was chosen.
    fn chosen(&self, alloc: Global, choice: FileChoice<'_>) -> Result<&TextFile, Stop> {
        match (choice, &self.given) {
            (FileChoice::Named(name), _) => self.named(alloc, name),
            (FileChoice::Given(_), Some(file)) => Ok(file),
            (FileChoice::Given(Some(_)), None) => Err(no_object(alloc, NO_FILE)),
            (FileChoice::Given(None), None) => Err(fault_of(alloc, FaultKind::NoUnit)),
        }
    }

    /// Makes the unit of the chosen text, as the words state it. Returns its names and the words' settings too.
    fn unit(
        &self,
        alloc: Global,
        choice: FileChoice<'_>,
        words: &[u8],
    ) -> Result<(AdaUnit, ObjectNames, Settings), Stop> {
        unit_of_file(alloc, self.chosen(alloc, choice)?, choice, words)
    }
}

impl Texts<TextObject<AdaUnit>> for TextFiles {
    fn object(
        &mut self,
        alloc: Global,
        choice: FileChoice<'_>,
        words: &[u8],
    ) -> Result<TextObject<AdaUnit>, Stop> {
        let (unit, names, settings) = self.unit(alloc, choice, words)?;
        TextObject::new(alloc, unit, names, settings.order, settings.max_queue)
    }
}

impl Texts<CheckedObject> for TextFiles {
    fn object(
        &mut self,
        alloc: Global,
        choice: FileChoice<'_>,
        words: &[u8],
    ) -> Result<CheckedObject, Stop> {
        let (unit, names, settings) = self.unit(alloc, choice, words)?;
        drop(unit);
        drop(settings);
        Ok(CheckedObject::new(names))
    }
}
