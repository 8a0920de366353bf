// SPDX-License-Identifier: MIT
//! Makes the objects of a scene from the texts of files.

use crate::scene::SceneObject;
use po_ada_language::{FileChoice, Stop, Texts, fault_of, no_object};
use po_ada_session::{NO_FILE, NOT_TEXT, TextFile, unit_of_file};
use po_language::FaultKind;
use std::alloc::{AllocFailed, Global};

/// The files whose Ada texts a scene can have.
#[derive(Debug, Drop)]
pub struct SceneFiles {
    /// The file that the command line names.
    given: Option<TextFile>,
    /// The files that the scene names.
    named: Vec<TextFile>,
}

impl SceneFiles {
    /// Returns the files of a scene: that of the command line, if it names one.
    pub fn new(alloc: Global, given: Option<TextFile>) -> SceneFiles {
        SceneFiles {
            given,
            named: Vec::new(alloc),
        }
    }

    /// Takes a file that the scene names.
    pub fn take(&mut self, file: TextFile) -> Result<(), AllocFailed<TextFile>> {
        self.named.push(file)
    }

    /// Returns the file that the scene names by these bytes.
    fn named(&self, alloc: Global, name: &[u8]) -> Result<&TextFile, Stop> {
        let Ok(name) = str::from_utf8(name) else {
            return Err(no_object(alloc, NOT_TEXT));
        };
        for file in self.named.iter() {
            if file.is_of(name) {
                return Ok(file);
            }
        }
        Err(Stop::Unread(String::from_str(alloc, name)?))
    }

    /// Returns the file that was chosen.
    fn chosen(&self, alloc: Global, choice: FileChoice<'_>) -> Result<&TextFile, Stop> {
        match (choice, &self.given) {
            (FileChoice::Named(name), _) => self.named(alloc, name),
            (FileChoice::Given(_), Some(file)) => Ok(file),
            (FileChoice::Given(Some(_)), None) => Err(no_object(alloc, NO_FILE)),
            (FileChoice::Given(None), None) => Err(fault_of(alloc, FaultKind::NoUnit)),
        }
    }
}

impl Texts<SceneObject> for SceneFiles {
    fn object(
        &mut self,
        alloc: Global,
        choice: FileChoice<'_>,
        words: &[u8],
    ) -> Result<SceneObject, Stop> {
        let file = self.chosen(alloc, choice)?;
        let (unit, names, settings) = unit_of_file(alloc, file, choice, words)?;
        Ok(SceneObject {
            name: String::new(alloc),
            words: String::new(alloc),
            unit,
            names,
            order: settings.order,
            max_queue: settings.max_queue,
        })
    }
}
