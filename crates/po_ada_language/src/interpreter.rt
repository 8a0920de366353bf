// SPDX-License-Identifier: MIT
//! Carries out the lines of a script.

use crate::fault::{Stop, fault_of};
use crate::texts::{FileChoice, ScriptedObject, Texts};
use crate::unit_line::choice_of;
use po_language::FaultKind;
use po_language::parse::{Verb, is_comment, verb_of};
use po_language::words::cut_word;
use std::alloc::Global;

/// The state of a script between two lines.
#[derive(Drop)]
pub struct Interpreter<O, T> {
    texts: T,
    /// The object, which the commands are carried out on.
    object: Option<O>,
    /// The lines that answer the latest command.
    reply: String,
}

/// Makes the object that the words after `unit` ask for.
fn begin_unit<O, T: Texts<O>>(alloc: Global, texts: &mut T, words: &[u8]) -> Result<O, Stop> {
    let (choice, rest) = choice_of(alloc, words)?;
    texts.object(alloc, choice, rest)
}

impl<O: ScriptedObject + Drop, T: Texts<O> + Drop> Interpreter<O, T> {
    /// Returns an interpreter before the first line.
    pub fn new(alloc: Global, texts: T) -> Interpreter<O, T> {
        Interpreter {
            texts,
            object: None,
            reply: String::new(alloc),
        }
    }

    /// Returns what makes the object.
    pub fn texts_mut(&mut self) -> &mut T {
        &mut self.texts
    }

    /// Returns the lines that answer the latest line.
    pub fn reply(&self) -> &[u8] {
        self.reply.as_bytes()
    }

    /// Returns the same as text.
    pub fn reply_text(&self) -> &str {
        self.reply.as_str()
    }

    /// Returns whether a line made the object.
    pub fn has_object(&self) -> bool {
        self.object.is_some()
    }

    /// Makes the object that the first command asks for: the given file's, with default discriminants, if it isn't `unit`.
    fn begin(&mut self, alloc: Global, verb: Verb, words: &[u8]) -> Result<(), Stop> {
        let begun = if verb == Verb::Begin {
            begin_unit(alloc, &mut self.texts, words)?
        } else {
            self.texts.object(alloc, FileChoice::Given(None), &[])?
        };
        drop(self.object.replace(begun));
        Ok(())
    }

    /// Carries out the operation that the words ask for, if there is an object.
    fn operate(&mut self, alloc: Global, verb: Verb, words: &[u8]) -> Result<(), Stop> {
        match &mut self.object {
            Some(object) => object.carry_out(alloc, verb, words, &mut self.reply),
            None => Ok(()),
        }
    }

    /// Carries out the command. The first one that isn't `unit` makes the object of the given file.
    fn command(&mut self, alloc: Global, verb: Verb, words: &[u8]) -> Result<(), Stop> {
        if self.object.is_none() {
            self.begin(alloc, verb, words)?;
            if verb == Verb::Begin {
                return Ok(());
            }
        }
        self.operate(alloc, verb, words)
    }

    /// Carries out a line, and makes the text of the reply the lines that answer it.
    pub fn carry_out(&mut self, alloc: Global, line: &[u8]) -> Result<(), Stop> {
        self.reply.clear();
        let Some((first, words)) = cut_word(line) else {
            return Ok(());
        };
        if is_comment(first) {
            return Ok(());
        }
        match verb_of(first) {
            Some(verb) => self.command(alloc, verb, words),
            None => Err(fault_of(alloc, FaultKind::UnknownCommand)),
        }
    }
}
