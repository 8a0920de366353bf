// SPDX-License-Identifier: MIT
//! Reads a scene.

use crate::command::{action_of, addressed_of};
use crate::fault::refused;
use crate::line::{Line, line_of};
use crate::scene::{Action, Caller, Command, MOST_CALLERS, Scene, SceneObject};
use po_ada_language::{FileChoice, Stop, Texts, bad_argument, choice_of, fault_of, no_object};
use po_ada_script::{RunFault, fault_at};
use po_language::FaultKind;
use po_language::parse::{Verb, is_comment};
use po_language::words::{cut_word, is_name, number};
use std::alloc::{AllocError, Global};

/// What follows `object`.
const OBJECT_NAME: &str = "a name that no other object has, and 'file' with the name of a file";

/// What follows `caller`.
const CALLER_NAME: &str = "a name that no other caller has";

/// What follows `abort`.
const OTHER_CALLER: &str = "the name of a caller of the scene";

/// What follows `repeat`.
const TIMES: &str = "how often the commands up to the caller's end come, from 1 on";

/// What follows the words of a line that are complete.
const END: &str = "the end of the line";

/// The fault of bytes that aren't text.
const NO_TEXT: &str = "the line isn't UTF-8";

/// The fault of a command that is no caller's.
const NO_CALLER: &str = "a 'caller' line comes before the first command";

/// The fault of a scene without callers.
const NO_CALLERS: &str = "the scene has no callers";

/// The fault of an object after a caller.
const OBJECTS_FIRST: &str = "objects stand before callers";

/// The fault of a second object, if one has no name.
const NAMELESS: &str = "if there are several objects, each has a name: object NAME file \"FILE\"";

/// The commands that are repeated: those of the last caller from this one on.
#[derive(Clone, Copy, Debug)]
struct Repetition {
    from: usize,
    times: u64,
}

/// What has been read of a scene.
#[derive(Drop)]
pub(crate) struct Reading {
    scene: Scene,
    /// The names of all callers, those that are still to come among them.
    callers: Vec<String>,
    repetition: Option<Repetition>,
}

/// Returns the bytes as text. Fails if they aren't UTF-8.
fn text_of(alloc: Global, bytes: &[u8]) -> Result<String, Stop> {
    match str::from_utf8(bytes) {
        Ok(text) => Ok(String::from_str(alloc, text)?),
        Err(_) => Err(refused(alloc, NO_TEXT)),
    }
}

/// Returns the position of the name, if it is among these.
fn position_of(names: &[String], name: &[u8]) -> Option<u16> {
    for (position, other) in names.iter().enumerate() {
        if other.as_bytes() == name {
            return u16::try_from(position).ok();
        }
    }
    None
}

/// Returns the name that the only word writes, if it is one.
fn name_alone<'a>(alloc: Global, expected: &str, words: &'a [u8]) -> Result<&'a [u8], Stop> {
    let Some((word, rest)) = cut_word(words) else {
        return Err(bad_argument(alloc, expected, None));
    };
    if !is_name(word) {
        return Err(bad_argument(alloc, expected, Some(word)));
    }
    match cut_word(rest) {
        Some((more, _)) => Err(bad_argument(alloc, END, Some(more))),
        None => Ok(word),
    }
}

/// Returns the names of all callers of the scene, in the order of their lines.
fn caller_names(alloc: Global, text: &[u8]) -> Result<Vec<String>, Stop> {
    let mut names = Vec::new(alloc);
    for line in text.split(|byte| *byte == b'\n') {
        if let Some((first, words)) = cut_word(line)
            && line_of(first) == Some(Line::Caller)
            && let Some((name, _)) = cut_word(words)
            && is_name(name)
        {
            names.push(text_of(alloc, name)?)?;
        }
    }
    Ok(names)
}

impl Reading {
    /// Returns what has been read of a scene with this text before its first line.
    pub(crate) fn new(alloc: Global, text: &[u8]) -> Result<Reading, Stop> {
        Ok(Reading {
            scene: Scene {
                objects: Vec::new(alloc),
                callers: Vec::new(alloc),
                lines: Vec::new(alloc),
            },
            callers: caller_names(alloc, text)?,
            repetition: None,
        })
    }

    /// Returns the objects.
    pub(crate) fn objects(&self) -> &[SceneObject] {
        self.scene.objects.as_slice()
    }

    /// Returns whether no caller has begun.
    pub(crate) fn is_before_callers(&self) -> bool {
        self.scene.callers.is_empty()
    }

    /// Makes the object that the words ask for, under this name.
    fn make<T: Texts<SceneObject>>(
        &mut self,
        alloc: Global,
        texts: &mut T,
        name: &[u8],
        words: &[u8],
    ) -> Result<(), Stop> {
        let (choice, rest) = choice_of(alloc, words)?;
        let mut object = texts.object(alloc, choice, rest)?;
        object.name = text_of(alloc, name)?;
        object.words = text_of(alloc, words)?;
        self.scene.add_object(alloc, object)
    }

    /// Checks that an object can come here.
    fn admit_object(&self, alloc: Global) -> Result<(), Stop> {
        if !self.scene.callers.is_empty() {
            return Err(no_object(alloc, OBJECTS_FIRST));
        }
        match self.scene.objects.first() {
            Some(first) if first.name.is_empty() => Err(no_object(alloc, NAMELESS)),
            _ => Ok(()),
        }
    }

    /// Makes an object with a name.
    fn object<T: Texts<SceneObject>>(
        &mut self,
        alloc: Global,
        texts: &mut T,
        words: &[u8],
    ) -> Result<(), Stop> {
        self.admit_object(alloc)?;
        let Some((name, rest)) = cut_word(words) else {
            return Err(bad_argument(alloc, OBJECT_NAME, None));
        };
        let is_new = self
            .scene
            .objects
            .iter()
            .all(|other| other.name.as_bytes() != name);
        if !is_name(name) || !is_new {
            return Err(bad_argument(alloc, OBJECT_NAME, Some(name)));
        }
        self.make(alloc, texts, name, rest)
    }

    /// Makes the only object.
    fn unit<T: Texts<SceneObject>>(
        &mut self,
        alloc: Global,
        texts: &mut T,
        words: &[u8],
    ) -> Result<(), Stop> {
        self.admit_object(alloc)?;
        if !self.scene.objects.is_empty() {
            return Err(no_object(alloc, NAMELESS));
        }
        self.make(alloc, texts, &[], words)
    }

    /// Makes the object of the command line's file if there is none yet.
    fn object_of_command_line<T: Texts<SceneObject>>(
        &mut self,
        alloc: Global,
        texts: &mut T,
    ) -> Result<(), Stop> {
        if self.scene.objects.is_empty() {
            let object = texts.object(alloc, FileChoice::Given(None), &[])?;
            self.scene.add_object(alloc, object)?;
        }
        Ok(())
    }

    /// Begins a caller.
    fn caller(&mut self, alloc: Global, words: &[u8]) -> Result<(), Stop> {
        self.end_repetition(alloc)?;
        let name = name_alone(alloc, CALLER_NAME, words)?;
        let position = self.scene.callers.len();
        let is_first = position_of(self.callers.as_slice(), name) == u16::try_from(position).ok();
        if position >= MOST_CALLERS || !is_first {
            return Err(bad_argument(alloc, CALLER_NAME, Some(name)));
        }
        let name = text_of(alloc, name)?;
        self.scene.callers.push(Caller::new(alloc, name))?;
        Ok(())
    }

    /// Adds a command of the last caller.
    fn add(&mut self, alloc: Global, action: Action, line: String) -> Result<(), Stop> {
        let position = self.scene.lines.len();
        self.scene.lines.push(line)?;
        match self.scene.callers.last_mut() {
            Some(caller) => caller.add(
                alloc,
                Command {
                    action,
                    line: position,
                },
            ),
            None => Err(refused(alloc, NO_CALLER)),
        }
    }

    /// Adds an operation of the last caller.
    fn operation(
        &mut self,
        alloc: Global,
        verb: Verb,
        first: &[u8],
        words: &[u8],
    ) -> Result<(), Stop> {
        let addressed = addressed_of(alloc, self.scene.objects.as_slice(), verb, words)?;
        let action = action_of(alloc, self.scene.objects.as_slice(), verb, &addressed)?;
        let mut line = text_of(alloc, first)?;
        if self.scene.objects.len() == 1 {
            line.push_str(text_of(alloc, addressed.words.as_slice())?.as_str())?;
        } else {
            line.push_str(text_of(alloc, words)?.as_str())?;
        }
        self.add(alloc, action, line)
    }

    /// Adds an attempt to cancel another caller's call.
    fn abort(&mut self, alloc: Global, words: &[u8]) -> Result<(), Stop> {
        let name = name_alone(alloc, OTHER_CALLER, words)?;
        let Some(caller) = position_of(self.callers.as_slice(), name) else {
            return Err(bad_argument(alloc, OTHER_CALLER, Some(name)));
        };
        let mut line = String::from_str(alloc, "abort ")?;
        line.push_str(text_of(alloc, name)?.as_str())?;
        self.add(alloc, Action::Abort(caller), line)
    }

    /// Has the commands from here on come several times.
    fn repeat(&mut self, alloc: Global, words: &[u8]) -> Result<(), Stop> {
        self.end_repetition(alloc)?;
        let Some((word, rest)) = cut_word(words) else {
            return Err(bad_argument(alloc, TIMES, None));
        };
        let times = match number(word) {
            Some(times) if times > 0 => times,
            _ => return Err(bad_argument(alloc, TIMES, Some(word))),
        };
        if let Some((more, _)) = cut_word(rest) {
            return Err(bad_argument(alloc, END, Some(more)));
        }
        let Some(caller) = self.scene.callers.last() else {
            return Err(refused(alloc, NO_CALLER));
        };
        self.repetition = Some(Repetition {
            from: caller.commands.len(),
            times,
        });
        Ok(())
    }

    /// Repeats the commands that are to come several times.
    fn end_repetition(&mut self, alloc: Global) -> Result<(), Stop> {
        let Some(repetition) = self.repetition.take() else {
            return Ok(());
        };
        match self.scene.callers.last_mut() {
            Some(caller) => caller.repeat(alloc, repetition.from, repetition.times),
            None => Ok(()),
        }
    }

    /// Returns the scene, if it is complete.
    pub(crate) fn end(mut self, alloc: Global) -> Result<Scene, Stop> {
        self.end_repetition(alloc)?;
        if self.scene.callers.is_empty() {
            return Err(refused(alloc, NO_CALLERS));
        }
        Ok(self.scene)
    }

    /// Reads a line.
    pub(crate) fn take_line<T: Texts<SceneObject>>(
        &mut self,
        alloc: Global,
        texts: &mut T,
        line: &[u8],
    ) -> Result<(), Stop> {
        let Some((first, words)) = cut_word(line) else {
            return Ok(());
        };
        if is_comment(first) {
            return Ok(());
        }
        match line_of(first) {
            Some(Line::Object) => self.object(alloc, texts, words),
            Some(Line::Unit) => self.unit(alloc, texts, words),
            Some(Line::Caller) => {
                self.object_of_command_line(alloc, texts)?;
                self.caller(alloc, words)
            }
            Some(Line::Repeat) => self.repeat(alloc, words),
            Some(Line::Abort) => self.abort(alloc, words),
            Some(Line::Operation(verb)) => self.operation(alloc, verb, first, words),
            None => Err(fault_of(alloc, FaultKind::UnknownCommand)),
        }
    }
}

/// Reads a scene, and makes its objects.
pub fn read_scene<T: Texts<SceneObject>>(
    alloc: Global,
    texts: &mut T,
    text: &[u8],
) -> Result<Scene, RunFault> {
    let mut reading = match Reading::new(alloc, text) {
        Ok(reading) => reading,
        Err(stop) => return Err(fault_at(0, stop)),
    };
    let mut number = 0u64;
    for line in text.split(|byte| *byte == b'\n') {
        number = number.saturating_add(1);
        if let Err(stop) = reading.take_line(alloc, texts, line) {
            return Err(fault_at(number, stop));
        }
    }
    match reading.end(alloc) {
        Ok(scene) => Ok(scene),
        Err(stop) => Err(fault_at(number, stop)),
    }
}
