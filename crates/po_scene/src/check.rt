// SPDX-License-Identifier: MIT
//! Finds all faults of a scene.

use crate::command::{Addressed, action_of, addressed_of};
use crate::line::{Line, line_of};
use crate::reading::Reading;
use crate::scene::{Action, SceneObject};
use po_ada_check::push_warning;
use po_ada_language::{Stop, Texts, push_fault};
use po_ada_script::{RunFault, fault_at};
use po_language::parse::Verb;
use po_language::words::cut_word;
use std::alloc::Global;
use std::fmt::Write;

/// At most this many lines are told.
const MOST_FAULTS: u8 = 20;

/// The faults that were found.
#[derive(Drop)]
struct Faults {
    /// The lines that tell them.
    lines: String,
    /// How many there are.
    number: u8,
}

impl Faults {
    /// Adds why the line with this number isn't read, if it has a fault. Fails if it isn't read for another reason.
    fn add(&mut self, number: u64, stop: Stop) -> Result<(), RunFault> {
        match stop {
            Stop::Fault(fault) => push_fault(&mut self.lines, number, &fault)?,
            other => return Err(fault_at(number, other)),
        }
        self.number = self.number.saturating_add(1);
        Ok(())
    }

    /// Adds why the operation of the line with this number is sure to be refused, if it is.
    fn warn(
        &mut self,
        alloc: Global,
        number: u64,
        objects: &[SceneObject],
        verb: Verb,
        addressed: &Addressed,
    ) -> Result<(), Stop> {
        let action = action_of(alloc, objects, verb, addressed)?;
        let mut warning = String::new(alloc);
        if let Action::Operate { object, operation } = action
            && let Some(object) = objects.get(usize::from(object))
        {
            let words = addressed.words.as_slice();
            push_warning(&mut warning, &object.names, &operation, verb, words)?;
        }
        if !warning.is_empty() {
            self.number = self.number.saturating_add(1);
            write!(self.lines, "line {number}: {warning}\n")?;
        }
        Ok(())
    }

    /// Adds why the line with this number, which was read, is sure to be refused, if it is an operation that is.
    fn warn_of_line(
        &mut self,
        alloc: Global,
        number: u64,
        objects: &[SceneObject],
        line: &[u8],
    ) -> Result<(), Stop> {
        let Some((first, words)) = cut_word(line) else {
            return Ok(());
        };
        let Some(Line::Operation(verb)) = line_of(first) else {
            return Ok(());
        };
        let addressed = addressed_of(alloc, objects, verb, words)?;
        self.warn(alloc, number, objects, verb, &addressed)
    }
}

/// Reads a line, and adds its fault, or why it is sure to be refused.
fn read_line<T: Texts<SceneObject>>(
    alloc: Global,
    texts: &mut T,
    number: u64,
    line: &[u8],
    reading: &mut Reading,
    faults: &mut Faults,
) -> Result<(), RunFault> {
    let read = reading.take_line(alloc, texts, line);
    let warned = match read {
        Ok(()) => faults.warn_of_line(alloc, number, reading.objects(), line),
        Err(stop) => Err(stop),
    };
    match warned {
        Ok(()) => Ok(()),
        Err(stop) => faults.add(number, stop),
    }
}

/// Reads the lines one after the other, past those with a fault. A fault before the first caller ends the reading, since nothing can
/// be said of commands then. Returns the number of the last line that was read.
fn read_lines<T: Texts<SceneObject>>(
    alloc: Global,
    texts: &mut T,
    text: &[u8],
    reading: &mut Reading,
    faults: &mut Faults,
) -> Result<u64, RunFault> {
    let mut number = 0u64;
    for line in text.split(|byte| *byte == b'\n') {
        number = number.saturating_add(1);
        read_line(alloc, texts, number, line, reading, faults)?;
        if faults.number >= MOST_FAULTS || (faults.number > 0 && reading.is_before_callers()) {
            break;
        }
    }
    Ok(number)
}

/// Returns the lines that tell the faults of a scene and its commands that are sure to be refused, at most 20: no text if there are
/// none.
///
/// Fails if an Ada text has faults, or is in a file that hasn't been read, or if memory runs out.
pub fn faults_of<T: Texts<SceneObject>>(
    alloc: Global,
    texts: &mut T,
    text: &[u8],
) -> Result<String, RunFault> {
    let mut reading = match Reading::new(alloc, text) {
        Ok(reading) => reading,
        Err(stop) => return Err(fault_at(0, stop)),
    };
    let mut faults = Faults {
        lines: String::new(alloc),
        number: 0,
    };
    let number = read_lines(alloc, texts, text, &mut reading, &mut faults)?;
    if faults.number == 0
        && let Err(stop) = reading.end(alloc)
    {
        faults.add(number, stop)?;
    }
    Ok(faults.lines)
}
