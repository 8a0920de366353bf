// SPDX-License-Identifier: MIT
//! Scenes that are drawn by lot.

use anyhow::Result;
use po_ada_samples::{Lot, Sample};
use po_ada_session::TextFile;
use po_scene::SceneFiles;
use std::alloc::Global;
use std::fmt::Write;

/// What a line of a text begins with that says what callers can do.
const DOES: &[u8] = b"-- does ";

/// The service orders.
const ORDERS: [&str; 3] = ["textual", "oldest", "rotating"];

/// The names of objects and callers.
const NAMES: [&str; 3] = ["A", "B", "C"];

/// Returns the files that a scene can name.
pub fn files(alloc: Global, samples: &[Sample]) -> Result<SceneFiles> {
    let mut files = SceneFiles::new(alloc, None);
    for sample in samples {
        let name = String::from_str(alloc, sample.name.as_str())?;
        files.take(TextFile::new(name, sample.bytes.to_vec(alloc)?))?;
    }
    Ok(files)
}

/// Returns what the callers of a text can do.
fn commands(alloc: Global, sample: &Sample) -> Result<Vec<String>> {
    let mut list = Vec::new(alloc);
    for line in sample.bytes.split(|byte| *byte == b'\n') {
        if let Some(command) = line.strip_prefix(DOES)
            && let Ok(command) = str::from_utf8(command)
        {
            list.push(String::from_str(alloc, command)?)?;
        }
    }
    Ok(list)
}

/// Returns one of the names.
fn name(number: usize) -> &'static str {
    NAMES.get(number).copied().unwrap_or("D")
}

/// Adds the line of an object: one of the texts, with one of the service orders. Returns the text's position.
fn push_object(
    text: &mut String,
    samples: &[Sample],
    number: usize,
    lot: &mut Lot,
) -> Result<usize> {
    let chosen = lot.below(samples.len());
    if let Some(sample) = samples.get(chosen) {
        let (object, file) = (name(number), sample.name.as_str());
        let order = ORDERS.get(lot.below(3)).copied().unwrap_or("textual");
        write!(text, "object {object} file \"{file}\" {order}\n")?;
    }
    Ok(chosen)
}

/// Adds a command on one of the objects, whose name comes before the first point of the command, if it has one.
fn push_command(
    alloc: Global,
    text: &mut String,
    samples: &[Sample],
    objects: &[usize],
    lot: &mut Lot,
) -> Result<()> {
    let number = lot.below(objects.len());
    let Some(sample) = objects.get(number).and_then(|chosen| samples.get(*chosen)) else {
        return Ok(());
    };
    let list = commands(alloc, sample)?;
    if let Some(command) = list.get(lot.below(list.len())) {
        let (command, object) = (command.as_str(), name(number));
        match command.split_once('.') {
            Some((before, after)) => write!(text, "  {before}{object}.{after}\n")?,
            None => write!(text, "  {command}\n")?,
        }
    }
    Ok(())
}

/// Returns a number from the least to the greatest.
fn some(least: usize, greatest: usize, lot: &mut Lot) -> usize {
    let numbers = greatest.saturating_sub(least).saturating_add(1);
    least.saturating_add(lot.below(numbers))
}

/// Returns the lines of one to three commands on these objects.
fn drawn_commands(
    alloc: Global,
    samples: &[Sample],
    objects: &[usize],
    lot: &mut Lot,
) -> Result<String> {
    let mut text = String::new(alloc);
    for _ in 0..some(1, 3, lot) {
        push_command(alloc, &mut text, samples, objects, lot)?;
    }
    Ok(text)
}

/// Returns a scene with one or two objects of these texts, and two or three callers with one to three commands each. Every third
/// caller has those of the one before it.
pub fn drawn(alloc: Global, samples: &[Sample], lot: &mut Lot) -> Result<String> {
    let mut text = String::new(alloc);
    let mut objects = Vec::new(alloc);
    for number in 0..some(1, 2, lot) {
        objects.push(push_object(&mut text, samples, number, lot)?)?;
    }
    let mut commands = drawn_commands(alloc, samples, objects.as_slice(), lot)?;
    for number in 0..some(2, 3, lot) {
        if lot.below(3) > 0 {
            commands = drawn_commands(alloc, samples, objects.as_slice(), lot)?;
        }
        let (caller, lines) = (name(number), commands.as_str());
        write!(text, "caller {caller}\n{lines}")?;
    }
    Ok(text)
}
