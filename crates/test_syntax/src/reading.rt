// SPDX-License-Identifier: MIT
//! Reads a text, writes its tree as a text, and reads that again.

use crate::items::printed;
use crate::likeness::line_of;
use crate::outcome::{Outcome, faulty};
use anyhow::{Result, bail};
use po_ada_text::parse;
use po_ada_tree::{Faults, Stop, Text};
use std::alloc::Global;

/// What a tree is written as.
#[derive(Drop)]
pub struct Written {
    pub text: Vec<u8>,
    likeness: Vec<u8>,
}

/// The tree of these bytes, or how many faults they have.
fn tree(alloc: Global, bytes: &[u8]) -> Result<Result<Text, usize>> {
    let mut faults = Faults::new(alloc);
    match parse(alloc, bytes, &mut faults) {
        Ok(text) => Ok(Ok(text)),
        Err(Stop::Fault) => Ok(Err(faults.len())),
        Err(Stop::OutOfMemory) => bail!("no memory"),
    }
}

/// What the tree of these bytes is written as, or how many faults they have.
pub fn read_and_written(alloc: Global, bytes: &[u8]) -> Result<Result<Written, usize>> {
    match tree(alloc, bytes)? {
        Ok(read) => Ok(Ok(Written {
            text: printed(alloc, &read, bytes)?,
            likeness: line_of(alloc, &read, bytes)?,
        })),
        Err(count) => Ok(Err(count)),
    }
}

/// The tree of these bytes as a line, or how many faults they have.
pub fn line_read(alloc: Global, bytes: &[u8]) -> Result<Result<Vec<u8>, usize>> {
    match tree(alloc, bytes)? {
        Ok(read) => Ok(Ok(line_of(alloc, &read, bytes)?)),
        Err(count) => Ok(Err(count)),
    }
}

/// Reads a text, writes its tree, reads that again and compares.
pub fn round_trip(alloc: Global, bytes: &[u8]) -> Result<Outcome> {
    let first = match read_and_written(alloc, bytes)? {
        Ok(found) => found,
        Err(count) => return Ok(faulty(count)),
    };
    let Ok(second) = read_and_written(alloc, first.text.as_slice())? else {
        return Ok(Outcome::Unread);
    };
    let is_same = first.likeness.as_slice() == second.likeness.as_slice()
        && first.text.as_slice() == second.text.as_slice();
    Ok(if is_same {
        Outcome::Same
    } else {
        Outcome::Different
    })
}
