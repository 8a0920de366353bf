// SPDX-License-Identifier: MIT
//! Random trees, and whether they come back from the texts that they are written as.

use crate::items::printed;
use crate::likeness::line_of;
use crate::make_items::random_tree;
use crate::reading::line_read;
use anyhow::Result;
use po_ada_samples::Lot;
use std::alloc::{AllocError, Global};
use std::env;
use std::rt::Env;

/// A tree that was made: as a line, and as a text.
#[derive(Drop)]
pub struct RandomTree {
    pub line: Vec<u8>,
    pub text: Vec<u8>,
}

impl RandomTree {
    /// Whether reading the text gives the tree.
    pub fn comes_back(&self, alloc: Global) -> Result<bool> {
        match line_read(alloc, self.text.as_slice())? {
            Ok(line) => Ok(line.as_slice() == self.line.as_slice()),
            Err(_) => Ok(false),
        }
    }
}

/// Makes a random tree and writes it.
pub fn written_tree(alloc: Global, lot: &mut Lot) -> Result<RandomTree, AllocError> {
    let made = random_tree(alloc, lot)?;
    let line = line_of(alloc, &made.text, made.bytes.as_slice())?;
    let text = printed(alloc, &made.text, made.bytes.as_slice())?;
    Ok(RandomTree { line, text })
}

/// How many random trees the third argument asks for; none if there is no such argument.
pub fn trees_wanted(rt: &(impl Env + AllocGlobal)) -> Result<usize> {
    match env::args(rt)?.nth(3) {
        Some(word) => Ok(word.as_str().parse::<usize>()?),
        None => Ok(0),
    }
}
