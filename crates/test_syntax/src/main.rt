// SPDX-License-Identifier: MIT
//! A program for the gate: it reads Ada texts from standard input, each after a line `-- text NAME`. It writes each tree as a
//! text, reads that again and compares; and it makes an object of the text. Then it does both with changed texts, and it writes and
//! reads random trees. Its arguments say how many texts to change, what number the lot begins with, and how many trees to make.
#![tactic(auto)]

mod declarations;
mod expressions;
mod heights;
mod items;
mod likeness;
mod make_declarations;
mod make_expressions;
mod make_items;
mod make_names;
mod make_statements;
mod maker;
mod mutation;
mod outcome;
mod precedence;
mod printer;
mod random_trees;
mod reading;
mod statements;
mod whole;

use crate::mutation::mutant;
use crate::outcome::{Counts, Outcome};
use crate::random_trees::{RandomTree, trees_wanted, written_tree};
use crate::reading::{line_read, read_and_written, round_trip};
use crate::whole::whole_way;
use anyhow::Result;
use po_ada_samples::{Lot, Sample, argument, samples};
use std::alloc::Global;
use std::io::{Input, Print, Read};

/// How many texts had each outcome, as trees and as objects.
#[derive(Clone, Copy)]
struct Tally {
    trees: Counts,
    objects: Counts,
}

impl Tally {
    /// No texts.
    fn new() -> Tally {
        Tally {
            trees: Counts::new(),
            objects: Counts::new(),
        }
    }

    /// Writes how many there were of each outcome.
    fn write(self, rt: &impl Print, what: &str) -> Result<()> {
        self.trees.write_trees(rt, what)?;
        self.objects.write_objects(rt, what)
    }
}

/// Writes bytes, each as a character.
fn write_bytes(rt: &impl Print, bytes: &[u8]) -> Result<()> {
    for byte in bytes {
        let letter = char::from(*byte);
        print!(rt; "{letter}")?;
    }
    println!(rt; "")?;
    Ok(())
}

/// Writes a text that isn't read as it should be, and what its tree is written as.
fn write_wrong(rt: &(impl Print + AllocGlobal), bytes: &[u8]) -> Result<()> {
    write_bytes(rt, bytes)?;
    if let Ok(found) = read_and_written(rt.alloc(), bytes)? {
        write_bytes(rt, found.text.as_slice())?;
    }
    Ok(())
}

/// How a text came out, as a tree and as an object.
#[derive(Clone, Copy)]
struct Outcomes {
    tree: Outcome,
    object: Outcome,
}

/// Tests a text, and counts how it came out.
fn tested(alloc: Global, bytes: &[u8], tally: &mut Tally) -> Result<Outcomes> {
    let tree = round_trip(alloc, bytes)?;
    let object = whole_way(alloc, bytes)?;
    tally.trees.add(tree);
    tally.objects.add(object);
    Ok(Outcomes { tree, object })
}

/// Tests a text, and writes how it came out.
fn test_text(
    rt: &(impl Print + AllocGlobal),
    name: &str,
    bytes: &[u8],
    tally: &mut Tally,
) -> Result<()> {
    let Outcomes { tree, object } = tested(rt.alloc(), bytes, tally)?;
    tree.write(rt, name)?;
    if tree == object {
        return Ok(());
    }
    object.write(rt, name)
}

/// Tests each text.
fn test_texts(rt: &(impl Print + AllocGlobal), samples: &[Sample]) -> Result<()> {
    let mut tally = Tally::new();
    for sample in samples {
        test_text(
            rt,
            sample.name.as_str(),
            sample.bytes.as_slice(),
            &mut tally,
        )?;
    }
    tally.write(rt, "texts")
}

/// Tests a changed text, and writes it if the outcome is not as it should be.
fn test_changed(
    rt: &(impl Print + AllocGlobal),
    name: &str,
    bytes: &[u8],
    tally: &mut Tally,
) -> Result<()> {
    let Outcomes { tree, object } = tested(rt.alloc(), bytes, tally)?;
    if tree.is_right() && object.is_right() {
        return Ok(());
    }
    tree.write(rt, name)?;
    object.write(rt, name)?;
    write_wrong(rt, bytes)
}

/// Tests as many changed texts as this, from each text in turn.
fn test_all_changed(
    rt: &(impl Print + AllocGlobal),
    samples: &[Sample],
    count: usize,
    lot: &mut Lot,
) -> Result<()> {
    let mut tally = Tally::new();
    for turn in 0..count {
        let number = turn.checked_rem(samples.len()).unwrap_or(0);
        if let Some(sample) = samples.get(number) {
            let changed = mutant(rt.alloc(), sample.bytes.as_slice(), lot)?;
            test_changed(rt, sample.name.as_str(), changed.as_slice(), &mut tally)?;
        }
    }
    tally.write(rt, "changed texts")
}

/// Writes a random tree that didn't come back: its text, what the tree of that is written as, and both trees as lines.
fn write_lost(rt: &(impl Print + AllocGlobal), made: &RandomTree) -> Result<()> {
    println!(rt; "a random tree doesn't come back:")?;
    write_wrong(rt, made.text.as_slice())?;
    write_bytes(rt, made.line.as_slice())?;
    if let Ok(line) = line_read(rt.alloc(), made.text.as_slice())? {
        write_bytes(rt, line.as_slice())?;
    }
    Ok(())
}

/// Tests as many random trees as this.
fn test_random_trees(rt: &(impl Print + AllocGlobal), count: usize, lot: &mut Lot) -> Result<()> {
    let mut came_back = 0usize;
    for _ in 0..count {
        let made = written_tree(rt.alloc(), lot)?;
        if made.comes_back(rt.alloc())? {
            came_back = came_back.saturating_add(1);
        } else {
            write_lost(rt, &made)?;
        }
    }
    let differ = count.saturating_sub(came_back);
    println!(rt; "{count} random trees: {came_back} came back, {differ} differ")?;
    Ok(())
}

fn main(rt: HostRuntime) -> Result<()> {
    let (count, seed) = (argument(&rt, 1)?, argument(&rt, 2)?);
    let trees = trees_wanted(&rt)?;
    let mut bytes = Vec::new(rt.alloc());
    rt.reader().read_to_end(&mut bytes)?;
    let list = samples(rt.alloc(), bytes.as_slice())?;
    test_texts(&rt, list.as_slice())?;
    let mut lot = Lot::new(seed as u64);
    test_all_changed(&rt, list.as_slice(), count, &mut lot)?;
    let mut lot = Lot::new(seed as u64);
    test_random_trees(&rt, trees, &mut lot)
}
