// SPDX-License-Identifier: MIT
//! What becomes of a text, and how many texts have each outcome.

use anyhow::Result;
use po_ada_tree::fault::MOST_FAULTS;
use std::io::Print;

/// What became of a text.
#[derive(Clone, Copy, PartialEq, Eq)]
pub enum Outcome {
    /// The tree, written and read again, is the same.
    Same,
    /// It is another one.
    Different,
    /// The text of the tree isn't read.
    Unread,
    /// An object was made.
    Object,
    /// The text has this many faults.
    Faulty(usize),
    /// There is neither a result nor 1 to 20 faults, or there are more than 20 hints.
    Wrong,
}

/// What becomes of a text with this many faults.
pub fn faulty(count: usize) -> Outcome {
    if (1..=MOST_FAULTS).contains(&count) {
        Outcome::Faulty(count)
    } else {
        Outcome::Wrong
    }
}

impl Outcome {
    /// Whether it is as it should be.
    pub fn is_right(self) -> bool {
        matches!(self, Outcome::Same | Outcome::Object | Outcome::Faulty(_))
    }

    /// Writes what became of a text.
    pub fn write(self, rt: &impl Print, name: &str) -> Result<()> {
        match self {
            Outcome::Same => println!(rt; "{name}: same")?,
            Outcome::Different => println!(rt; "{name}: another tree")?,
            Outcome::Unread => println!(rt; "{name}: the written tree isn't read")?,
            Outcome::Object => println!(rt; "{name}: an object")?,
            Outcome::Faulty(count) => println!(rt; "{name}: {count} faults")?,
            Outcome::Wrong => println!(rt; "{name}: neither a result nor 1 to 20 faults")?,
        }
        Ok(())
    }
}

/// How many texts there were of each outcome.
#[derive(Clone, Copy)]
pub struct Counts {
    same: usize,
    objects: usize,
    faulty: usize,
    wrong: usize,
}

impl Counts {
    /// No texts.
    pub fn new() -> Counts {
        Counts {
            same: 0,
            objects: 0,
            faulty: 0,
            wrong: 0,
        }
    }

    /// Counts a text.
    pub fn add(&mut self, outcome: Outcome) {
        match outcome {
            Outcome::Same => self.same = self.same.saturating_add(1),
            Outcome::Object => self.objects = self.objects.saturating_add(1),
            Outcome::Faulty(_) => self.faulty = self.faulty.saturating_add(1),
            _ => self.wrong = self.wrong.saturating_add(1),
        }
    }

    /// Writes how many trees were the same.
    pub fn write_trees(self, rt: &impl Print, what: &str) -> Result<()> {
        let Counts {
            same,
            faulty,
            wrong,
            ..
        } = self;
        println!(rt; "{what}: {same} trees the same, {faulty} with faults, {wrong} wrong")?;
        Ok(())
    }

    /// Writes how many objects were made.
    pub fn write_objects(self, rt: &impl Print, what: &str) -> Result<()> {
        let Counts {
            objects,
            faulty,
            wrong,
            ..
        } = self;
        println!(rt; "{what}: {objects} objects, {faulty} with faults, {wrong} wrong")?;
        Ok(())
    }
}
