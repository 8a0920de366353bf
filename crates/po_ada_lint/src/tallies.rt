// SPDX-License-Identifier: MIT
//! What is done, in all, with each thing that a text declares.

ghost use Rattle.std.specs.Prelude.{◌≡◌, true};

use crate::uses::{Facts, How, Part, Use};
use std::alloc::{AllocError, Global};

/// What is done with something.
#[derive(Clone, Copy)]
pub struct Tally {
    pub is_read: bool,
    pub is_changed: bool,
    pub is_mentioned: bool,
    /// Called from outside of its own body, or requeued to.
    pub is_called: bool,
    pub is_raised: bool,
    /// The first use that reads it or changes it.
    pub first: Option<Use>,
}

/// A tally of no use.
const UNUSED: Tally = Tally {
    is_read: false,
    is_changed: false,
    is_mentioned: false,
    is_called: false,
    is_raised: false,
    first: None,
};

impl Tally {
    /// Adds a use, which may be from its own body.
    fn add(&mut self, found: Use, is_own: bool)
        ensures read { found.how ≡ How.Read → self.new.is_read ≡ true }
        ensures changed { found.how ≡ How.Changed → self.new.is_changed ≡ true }
        ensures own { found.how ≡ How.Called → is_own ≡ true → self.new.is_called ≡ self.old.is_called }
        ensures stays_read { self.old.is_read ≡ true → self.new.is_read ≡ true }
    {
        match found.how {
            How::Read => self.is_read = true,
            How::Changed => self.is_changed = true,
            How::Received => {
                self.is_read = true;
                self.is_changed = true;
            }
            How::Mentioned | How::Counted => self.is_mentioned = true,
            How::Called => self.is_called = self.is_called || !is_own,
            How::Requeued => self.is_called = true,
            How::Raised => self.is_raised = true,
        }
        let counts = matches!(found.how, How::Read | How::Changed | How::Received);
        if counts && self.first.is_none() {
            self.first = Some(found);
        }
    }
}

/// Whether the body of the operation that is used uses it.
fn is_own(facts: &Facts<'_>, found: &Use) -> bool {
    match found.part {
        Part::Body(number) => match facts.operations.get(number) {
            Some(operation) => found.entity == Some(operation.entity),
            None => false,
        },
        _ => false,
    }
}

/// A tally for each thing that the text declares.
pub fn tally_all(alloc: Global, facts: &Facts<'_>) -> Result<Vec<Tally>, AllocError> {
    let mut list = Vec::new(alloc);
    for _ in facts.entities.iter() {
        list.push(UNUSED)?;
    }
    for found in facts.uses.iter() {
        let own = is_own(facts, found);
        if let Some(tally) = list.get_mut(found.entity.unwrap_or(usize::MAX)) {
            tally.add(*found, own);
        }
    }
    Ok(list)
}
