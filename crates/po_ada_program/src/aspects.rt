// SPDX-License-Identifier: MIT
//! The aspects of operations (13.1.1).

use crate::making::Making;
use po_ada_tree::Stop;
use po_ada_tree::tree::{Aspect, Expression, Kind, Name, Profile};

/// The aspects that mean something and aren't in the subset.
const REFUSED: [&str; 4] = ["pre'class", "post'class", "import", "address"];

/// The aspects with a meaning here that stand at a declaration alone.
const DECLARED: [&str; 5] = ["pre", "post", "pre'class", "post'class", "max_queue_length"];

/// Why an aspect isn't read.
const UNREAD: &str = " isn't in this subset yet: write pragma Assert in the body";

/// Why an aspect can't stand at a body.
const ELSEWHERE: &str = " stands at the operation's declaration, not at its body (13.1.1)";

impl<'a> Making<'a> {
    /// Whether the name is one of these.
    pub fn is_one_of(&self, name: Name, texts: &[&str]) -> bool {
        let names = self.lowering.known.names;
        texts
            .iter()
            .any(|text| names.find(text) == Some(name.number))
    }

    /// Refuses an aspect of an operation that is one of these, for this reason.
    fn refuse_aspects(
        &mut self,
        profile: &'a Profile,
        refused: &[&str],
        reason: &str,
    ) -> Result<(), Stop> {
        for aspect in profile.aspects.iter() {
            if self.is_one_of(aspect.name, refused) {
                let Name { number, place } = aspect.name;
                return Err(
                    self.lowering
                        .known
                        .refuse_name(place, "the aspect ", number, reason),
                );
            }
        }
        Ok(())
    }

    /// Refuses aspects that mean something and aren't in the subset.
    pub fn admit_aspects(&mut self, profile: &'a Profile) -> Result<(), Stop> {
        self.refuse_aspects(profile, &REFUSED, UNREAD)
    }

    /// Refuses aspects of a body that belong to its declaration (13.1.1).
    pub fn admit_body_aspects(&mut self, profile: &'a Profile) -> Result<(), Stop> {
        self.refuse_aspects(profile, &DECLARED, ELSEWHERE)
    }

    /// An aspect of an operation.
    fn named_aspect(&self, number: usize, text: &str) -> Option<&'a Aspect> {
        let declared = self.lowering.operations.get(number)?;
        let wanted = self.lowering.known.names.find(text)?;
        let aspects = &declared.profile.aspects;
        aspects.iter().find(|aspect| aspect.name.number == wanted)
    }

    /// The value of an aspect of an operation.
    pub fn aspect(&self, number: usize, text: &str) -> Option<&'a Expression> {
        self.named_aspect(number, text)?.value.as_ref()
    }

    /// The precondition of an entry and its place. Callers check it; the body of another operation checks its own (6.1.1).
    pub fn entry_precondition(&self, number: usize) -> Option<(usize, &'a Expression)> {
        if self.lowering.kind_of(number) != Kind::Entry {
            return None;
        }
        let aspect = self.named_aspect(number, "pre")?;
        Some((aspect.name.place, aspect.value.as_ref()?))
    }
}
