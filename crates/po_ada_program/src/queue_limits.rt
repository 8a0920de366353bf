// SPDX-License-Identifier: MIT
//! The greatest length of the queues, which aspects or pragmas of the entries state (D.4). An object has one for all its queues.

use crate::making::Making;
use po_ada_tree::Stop;
use po_ada_tree::tree::{Expression, Name, Pragma, Profile};

/// What states the greatest length: the standard's name, and that of GNAT.
const STATED: [&str; 2] = ["max_entry_queue_length", "max_queue_length"];

/// What is said of a length that no queue has.
const NO_LENGTH: &str =
    "the greatest length of a queue is a static number from 1 on here: if there is none, leave this out (D.4)";

/// What is said of entries with different lengths.
const DIFFERENT: &str =
    "the queues of an object have one greatest length here: give all its entries, also the private ones, the same Max_Queue_Length, or none and write 'max' on the script's line 'unit' (D.4)";

/// The greatest length of the queues of an entry, if one is stated, and the place of its declaration.
#[derive(Clone, Copy, Debug)]
pub struct QueueLimit {
    pub place: usize,
    pub most: Option<u64>,
}

impl<'a> Making<'a> {
    /// Whether the name is that of the aspect.
    pub fn is_queue_limit(&self, name: Name) -> bool {
        self.is_one_of(name, &STATED)
    }

    /// The greatest length that a static expression states.
    fn queue_limit(&mut self, value: &'a Expression) -> Result<u64, Stop> {
        let (number, kind) = self.lowering.fixed(value)?;
        match u64::try_from(number) {
            Ok(most) if most > 0 && self.lowering.known.is_integer(kind) => Ok(most),
            _ => Err(self.lowering.known.refuse(value.place, NO_LENGTH)),
        }
    }

    /// The greatest length that an aspect or a pragma states.
    fn stated_limit(&mut self, name: Name, value: Option<&'a Expression>) -> Result<u64, Stop> {
        match value {
            Some(value) => self.queue_limit(value),
            None => Err(self.lowering.known.refuse(name.place, NO_LENGTH)),
        }
    }

    /// Notes the greatest length of an entry's queues, if its aspects state one.
    pub fn note_entry(&mut self, profile: &'a Profile) -> Result<(), Stop> {
        let mut most = None;
        for aspect in profile.aspects.iter() {
            if self.is_queue_limit(aspect.name) {
                most = Some(self.stated_limit(aspect.name, aspect.value.as_ref())?);
            }
        }
        self.limits.push(QueueLimit {
            place: profile.name.place,
            most,
        })?;
        Ok(())
    }

    /// Notes the greatest length that a pragma states, of the queues of the entry that it follows.
    pub fn note_pragma(&mut self, pragma: &'a Pragma) -> Result<(), Stop> {
        let value = pragma.arguments.first().map(|argument| &argument.value);
        let most = self.stated_limit(pragma.name, value)?;
        match self.limits.last_mut() {
            Some(limit) => {
                limit.most = Some(most);
                Ok(())
            }
            None => Err(
                self.lowering.known.refuse_name(
                    pragma.name.place,
                    "pragma ",
                    pragma.name.number,
                    " comes after an entry",
                ),
            ),
        }
    }

    /// The greatest length of all queues, which the entries have to agree on.
    pub fn agree_on_limit(&mut self) -> Result<(), Stop> {
        let Some(first) = self.limits.first().copied() else {
            return Ok(());
        };
        let other = self
            .limits
            .iter()
            .find(|limit| limit.most != first.most)
            .copied();
        match other {
            Some(limit) => Err(self.lowering.known.refuse(limit.place, DIFFERENT)),
            None => {
                self.max_queue = first.most;
                Ok(())
            }
        }
    }
}
