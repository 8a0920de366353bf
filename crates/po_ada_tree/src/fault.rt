// SPDX-License-Identifier: MIT
//! What is wrong with a text, and where.

ghost use Rattle.std.specs.Prelude.{◌≡◌, ◌+◌, ◌≤◌, ◌↔◌, IsTrue, take, vec_len, string_bytes, IfOk, OnOk};

use std::alloc::{AllocError, AllocFailed, Global};

/// A run of a text tells at most this many faults.
pub const MOST_FAULTS: usize = 20;

/// Something that is wrong with a text.
#[derive(Debug, Drop)]
pub struct Fault {
    /// How many bytes come before it.
    pub place: usize,
    pub message: String,
}

impl Fault {
    /// Returns a copy.
    pub fn copy(&self, alloc: Global) -> Result<Fault, AllocError>
        ensures place { IfOk result (λ copy. copy.place ≡ self.now.place) }
        ensures message { IfOk result (λ copy. string_bytes copy.message ≡ string_bytes self.now.message) }
    {
        let message = String::from_str(alloc, self.message.as_str())?;
        Ok(Fault {
            place: self.place,
            message,
        })
    }
}

/// Why a part of a text was not read.
#[derive(Clone, Copy, Debug, PartialEq, Eq)]
pub enum Stop {
    /// The list of faults says it.
    Fault,
    /// No memory.
    OutOfMemory,
}

impl From<AllocError> for Stop {
    fn from(_error: AllocError) -> Stop {
        Stop::OutOfMemory
    }
}

impl<T: Drop> From<AllocFailed<T>> for Stop {
    fn from(_error: AllocFailed<T>) -> Stop {
        Stop::OutOfMemory
    }
}

/// The faults of a text that were found, in the order in which they were found.
#[derive(Debug, Drop)]
pub struct Faults {
    pub items: Vec<Fault>,
    ghost few: { vec_len items ≤ 20 },
}

impl Faults {
    /// No faults.
    pub fn new(alloc: Global) -> Faults
        ensures { vec_len result.items ≡ 0 }
    {
        Faults {
            items: Vec::new(alloc),
        }
    }

    /// How many faults there are.
    pub fn len(&self) -> usize
        ensures { result ≡ vec_len self.now.items }
    {
        self.items.len()
    }

    /// Whether there is no fault.
    pub fn is_empty(&self) -> bool
        ensures { IsTrue result ↔ (vec_len self.now.items ≡ 0) }
    {
        self.items.is_empty()
    }

    /// The faults as a list.
    pub fn into_items(self) -> Vec<Fault>
        ensures { result.items ≡ self.items.items }
    {
        self.items
    }

    /// Returns a copy of the fault before which this many were told, if there is one.
    pub fn nth(&self, alloc: Global, number: usize) -> Result<Option<Fault>, AllocError> {
        match self.items.get(number) {
            Some(fault) => Ok(Some(fault.copy(alloc)?)),
            None => Ok(None),
        }
    }

    /// Forgets all faults but the first ones.
    pub fn truncate(&mut self, length: usize)
        ensures { self.new.items.items ≡ take length self.old.items.items }
    {
        self.items.truncate(length);
    }

    /// Whether no more faults are told.
    pub fn is_full(&self) -> bool
        ensures { IsTrue result ↔ (20 ≤ vec_len self.now.items) }
    {
        self.items.len() >= MOST_FAULTS
    }

    /// Whether a fault at this place was told.
    fn has_place(&self, place: usize) -> bool
        ensures { IsTrue result → 1 ≤ vec_len self.now.items }
    {
        for fault in &self.items {
            if fault.place == place {
                return true;
            }
        }
        false
    }

    /// Adds a fault, unless there are 20, or one at this place.
    pub fn add(&mut self, place: usize, message: String) -> Result<(), AllocError>
        ensures told { OnOk result (1 ≤ vec_len self.new.items) }
        ensures kept { take (vec_len self.old.items) self.new.items.items ≡ self.old.items.items }
        ensures one { vec_len self.new.items ≤ vec_len self.old.items + 1 }
    {
        if self.has_place(place) || self.is_full() {
            return Ok(());
        }
        self.items.push(Fault { place, message })?;
        Ok(())
    }
}
