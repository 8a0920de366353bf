// SPDX-License-Identifier: MIT
//! Which of many entries have a queued key.

ghost use Rattle.std.specs.Prelude.{◌≡◌, ◌≢◌, ℕ, ◌<◌, ◌≤◌, ◌*◌, ◌+◌, ◌/◌, length, replicate, IfOk};
ghost use Rattle.std.specs.Prelude.{IfSome, IsNone};
ghost use Rattle.po_queues.specs.Busy.{bit_of, bit_when, IsNextBit};

use crate::bits::{Bits, WORD};
use std::alloc::{AllocError, Global};
use std::marker::Model;

/// Which of many entries have a queued key: a bit for each entry, in words of 64, and a bit for each of these words, which says
/// whether any bit of the word is set.
///
/// So a search passes 4,096 entries without a queued key in one step.
#[derive(Debug, Drop)]
pub(crate) struct BusyWords {
    // By entry: whether it has a queued key.
    entries: Bits,
    // By word of `entries`: whether one of its bits is set.
    words: Bits,
}

impl Model for BusyWords {
    ghost use Rattle.std.specs.Prelude.{List, ℕ};
    ghost use Rattle.po_queues.specs.Busy.{SumsUp};

    ghost Value = { List ℕ };

    ghost view = { λ b. b.entries.words.items };

    ghost invariant = { λ b. SumsUp b.entries.words.items b.words.words.items };
}

impl BusyWords {
    /// Makes the bits of `total` entries without queued keys.
    pub(crate) fn new(alloc: Global, total: u16) -> Result<BusyWords, AllocError>
        ensures { IfOk result (λ b. b ≡ replicate (total / 64 + 1) 0) }
    {
        Ok(BusyWords {
            entries: Bits::new(alloc, total)?,
            words: Bits::new(alloc, total / WORD)?,
        })
    }

    /// Makes the same bits again.
    pub(crate) fn copy(&self) -> Result<BusyWords, AllocError>
        ensures { IfOk result (λ copy. copy ≡ self.now) }
    {
        Ok(BusyWords {
            entries: self.entries.copy()?,
            words: self.words.copy()?,
        })
    }

    /// Notes whether the entry has a queued key.
    pub(crate) fn mark(&mut self, entry: u16, busy: bool)
        requires { entry < 64 * length self.old }
        ensures same { bit_of self.new entry ≡ bit_when busy }
        ensures others { (e : ℕ) → e ≢ entry → bit_of self.new e ≡ bit_of self.old e }
        ensures words { length self.new ≡ length self.old }
    {
        let word = entry / WORD;
        self.entries.write(entry, busy);
        self.words.write(word, self.entries.has_any(word));
    }

    /// Returns the first entry from this one on that has a queued key.
    pub(crate) fn next(&self, from: u16) -> Option<u16>
        requires { length self.now ≤ 1024 }
        ensures some { IfSome result (λ e. IsNextBit self.now from e) }
        ensures none { IsNone result → (e : ℕ) → from ≤ e → bit_of self.now e ≡ 0 }
    {
        let found = self.entries.next_in_word(from);
        if found.is_some() {
            return found;
        }
        let word = self.words.next(from / WORD + 1)?;
        self.entries.next_in_word(WORD * word)
    }
}
