// SPDX-License-Identifier: MIT
//! Which entries have a queued key.

ghost use Rattle.std.specs.Prelude.{◌≡◌, ◌≢◌, ℕ, ◌<◌, ◌≤◌, ◌*◌, ◌+◌, ◌/◌, ◌∷◌, [], length, replicate, IfOk};
ghost use Rattle.std.specs.Prelude.{IfSome, IsNone};
ghost use Rattle.po_queues.specs.Busy.{bit_of, bit_when, IsNextBit, words_in};

use crate::bits::{WORD, with_bit};
use crate::busy_words::BusyWords;
use std::alloc::{AllocError, Global};
use std::marker::Model;

/// Which entries have a queued key: a bit for each entry.
///
/// An object with fewer than 64 entries has them in one word, so the next busy entry is found at once.
#[derive(Debug, Drop)]
pub(crate) struct BusyEntries {
    // The bits of entries 0 to 63.
    low: u64,
    // The bits of all other entries, each at its number minus 64, if there may be any.
    high: Option<BusyWords>,
}

impl Model for BusyEntries {
    ghost use Rattle.std.specs.Prelude.{List, ℕ, ◌∷◌};
    ghost use Rattle.po_queues.specs.Busy.{words_in as all_words};

    ghost Value = { List ℕ };

    ghost view = { λ b. b.low ∷ all_words b.high };
}

/// Makes the bits of the entries from 64 on, if there may be any among `total` entries.
fn high_words(alloc: Global, total: u16) -> Result<Option<BusyWords>, AllocError>
    ensures { IfOk result (λ high. words_in high ≡ replicate (total / 64) 0) }
{
    if total < WORD {
        return Ok(None);
    }
    let words = BusyWords::new(alloc, total - WORD)?;
    Ok(Some(words))
}

/// Makes the same words again, if there are any.
fn copied_words(high: &Option<BusyWords>) -> Result<Option<BusyWords>, AllocError>
    ensures { IfOk result (λ copy. copy ≡ high.now) }
{
    let Some(words) = high else {
        return Ok(None);
    };
    let copy = words.copy()?;
    Ok(Some(copy))
}

/// Returns the first set bit of the word from this one on.
fn next_bit(word: u64, from: u16) -> Option<u16>
    requires { from < 64 }
    ensures some { IfSome result (λ b. (b < 64) × IsNextBit (word ∷ []) from b) }
    ensures none { IsNone result → (b : ℕ) → from ≤ b → b < 64 → bit_of (word ∷ []) b ≡ 0 }
{
    let later = word & (u64::MAX << from);
    if later == 0 {
        return None;
    }
    Some(later.trailing_zeros() as u16)
}

/// Sets or clears this bit of the words, if there are any.
fn mark_in(high: &mut Option<BusyWords>, bit: u16, is_set: bool)
    requires { bit < 64 * length (words_in high.old) }
    ensures same { bit_of (words_in high.new) bit ≡ bit_when is_set }
    ensures others { (b : ℕ) → b ≢ bit → bit_of (words_in high.new) b ≡ bit_of (words_in high.old) b }
    ensures words { length (words_in high.new) ≡ length (words_in high.old) }
{
    if let Some(words) = high {
        words.mark(bit, is_set);
    }
}

impl BusyEntries {
    /// Makes the bits of `total` entries without queued keys.
    pub(crate) fn new(alloc: Global, total: u16) -> Result<BusyEntries, AllocError>
        ensures { IfOk result (λ b. b ≡ replicate (total / 64 + 1) 0) }
    {
        let high = high_words(alloc, total)?;
        Ok(BusyEntries { low: 0, high })
    }

    /// Makes the same bits again.
    pub(crate) fn copy(&self) -> Result<BusyEntries, AllocError>
        ensures { IfOk result (λ copy. copy ≡ self.now) }
    {
        let high = copied_words(&self.high)?;
        Ok(BusyEntries {
            low: self.low,
            high,
        })
    }

    /// Notes whether the entry has a queued key.
    pub(crate) fn mark(&mut self, entry: u16, busy: bool)
        requires { entry < 64 * length self.old }
        ensures same { bit_of self.new entry ≡ bit_when busy }
        ensures others { (e : ℕ) → e ≢ entry → bit_of self.new e ≡ bit_of self.old e }
        ensures words { length self.new ≡ length self.old }
    {
        if entry < WORD {
            self.low = with_bit(self.low, entry, busy);
            return;
        }
        mark_in(&mut self.high, entry - WORD, busy);
    }

    /// Returns the first entry from this one on that has a queued key.
    pub(crate) fn next(&self, from: u16) -> Option<u16>
        requires { length self.now ≤ 1024 }
        ensures some { IfSome result (λ e. IsNextBit self.now from e) }
        ensures none { IsNone result → (e : ℕ) → from ≤ e → bit_of self.now e ≡ 0 }
    {
        if from >= WORD {
            return self.next_high(from);
        }
        let found = next_bit(self.low, from);
        if found.is_some() {
            return found;
        }
        self.next_high(WORD)
    }

    /// Returns the first entry from this one on that has a queued key. The number is 64 or more.
    fn next_high(&self, from: u16) -> Option<u16>
        requires from { 64 ≤ from }
        requires few { length self.now ≤ 1024 }
        ensures some { IfSome result (λ e. IsNextBit self.now from e) }
        ensures none { IsNone result → (e : ℕ) → from ≤ e → bit_of self.now e ≡ 0 }
    {
        let entry = self.high.as_ref()?.next(from - WORD)?;
        Some(WORD + entry)
    }
}
