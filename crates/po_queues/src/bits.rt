// SPDX-License-Identifier: MIT
//! A row of bits, in words of 64.

ghost use Rattle.std.specs.Prelude.{◌≡◌, ◌≢◌, ℕ, ◌<◌, ◌≤◌, ◌*◌, ◌+◌, ◌/◌, length, replicate, slice_index_or, IfOk};
ghost use Rattle.std.specs.Prelude.{IfSome, IsNone, nat_lt};
ghost use Rattle.std.specs.Int.{bit_at};
ghost use Rattle.po_queues.specs.Busy.{bit_of, bit_when, IsNextBit};

use crate::copies::copied;
use std::alloc::{AllocError, Global};

/// How many bits one word has.
pub(crate) const WORD: u16 = 64;

/// A row of bits, each set or cleared, in words of 64.
#[derive(Debug, Drop)]
pub(crate) struct Bits {
    words: Vec<u64>,
}

impl Bits {
    /// Makes bits from 0 to `last`, all cleared.
    pub(crate) fn new(alloc: Global, last: u16) -> Result<Bits, AllocError>
        ensures { IfOk result (λ b. b.words.items ≡ replicate (last / 64 + 1) 0) }
    {
        let words = vec![in alloc; 0; usize::from(last / WORD) + 1]?;
        Ok(Bits { words })
    }

    /// Makes the same bits again.
    pub(crate) fn copy(&self) -> Result<Bits, AllocError>
        ensures { IfOk result (λ copy. copy.words.items ≡ self.now.words.items) }
    {
        let words = copied(&self.words)?;
        Ok(Bits { words })
    }

    /// Sets or clears the bit.
    pub(crate) fn write(&mut self, bit: u16, is_set: bool)
        requires { bit < 64 * length self.old.words.items }
        ensures same { bit_of self.new.words.items bit ≡ bit_when is_set }
        ensures others { (b : ℕ) → b ≢ bit →
            bit_of self.new.words.items b ≡ bit_of self.old.words.items b }
        ensures words { length self.new.words.items ≡ length self.old.words.items }
        ensures other_words { (w : ℕ) → w ≢ bit / 64 →
            slice_index_or self.new.words.items w 0 ≡ slice_index_or self.old.words.items w 0 }
    {
        let word = usize::from(bit / WORD);
        self.words[word] = with_bit(self.words[word], bit % WORD, is_set);
    }

    /// Returns whether a bit of the word is set.
    pub(crate) fn has_any(&self, word: u16) -> bool
        requires { word < length self.now.words.items }
        ensures { result ≡ nat_lt 0 (slice_index_or self.now.words.items word 0) }
    {
        self.words[usize::from(word)] > 0
    }

    /// Returns the first set bit from this one on, if it is in the same word.
    pub(crate) fn next_in_word(&self, from: u16) -> Option<u16>
        requires { length self.now.words.items ≤ 1024 }
        ensures some { IfSome result (λ b. IsNextBit self.now.words.items from b) }
        ensures same_word { IfSome result (λ b. b / 64 ≡ from / 64) }
        ensures none { IsNone result → (b : ℕ) → from ≤ b → b / 64 ≡ from / 64 →
            bit_of self.now.words.items b ≡ 0 }
        ensures none_at_all { IsNone result → from ≡ 64 * (from / 64) →
            slice_index_or self.now.words.items (from / 64) 0 ≡ 0 }
    {
        let word = from / WORD;
        let later = self.words.get(usize::from(word))? & (u64::MAX << (from % WORD));
        if later == 0 {
            return None;
        }
        Some(WORD * word + later.trailing_zeros() as u16)
    }

    /// Returns the first set bit from this one on.
    pub(crate) fn next(&self, from: u16) -> Option<u16>
        requires { length self.now.words.items ≤ 1024 }
        ensures some { IfSome result (λ b. IsNextBit self.now.words.items from b) }
        ensures none { IsNone result →
            (b : ℕ) → from ≤ b → bit_of self.now.words.items b ≡ 0 }
    {
        let mut found = self.next_in_word(from);
        let mut word = from / WORD + 1;
        while found.is_none() && usize::from(word) < self.words.len() {
            found = self.next_in_word(WORD * word);
            word += 1;
        }
        found
    }
}

/// Returns the word with this bit set or cleared.
pub(crate) fn with_bit(word: u64, bit: u16, is_set: bool) -> u64
    requires { bit < 64 }
    ensures same { bit_at result bit ≡ bit_when is_set }
    ensures others { (i : ℕ) → i < 64 → i ≢ bit → bit_at result i ≡ bit_at word i }
{
    if is_set {
        word | (1 << bit)
    } else {
        word & !(1 << bit)
    }
}
