// SPDX-License-Identifier: MIT
//! What a protected object does: its data, barriers, bodies, procedures and functions.

ghost use Rattle.std.specs.Prelude.{◌≡◌, ◌<◌, length, IfOk, true};
ghost use Rattle.po_unit.specs.Meaning.{Meaning, IsLawful};

use crate::outcome::Outcome;
use std::alloc::AllocError;

/// The data of a protected object with its operations (9.4, 9.5.1, 9.5.2).
///
/// Operations are given `counts`: for each entry, in the order of their numbers, how many calls are queued on it (the attribute
/// Count, 9.9). No operation except `copy` takes memory, and none waits for anybody.
pub trait Unit: Sized {
    /// The one parameter of each call, of mode `in out`.
    type Value: Copy + Eq;

    /// What the unit means, as functions of its state, a value and the counts.
    ghost meaning: { Meaning Self Self.Value };

    /// Returns how many entries the object has, each member of a family counted.
    fn entries(&self) -> u16
        ensures { result ≡ meaning.entries self.now };

    /// Returns how many protected procedures the object has.
    fn procedures(&self) -> u16
        ensures { result ≡ meaning.procedures self.now };

    /// Returns how many protected functions the object has.
    fn functions(&self) -> u16
        ensures { result ≡ meaning.functions self.now };

    /// Returns whether the entry is open, or the number of the exception that its barrier propagates (9.5.2, 9.5.3).
    fn barrier(&self, e: u16, counts: &[u64]) -> Result<bool, u32>
        requires entry { e < meaning.entries self.now }
        requires counts { length counts.now ≡ meaning.entries self.now }
        ensures { result ≡ meaning.barrier self.now e counts.now };

    /// Runs the body of the entry for a call with this value (9.5.2).
    fn body(&mut self, e: u16, v: Self::Value, counts: &[u64]) -> Outcome<Self::Value>
        requires entry { e < meaning.entries self.old }
        requires counts { length counts.now ≡ meaning.entries self.old }
        ensures { (self.new, result) ≡ meaning.body self.old e v counts.now };

    /// Runs a protected procedure (9.5.1). Returns a value, or the number of the exception that it propagates.
    fn procedure(&mut self, op: u16, v: Self::Value, counts: &[u64]) -> Result<Self::Value, u32>
        requires op { op < meaning.procedures self.old }
        requires counts { length counts.now ≡ meaning.entries self.old }
        ensures { (self.new, result) ≡ meaning.procedure self.old op v counts.now };

    /// Runs a protected function, which changes nothing (9.5.1). Returns the same as `procedure`: a value or an exception.
    fn function(&self, op: u16, v: Self::Value, counts: &[u64]) -> Result<Self::Value, u32>
        requires op { op < meaning.functions self.now }
        requires counts { length counts.now ≡ meaning.entries self.now }
        ensures { result ≡ meaning.function self.now op v counts.now };

    /// Returns how often a call with this value on this entry may be requeued at most. Each requeue lowers it.
    fn rank(e: u16, v: Self::Value) -> u8
        ensures { result ≡ meaning.rank e v };

    /// Returns an equal unit that has all the memory it needs.
    fn copy(&self) -> Result<Self, AllocError>
        ensures { IfOk result (λ copy. copy ≡ self.now) };

    /// Bodies and procedures leave the numbers of operations as they are. A requeue names an entry and lowers the rank.
    ghost lawful: { IsLawful meaning };

    /// `==` on values is equality.
    ghost equality: { (a b : Self.Value) → Self.Value.PartialEq.eq a b ≡ true → a ≡ b };
}
