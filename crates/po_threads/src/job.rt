// SPDX-License-Identifier: MIT
//! What a thread does with an object.

use std::sync::Wait;

/// What a thread does with an object of this type, from a seat of its own. `Object` and `Pass` go in, with the same ledgers.
pub trait Job<O, P> {
    /// Does the job, and gives the pass back.
    ///
    /// A pass of an open object has no call pending, neither before the job nor after it. The prover doesn't know that of a
    /// pass that a thread is given, so ask `Pass::pending` once.
    fn run<W: Wait>(self, rt: &W, object: &O, pass: P) -> P;
}
