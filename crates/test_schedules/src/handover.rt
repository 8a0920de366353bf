// SPDX-License-Identifier: MIT
//! The place of a pass between two threads that call with it, one after the other.

use std::sync::{Mutex, Wait};

/// The pass that one thread hands over, until another takes it.
#[derive(Drop)]
pub(crate) struct Handover<P: Drop> {
    pass: Mutex<Option<P>>,
}

impl<P: Drop> Handover<P> {
    /// Makes a place without a pass.
    pub(crate) fn new() -> Handover<P> {
        Handover {
            pass: Mutex::new(None),
        }
    }

    /// Hands the pass over.
    pub(crate) fn put<W: Wait>(&self, rt: &W, pass: P) {
        *self.pass.lock(rt) = Some(pass);
    }

    /// Takes the pass over, if there is one.
    pub(crate) fn take<W: Wait>(&self, rt: &W) -> Option<P> {
        self.pass.lock(rt).take()
    }
}
