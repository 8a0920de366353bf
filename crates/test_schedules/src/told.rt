// SPDX-License-Identifier: MIT
//! The answers to a thread of a scene.

use po_core::End;
use std::alloc::{AllocError, Global};

/// An answer of the object to a thread.
#[derive(Clone, Copy, PartialEq, Eq)]
pub(crate) enum Answer {
    /// How its call ended.
    Ended(End<u64>),
    /// What its procedure replied.
    Replied(Result<u64, u32>),
    /// Nothing.
    Nothing,
}

/// All answers to a thread, in order, and how often memory ran out.
#[derive(Drop)]
pub(crate) struct Told {
    pub(crate) answers: Vec<Answer>,
    /// How often memory ran out and the pass was as before.
    pub(crate) refusals: usize,
}

impl Told {
    /// Makes an empty list of answers, with room for some.
    pub(crate) fn new(alloc: Global) -> Result<Told, AllocError> {
        let mut answers = Vec::new(alloc);
        answers.reserve(4)?;
        Ok(Told {
            answers,
            refusals: 0,
        })
    }

    /// Notes an answer.
    pub(crate) fn note(&mut self, answer: Answer) {
        let _noted = self.answers.push(answer);
    }

    /// Notes that memory ran out, and whether the pass is as before.
    pub(crate) fn note_refusal(&mut self, is_same: bool) {
        if is_same {
            self.refusals = self.refusals.saturating_add(1);
        }
    }
}
