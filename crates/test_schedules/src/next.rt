// SPDX-License-Identifier: MIT
//! What a thread does next.

use po_object::steps::SharedStep;

/// What a thread does next.
#[derive(Clone, Copy)]
pub(crate) enum Next {
    /// It begins.
    Begin,
    /// It takes a step of the object.
    Take(SharedStep),
    /// It hands its pass over.
    HandOver,
    /// It takes over the pass that another thread hands over.
    TakeOver,
    /// It has nothing more to do.
    Nothing,
}

/// What a thread reads or changes.
#[derive(Clone, Copy, PartialEq, Eq)]
enum Touched {
    /// Nothing.
    Nothing,
    /// The lock.
    Lock,
    /// The lock, for a look: for others that take it for a look, nothing changes.
    LockForLook,
    /// The flag of a seat.
    Flag(u16),
    /// The token of a seat, which says that its caller needn't sleep.
    Token(u16),
    /// The pass that is handed over.
    Pass,
}

/// Returns what the step reads or changes.
fn touched_by_step(step: SharedStep) -> Touched {
    match step {
        SharedStep::TryChange | SharedStep::Change | SharedStep::Changed | SharedStep::Looked =>
            Touched::Lock,
        SharedStep::TryLook | SharedStep::Look => Touched::LockForLook,
        SharedStep::Flag(seat) => Touched::Flag(seat),
        SharedStep::Sleep(seat) | SharedStep::Wake(seat) => Touched::Token(seat),
    }
}

/// Returns what a thread reads or changes next.
fn touched_by(next: Next) -> Touched {
    match next {
        Next::Take(step) => touched_by_step(step),
        Next::HandOver | Next::TakeOver => Touched::Pass,
        Next::Begin | Next::Nothing => Touched::Nothing,
    }
}

impl Next {
    /// Returns whether it makes no difference which of two threads does first what it does next.
    pub(crate) fn is_apart(self, other: Next) -> bool {
        match (touched_by(self), touched_by(other)) {
            (Touched::Nothing, _) | (_, Touched::Nothing) => true,
            (Touched::LockForLook, Touched::LockForLook) => true,
            (Touched::Lock | Touched::LockForLook, Touched::Lock | Touched::LockForLook) => false,
            (one, another) => one != another,
        }
    }
}
