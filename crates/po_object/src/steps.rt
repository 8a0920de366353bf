// SPDX-License-Identifier: MIT
//! What a thread does to an object that other threads can notice, and what is asked before each such step.

/// A step that other threads can notice.
#[derive(Clone, Copy, PartialEq, Eq, Debug)]
pub enum SharedStep {
    /// The thread tries to take the lock for a change, and goes on if another thread has it.
    TryChange,
    /// The thread takes the lock for a change.
    Change,
    /// The thread releases the lock after a change.
    Changed,
    /// The thread tries to take the lock for a look, and goes on if another thread has it for a change.
    TryLook,
    /// The thread takes the lock for a look.
    Look,
    /// The thread releases the lock after a look.
    Looked,
    /// The thread reads or writes the flag of the seat.
    Flag(u16),
    /// The thread sleeps at the seat.
    Sleep(u16),
    /// The thread wakes the caller that sleeps at the seat.
    Wake(u16),
}

/// What is asked before each step: in use nothing, in a test something that lets the threads go on in an order of its own.
pub trait Hook: Drop {
    /// How often a thread tries to take the lock before it queues for it.
    const TRIES: u32;

    /// How often a caller looks for the end of its call before it sleeps.
    const LOOKS: u32;

    /// Says that the calling thread takes this step next.
    fn reach(&self, step: SharedStep);

    /// Returns whether the caller of the seat is to sleep, which it is about to do. False makes the sleep return at once, like
    /// a spurious wake-up. Tests use this.
    fn sleeps(&self, seat: u16) -> bool;
}

/// The steps of an object that asks nothing.
#[derive(Clone, Copy, Drop)]
pub struct NoHook;

impl Hook for NoHook {
    /// While a thread is queued, no other gets the lock by trying, so queueing slows down all threads.
    const TRIES: u32 = 64;

    /// Sleeping and waking costs much more than looking.
    const LOOKS: u32 = 100;

    #[inline(always)]
    fn reach(&self, _step: SharedStep) {}

    #[inline(always)]
    fn sleeps(&self, _seat: u16) -> bool {
        true
    }
}

/// A value that reports to `Hook` when it is dropped, just before the lock is released.
pub struct Leaving<'a, S: Hook> {
    steps: &'a S,
    step: SharedStep,
}

impl<S: Hook> Drop for Leaving<'_, S> {
    fn drop(self) {
        self.steps.reach(self.step);
        let Leaving { steps: _, step: _ } = self;
    }
}

/// A guard that reports to `Hook` just before it releases the lock.
#[derive(Drop)]
pub struct Taken<'a, G, S: Hook> {
    leaving: Leaving<'a, S>,
    /// The guard.
    pub locked: G,
}

impl<'a, G, S: Hook> Taken<'a, G, S> {
    /// Returns the guard, with the step at which it releases the lock.
    pub fn new(locked: G, steps: &'a S, step: SharedStep) -> Taken<'a, G, S> {
        Taken {
            leaving: Leaving { steps, step },
            locked,
        }
    }
}
