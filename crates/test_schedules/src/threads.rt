// SPDX-License-Identifier: MIT
//! Sets of the threads of a scene.

/// The most threads that a scene has, and the most seats.
pub(crate) const MOST: usize = 8;

/// A set of threads, by their numbers.
#[derive(Clone, Copy)]
pub(crate) struct ThreadSet {
    members: [bool; MOST],
}

impl ThreadSet {
    /// Returns the set of no threads.
    pub(crate) fn new() -> ThreadSet {
        ThreadSet {
            members: [false; MOST],
        }
    }

    /// Returns whether the thread is in the set.
    pub(crate) fn has(&self, thread: usize) -> bool {
        self.members.get(thread).copied().unwrap_or(false)
    }

    /// Adds a thread, or takes it out.
    pub(crate) fn put(&mut self, thread: usize, is_member: bool) {
        if let Some(member) = self.members.get_mut(thread) {
            *member = is_member;
        }
    }

    /// Returns whether the set is empty.
    pub(crate) fn is_empty(&self) -> bool {
        self.first_without(&ThreadSet::new()).is_none()
    }

    /// Returns the lowest thread of the set that isn't one of the others.
    pub(crate) fn first_without(&self, others: &ThreadSet) -> Option<usize> {
        (0..MOST).find(|thread| self.has(*thread) && !others.has(*thread))
    }
}
