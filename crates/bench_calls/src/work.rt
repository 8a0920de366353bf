// SPDX-License-Identifier: MIT
//! What the threads of a round do over and over, and what they do it on.

/// What the object that threads call keeps.
#[derive(Clone, Copy)]
pub(crate) enum Kind {
    /// Its history, and the receipts of its passes.
    Recorded,
    /// Nothing: its memory is fixed.
    Bounded,
}

impl Kind {
    /// Returns what precedes the word for the work.
    pub(crate) fn prefix(self) -> &'static str {
        match self {
            Kind::Recorded => "",
            Kind::Bounded => "bounded-",
        }
    }
}

/// What threads do over and over.
#[derive(Clone, Copy)]
pub(crate) enum Work {
    /// Lock and unlock a mutex.
    Mutex,
    /// Put values into a buffer of 4 over a mutex and two condition variables (threads with an even number), or get them (the
    /// others).
    Monitor,
    /// Run a procedure, while no call waits.
    Procedure,
    /// Call a function.
    Function,
    /// Call an entry that is open.
    Entry,
    /// Put values into a buffer of 4 (threads with an even number), or get them (the others).
    Buffer,
    /// Request one, two or three pieces from an allocator of 3, and give them back.
    Allocator,
    /// Wait for all other threads.
    Meeting,
}

/// All kinds of work.
const ALL: [Work; 8] = [
    Work::Mutex,
    Work::Monitor,
    Work::Procedure,
    Work::Function,
    Work::Entry,
    Work::Buffer,
    Work::Allocator,
    Work::Meeting,
];

impl Work {
    /// Returns the word for the work.
    pub(crate) fn name(self) -> &'static str {
        match self {
            Work::Mutex => "mutex",
            Work::Monitor => "monitor",
            Work::Procedure => "procedure",
            Work::Function => "function",
            Work::Entry => "entry",
            Work::Buffer => "buffer",
            Work::Allocator => "allocator",
            Work::Meeting => "meeting",
        }
    }

    /// Returns whether the work is done on a protected object.
    pub(crate) fn needs_object(self) -> bool {
        !matches!(self, Work::Mutex | Work::Monitor)
    }

    /// Returns the work with this word.
    pub(crate) fn named(word: &str) -> Option<Work> {
        for work in ALL {
            if work.name() == word {
                return Some(work);
            }
        }
        None
    }
}

/// What all threads of a round do.
#[derive(Clone, Copy)]
pub(crate) struct Task {
    pub kind: Kind,
    pub work: Work,
    pub threads: u16,
    /// How often each thread does the work.
    pub turns: u64,
}
