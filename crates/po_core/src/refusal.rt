// SPDX-License-Identifier: MIT
//! Why commands are refused.

ghost use Rattle.std.specs.Prelude.{◌≡◌};
ghost use Rattle.po_core.specs.RefusalNumbers.{refusal_number};
ghost use Rattle.po_core.specs.declared.refusal.Refusal.TheVariants.{OutOfMemory};

use po_unit::IndexError;
use std::alloc::AllocError;
use thiserror::Error;

/// Why a command is refused, in the order in which a call is checked. A refused command changes nothing.
#[derive(Clone, Copy, Debug, PartialEq, Eq, Error)]
pub enum Refusal {
    /// 1: the object has no such entry.
    #[error("the object has no such entry")]
    NoSuchEntry,
    /// 2: the entry is private, so only a requeue can name it (9.4, 9.5.4).
    #[error("the entry is private: only a requeue can name it")]
    PrivateEntry,
    /// 3: a single entry with an index, a family without one, or an index outside the family's range (9.5.2).
    #[error("the index is missing, not allowed, or out of range")]
    BadIndex,
    /// 4: the object has no such procedure or function.
    #[error("the object has no such procedure or function")]
    NoSuchOperation,
    /// 5: no call with this number was issued, or the ticket is of no uncollected call.
    #[error("no call has that number")]
    UnknownCall,
    /// 6: the call has ended.
    #[error("the call has ended")]
    AlreadyEnded,
    /// 7: the object is finalized (9.4).
    #[error("the object is finalized")]
    Finalized,
    /// 8: there is no further number for a call, or no further place for an event.
    #[error("no number is left for a call, or no place for an event")]
    NumbersSpent,
    /// 9: memory ran out. An object that took all its memory when it was made never returns this.
    #[error("out of memory")]
    OutOfMemory,
    /// 10: no call of that seat waits. Only an object behind a lock returns this.
    #[error("no call of that seat is queued")]
    NoCall,
    /// 11: as many calls are uncollected as may be. Only an object that took all its memory when it was made returns this.
    #[error("too many calls")]
    TooManyCalls,
}

impl Refusal {
    /// Returns the number of the refusal, from 1 to 11.
    pub fn number(self) -> u8
        ensures { result ≡ refusal_number self }
    {
        match self {
            Refusal::NoSuchEntry => 1,
            Refusal::PrivateEntry => 2,
            Refusal::BadIndex => 3,
            Refusal::NoSuchOperation => 4,
            Refusal::UnknownCall => 5,
            Refusal::AlreadyEnded => 6,
            Refusal::Finalized => 7,
            Refusal::NumbersSpent => 8,
            Refusal::OutOfMemory => 9,
            Refusal::NoCall => 10,
            Refusal::TooManyCalls => 11,
        }
    }
}

impl From<AllocError> for Refusal {
    ghost use Rattle.std.specs.Prelude.{◌≡◌};

    ghost from_gives = { λ _ refusal. refusal ≡ OutOfMemory };

    fn from(_error: AllocError) -> Refusal {
        Refusal::OutOfMemory
    }
}

impl From<IndexError> for Refusal {
    ghost use Rattle.std.specs.Prelude.{◌≡◌};
    ghost use Rattle.po_core.specs.RefusalNumbers.{refusal_of};

    ghost from_gives = { λ fault refusal. refusal ≡ refusal_of fault };

    fn from(fault: IndexError) -> Refusal {
        match fault {
            IndexError::NoSuchEntry => Refusal::NoSuchEntry,
            _ => Refusal::BadIndex,
        }
    }
}
