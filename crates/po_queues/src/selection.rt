// SPDX-License-Identifier: MIT
//! What an examination of the entries finds.

ghost use Rattle.std.specs.Prelude.{◌≡◌};
ghost use Rattle.po_queues.specs.Turns.{tells_nothing};

/// What an examination of the entries finds: which entry is serviced next, if one is (9.5.3).
#[derive(Clone, Copy, Debug, PartialEq, Eq)]
pub enum Selection {
    /// No entry with a queued key is open, and no barrier of such an entry propagates an exception.
    Quiet,
    /// This entry is open, and its first call is served next.
    Ready(u16),
    /// The barrier of this entry propagates an exception, which ends all queued calls.
    Broken(u16),
}

impl Selection {
    /// Returns whether it names no entry.
    pub(crate) fn is_quiet(self) -> bool
        ensures { result ≡ tells_nothing self }
    {
        matches!(self, Selection::Quiet)
    }
}
