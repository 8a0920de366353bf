// SPDX-License-Identifier: MIT
//! A turn, with the stamp of the arrival that it comes from.

ghost use Rattle.std.specs.Prelude.{◌≡◌};
ghost use Rattle.po_queues.specs.Stamps.{older, selection_of};

use crate::selection::Selection;

/// The turn of an entry, with the stamp of the entry's first key.
#[derive(Clone, Copy, Debug)]
pub(crate) struct Stamped {
    pub(crate) stamp: u128,
    pub(crate) selection: Selection,
}

/// Returns the one with the lower stamp, or the only one that there is.
pub(crate) fn older_of(found: Option<Stamped>, other: Option<Stamped>) -> Option<Stamped>
    ensures { result ≡ older found other }
{
    match (found, other) {
        (None, _) => other,
        (Some(a), Some(b)) if b.stamp < a.stamp => other,
        _ => found,
    }
}

/// Returns the turn, or `Quiet` if there is none.
pub(crate) fn selection_in(found: Option<Stamped>) -> Selection
    ensures { result ≡ selection_of found }
{
    match found {
        None => Selection::Quiet,
        Some(turn) => turn.selection,
    }
}
