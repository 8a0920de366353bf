// SPDX-License-Identifier: MIT
//! How far the receipts of a seat agree with the events so far.

ghost use Rattle.std.specs.Prelude.{◌≡◌, ◌↔◌, ◌∷◌, ◌++◌, [], true, map, slice_get, List, Option, Some, MatchOption};
ghost use Rattle.po_receipts.specs.declared.receipt.Receipt.{Receipt as Filed};
ghost use Rattle.po_receipts.specs.Agreement.{IsFirstDifference};
ghost use Rattle.po_receipts.specs.Marks.{IsMark};

use crate::due::is_due;
use crate::receipt::Receipt;
use po_unit::Unit;

/// How far the receipts of a seat agree with the events so far.
#[derive(Clone, Copy)]
pub(crate) enum Mark {
    /// That many receipts are those of the events so far.
    Follows(usize),
    /// The receipts first differ at this place.
    Differs(usize),
}

/// Returns whether the receipt at this place is the one that is due.
fn is_next<U: Unit>(
    receipts: &[Receipt<U::Value>],
    place: usize,
    due: Option<Receipt<U::Value>>,
) -> bool
    ensures { (result ≡ true) ↔ (slice_get (map Some receipts.now) place ≡ Some due) }
{
    match receipts.get(place) {
        Some(receipt) => is_due::<U>(due, *receipt),
        None => false,
    }
}

/// Returns the mark after one more event of the seat, for which this receipt is due.
pub(crate) fn advanced<U: Unit>(
    mark: Mark,
    receipts: &[Receipt<U::Value>],
    due: Option<Receipt<U::Value>>,
) -> Mark
    ensures { (before : List (Option (Filed U.Value))) → IsMark (map Some receipts.now) before mark →
        IsMark (map Some receipts.now) (before ++ due ∷ []) result }
{
    match mark {
        Mark::Differs(place) => Mark::Differs(place),
        Mark::Follows(place) if is_next::<U>(receipts, place, due) => Mark::Follows(place + 1),
        Mark::Follows(place) => Mark::Differs(place),
    }
}

/// Returns the first place at which the receipts differ from what is due after all events.
pub(crate) fn first_difference<V: Copy>(mark: Mark, receipts: &[Receipt<V>]) -> Option<usize>
    ensures { (due : List (Option (Filed V))) → IsMark (map Some receipts.now) due mark →
        MatchOption result
        (map Some receipts.now ≡ due)
        (λ place. IsFirstDifference (map Some receipts.now) due place) }
{
    match mark {
        Mark::Differs(place) => Some(place),
        Mark::Follows(place) if place < receipts.len() => Some(place),
        Mark::Follows(_) => None,
    }
}
