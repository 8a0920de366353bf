// SPDX-License-Identifier: MIT
//! One round over the history, for several seats at once.

ghost use Rattle.std.specs.Prelude.{ℕ, ◌≡◌, ◌≢◌, ◌<◌, ◌≤◌, ◌+◌, ◌∷◌, ◌++◌, [], List, true, false, length, MatchOption};
ghost use Rattle.po_history.specs.declared.event.Event.{Event as Noted};
ghost use Rattle.po_history.specs.Histories.{joined};
ghost use Rattle.po_engine.specs.declared.ended.Ended.{Ended as EndedCall};
ghost use Rattle.po_receipts.specs.Receipts.{is_asked_by};
ghost use Rattle.po_receipts.specs.Agreement.{AgreeBelow, IsMismatch};
ghost use Rattle.po_receipts.specs.Marks.{AreMarks};

use crate::closed_pass::ClosedPass;
use crate::due::{receipt_of, seat_of};
use crate::mark::{Mark, advanced, first_difference};
use po_core::{Core, Event, Volume};
use po_unit::Unit;

/// How many seats a round has room for.
pub(crate) const SEATS: usize = 1024;

/// A seat, and a place among its receipts.
#[derive(Clone, Copy)]
pub(crate) struct Difference {
    pub seat: usize,
    pub place: usize,
}

/// Goes over the whole history for `seats` seats, beginning with `first`. Returns the lowest of them whose receipts differ from
/// those that are due, with the first place at which they do.
pub(crate) fn difference_in_round<U: Unit>(
    core: &Core<U>,
    passes: &[ClosedPass<U::Value>],
    volumes: &[Volume<U::Value>],
    first: usize,
    seats: usize,
) -> Option<Difference>
    requires few { seats ≤ 1_024 }
    requires seats { first + seats ≤ length passes.now }
    ensures { AgreeBelow core.now.object.state.ended (joined volumes.now ++ core.now.object.events) passes.now first →
        MatchOption result
        (AgreeBelow core.now.object.state.ended (joined volumes.now ++ core.now.object.events) passes.now (first + seats))
        (λ d. IsMismatch core.now.object.state.ended (joined volumes.now ++ core.now.object.events) passes.now d.seat d.place) }
{
    let mut room = [Mark::Follows(0); SEATS];
    difference_by_marks(core, passes, volumes, first, &mut room[..seats])
}

/// Does the same for as many seats as there are marks, whatever the marks were.
fn difference_by_marks<U: Unit>(
    core: &Core<U>,
    passes: &[ClosedPass<U::Value>],
    volumes: &[Volume<U::Value>],
    first: usize,
    marks: &mut [Mark],
) -> Option<Difference>
    requires { first + length marks.old ≤ length passes.now }
    ensures { AgreeBelow core.now.object.state.ended (joined volumes.now ++ core.now.object.events) passes.now first →
        MatchOption result
        (AgreeBelow core.now.object.state.ended (joined volumes.now ++ core.now.object.events) passes.now (first + length marks.old))
        (λ d. IsMismatch core.now.object.state.ended (joined volumes.now ++ core.now.object.events) passes.now d.seat d.place) }
{
    note_history(core, passes, volumes, first, marks);
    lowest_difference(passes, first, marks)
}

/// Marks the seats of a round by the whole history.
fn note_history<U: Unit>(
    core: &Core<U>,
    passes: &[ClosedPass<U::Value>],
    volumes: &[Volume<U::Value>],
    first: usize,
    marks: &mut [Mark],
)
    requires { first + length marks.old ≤ length passes.now }
    ensures { AreMarks core.now.object.state.ended passes.now first (joined volumes.now ++ core.now.object.events) marks.new }
{
    marks.fill(Mark::Follows(0));
    for volume in volumes {
        note_all(core, passes, first, volume.events(), marks);
    }
    note_all(core, passes, first, core.events(), marks);
}

/// Notes events in the marks of a round, in their order.
fn note_all<U: Unit>(
    core: &Core<U>,
    passes: &[ClosedPass<U::Value>],
    first: usize,
    events: &[Event<U::Value>],
    marks: &mut [Mark],
)
    requires { first + length marks.old ≤ length passes.now }
    ensures { (seen : List (Noted U.Value)) →
        AreMarks core.now.object.state.ended passes.now first seen marks.old →
        AreMarks core.now.object.state.ended passes.now first (seen ++ events.now) marks.new }
{
    for event in events {
        note(core, passes, first, *event, marks);
    }
}

/// Notes one event in the marks of a round.
fn note<U: Unit>(
    core: &Core<U>,
    passes: &[ClosedPass<U::Value>],
    first: usize,
    event: Event<U::Value>,
    marks: &mut [Mark],
)
    requires { first + length marks.old ≤ length passes.now }
    ensures { (seen : List (Noted U.Value)) →
        AreMarks core.now.object.state.ended passes.now first seen marks.old →
        AreMarks core.now.object.state.ended passes.now first (seen ++ event ∷ []) marks.new }
{
    let Some(i) = index_in_round(event, first, marks.len()) else {
        return;
    };
    let receipts = passes[first + i].receipts();
    marks[i] = advanced::<U>(marks[i], receipts, receipt_of(core, event));
}

/// Returns which seat of a round asked for the event, counted from the round's first seat, if one did.
fn index_in_round<V: Copy>(event: Event<V>, first: usize, seats: usize) -> Option<usize>
    ensures { MatchOption result
        ((i : ℕ) → i < seats → is_asked_by (first + i) event ≡ false)
        (λ index. (index < seats) × (is_asked_by (first + index) event ≡ true)
        × ((i : ℕ) → i ≢ index → is_asked_by (first + i) event ≡ false)) }
{
    let index = usize::from(seat_of(event)?).checked_sub(first)?;
    if index < seats { Some(index) } else { None }
}

/// Returns the lowest seat of a round whose receipts differ from those that are due, with the first place at which they do.
fn lowest_difference<V: Copy>(
    passes: &[ClosedPass<V>],
    first: usize,
    marks: &[Mark],
) -> Option<Difference>
    requires { first + length marks.now ≤ length passes.now }
    ensures { (ended : List (EndedCall V)) (history : List (Noted V)) →
        AreMarks ended passes.now first history marks.now →
        AgreeBelow ended history passes.now first →
        MatchOption result
        (AgreeBelow ended history passes.now (first + length marks.now))
        (λ d. IsMismatch ended history passes.now d.seat d.place) }
{
    for i in 0..marks.len() {
        let seat = first + i;
        if let Some(place) = first_difference(marks[i], passes[seat].receipts()) {
            return Some(Difference { seat, place });
        }
    }
    None
}
