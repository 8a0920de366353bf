// SPDX-License-Identifier: MIT
//! Which entry is serviced next. Entries on which keys are queued are examined in the service order (9.5.3).

ghost use Rattle.std.specs.Prelude.{◌≡◌, ◌<◌, ◌≤◌, ◌==◌, drop, length, map};
ghost use Rattle.po_queues.specs.QueuedKeys.{queue_of};
ghost use Rattle.po_queues.specs.Turns.{below, examined, turn, first_selection};
ghost use Rattle.po_queues.specs.Service.{counts_of, barrier_at, turn_at, serviced_next, Tells};
ghost use Rattle.po_queues.specs.Stamps.{first_stamped};

use crate::Queues;
use crate::order::Order;
use crate::selection::Selection;
use crate::stamped::{Stamped, older_of, selection_in};
use po_unit::Unit;

/// Returns which entry is serviced next, if one is (9.5.3). `last` is the entry that servicing served last.
///
/// Only the barriers of entries with a queued key are evaluated, each at most once. A test shows that, since no clause counts
/// calls. Takes no memory.
// Never inlined, so that its caller is small enough to be inlined.
#[inline(never)]
pub fn examine<U: Unit>(unit: &U, queues: &Queues, order: Order, last: Option<u16>) -> Selection
    requires { U.meaning.entries unit.now ≡ queues.now.total }
    ensures next { result ≡ serviced_next U.meaning unit.now queues.now order last }
    ensures tells { Tells U.meaning unit.now queues.now result }
{
    queues.recall_invariant();
    match order {
        Order::Textual => turn_from(unit, queues, 0, queues.total()),
        Order::Oldest => oldest_turn(unit, queues),
        Order::Rotating => rotating_turn(unit, queues, last),
    }
}

/// Returns the turn of the first entry that has one, from the entry after the one last served, around to that one.
fn rotating_turn<U: Unit>(unit: &U, queues: &Queues, last: Option<u16>) -> Selection
    requires { U.meaning.entries unit.now ≡ queues.now.total }
    ensures { result ≡ first_selection (turn_at U.meaning unit.now queues.now)
        (examined Order.Rotating last queues.now.total (map (λ x. x.entry) queues.now.items)) }
{
    let total = queues.total();
    let Some(last) = last else {
        return turn_from(unit, queues, 0, total);
    };
    let start = total.min(last.saturating_add(1));
    let later = turn_from(unit, queues, start, total);
    if !later.is_quiet() {
        return later;
    }
    turn_from(unit, queues, 0, start)
}

/// Returns the turn of the first entry that has one, among the entries from `from` on and below `to`.
fn turn_from<U: Unit>(unit: &U, queues: &Queues, from: u16, to: u16) -> Selection
    requires entries { U.meaning.entries unit.now ≡ queues.now.total }
    requires to { to ≤ queues.now.total }
    ensures { result ≡ first_selection (turn_at U.meaning unit.now queues.now) (drop from (below to)) }
{
    let mut next = from;
    while let Some(entry) = queues.next_busy(next) {
        if entry >= to {
            return Selection::Quiet;
        }
        let selection = turn_of(unit, queues, entry);
        if !selection.is_quiet() {
            return selection;
        }
        next = entry + 1;
    }
    Selection::Quiet
}

/// Returns the turn of the entry whose first key arrived earliest, among the entries that have a turn.
fn oldest_turn<U: Unit>(unit: &U, queues: &Queues) -> Selection
    requires { U.meaning.entries unit.now ≡ queues.now.total }
    ensures { result ≡ first_selection (turn_at U.meaning unit.now queues.now)
        (examined Order.Oldest None queues.now.total (map (λ x. x.entry) queues.now.items)) }
{
    queues.recall_invariant();
    let mut found = None;
    let mut next = 0;
    while let Some(entry) = queues.next_busy(next) {
        found = older_of(found, stamped_turn(unit, queues, entry));
        next = entry + 1;
    }
    selection_in(found)
}

/// Returns the turn of an entry, with the stamp of its first key, if it has a turn.
fn stamped_turn<U: Unit>(unit: &U, queues: &Queues, entry: u16) -> Option<Stamped>
    requires entries { U.meaning.entries unit.now ≡ queues.now.total }
    requires busy { 0 < length (queue_of entry queues.now.items) }
    requires entry { entry < queues.now.total }
    ensures { result ≡ first_stamped (λ e. e == entry) (turn_at U.meaning unit.now queues.now) queues.now.items }
{
    let (_, stamp) = queues.first(entry)?;
    let selection = turn_of(unit, queues, entry);
    if selection.is_quiet() {
        return None;
    }
    Some(Stamped { stamp, selection })
}

/// Returns the turn of an entry on which a key is queued.
#[tactic(auto, using(crate::proofs::TurnLemmas::busy_turn))]
fn turn_of<U: Unit>(unit: &U, queues: &Queues, entry: u16) -> Selection
    requires entries { U.meaning.entries unit.now ≡ queues.now.total }
    requires entry { entry < queues.now.total }
    requires busy { 0 < length (queue_of entry queues.now.items) }
    ensures { result ≡ turn_at U.meaning unit.now queues.now entry }
{
    match unit.barrier(entry, counts_in(queues)) {
        Ok(true) => Selection::Ready(entry),
        Ok(false) => Selection::Quiet,
        Err(_) => Selection::Broken(entry),
    }
}

/// Returns how many keys are queued on each entry, by entry (9.9).
fn counts_in(queues: &Queues) -> &[u64]
    ensures counts { result.now ≡ counts_of queues.now }
    ensures one_each { length result.now ≡ queues.now.total }
{
    queues.counts()
}
