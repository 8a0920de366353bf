// SPDX-License-Identifier: MIT
//! The log of an object's history, which is kept behind its lock, and how far callers have seen it.

ghost use Rattle.std.specs.Prelude.{◌≡◌, ◌+◌, ◌≤◌, ◌++◌, ◌⊎◌, List, [], length, true, false};
ghost use mathlib.Core.List.{IsPrefix};
ghost use Rattle.po_history.specs.declared.event.Event.{Event};
ghost use Rattle.po_core.specs.View.{next_place};

use crate::ledgers::CallLedger;
use po_core::{Core, Event, Record};
use po_log::{Keeper, Seen, Shows};
use po_unit::Unit;
use std::marker::{Model, PhantomData};
use std::snapshot::Snapshot;

/// How far a caller has seen the history of an object. Contracts see it as the events seen, from the opening on.
///
/// An answer comes after these events, and from then on the front has seen it too. Each pass has a front. At run time it keeps
/// only how many events there are.
#[derive(Drop)]
pub struct Front<V: Copy, C: CallLedger<V>> {
    seen: Seen<Event<V>>,
    events: u128,
    of: PhantomData<C>,
}

impl<V: Copy, C: CallLedger<V>> Model for Front<V, C> {
    ghost use Rattle.std.specs.Prelude.{◌≡◌, List, length};
    ghost use Rattle.po_history.specs.declared.event.Event.{Event};

    ghost Value = { List (Event V) };

    ghost view = { λ f. f.seen.items };

    ghost invariant = { λ f. (f.seen.name ≡ C.log) × (f.events ≡ length f.seen.items) };
}

impl<V: Copy, C: CallLedger<V>> Front<V, C> {
    /// Returns a copy, for another caller.
    pub fn again(&self) -> Front<V, C>
        ensures { result ≡ self.now }
    {
        Front {
            seen: self.seen.again(),
            events: self.events,
            of: PhantomData,
        }
    }

    /// Sees what the other front has seen too. If two fronts have seen one object, what one has seen is a beginning of what the
    /// other has.
    pub fn see(&mut self, other: &Front<V, C>)
        ensures own { IsPrefix self.old self.new }
        ensures other { IsPrefix other.now self.new }
        ensures alone { (self.new ≡ self.old) ⊎ (self.new ≡ other.now) }
    {
        if !self.go_to(other) {
            other.seen.meet(&self.seen);
        }
    }

    /// Sees what the other front has seen, unless this front has seen more. Returns whether it does.
    pub(crate) fn go_to(&mut self, other: &Front<V, C>) -> bool
        ensures later { result ≡ true → IsPrefix self.old other.now }
        ensures seen { result ≡ true → self.new ≡ other.now }
        ensures left { result ≡ false → self.new ≡ self.old }
        // This front has seen more.
        ensures more { result ≡ false → length other.now + 1 ≤ length self.old }
    {
        if self.events > other.events {
            return false;
        }
        self.seen.meet(&other.seen);
        *self = other.again();
        true
    }

    /// Proves that if two fronts have seen one object, what one has seen is a beginning of what the other has.
    pub fn meet(&self, other: &Front<V, C>)
        ensures { IsPrefix self.now other.now ⊎ IsPrefix other.now self.now }
    {
        self.seen.meet(&other.seen);
        other.seen.meet(&self.seen);
    }

    /// Returns what was seen, without the object.
    pub(crate) fn into_seen(self) -> Seen<Event<V>>
        ensures { result.items ≡ self }
    {
        let Front {
            seen,
            events: _events,
            of: _of,
        } = self;
        seen
    }
}

/// The events of a core since its history was last cut.
struct CoreEvents;

impl<U: Unit, R: Record<U>> Shows<Core<U, R>, Event<U::Value>> for CoreEvents {
    ghost list = { λ core. core.object.events };
}

/// The log of an object's history, from the opening on, to which nothing else adds events. Contracts see it as its events.
#[derive(Drop)]
pub(crate) struct Log<V: Copy, C: CallLedger<V>> {
    keeper: Keeper<Event<V>>,
    shown: Front<V, C>,
}

impl<V: Copy, C: CallLedger<V>> Model for Log<V, C> {
    ghost use Rattle.std.specs.Prelude.{◌≡◌, List};
    ghost use Rattle.po_history.specs.declared.event.Event.{Event};

    ghost Value = { List (Event V) };

    ghost view = { λ l. l.keeper.items };

    ghost invariant = { λ l. (l.keeper.name ≡ C.log) × (l.shown ≡ l.keeper.items) };
}

impl<V: Copy, C: CallLedger<V>> Log<V, C> {
    /// Opens the log with this keeper, which has no events yet.
    pub(crate) fn open(mut keeper: Keeper<Event<V>>) -> Log<V, C>
        requires { (keeper.name ≡ C.log) × (keeper.items ≡ []) }
        ensures { result ≡ [] }
    {
        let seen = keeper.show();
        Log {
            keeper,
            shown: Front {
                seen,
                events: 0,
                of: PhantomData,
            },
        }
    }

    /// Returns all of the log as it is now, for others to keep.
    pub(crate) fn show(&self) -> Front<V, C>
        ensures { result ≡ self.now }
    {
        self.shown.again()
    }

    /// Proves that what the front has seen is a beginning of the log.
    pub(crate) fn recall(&mut self, front: &Front<V, C>)
        ensures beginning { IsPrefix front.now self.old }
        ensures same { self.new ≡ self.old }
    {
        self.keeper.recall(&front.seen);
    }

    /// Returns what was seen of the log, which is all of it, without the object.
    pub(crate) fn into_seen(self) -> Seen<Event<V>>
        ensures { result.items ≡ self }
    {
        let Log {
            keeper: _keeper,
            shown,
        } = self;
        shown.into_seen()
    }

    /// Lets the front see all of the log. What the front had seen is a beginning of it.
    pub(crate) fn show_to(&mut self, front: &mut Front<V, C>)
        ensures later { IsPrefix front.old self.old }
        ensures all { front.new ≡ self.old }
        ensures same { self.new ≡ self.old }
    {
        self.keeper.recall(&front.seen);
        *front = self.shown.again();
    }

    /// Lets the front see all of the log, with shared access only, and returns whether it does. No front has seen more than the
    /// log, but only mutable access can prove that, as `show_to` does.
    pub(crate) fn show_beside(&self, front: &mut Front<V, C>) -> bool
        ensures later { result ≡ true → IsPrefix front.old self.now }
        ensures all { result ≡ true → front.new ≡ self.now }
        ensures left { result ≡ false → front.new ≡ front.old }
        ensures more { result ≡ false → length self.now + 1 ≤ length front.old }
    {
        front.go_to(&self.shown)
    }
}

/// Adds to the log the events that the core has gained, and lets the front see all of it.
pub(crate) fn go_on<U: Unit, C: CallLedger<U::Value>, R: Record<U>>(
    log: &mut Log<U::Value, C>,
    front: &mut Front<U::Value, C>,
    before: &Snapshot<Core<U, R>>,
    core: &Core<U, R>,
)
    requires goes_on { IsPrefix before.now.value.object.events core.now.object.events }
    // The log had all events before the next place.
    requires placed { length log.old + core.now.object.setup.first_place + length core.now.object.events
        ≡ next_place core.now.object + length before.now.value.object.events }
    ensures later { IsPrefix front.old log.old }
    ensures followed { (more : List (Event U.Value))
        × (before.now.value.object.events ++ more ≡ core.now.object.events)
        × (log.new ≡ log.old ++ more) }
    ensures all { front.new ≡ log.new }
{
    log.keeper.recall(&front.seen);
    log.keeper.follow::<Core<U, R>, CoreEvents>(before, core);
    log.shown = Front {
        seen: log.keeper.show(),
        events: core.place() - u128::from(core.first_place()),
        of: PhantomData,
    };
    *front = log.shown.again();
}
