// SPDX-License-Identifier: MIT
//! A log that only grows. It takes no memory, and its methods do nothing at run time.

ghost use Rattle.std.specs.Prelude.{◌≡◌, ◌≢◌, ◌≤◌, ℕ, List, [], ◌∷◌, ◌++◌, length};
ghost use mathlib.Core.List.{IsPrefix};
ghost use base.Stored.{coded_list};
ghost use Rattle.po_log.specs.Owned.{keeper_owns, seen_owns};

use std::marker::{Model, PhantomData};
use std::snapshot::Snapshot;

/// The list that a value shows as what has happened to it so far. Only clauses read it.
pub trait Shows<X, T> {
    ghost list: { X → List T };
}

/// The keeper of a log: `items` is the whole log, and `name` distinguishes it from every other log.
///
/// Each name has one keeper, so nobody else adds to the log. By itself a log says nothing about a program, since it may hold
/// any items. It gets its meaning from what the invariant of the type that has the keeper says about `items`.
pub struct Keeper<T> {
    of: PhantomData<T>,
    pub ghost name: { ℕ },
    pub ghost items: { List T } by { coded_list T.code },
}

impl<T> Model for Keeper<T> {
    ghost also_owns = { λ k. keeper_owns T.row.coded.code k.name k.items };
}

/// What was seen of the log of that name: `items` is a beginning of the log, and stays one.
///
/// It comes from the keeper, by `show`, or from another `Seen`, by `again`. Whoever has it knows what the log begins with, and
/// needs neither the keeper nor its lock for that.
pub struct Seen<T> {
    of: PhantomData<T>,
    pub ghost name: { ℕ },
    pub ghost items: { List T } by { coded_list T.code },
}

impl<T> Model for Seen<T> {
    ghost use denote.Sharing.{said};
    ghost use Rattle.po_log.specs.Owned.{seen_owns};

    ghost also_owns = { λ s. seen_owns T.row.coded.code s.name s.items };

    ghost also_shares = { λ s _ κ. said (seen_owns T.row.coded.code s.name s.items) κ };
}

impl<T> Keeper<T> {
    /// Makes a new log, with no items. No other keeper has its name: `apart` proves that.
    pub fn open() -> Keeper<T>
        ensures { result.items ≡ [] }
    {
        Keeper { of: PhantomData }
    }

    /// Adds an item at the end of the log. The log keeps its name.
    pub fn note(&mut self, last: &T)
        ensures added { self.new.items ≡ self.old.items ++ last.now ∷ [] }
        ensures same_log { self.new.name ≡ self.old.name }
    {}

    /// Extends the log to the list that a value shows. The log has to be a beginning of that list. It keeps its name.
    pub fn reach<X, M: Shows<X, T>>(&mut self, now: &X)
        requires goes_on { IsPrefix self.old.items (M.list now.now) }
        ensures reached { self.new.items ≡ M.list now.now }
        ensures same_log { self.new.name ≡ self.old.name }
    {}

    /// Adds to the log what the list that a value shows has gained at its end from `before` to `now`. That list need not be the
    /// log. The log keeps its name.
    pub fn follow<X, M: Shows<X, T>>(&mut self, before: &Snapshot<X>, now: &X)
        requires goes_on { IsPrefix (M.list before.now.value) (M.list now.now) }
        ensures followed { (more : List T)
            × (M.list before.now.value ++ more ≡ M.list now.now)
            × (self.new.items ≡ self.old.items ++ more) }
        ensures same_log { self.new.name ≡ self.old.name }
    {}

    /// Returns the whole log as it is now, for others to have. The log stays as it was.
    pub fn show(&mut self) -> Seen<T>
        ensures whole { result.items ≡ self.old.items }
        ensures same_log { result.name ≡ self.old.name }
        ensures unchanged { self.new ≡ self.old }
    {
        Seen { of: PhantomData }
    }

    /// Proves that two keepers have different names, whatever their logs hold. Both logs stay as they were.
    pub fn apart<X>(&mut self, other: &mut Keeper<X>)
        ensures two_names { self.old.name ≢ other.old.name }
        ensures unchanged { self.new ≡ self.old }
        ensures other_unchanged { other.new ≡ other.old }
    {}

    /// Proves that whatever was seen of this log, at any time, is a beginning of it. The log stays as it was.
    pub fn recall(&mut self, seen: &Seen<T>)
        requires same_log { seen.now.name ≡ self.old.name }
        ensures beginning { IsPrefix seen.now.items self.old.items }
        ensures unchanged { self.new ≡ self.old }
    {}
}

impl<T> Seen<T> {
    /// Returns the same once more, for somebody else to have.
    pub fn again(&self) -> Seen<T>
        ensures { result ≡ self.now }
    {
        Seen { of: PhantomData }
    }

    /// Compares two that were seen of one log: if this one is no longer than the other, it is a beginning of the other.
    pub fn meet(&self, other: &Seen<T>)
        requires same_log { other.now.name ≡ self.now.name }
        ensures beginning { length self.now.items ≤ length other.now.items → IsPrefix self.now.items other.now.items }
    {}
}

impl<T> Drop for Keeper<T> {
    fn drop(self) {
        let Self { of: _ } = self;
    }
}

impl<T> Drop for Seen<T> {
    fn drop(self) {
        let Self { of: _ } = self;
    }
}

// What they own is about the log alone, and holds in every thread.
unsafe impl<T> Send for Keeper<T> {}

unsafe impl<T> Sync for Keeper<T> {}

unsafe impl<T> Send for Seen<T> {}

unsafe impl<T> Sync for Seen<T> {}
