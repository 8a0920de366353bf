// SPDX-License-Identifier: MIT
//! The entry queues of an object, seen as one list of queued keys in order of arrival.

ghost use Rattle.std.specs.Prelude.{◌≡◌, ◌<◌, ◌≤◌, ◌∷◌, ◌++◌, [], length, slice_index, false, max, ℕ};
ghost use Rattle.std.specs.Prelude.{◌+◌, IfOk, IsOk, IfSome, IfNone, OnOk, OnErr};
ghost use Rattle.std.specs.List.{All};
ghost use Rattle.po_queues.specs.QueuedKeys.{occurs, first_key, key_after, keys_on, queue_of, stamp_of};
ghost use Rattle.po_queues.specs.Arrived.{AreInOrder, all_queued, arrived_keys, first_due, without_arrived};

use crate::arrivals::Arrivals;
use crate::expirations::Expirations;
use crate::queues::Queues;
use std::alloc::{AllocError, Global};
use std::marker::Model;

/// The entry queues of a protected object (9.5.3, FIFO_Queuing of D.4). Keys stand for calls. They are kept by entry, in order
/// of arrival over all entries, and by the times at which their calls expire, if they do (9.7.2).
///
/// Except for `new`, `copy` and `reserve`, no method takes memory.
#[derive(Debug, Drop)]
pub struct EntryQueues {
    /// The queue of each entry.
    by_entry: Queues,
    /// All queued keys, in order of arrival.
    arrivals: Arrivals,
    /// The keys whose calls expire, with their times.
    expirations: Expirations,
    /// How many keys are reserved in each of the three.
    reserved: usize,
}

impl Model for EntryQueues {
    ghost use Rattle.po_queues.specs.Arrived.{EntryQueuesView};
    ghost use Rattle.po_queues.specs.Lines.{with_expirations, KeepsLines};

    ghost Value = { EntryQueuesView };

    ghost view = { λ q. record {
      total = q.by_entry.total;
      reserved = q.reserved;
      clock = q.expirations.clock;
      items = with_expirations q.expirations.calls q.by_entry.items;
    } };

    ghost invariant = { λ q. KeepsLines q.reserved q.by_entry q.arrivals q.expirations };
}

impl EntryQueues {
    /// Makes queues for `total` entries, with no key reserved, at clock 0.
    pub fn new(alloc: Global, total: u16) -> Result<EntryQueues, AllocError>
        ensures { IfOk result (λ q. q ≡ record { total = total; reserved = 0; clock = 0; items = [] }) }
    {
        Ok(EntryQueues {
            by_entry: Queues::new(alloc, total)?,
            arrivals: Arrivals::new(alloc),
            expirations: Expirations::new(alloc),
            reserved: 0,
        })
    }

    /// Makes equal queues, with as many keys reserved. Fails only if memory runs out.
    pub fn copy(&self) -> Result<EntryQueues, AllocError>
        ensures { IfOk result (λ copy. copy ≡ self.now) }
    {
        Ok(EntryQueues {
            by_entry: self.by_entry.copy()?,
            arrivals: self.arrivals.copy()?,
            expirations: self.expirations.copy()?,
            reserved: self.reserved,
        })
    }

    /// Reserves the key and all keys below it, which stay reserved.
    ///
    /// Takes the memory that `reserve` takes in each of the three lists. Their clauses say how much; no clause here does.
    pub fn reserve(&mut self, key: usize) -> Result<(), AllocError>
        ensures ok { OnOk result (key < self.new.reserved) }
        ensures err { OnErr result (self.new ≡ self.old) }
        ensures had_room { key < self.old.reserved → IsOk result × (self.new ≡ self.old) }
        ensures only_room { self.new ≡ record self.old { reserved = self.new.reserved } }
        ensures grows { self.old.reserved ≤ self.new.reserved }
        ensures no_more { self.new.reserved ≤ max (key + 1) self.old.reserved }
    {
        if key < self.reserved {
            return Ok(());
        }
        let reserved = key.checked_add(1).ok_or(AllocError)?;
        self.by_entry.reserve(key)?;
        self.arrivals.reserve(key)?;
        self.expirations.reserve(key)?;
        self.reserved = reserved;
        Ok(())
    }

    /// Queues the key on the entry, after all that are queued there (9.5.3, D.4). Its call expires at this time, if there is
    /// one (9.7.2).
    ///
    /// The entries are those of `counts`. `reserved` and `contains` let the caller check whether the key may be queued. The
    /// caller takes stamps from a count that only rises, so it knows that this one is above all others.
    pub fn append(&mut self, entry: u16, key: usize, stamp: u128, expires: Option<u64>)
        requires entry { entry < self.old.total }
        requires reserved { key < self.old.reserved }
        requires not_queued { occurs key (arrived_keys self.old.items) ≡ false }
        requires rises { All (λ x. x.stamp < stamp) self.old.items }
        ensures { self.new ≡ record self.old {
          items = self.old.items
              ++ record { entry = entry; key = key; stamp = stamp; expires = expires } ∷ [];
        } }
    {
        self.by_entry.append(entry, key, stamp);
        self.arrivals.append(key);
        if let Some(time) = expires {
            self.expirations.append(key, stamp, time);
        }
    }

    /// Takes the key out of its queue, and returns whether it was queued.
    pub fn remove(&mut self, key: usize) -> bool
        ensures was_queued { result ≡ occurs key (arrived_keys self.old.items) }
        ensures others { self.new ≡ record self.old { items = without_arrived key self.old.items } }
    {
        if !self.by_entry.remove(key) {
            return false;
        }
        self.arrivals.remove(key);
        self.expirations.remove(key);
        true
    }

    /// Takes out and returns the first key of the entry's queue, if it has one: the next to be served (D.4).
    pub fn take_first(&mut self, entry: u16) -> Option<usize>
        requires { entry < self.old.total }
        ensures first { result ≡ first_key (keys_on entry (all_queued self.old.items)) }
        ensures others { IfSome result (λ key. self.new
            ≡ record self.old { items = without_arrived key self.old.items }) }
        ensures none { IfNone result (self.new ≡ self.old) }
    {
        let key = self.by_entry.take_first(entry)?;
        self.arrivals.remove(key);
        self.expirations.remove(key);
        Some(key)
    }

    /// Returns the key that was queued first, of all that are queued.
    pub fn oldest(&self) -> Option<usize>
        ensures { result ≡ first_key (arrived_keys self.now.items) }
    {
        self.arrivals.first()
    }

    /// Returns the key that was queued next after this one, on any entry.
    pub fn next(&self, key: usize) -> Option<usize>
        ensures { result ≡ key_after key (arrived_keys self.now.items) }
    {
        self.arrivals.after(key)
    }

    /// Returns how many keys are reserved: all keys below this number.
    pub fn reserved(&self) -> usize
        ensures { result ≡ self.now.reserved }
    {
        self.reserved
    }

    /// Returns the stamp with which the key was queued, if it is queued.
    pub fn stamp(&self, key: usize) -> Option<u128>
        ensures { result ≡ stamp_of key (all_queued self.now.items) }
    {
        self.by_entry.stamp(key)
    }

    /// Returns whether the key is queued on some entry.
    pub fn contains(&self, key: usize) -> bool
        ensures { result ≡ occurs key (arrived_keys self.now.items) }
    {
        self.by_entry.contains(key)
    }

    /// Returns how many keys are queued on the entry: the attribute Count (9.9).
    pub fn count(&self, entry: u16) -> u64
        requires { entry < self.now.total }
        ensures { result ≡ length (queue_of entry (all_queued self.now.items)) }
    {
        self.by_entry.count(entry)
    }

    /// Returns how many keys are queued on each entry, by entry (9.9).
    pub fn counts(&self) -> &[u64]
        ensures one_each { length result.now ≡ self.now.total }
        ensures each { (e : ℕ) → e < self.now.total →
            slice_index result.now e ≡ length (queue_of e (all_queued self.now.items)) }
    {
        self.by_entry.counts()
    }

    /// Returns the queue of each entry.
    pub fn by_entry(&self) -> &Queues
        ensures items { result.now.items ≡ all_queued self.now.items }
        ensures total { result.now.total ≡ self.now.total }
    {
        &self.by_entry
    }

    /// Returns the first key, in order of arrival, whose call has expired by now (9.7.2).
    pub fn first_due(&self) -> Option<usize>
        ensures found { result ≡ first_due self.now }
    {
        self.by_entry.recall_invariant();
        self.expirations.first_due()
    }

    /// Sets the clock to this time, if that is later.
    pub fn rise(&mut self, time: u64)
        ensures { self.new ≡ record self.old { clock = max self.old.clock time } }
    {
        self.expirations.rise(time);
    }

    /// Returns the clock.
    pub fn clock(&self) -> u64
        ensures { result ≡ self.now.clock }
    {
        self.expirations.clock()
    }

    /// Brings what all entry queues keep into the proof. Does nothing at run time.
    pub fn recall_invariant(&self)
        ensures { AreInOrder self.now }
    {
        self.by_entry.recall_invariant();
    }
}
