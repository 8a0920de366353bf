// SPDX-License-Identifier: MIT
//! The entry queues of a protected object.

ghost use Rattle.std.specs.Prelude.{◌≡◌, ◌<◌, ◌≤◌, ◌+◌, ◌*◌, ◌↔◌, ℕ, [], ◌∷◌, ◌++◌, length};
ghost use Rattle.std.specs.Prelude.{slice_index, max, false};
ghost use Rattle.std.specs.Prelude.{IfOk, IfSome, IsNone, IsOk, IsTrue, OnOk, OnErr};
ghost use Rattle.std.specs.List.{All};
ghost use Rattle.po_queues.specs.QueuedKeys.{QueuesView, IsSound, queue_of, keys_on, is_queued};
ghost use Rattle.po_queues.specs.QueuedKeys.{first_key, first_of, stamp_of, key_after_in_queue};
ghost use Rattle.po_queues.specs.QueuedKeys.{without_key, without_taken};
ghost use Rattle.po_queues.specs.Busy.{IsNextBusy};
ghost use Rattle.po_queues.specs.Links.{link_of};

use crate::busy::BusyEntries;
use crate::copies::copied;
use crate::link::Link;
use crate::room::grown;
use crate::writes::{replace_if, set_after, set_before, set_first};
use std::alloc::{AllocError, Global};
use std::marker::Model;

/// A queue of keys for each entry, in order of arrival (9.5.3, FIFO_Queuing of D.4).
///
/// A key stands for a call, and is queued on at most one entry. Except for `new`, `copy` and `reserve`, methods take no memory,
/// and their time doesn't depend on how many keys are queued.
#[derive(Debug, Drop)]
pub struct Queues {
    // By key: its link, if it is queued.
    links: Vec<Option<Link>>,
    // By entry: the first key of its queue, the last one, and how many there are.
    firsts: Vec<Option<usize>>,
    lasts: Vec<Option<usize>>,
    counts: Vec<u64>,
    busy: BusyEntries,
    // How many keys are queued.
    queued: usize,
}

impl Model for Queues {
    ghost use Rattle.std.specs.Prelude.{length};
    ghost use Rattle.po_queues.specs.QueuedKeys.{QueuesView};
    ghost use Rattle.po_queues.specs.Arrivals.{KeepsQueues, arrivals};

    ghost Value = { QueuesView };

    ghost view = { λ q. record {
      total = length q.counts.items;
      reserved = length q.links.items;
      items = arrivals q.links.items;
    } };

    ghost invariant = { λ q. KeepsQueues q.links.items q.firsts.items q.lasts.items
        q.counts.items q.busy q.queued };
}

impl Queues {
    /// Makes queues for `total` entries, with no key reserved.
    pub fn new(alloc: Global, total: u16) -> Result<Queues, AllocError>
        ensures { IfOk result (λ q. q ≡ record { total = total; reserved = 0; items = [] }) }
    {
        let entries = usize::from(total);
        Ok(Queues {
            links: Vec::new(alloc),
            firsts: vec![in alloc; None; entries]?,
            lasts: vec![in alloc; None; entries]?,
            counts: vec![in alloc; 0; entries]?,
            busy: BusyEntries::new(alloc, total)?,
            queued: 0,
        })
    }

    /// Makes equal queues, with as many keys reserved. Fails only if memory runs out.
    pub fn copy(&self) -> Result<Queues, AllocError>
        ensures { IfOk result (λ copy. copy ≡ self.now) }
    {
        Ok(Queues {
            links: copied(&self.links)?,
            firsts: copied(&self.firsts)?,
            lasts: copied(&self.lasts)?,
            counts: copied(&self.counts)?,
            busy: self.busy.copy()?,
            queued: self.queued,
        })
    }

    /// Reserves the key and all keys below it, which stay reserved.
    ///
    /// If it isn't yet, the reserve at least doubles, so the cost per call is constant on average. It grows no further than to
    /// twice its size or to what this key needs.
    pub fn reserve(&mut self, key: usize) -> Result<(), AllocError>
        ensures ok { OnOk result (key < self.new.reserved) }
        ensures err { OnErr result (self.new ≡ self.old) }
        ensures had_room { key < self.old.reserved → IsOk result × (self.new ≡ self.old) }
        ensures only_room { self.new ≡ record self.old { reserved = self.new.reserved } }
        ensures grows { self.old.reserved ≤ self.new.reserved }
        ensures doubles { self.old.reserved ≤ key →
            OnOk result (2 * self.old.reserved ≤ self.new.reserved) }
        ensures no_more { self.new.reserved ≤ max (key + 1) (2 * self.old.reserved) }
    {
        let reserved = self.links.len();
        if key < reserved {
            return Ok(());
        }
        self.links.resize(grown(reserved, key)?, None)
    }

    /// Queues the key on the entry, after all that are queued there (9.5.3, D.4).
    ///
    /// `total`, `reserved` and `contains` let the caller check the first three conditions. The caller takes stamps from a count
    /// that only rises, so it knows the last.
    pub fn append(&mut self, entry: u16, key: usize, stamp: u128)
        requires entry { entry < self.old.total }
        requires reserved { key < self.old.reserved }
        requires not_queued { is_queued key self.old.items ≡ false }
        requires rises { All (λ x. x.stamp < stamp) self.old.items }
        ensures { self.new ≡ record self.old {
          items =
              self.old.items ++ record { entry = entry; key = key; stamp = stamp } ∷ [];
        } }
    {
        let index = usize::from(entry);
        let last = self.lasts[index];
        self.links[key] = Some(Link {
            entry,
            stamp,
            before: last,
            after: None,
        });
        set_after(&mut self.links, last, Some(key));
        set_first(&mut self.firsts, last, index, key);
        self.lasts[index] = Some(key);
        self.counts[index] += 1;
        self.busy.mark(entry, true);
        self.queued += 1;
    }

    /// Returns the first key of the entry's queue, with its stamp: the next to be served (D.4).
    pub fn first(&self, entry: u16) -> Option<(usize, u128)>
        requires { entry < self.now.total }
        ensures { result ≡ first_of (queue_of entry self.now.items) }
    {
        let key = self.firsts[usize::from(entry)]?;
        let link = self.link(key)?;
        Some((key, link.stamp))
    }

    /// Returns the key after this one in its queue, if this one is queued and isn't the last.
    pub fn after(&self, key: usize) -> Option<usize>
        ensures { result ≡ key_after_in_queue key self.now.items }
    {
        self.link(key)?.after
    }

    /// Takes out and returns the first key of the entry's queue, if it has one.
    pub fn take_first(&mut self, entry: u16) -> Option<usize>
        requires { entry < self.old.total }
        ensures first { result ≡ first_key (keys_on entry self.old.items) }
        ensures others { self.new
            ≡ record self.old { items = without_taken result self.old.items } }
    {
        let key = self.firsts[usize::from(entry)]?;
        self.remove(key);
        Some(key)
    }

    /// Takes the key out of its queue, and returns whether it was queued.
    pub fn remove(&mut self, key: usize) -> bool
        ensures was_queued { result ≡ is_queued key self.old.items }
        ensures others { self.new ≡ record self.old { items = without_key key self.old.items } }
    {
        let Some(link) = self.link(key) else {
            return false;
        };
        let index = usize::from(link.entry);
        self.links[key] = None;
        set_after(&mut self.links, link.before, link.after);
        set_before(&mut self.links, link.after, link.before);
        replace_if(&mut self.firsts, index, key, link.after);
        replace_if(&mut self.lasts, index, key, link.before);
        let count = self.counts[index] - 1;
        self.counts[index] = count;
        self.busy.mark(link.entry, count > 0);
        self.queued -= 1;
        true
    }

    /// Returns how many keys are queued on the entry: the attribute Count (9.9).
    pub fn count(&self, entry: u16) -> u64
        requires { entry < self.now.total }
        ensures { result ≡ length (queue_of entry self.now.items) }
    {
        self.counts[usize::from(entry)]
    }

    /// Returns how many keys are queued on each entry, by entry (9.9).
    pub fn counts(&self) -> &[u64]
        ensures one_each { length result.now ≡ self.now.total }
        ensures each { (e : ℕ) → e < self.now.total →
            slice_index result.now e ≡ length (queue_of e self.now.items) }
    {
        self.counts.as_slice()
    }

    /// Returns the stamp with which the key was queued, if it is queued.
    pub fn stamp(&self, key: usize) -> Option<u128>
        ensures { result ≡ stamp_of key self.now.items }
    {
        Some(self.link(key)?.stamp)
    }

    /// Returns whether the key is queued on some entry.
    pub fn contains(&self, key: usize) -> bool
        ensures { result ≡ is_queued key self.now.items }
    {
        self.link(key).is_some()
    }

    /// Returns the first entry from this one on that has a queued key.
    ///
    /// Reads one word of bits for the first 64 entries. Then it reads three for all others, and one more for each 4,096 entries that
    /// it passes.
    pub fn next_busy(&self, from: u16) -> Option<u16>
        ensures some { IfSome result (λ e. IsNextBusy self.now from e) }
        ensures none { IsNone result → (e : ℕ) → from ≤ e → queue_of e self.now.items ≡ [] }
    {
        self.busy.next(from)
    }

    /// Returns how many entries there are. The entries are the numbers below it.
    pub fn total(&self) -> u16
        ensures { result ≡ self.now.total }
    {
        self.counts.len() as u16
    }

    /// Returns how many keys are reserved: all keys below this number.
    pub fn reserved(&self) -> usize
        ensures { result ≡ self.now.reserved }
    {
        self.links.len()
    }

    /// Returns whether no key is queued.
    pub fn is_empty(&self) -> bool
        ensures { IsTrue result ↔ (self.now.items ≡ []) }
    {
        self.queued == 0
    }

    /// Brings what all queues keep into the proof. Does nothing at run time.
    pub fn recall_invariant(&self)
        ensures { IsSound self.now }
    {
        // Only for the prover: a field is borrowed so that the invariant is known.
        let _ = &self.queued;
    }

    /// Returns the link of the key, if it is queued.
    fn link(&self, key: usize) -> Option<Link>
        ensures { result ≡ link_of self.now.items key }
    {
        self.links.get(key).copied().flatten()
    }
}
