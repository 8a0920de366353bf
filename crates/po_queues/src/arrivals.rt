// SPDX-License-Identifier: MIT
//! Keys in order of arrival.

ghost use Rattle.std.specs.Prelude.{◌≡◌, ◌<◌, ◌≤◌, ◌+◌, ◌*◌, ◌++◌, [], ◌∷◌, length};
ghost use Rattle.std.specs.Prelude.{max, true, false, IfOk, IsOk, OnOk, OnErr};
ghost use Rattle.po_queues.specs.QueuedKeys.{occurs, first_key, key_after, without};

use crate::chain::Chain;
use crate::copies::copied;
use crate::neighbours::{ALONE, Neighbours};
use crate::room::grown;
use std::alloc::{AllocError, Global};
use std::marker::Model;

/// Keys in order of arrival, each with its neighbours.
///
/// Except for `new`, `copy` and `reserve`, methods take no memory, and their time doesn't depend on how many keys there are.
#[derive(Debug, Drop)]
pub(crate) struct Arrivals {
    chain: Chain,
}

impl Model for Arrivals {
    ghost use Rattle.std.specs.Prelude.{length};
    ghost use Rattle.po_queues.specs.InOrder.{ArrivalsView, HoldsOrder, keys_in_order};

    ghost Value = { ArrivalsView };

    ghost view = { λ a. record {
      reserved = length a.chain.neighbours.items;
      keys = keys_in_order a.chain.neighbours.items a.chain.first;
    } };

    ghost invariant = { λ a. HoldsOrder a.chain.neighbours.items a.chain.first a.chain.last
        (keys_in_order a.chain.neighbours.items a.chain.first) };
}

impl Arrivals {
    /// Makes an order with no key, and none reserved.
    pub(crate) fn new(alloc: Global) -> Arrivals
        ensures { result ≡ record { reserved = 0; keys = [] } }
    {
        Arrivals {
            chain: Chain {
                neighbours: Vec::new(alloc),
                first: None,
                last: None,
            },
        }
    }

    /// Makes an equal order, with as many keys reserved.
    pub(crate) fn copy(&self) -> Result<Arrivals, AllocError>
        ensures { IfOk result (λ copy. copy ≡ self.now) }
    {
        let neighbours = copied(&self.chain.neighbours)?;
        let chain = Chain {
            neighbours,
            first: self.chain.first,
            last: self.chain.last,
        };
        Ok(Arrivals { chain })
    }

    /// Reserves the key and all keys below it, which stay reserved.
    ///
    /// If it isn't yet, the reserve at least doubles, so the cost per call is constant on average. It grows no further than to
    /// twice its size or to what this key needs.
    pub(crate) fn reserve(&mut self, key: usize) -> Result<(), AllocError>
        ensures ok { OnOk result (key < self.new.reserved) }
        ensures err { OnErr result (self.new ≡ self.old) }
        ensures had_room { key < self.old.reserved → IsOk result × (self.new ≡ self.old) }
        ensures only_room { self.new ≡ record self.old { reserved = self.new.reserved } }
        ensures grows { self.old.reserved ≤ self.new.reserved }
        ensures doubles { self.old.reserved ≤ key →
            OnOk result (2 * self.old.reserved ≤ self.new.reserved) }
        ensures no_more { self.new.reserved ≤ max (key + 1) (2 * self.old.reserved) }
    {
        let reserved = self.chain.neighbours.len();
        if key < reserved {
            return Ok(());
        }
        let more = grown(reserved, key)?;
        self.chain.neighbours.resize(more, ALONE)
    }

    /// Adds the key after all others.
    pub(crate) fn append(&mut self, key: usize)
        requires reserved { key < self.old.reserved }
        requires not_there { occurs key self.old.keys ≡ false }
        ensures { self.new ≡ record self.old { keys = self.old.keys ++ key ∷ [] } }
    {
        let last = self.chain.last;
        self.chain.join(last, Some(key));
        self.chain.last = Some(key);
    }

    /// Takes out the key, which has arrived.
    pub(crate) fn remove(&mut self, key: usize)
        requires { occurs key self.old.keys ≡ true }
        ensures { self.new ≡ record self.old { keys = without key self.old.keys } }
    {
        let Neighbours { before, after } = self.chain.neighbours[key];
        self.chain.neighbours[key] = ALONE;
        self.chain.join(before, after);
    }

    /// Returns the key that arrived first.
    pub(crate) fn first(&self) -> Option<usize>
        ensures { result ≡ first_key self.now.keys }
    {
        self.chain.first
    }

    /// Returns the key that arrived next after this one, if this one has arrived and isn't the last.
    pub(crate) fn after(&self, key: usize) -> Option<usize>
        ensures { result ≡ key_after key self.now.keys }
    {
        self.chain.neighbours.get(key)?.after
    }
}
