// SPDX-License-Identifier: MIT
//! A row of optional numbers, whose least is known at once.

ghost use Rattle.std.specs.Prelude.{◌≡◌, ◌≢◌, ◌<◌, ◌≤◌, ◌+◌, ◌-◌, ◌*◌, ◌/◌, ◌++◌, ℕ, [], length, take, replicate};
ghost use Rattle.std.specs.Prelude.{None, slice_set, IfOk, IfSome, IsNone, OnOk, OnErr};
ghost use Rattle.po_queues.specs.Least.{number_of, lesser, IsLeastAt, IsMinimum, KeepsMinima};

use crate::copies::copied;
use std::alloc::{AllocError, Global};
use std::marker::Model;

/// A number, or none, for each key: a tournament that the least number wins.
///
/// A change takes time that grows with the logarithm of how many keys there are, and so does finding the key of the least
/// number. Whether that number is at most some bound is known at once. Except for `grow` and `copy`, no method takes memory.
#[derive(Debug, Drop)]
pub(crate) struct Minima {
    // The leaves, by key, and after them the nodes above. Node `leaves + m` is the lesser of nodes `2 * m` and `2 * m + 1`, so
    // the last one is the least of all.
    nodes: Vec<Option<u128>>,
    leaves: usize,
}

impl Model for Minima {
    ghost use Rattle.std.specs.Prelude.{List, Option, ℕ, take};
    ghost use Rattle.po_queues.specs.Least.{KeepsMinima};

    ghost Value = { List (Option ℕ) };

    ghost view = { λ m. take m.leaves m.nodes.items };

    ghost invariant = { λ m. KeepsMinima m.leaves m.nodes.items };
}

impl Minima {
    /// Makes a row with no key.
    pub(crate) fn new(alloc: Global) -> Minima
        ensures { result ≡ [] }
    {
        Minima {
            nodes: Vec::new(alloc),
            leaves: 0,
        }
    }

    /// Makes an equal row.
    pub(crate) fn copy(&self) -> Result<Minima, AllocError>
        ensures { IfOk result (λ copy. copy ≡ self.now) }
    {
        let nodes = copied(&self.nodes)?;
        Ok(Minima {
            nodes,
            leaves: self.leaves,
        })
    }

    /// Makes room for `keys` keys, if there are fewer. The new ones have no number.
    pub(crate) fn grow(&mut self, keys: usize) -> Result<(), AllocError>
        ensures ok { OnOk result (self.new
            ≡ self.old ++ replicate (keys - length self.old) None) }
        ensures err { OnErr result (self.new ≡ self.old) }
    {
        if keys <= self.leaves {
            return Ok(());
        }
        let total = keys.checked_mul(2).ok_or(AllocError)?;
        let mut nodes = Vec::new(*self.nodes.allocator());
        nodes.extend_from_slice(&self.nodes[..self.leaves])?;
        nodes.resize(total - 1, None)?;
        settle(&mut nodes, keys);
        self.nodes = nodes;
        self.leaves = keys;
        Ok(())
    }

    /// Gives the key this number, or none.
    pub(crate) fn set(&mut self, key: usize, number: Option<u128>)
        requires { key < length self.old }
        ensures { self.new ≡ slice_set self.old key number }
    {
        self.nodes[key] = number;
        settle_above(&mut self.nodes, self.leaves, key);
    }

    /// Returns a key that has the least number, if any key has one.
    pub(crate) fn least(&self) -> Option<usize>
        ensures some { IfSome result (λ key. IsLeastAt self.now key) }
        ensures none { IsNone result → (key : ℕ) → number_of self.now key ≡ None }
    {
        // Returns `None` if there is no key, or if no key has a number: then the root, the last node, has none.
        let _least = (*self.nodes.last()?)?;
        Some(least_leaf(&self.nodes, self.leaves))
    }

    /// Returns a key that has the least number, if that is at most this limit.
    pub(crate) fn least_within(&self, limit: u128) -> Option<usize>
        ensures some { IfSome result (λ key. IsLeastAt self.now key) }
        ensures within { IfSome result (λ key. IfSome (number_of self.now key) (λ n. n ≤ limit)) }
        ensures none { IsNone result → (key : ℕ) → IfSome (number_of self.now key) (λ n. limit < n) }
    {
        let least = (*self.nodes.last()?)?;
        if least > limit {
            return None;
        }
        Some(least_leaf(&self.nodes, self.leaves))
    }
}

/// Returns the lesser of two numbers, or the only one that there is.
fn lesser_of(a: Option<u128>, b: Option<u128>) -> Option<u128>
    ensures { result ≡ lesser a b }
{
    match (a, b) {
        (Some(x), Some(y)) => Some(x.min(y)),
        _ => a.or(b),
    }
}

/// Makes each node above the leaves the lesser of its children.
fn settle(nodes: &mut Vec<Option<u128>>, leaves: usize)
    requires some { 0 < leaves }
    requires len { length nodes.old.items ≡ 2 * leaves - 1 }
    ensures keeps { KeepsMinima leaves nodes.new.items }
    ensures row { take leaves nodes.new.items ≡ take leaves nodes.old.items }
{
    for above in 0..leaves - 1 {
        nodes[leaves + above] = lesser_of(nodes[2 * above], nodes[2 * above + 1]);
    }
}

/// Makes each node above this one the lesser of its children. Only the next node above may not be so already.
///
/// It ends at the first node that stays as it is.
fn settle_above(nodes: &mut Vec<Option<u128>>, leaves: usize, changed: usize)
    requires node { changed < length nodes.old.items }
    requires len { length nodes.old.items ≡ 2 * leaves - 1 }
    requires minima { (m : ℕ) → m + 1 < leaves → m ≢ changed / 2 →
        IsMinimum leaves nodes.old.items m }
    ensures keeps { KeepsMinima leaves nodes.new.items }
    ensures row { take leaves nodes.new.items ≡ take leaves nodes.old.items }
{
    let mut at = changed;
    while at < nodes.len() - 1 {
        let above = at / 2;
        let least = lesser_of(nodes[2 * above], nodes[2 * above + 1]);
        at = leaves + above;
        if nodes[at] == least {
            return;
        }
        nodes[at] = least;
    }
}

/// Returns a leaf that has the number of the root.
fn least_leaf(nodes: &Vec<Option<u128>>, leaves: usize) -> usize
    requires some { 0 < leaves }
    requires keeps { KeepsMinima leaves nodes.now.items }
    ensures leaf { result < leaves }
    ensures least { number_of nodes.now.items result
        ≡ number_of nodes.now.items (2 * leaves - 2) }
{
    let mut at = nodes.len() - 1;
    while at >= leaves {
        let child = 2 * (at - leaves);
        at = if nodes[child] == nodes[at] {
            child
        } else {
            child + 1
        };
    }
    at
}
