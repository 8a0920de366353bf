// SPDX-License-Identifier: MIT
//! The calls that expire, and the clock.

ghost use Rattle.std.specs.Prelude.{◌≡◌, ◌<◌, ◌≤◌, ◌+◌, ◌-◌, ◌*◌, ◌++◌, [], ℕ, length, replicate, slice_set, max};
ghost use Rattle.std.specs.Prelude.{false, is_some, None, Some, option_map, IfOk, IfSome, IsNone, IsOk, OnOk, OnErr};
ghost use Rattle.po_queues.specs.Arrived.{has_come};
ghost use Rattle.po_queues.specs.Expiring.{IsFirstDue, call_of, expiration_of};

use crate::copies::copied;
use crate::expiration::Expiration;
use crate::minima::Minima;
use crate::room::grown;
use std::alloc::{AllocError, Global};
use std::marker::Model;

/// The waiting calls that may be cancelled when their time comes, and the clock (9.7.2).
///
/// A key stands for a call. Times and the clock count the same unit, from the same start. Except for `new`, `copy` and
/// `reserve`, no method takes memory. The time that each takes grows with the logarithm of how many keys are reserved. That of
/// `rise` also grows with how many calls' times come, that of `copy` with how many keys are reserved.
#[derive(Debug, Drop)]
pub struct Expirations {
    // By key: how its call expires, if it does.
    calls: Vec<Option<Expiration>>,
    // By key: the time of its call, if that hasn't come.
    later: Minima,
    // By key: the stamp of its call, if the call's time has come.
    due: Minima,
    clock: u64,
}

impl Model for Expirations {
    ghost use Rattle.po_queues.specs.Expiring.{ExpirationsView};
    ghost use Rattle.po_queues.specs.Timed.{KeepsExpirations};

    ghost Value = { ExpirationsView };

    ghost view = { λ e. record { clock = e.clock; calls = e.calls.items } };

    ghost invariant = { λ e. KeepsExpirations e.calls.items e.later e.due e.clock };
}

impl Expirations {
    /// Makes expirations with no key reserved, and the clock at 0.
    pub fn new(alloc: Global) -> Expirations
        ensures { result ≡ record { clock = 0; calls = [] } }
    {
        Expirations {
            calls: Vec::new(alloc),
            later: Minima::new(alloc),
            due: Minima::new(alloc),
            clock: 0,
        }
    }

    /// Makes equal expirations, with as many keys reserved. Fails only if memory runs out.
    pub fn copy(&self) -> Result<Expirations, AllocError>
        ensures { IfOk result (λ copy. copy ≡ self.now) }
    {
        Ok(Expirations {
            calls: copied(&self.calls)?,
            later: self.later.copy()?,
            due: self.due.copy()?,
            clock: self.clock,
        })
    }

    /// Reserves the key and all keys below it, which stay reserved.
    ///
    /// If it isn't yet, the reserve at least doubles, so the cost per call is constant on average. It grows no further than to
    /// twice its size or to what this key needs.
    pub fn reserve(&mut self, key: usize) -> Result<(), AllocError>
        ensures ok { OnOk result (key < length self.new.calls) }
        ensures err { OnErr result (self.new ≡ self.old) }
        ensures had_room { key < length self.old.calls → IsOk result × (self.new ≡ self.old) }
        ensures only_room { self.new ≡ record self.old {
          calls = self.old.calls ++ replicate (length self.new.calls - length self.old.calls) None;
        } }
        ensures grows { length self.old.calls ≤ length self.new.calls }
        ensures doubles { length self.old.calls ≤ key →
            OnOk result (2 * length self.old.calls ≤ length self.new.calls) }
        ensures no_more { length self.new.calls ≤ max (key + 1) (2 * length self.old.calls) }
    {
        let reserved = self.calls.len();
        if key < reserved {
            return Ok(());
        }
        let more = grown(reserved, key)?;
        self.later.grow(more)?;
        self.due.grow(more)?;
        self.calls.resize(more, None)
    }

    /// Adds the call of the key, which expires at this time (9.7.2).
    ///
    /// The caller itself knows which keys it has reserved and added.
    pub fn append(&mut self, key: usize, stamp: u128, time: u64)
        requires reserved { key < length self.old.calls }
        requires not_there { call_of self.old.calls key ≡ None }
        ensures { self.new ≡ record self.old {
          calls = slice_set self.old.calls key (Some (record { time = time; stamp = stamp }));
        } }
    {
        self.calls[key] = Some(Expiration { time, stamp });
        if time <= self.clock {
            self.due.set(key, Some(stamp));
        } else {
            self.later.set(key, Some(u128::from(time)));
        }
    }

    /// Takes out the call of the key, and returns whether it was there.
    // Inlined, so that a call that never expires costs no more than a look.
    #[inline(always)]
    pub fn remove(&mut self, key: usize) -> bool
        ensures was_there { result ≡ is_some (call_of self.old.calls key) }
        ensures others { self.new ≡ record self.old { calls = slice_set self.old.calls key None } }
    {
        let Some(call) = call_at(&self.calls, key) else {
            return false;
        };
        self.take_out(key, call);
        true
    }

    /// Takes out the call of the key, which expires in this way.
    fn take_out(&mut self, key: usize, call: Expiration)
        requires { call_of self.old.calls key ≡ Some call }
        ensures { self.new ≡ record self.old { calls = slice_set self.old.calls key None } }
    {
        self.calls[key] = None;
        if call.time <= self.clock {
            self.due.set(key, None);
        } else {
            self.later.set(key, None);
        }
    }

    /// Returns the key of the call that arrived first of those whose time has come, if there is one (9.7.2).
    pub fn first_due(&self) -> Option<usize>
        ensures found { IfSome result (λ key. IsFirstDue self.now key) }
        ensures none { IsNone result →
            (key : ℕ) → has_come self.now.clock (expiration_of self.now.calls key) ≡ false }
    {
        self.due.least()
    }

    /// Sets the clock to this time, if that is later.
    pub fn rise(&mut self, time: u64)
        ensures { self.new ≡ record self.old { clock = max self.old.clock time } }
    {
        let clock = self.clock.max(time);
        while let Some(key) = self.later.least_within(u128::from(clock)) {
            self.later.set(key, None);
            self.due.set(key, stamp_at(&self.calls, key));
        }
        self.clock = clock;
    }

    /// Returns the latest time that has come.
    pub fn clock(&self) -> u64
        ensures { result ≡ self.now.clock }
    {
        self.clock
    }
}

/// Returns how the call of the key expires, if it does.
fn call_at(calls: &Vec<Option<Expiration>>, key: usize) -> Option<Expiration>
    ensures { result ≡ call_of calls.now.items key }
{
    calls.get(key).copied().flatten()
}

/// Returns the stamp of the key's call, if it expires.
fn stamp_at(calls: &Vec<Option<Expiration>>, key: usize) -> Option<u128>
    ensures { result ≡ option_map (λ x. x.stamp) (call_of calls.now.items key) }
{
    Some(call_at(calls, key)?.stamp)
}
