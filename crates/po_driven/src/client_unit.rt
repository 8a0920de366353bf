// SPDX-License-Identifier: MIT
//! The unit of an object whose client has its data, barriers and bodies: only the number of entries is known here.

use po_unit::{Outcome, Unit};
use std::alloc::AllocError;
use std::marker::Model;

/// The unit of an object whose client has its data, barriers and bodies. A call's value is what the client knows its caller by.
#[derive(Drop)]
pub struct ClientUnit {
    total: u16,
}

impl Model for ClientUnit {
    ghost use Rattle.std.specs.Prelude.{ℕ};

    ghost Value = { ℕ };

    ghost view = { λ b. b.total };
}

impl ClientUnit {
    /// Makes the unit of an object with `total` entries.
    pub fn new(total: u16) -> ClientUnit
        ensures { result ≡ total }
    {
        ClientUnit { total }
    }
}

ghost use Rattle.std.specs.Prelude.{◌≡◌};

impl Unit for ClientUnit {
    type Value = u64;

    ghost use Rattle.po_driven.specs.Unknown.{unknown, unknown_lawful};

    ghost meaning = { unknown };

    fn entries(&self) -> u16 {
        self.total
    }

    fn procedures(&self) -> u16 {
        self.total
    }

    fn functions(&self) -> u16 {
        self.total
    }

    fn barrier(&self, _e: u16, _counts: &[u64]) -> Result<bool, u32> {
        Ok(false)
    }

    fn body(&mut self, _e: u16, v: u64, _counts: &[u64]) -> Outcome<u64> {
        Outcome::Complete(v)
    }

    fn procedure(&mut self, _op: u16, v: u64, _counts: &[u64]) -> Result<u64, u32> {
        Ok(v)
    }

    fn function(&self, _op: u16, v: u64, _counts: &[u64]) -> Result<u64, u32> {
        Ok(v)
    }

    fn rank(_e: u16, _v: u64) -> u8 {
        0
    }

    fn copy(&self) -> Result<ClientUnit, AllocError> {
        Ok(ClientUnit { total: self.total })
    }

    ghost lawful = { unknown_lawful };

    ghost use Rattle.std.proofs.Common.{rules};

    ghost equality = { Prim.search rules };
}
