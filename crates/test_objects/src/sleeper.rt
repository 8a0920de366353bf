// SPDX-License-Identifier: MIT
//! A unit whose function takes as long as it is told to, so that a test can hold the lock of its object.

use po_unit::{Decl, Outcome, Unit};
use std::alloc::AllocError;
use std::marker::Model;
use std::thread;
use std::time::{Clock, Duration};

/// The declaration of the only entry.
pub const DECLARATIONS: [Decl; 1] = [Decl {
    public: true,
    family: false,
    low: 0,
    high: 0,
}];

/// A unit without data. Its function sleeps for as many milliseconds as its value says.
#[derive(Drop)]
pub struct Sleeper<R: Clock> {
    pub rt: R,
}

impl<R: Clock> Model for Sleeper<R> {
    ghost use Rattle.std.specs.Prelude.{⊤};

    ghost Value = { ⊤ };

    ghost view = { λ s. tt };
}

impl<R: Clock + Copy> Unit for Sleeper<R> {
    type Value = u64;

    ghost use Rattle.test_objects.specs.Sleeper.{sleeper_meaning, sleeper_lawful};

    ghost meaning = { sleeper_meaning };

    fn entries(&self) -> u16 {
        1
    }

    fn procedures(&self) -> u16 {
        1
    }

    fn functions(&self) -> u16 {
        1
    }

    fn barrier(&self, _e: u16, _counts: &[u64]) -> Result<bool, u32> {
        Ok(true)
    }

    fn body(&mut self, _e: u16, v: u64, _counts: &[u64]) -> Outcome<u64> {
        Outcome::Complete(v)
    }

    fn procedure(&mut self, _op: u16, v: u64, _counts: &[u64]) -> Result<u64, u32> {
        Ok(v)
    }

    fn function(&self, _op: u16, v: u64, _counts: &[u64]) -> Result<u64, u32> {
        thread::sleep(&self.rt, Duration::from_millis(v));
        Ok(v)
    }

    fn rank(_e: u16, _v: u64) -> u8 {
        0
    }

    fn copy(&self) -> Result<Sleeper<R>, AllocError> {
        Ok(Sleeper { rt: self.rt })
    }

    ghost lawful = { sleeper_lawful };

    ghost use Rattle.std.proofs.Common.{rules};

    ghost equality = { Prim.search rules };
}
