// SPDX-License-Identifier: MIT
//! A unit that can't be copied, as if there were never memory for it.

use po_classic_units::{ScriptUnit, Signal};
use po_core::{Core, MakeError, Order};
use po_unit::{Outcome, Unit};
use std::alloc::AllocError;
use std::marker::Model;
use std::test::Fail;

/// A unit without data, whose only entry is open, whose operations give back what they are given, and whose copies are
/// refused.
#[derive(Drop)]
struct Uncopied;

impl Model for Uncopied {
    ghost use Rattle.test_layers.specs.Uncopied.{Nothing};

    ghost Value = { Nothing };

    ghost view = { λ s. record {} };
}

impl Unit for Uncopied {
    type Value = u64;

    ghost use Rattle.test_layers.specs.Uncopied.{uncopied_meaning, uncopied_lawful};

    ghost meaning = { uncopied_meaning };

    fn entries(&self) -> u16 {
        1
    }

    fn procedures(&self) -> u16 {
        1
    }

    fn functions(&self) -> u16 {
        1
    }

    fn barrier(&self, _e: u16, _counts: &[u64]) -> Result<bool, u32> {
        Ok(true)
    }

    fn body(&mut self, _e: u16, v: u64, _counts: &[u64]) -> Outcome<u64> {
        Outcome::Complete(v)
    }

    fn procedure(&mut self, _op: u16, v: u64, _counts: &[u64]) -> Result<u64, u32> {
        Ok(v)
    }

    fn function(&self, _op: u16, v: u64, _counts: &[u64]) -> Result<u64, u32> {
        Ok(v)
    }

    fn rank(_e: u16, _v: u64) -> u8 {
        0
    }

    fn copy(&self) -> Result<Uncopied, AllocError> {
        Err(AllocError)
    }

    ghost lawful = { uncopied_lawful };

    ghost use Rattle.std.proofs.Common.{rules};

    ghost equality = { Prim.search rules };
}

#[test]
fn a_copy_that_is_refused_is_want_of_memory(rt: HostRuntime) -> Result<(), Fail> {
    let shape = Signal::new().shape(rt.alloc())?;
    let made = Core::new(rt.alloc(), Uncopied, shape, Order::Textual, 1);
    assert_eq!(rt; made.err(), Some(MakeError::OutOfMemory));
    Ok(())
}
