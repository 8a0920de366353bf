// SPDX-License-Identifier: MIT
//! A unit in which a waiting call lets others go. In Ada it would be:
//!
//! ```ada
//! protected type Company is
//!    entry Wait (Item : in out Value);
//!    entry Stay (Item : in out Value);
//! end Company;
//!
//! protected body Company is
//!    entry Wait (Item : in out Value) when Stay'Count > 0 is
//!    begin
//!       null;
//!    end Wait;
//!
//!    entry Stay (Item : in out Value) when False is
//!    begin
//!       null;
//!    end Stay;
//! end Company;
//! ```
ghost use Rattle.std.specs.Prelude.{◌≡◌};
ghost use Rattle.test_threads.specs.Companies.{company_meaning};

use crate::scenes::Made;
use po_unit::{Decl, Outcome, Shape, Unit};
use std::alloc::{AllocError, Global};
use std::marker::Model;

/// The entry that opens when a call waits on the other one.
pub(crate) const WAIT: u16 = 0;

/// The entry that never opens.
pub(crate) const STAY: u16 = 1;

/// A single entry in the visible part.
const ENTRY: Decl = Decl {
    public: true,
    family: false,
    low: 0,
    high: 0,
};

/// A unit without data: a call that waits on `Stay` lets the calls on `Wait` go (9.9).
#[derive(Drop)]
pub(crate) struct Company {}

impl Model for Company {
    ghost use Rattle.test_threads.specs.NoData.{NoData};

    ghost Value = { NoData };

    ghost view = { λ s. record {} };
}

impl Unit for Company {
    type Value = u64;

    ghost use Rattle.test_threads.specs.Companies.{company_meaning, company_lawful};

    ghost meaning = { company_meaning };

    fn entries(&self) -> u16 {
        2
    }

    fn procedures(&self) -> u16 {
        0
    }

    fn functions(&self) -> u16 {
        0
    }

    fn barrier(&self, e: u16, counts: &[u64]) -> Result<bool, u32> {
        if e == WAIT {
            Ok(counts[STAY as usize] > 0)
        } else {
            Ok(false)
        }
    }

    fn body(&mut self, _e: u16, v: u64, _counts: &[u64]) -> Outcome<u64> {
        Outcome::Complete(v)
    }

    /// There is no procedure to call, so for any number this does what the meaning says: nothing changes.
    fn procedure(&mut self, _op: u16, v: u64, _counts: &[u64]) -> Result<u64, u32>
        ensures { (self.new, result) ≡ company_meaning.procedure self.old _op v _counts.now }
    {
        Ok(v)
    }

    /// There is no function to call, so for any number this does what the meaning says.
    fn function(&self, _op: u16, v: u64, _counts: &[u64]) -> Result<u64, u32>
        ensures { result ≡ company_meaning.function self.now _op v _counts.now }
    {
        Ok(v)
    }

    fn rank(_e: u16, _v: u64) -> u8 {
        0
    }

    fn copy(&self) -> Result<Company, AllocError> {
        Ok(Company {})
    }

    ghost lawful = { company_lawful };

    ghost use Rattle.std.proofs.Common.{rules};

    ghost equality = { Prim.search rules };
}

/// Makes the unit, on which no one has called.
pub(crate) fn make_company(alloc: Global) -> Result<Made<Company>, AllocError> {
    let shape = Shape::new(alloc, &[ENTRY, ENTRY]).map_err(|_| AllocError)?;
    Ok((Company {}, shape))
}
