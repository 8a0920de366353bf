// SPDX-License-Identifier: MIT
//! The allocator.
//!
//! ```ada
//! Refused : exception; -- its message is a number
//!
//! protected type Allocator (Size : Positive) is
//!    entry Request (Item : in out Value);
//!    entry Claim (Item : in out Value);
//!    procedure Release (Item : in out Value);
//!    function State return Value;
//! private
//!    entry Grant (1 .. Size) (Item : in out Value);
//!    Free : Value := Value (Size);
//! end Allocator;
//!
//! protected body Allocator is
//!    entry Request (Item : in out Value) when True is
//!    begin
//!       if Item = 0 or else Item > Value (Size) then
//!          raise Refused with "2";
//!       end if;
//!       requeue Grant (Positive (Item)) with abort;
//!    end Request;
//!
//!    entry Claim (Item : in out Value) when True is
//!    begin
//!       if Item = 0 or else Item > Value (Size) then
//!          raise Refused with "2";
//!       end if;
//!       requeue Grant (Positive (Item));
//!    end Claim;
//!
//!    entry Grant (for I in 1 .. Size) (Item : in out Value) when Free >= Value (I) is
//!    begin
//!       Free := Free - Value (I);
//!    end Grant;
//!
//!    procedure Release (Item : in out Value) is
//!    begin
//!       if Item = 0 or else Item > Value (Size) - Free then
//!          raise Refused with "1";
//!       end if;
//!       Free := Free + Item;
//!    end Release;
//!
//!    function State return Value is (Free);
//! end Allocator;
//! ```
ghost use Rattle.std.specs.Prelude.{◌≡◌, ◌≢◌, ◌≤◌, ◌↔◌, IfOk, IsTrue};
ghost use Rattle.po_classic_units.specs.Sizes.{IsSize};
ghost use Rattle.po_classic_units.specs.Allocator.{IsNewAllocator, allocator_meaning};

use crate::declarations::PUBLIC_ENTRY;
use crate::script_unit::{ScriptUnit, UnitNames};
use po_unit::{Decl, Outcome, Shape, ShapeError, Unit};
use std::alloc::{AllocError, Global};
use std::marker::Model;

/// The number of the entry `Request`.
const REQUEST: u16 = 0;

/// The number of the entry `Claim`. The members of the family `Grant (1 .. Size)` follow it.
const CLAIM: u16 = 1;

/// The number of the exception if a `Release` would give back more than is taken, or nothing.
const NOT_TAKEN: u32 = 1;

/// The number of the exception if a call asks for more than there ever is, or for nothing.
const NEVER_GIVEN: u32 = 2;

const ENTRY_NAMES: [&str; 3] = ["Request", "Claim", "Grant"];

const PROCEDURE_NAMES: [&str; 1] = ["Release"];

const FUNCTION_NAMES: [&str; 1] = ["State"];

/// A resource with `size` items, for calls that take several at once. `Request` and `Claim` requeue on the private entry
/// `Grant` of the number that they ask for, with abort and without (9.5.4), and `Release` gives them back.
#[derive(Debug, Drop)]
pub struct Allocator {
    size: u16,
    free: u16,
}

impl Model for Allocator {
    ghost use Rattle.po_classic_units.specs.Allocator.{AllocatorState, KeepsWithin};

    ghost Value = { AllocatorState };

    ghost view = { λ a. record { size = a.size; free = a.free } };

    ghost invariant = { λ a. KeepsWithin (record { size = a.size; free = a.free }) };
}

const _: () = prove!(Allocator::MAX_SIZE == 1_024);

impl Allocator {
    ghost use Rattle.po_classic_units.specs.Allocator.{IsNewAllocator, new_allocator, ask};

    /// The greatest size.
    pub const MAX_SIZE: u16 = 1_024;

    /// Returns an allocator of this size, with all of the resource free.
    pub fn new(size: u16) -> Allocator
        requires { IsSize size }
        ensures { result ≡ new_allocator size }
    {
        Allocator { size, free: size }
    }

    /// Returns whether the state is one that `new` makes: all are free, and the size is from 1 to 1,024.
    pub fn is_new(&self) -> bool
        ensures { IsTrue result ↔ IsNewAllocator self.now }
    {
        self.free == self.size
    }

    /// Returns how the body of a call that asks for `v` ends: with a requeue on `Grant (v)`, if there ever are that many.
    fn ask(&self, with_abort: bool, v: u64) -> Outcome<u64>
        ensures { result ≡ ask self.now with_abort v }
    {
        if v == 0 || v > u64::from(self.size) {
            return Outcome::Raise(NEVER_GIVEN);
        }
        Outcome::Requeue {
            target: CLAIM + v as u16,
            with_abort,
            value: v,
        }
    }
}

impl Unit for Allocator {
    type Value = u64;

    ghost use Rattle.po_classic_units.specs.Allocator.{allocator_meaning, allocator_lawful};

    ghost meaning = { allocator_meaning };

    fn entries(&self) -> u16 {
        self.size + 2
    }

    fn procedures(&self) -> u16 {
        1
    }

    fn functions(&self) -> u16 {
        1
    }

    fn barrier(&self, e: u16, _counts: &[u64]) -> Result<bool, u32> {
        Ok(match e {
            REQUEST | CLAIM => true,
            _ => self.free >= e - CLAIM,
        })
    }

    fn body(&mut self, e: u16, v: u64, _counts: &[u64]) -> Outcome<u64> {
        match e {
            REQUEST => return self.ask(true, v),
            CLAIM => return self.ask(false, v),
            _ if self.free >= e - CLAIM => self.free -= e - CLAIM,
            _ => {}
        }
        Outcome::Complete(v)
    }

    fn procedure(&mut self, _op: u16, v: u64, _counts: &[u64]) -> Result<u64, u32> {
        if v == 0 || v > u64::from(self.size - self.free) {
            return Err(NOT_TAKEN);
        }
        self.free += v as u16;
        Ok(v)
    }

    fn function(&self, _op: u16, _v: u64, _counts: &[u64]) -> Result<u64, u32> {
        Ok(u64::from(self.free))
    }

    fn rank(e: u16, _v: u64) -> u8 {
        u8::from(e <= CLAIM)
    }

    fn copy(&self) -> Result<Allocator, AllocError> {
        Ok(Allocator {
            size: self.size,
            free: self.free,
        })
    }

    ghost lawful = { allocator_lawful };

    ghost use Rattle.std.proofs.Common.{rules};

    ghost equality = { Prim.search rules };
}

impl ScriptUnit for Allocator {
    ghost use Rattle.po_classic_units.specs.Allocator.{allocator_unit};

    ghost known = { allocator_unit };

    fn names() -> UnitNames {
        UnitNames {
            unit: "allocator",
            is_sized: true,
            entries: &ENTRY_NAMES,
            procedures: &PROCEDURE_NAMES,
            functions: &FUNCTION_NAMES,
        }
    }

    fn made(_alloc: Global, size: u16) -> Result<Allocator, AllocError> {
        Ok(Allocator::new(size))
    }

    fn shape(&self, alloc: Global) -> Result<Shape, ShapeError> {
        let grant = Decl {
            public: false,
            family: true,
            low: 1,
            high: i32::from(self.size),
        };
        Shape::new(alloc, &[PUBLIC_ENTRY, PUBLIC_ENTRY, grant])
    }
}
