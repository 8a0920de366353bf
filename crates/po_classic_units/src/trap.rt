// SPDX-License-Identifier: MIT
//! The trap.
//!
//! ```ada
//! Fault   : exception; -- its message is a number
//! Failure : exception; -- its message is a number
//!
//! protected type Trap is
//!    entry Wait (1 .. 3) (Item : in out Value);
//!    entry Fail (Item : in out Value);
//!    entry Exact (Item : in out Value);
//!    procedure Set (Item : in out Value);
//!    function State return Value;
//! private
//!    Level : Value := 0;
//! end Trap;
//!
//! protected body Trap is
//!    entry Wait (for I in 1 .. 3) (Item : in out Value)
//!      when (if Level = 13 then raise Fault with "13" else Level >= Value (I)) is
//!    begin
//!       null;
//!    end Wait;
//!
//!    entry Fail (Item : in out Value) when True is
//!    begin
//!       Level := Item;
//!       raise Failure with Value'Image (Value'Min (Item, 4_294_967_295));
//!    end Fail;
//!
//!    entry Exact (Item : in out Value) when Level > 0 and then Exact'Count = Level is
//!    begin
//!       null;
//!    end Exact;
//!
//!    procedure Set (Item : in out Value) is
//!    begin
//!       Level := Item;
//!    end Set;
//!
//!    function State return Value is (Level);
//! end Trap;
//! ```
ghost use Rattle.std.specs.Prelude.{◌≡◌, ◌≢◌, IfOk};

use crate::declarations::PUBLIC_ENTRY;
use crate::script_unit::{ScriptUnit, UnitNames};
use po_unit::{Decl, Outcome, Shape, ShapeError, Unit};
use std::alloc::{AllocError, Global};
use std::marker::Model;

/// The number of the entry `Fail`. The members of the family `Wait (1 .. 3)` come before it.
const FAIL: u16 = 3;

/// The number of the entry `Exact`.
const EXACT: u16 = 4;

/// The level at which the barriers of `Wait` propagate an exception.
const FAULT_LEVEL: u64 = 13;

/// The number of that exception.
const FAULT: u32 = 13;

/// The family `Wait (1 .. 3)`.
const WAIT: Decl = Decl {
    public: true,
    family: true,
    low: 1,
    high: 3,
};

const DECLARATIONS: [Decl; 3] = [WAIT, PUBLIC_ENTRY, PUBLIC_ENTRY];

const ENTRY_NAMES: [&str; 3] = ["Wait", "Fail", "Exact"];

const PROCEDURE_NAMES: [&str; 1] = ["Set"];

const FUNCTION_NAMES: [&str; 1] = ["State"];

/// A level, and entries that go wrong: barriers that propagate an exception at one level (9.5.3), a body that raises one
/// (9.5.2), and a barrier that reads how many calls are queued on its entry (9.9).
#[derive(Debug, Drop)]
pub struct Trap {
    level: u64,
}

impl Model for Trap {
    ghost use Rattle.po_classic_units.specs.Trap.{TrapState};

    ghost Value = { TrapState };

    ghost view = { λ t. record { level = t.level } };
}

impl Trap {
    ghost use Rattle.po_classic_units.specs.Trap.{new_trap};

    /// Returns a trap at the level 0.
    pub fn new() -> Trap
        ensures { result ≡ new_trap }
    {
        Trap { level: 0 }
    }
}

impl Unit for Trap {
    type Value = u64;

    ghost use Rattle.po_classic_units.specs.Trap.{trap_meaning, trap_lawful};

    ghost meaning = { trap_meaning };

    fn entries(&self) -> u16 {
        5
    }

    fn procedures(&self) -> u16 {
        1
    }

    fn functions(&self) -> u16 {
        1
    }

    fn barrier(&self, e: u16, counts: &[u64]) -> Result<bool, u32> {
        match e {
            0..FAIL if self.level == FAULT_LEVEL => Err(FAULT),
            0..FAIL => Ok(self.level >= u64::from(e) + 1),
            FAIL => Ok(true),
            _ => Ok(self.level > 0 && counts[EXACT as usize] == self.level),
        }
    }

    fn body(&mut self, e: u16, v: u64, _counts: &[u64]) -> Outcome<u64> {
        if e != FAIL {
            return Outcome::Complete(v);
        }
        self.level = v;
        Outcome::Raise(v.min(u64::from(u32::MAX)) as u32)
    }

    fn procedure(&mut self, _op: u16, v: u64, _counts: &[u64]) -> Result<u64, u32> {
        self.level = v;
        Ok(v)
    }

    fn function(&self, _op: u16, _v: u64, _counts: &[u64]) -> Result<u64, u32> {
        Ok(self.level)
    }

    fn rank(_e: u16, _v: u64) -> u8 {
        0
    }

    fn copy(&self) -> Result<Trap, AllocError> {
        Ok(Trap { level: self.level })
    }

    ghost lawful = { trap_lawful };

    ghost use Rattle.std.proofs.Common.{rules};

    ghost equality = { Prim.search rules };
}

impl ScriptUnit for Trap {
    ghost use Rattle.po_classic_units.specs.Trap.{trap_unit};

    ghost known = { trap_unit };

    fn names() -> UnitNames {
        UnitNames {
            unit: "trap",
            is_sized: false,
            entries: &ENTRY_NAMES,
            procedures: &PROCEDURE_NAMES,
            functions: &FUNCTION_NAMES,
        }
    }

    fn made(_alloc: Global, _size: u16) -> Result<Trap, AllocError> {
        Ok(Trap::new())
    }

    fn shape(&self, alloc: Global) -> Result<Shape, ShapeError> {
        Shape::new(alloc, &DECLARATIONS)
    }
}
