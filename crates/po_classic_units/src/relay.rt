// SPDX-License-Identifier: MIT
//! The relay.
//!
//! ```ada
//! protected type Relay is
//!    entry First (Item : in out Value);
//!    procedure Set (Item : in out Value);
//!    function State return Value;
//! private
//!    entry Second (Item : in out Value);
//!    entry Third (Item : in out Value);
//!    Level : Value := 0;
//! end Relay;
//!
//! protected body Relay is
//!    entry First (Item : in out Value) when True is
//!    begin
//!       requeue Second;
//!    end First;
//!
//!    entry Second (Item : in out Value) when Level >= 1 is
//!    begin
//!       requeue Third with abort;
//!    end Second;
//!
//!    entry Third (Item : in out Value) when Level >= 2 is
//!    begin
//!       null;
//!    end Third;
//!
//!    procedure Set (Item : in out Value) is
//!    begin
//!       Level := Item;
//!    end Set;
//!
//!    function State return Value is (Level);
//! end Relay;
//! ```
ghost use Rattle.std.specs.Prelude.{◌≡◌, ◌≢◌, IfOk};

use crate::declarations::{PRIVATE_ENTRY, PUBLIC_ENTRY};
use crate::script_unit::{ScriptUnit, UnitNames};
use po_unit::{Decl, Outcome, Shape, ShapeError, Unit};
use std::alloc::{AllocError, Global};
use std::marker::Model;

/// The number of the entry `First`.
const FIRST: u16 = 0;

/// The number of the entry `Second`.
const SECOND: u16 = 1;

/// The number of the entry `Third`.
const THIRD: u16 = 2;

const DECLARATIONS: [Decl; 3] = [PUBLIC_ENTRY, PRIVATE_ENTRY, PRIVATE_ENTRY];

const ENTRY_NAMES: [&str; 3] = ["First", "Second", "Third"];

const PROCEDURE_NAMES: [&str; 1] = ["Set"];

const FUNCTION_NAMES: [&str; 1] = ["State"];

/// A level, and three entries that hand a call on as the level allows. `First` requeues on the private entry `Second`, which
/// requeues `with abort` on the private entry `Third` (9.5.4).
#[derive(Debug, Drop)]
pub struct Relay {
    level: u64,
}

impl Model for Relay {
    ghost use Rattle.po_classic_units.specs.Relay.{RelayState};

    ghost Value = { RelayState };

    ghost view = { λ r. record { level = r.level } };
}

impl Relay {
    ghost use Rattle.po_classic_units.specs.Relay.{new_relay};

    /// Returns a relay at the level 0.
    pub fn new() -> Relay
        ensures { result ≡ new_relay }
    {
        Relay { level: 0 }
    }
}

impl Unit for Relay {
    type Value = u64;

    ghost use Rattle.po_classic_units.specs.Relay.{relay_meaning, relay_lawful};

    ghost meaning = { relay_meaning };

    fn entries(&self) -> u16 {
        3
    }

    fn procedures(&self) -> u16 {
        1
    }

    fn functions(&self) -> u16 {
        1
    }

    fn barrier(&self, e: u16, _counts: &[u64]) -> Result<bool, u32> {
        Ok(match e {
            FIRST => true,
            SECOND => self.level >= 1,
            _ => self.level >= 2,
        })
    }

    fn body(&mut self, e: u16, v: u64, _counts: &[u64]) -> Outcome<u64> {
        match e {
            FIRST => Outcome::Requeue {
                target: SECOND,
                with_abort: false,
                value: v,
            },
            SECOND => Outcome::Requeue {
                target: THIRD,
                with_abort: true,
                value: v,
            },
            _ => Outcome::Complete(v),
        }
    }

    fn procedure(&mut self, _op: u16, v: u64, _counts: &[u64]) -> Result<u64, u32> {
        self.level = v;
        Ok(v)
    }

    fn function(&self, _op: u16, _v: u64, _counts: &[u64]) -> Result<u64, u32> {
        Ok(self.level)
    }

    fn rank(e: u16, _v: u64) -> u8 {
        match e {
            FIRST => 2,
            SECOND => 1,
            _ => 0,
        }
    }

    fn copy(&self) -> Result<Relay, AllocError> {
        Ok(Relay { level: self.level })
    }

    ghost lawful = { relay_lawful };

    ghost use Rattle.std.proofs.Common.{rules};

    ghost equality = { Prim.search rules };
}

impl ScriptUnit for Relay {
    ghost use Rattle.po_classic_units.specs.Relay.{relay_unit};

    ghost known = { relay_unit };

    fn names() -> UnitNames {
        UnitNames {
            unit: "relay",
            is_sized: false,
            entries: &ENTRY_NAMES,
            procedures: &PROCEDURE_NAMES,
            functions: &FUNCTION_NAMES,
        }
    }

    fn made(_alloc: Global, _size: u16) -> Result<Relay, AllocError> {
        Ok(Relay::new())
    }

    fn shape(&self, alloc: Global) -> Result<Shape, ShapeError> {
        Shape::new(alloc, &DECLARATIONS)
    }
}
