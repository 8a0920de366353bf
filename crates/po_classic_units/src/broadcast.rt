// SPDX-License-Identifier: MIT
//! The broadcast.
//!
//! ```ada
//! protected type Broadcast is
//!    entry Receive (Item : in out Value);
//!    procedure Send (Item : in out Value);
//!    function State return Value;
//! private
//!    Arrived : Boolean := False;
//!    Message : Value := 0;
//! end Broadcast;
//!
//! protected body Broadcast is
//!    entry Receive (Item : in out Value) when Arrived is
//!    begin
//!       if Receive'Count = 0 then
//!          Arrived := False;
//!       end if;
//!       Item := Message;
//!    end Receive;
//!
//!    procedure Send (Item : in out Value) is
//!    begin
//!       Message := Item;
//!       if Receive'Count > 0 then
//!          Arrived := True;
//!       end if;
//!    end Send;
//!
//!    function State return Value is (Message);
//! end Broadcast;
//! ```
ghost use Rattle.std.specs.Prelude.{◌≡◌, ◌≢◌, IfOk};

use crate::declarations::PUBLIC_ENTRY;
use crate::script_unit::{ScriptUnit, UnitNames};
use po_unit::{Decl, Outcome, Shape, ShapeError, Unit};
use std::alloc::{AllocError, Global};
use std::marker::Model;

/// The number of the entry `Receive`, the only one.
const RECEIVE: u16 = 0;

const DECLARATIONS: [Decl; 1] = [PUBLIC_ENTRY];

const ENTRY_NAMES: [&str; 1] = ["Receive"];

const PROCEDURE_NAMES: [&str; 1] = ["Send"];

const FUNCTION_NAMES: [&str; 1] = ["State"];

/// A message for all that wait: `Send` gives it to each call that is queued on `Receive` (9.9), and to none that comes later.
#[derive(Debug, Drop)]
pub struct Broadcast {
    arrived: bool,
    message: u64,
}

impl Model for Broadcast {
    ghost use Rattle.po_classic_units.specs.Broadcast.{BroadcastState};

    ghost Value = { BroadcastState };

    ghost view = { λ b. record { arrived = b.arrived; message = b.message } };
}

impl Broadcast {
    ghost use Rattle.po_classic_units.specs.Broadcast.{new_broadcast};

    /// Returns a broadcast without calls to serve, whose last message is 0.
    pub fn new() -> Broadcast
        ensures { result ≡ new_broadcast }
    {
        Broadcast {
            arrived: false,
            message: 0,
        }
    }
}

impl Unit for Broadcast {
    type Value = u64;

    ghost use Rattle.po_classic_units.specs.Broadcast.{broadcast_meaning, broadcast_lawful};

    ghost meaning = { broadcast_meaning };

    fn entries(&self) -> u16 {
        1
    }

    fn procedures(&self) -> u16 {
        1
    }

    fn functions(&self) -> u16 {
        1
    }

    fn barrier(&self, _e: u16, _counts: &[u64]) -> Result<bool, u32> {
        Ok(self.arrived)
    }

    fn body(&mut self, _e: u16, _v: u64, counts: &[u64]) -> Outcome<u64> {
        if counts[RECEIVE as usize] == 0 {
            self.arrived = false;
        }
        Outcome::Complete(self.message)
    }

    fn procedure(&mut self, _op: u16, v: u64, counts: &[u64]) -> Result<u64, u32> {
        self.message = v;
        if counts[RECEIVE as usize] > 0 {
            self.arrived = true;
        }
        Ok(v)
    }

    fn function(&self, _op: u16, _v: u64, _counts: &[u64]) -> Result<u64, u32> {
        Ok(self.message)
    }

    fn rank(_e: u16, _v: u64) -> u8 {
        0
    }

    fn copy(&self) -> Result<Broadcast, AllocError> {
        Ok(Broadcast {
            arrived: self.arrived,
            message: self.message,
        })
    }

    ghost lawful = { broadcast_lawful };

    ghost use Rattle.std.proofs.Common.{rules};

    ghost equality = { Prim.search rules };
}

impl ScriptUnit for Broadcast {
    ghost use Rattle.po_classic_units.specs.Broadcast.{broadcast_unit};

    ghost known = { broadcast_unit };

    fn names() -> UnitNames {
        UnitNames {
            unit: "broadcast",
            is_sized: false,
            entries: &ENTRY_NAMES,
            procedures: &PROCEDURE_NAMES,
            functions: &FUNCTION_NAMES,
        }
    }

    fn made(_alloc: Global, _size: u16) -> Result<Broadcast, AllocError> {
        Ok(Broadcast::new())
    }

    fn shape(&self, alloc: Global) -> Result<Shape, ShapeError> {
        Shape::new(alloc, &DECLARATIONS)
    }
}
