// SPDX-License-Identifier: MIT
//! The signal.
//!
//! ```ada
//! protected type Signal is
//!    entry Wait (Item : in out Value);
//!    procedure Send (Item : in out Value);
//!    function State return Value;
//! private
//!    Set : Boolean := False;
//! end Signal;
//!
//! protected body Signal is
//!    entry Wait (Item : in out Value) when Set is
//!    begin
//!       Set := False;
//!    end Wait;
//!
//!    procedure Send (Item : in out Value) is
//!    begin
//!       Set := True;
//!    end Send;
//!
//!    function State return Value is (if Set then 1 else 0);
//! end Signal;
//! ```
ghost use Rattle.std.specs.Prelude.{◌≡◌, ◌≢◌, IfOk};

use crate::declarations::PUBLIC_ENTRY;
use crate::script_unit::{ScriptUnit, UnitNames};
use po_unit::{Decl, Outcome, Shape, ShapeError, Unit};
use std::alloc::{AllocError, Global};
use std::marker::Model;

const DECLARATIONS: [Decl; 1] = [PUBLIC_ENTRY];

const ENTRY_NAMES: [&str; 1] = ["Wait"];

const PROCEDURE_NAMES: [&str; 1] = ["Send"];

const FUNCTION_NAMES: [&str; 1] = ["State"];

/// A signal that is kept until a call takes it: each `Wait` takes one. A signal that is sent while one is kept adds nothing.
#[derive(Debug, Drop)]
pub struct Signal {
    set: bool,
}

impl Model for Signal {
    ghost use Rattle.po_classic_units.specs.Signal.{SignalState};

    ghost Value = { SignalState };

    ghost view = { λ s. record { set = s.set } };
}

impl Signal {
    ghost use Rattle.po_classic_units.specs.Signal.{new_signal};

    /// Returns a signal that was not sent yet.
    pub fn new() -> Signal
        ensures { result ≡ new_signal }
    {
        Signal { set: false }
    }
}

impl Unit for Signal {
    type Value = u64;

    ghost use Rattle.po_classic_units.specs.Signal.{signal_meaning, signal_lawful};

    ghost meaning = { signal_meaning };

    fn entries(&self) -> u16 {
        1
    }

    fn procedures(&self) -> u16 {
        1
    }

    fn functions(&self) -> u16 {
        1
    }

    fn barrier(&self, _e: u16, _counts: &[u64]) -> Result<bool, u32> {
        Ok(self.set)
    }

    fn body(&mut self, _e: u16, v: u64, _counts: &[u64]) -> Outcome<u64> {
        self.set = false;
        Outcome::Complete(v)
    }

    fn procedure(&mut self, _op: u16, v: u64, _counts: &[u64]) -> Result<u64, u32> {
        self.set = true;
        Ok(v)
    }

    fn function(&self, _op: u16, _v: u64, _counts: &[u64]) -> Result<u64, u32> {
        Ok(u64::from(self.set))
    }

    fn rank(_e: u16, _v: u64) -> u8 {
        0
    }

    fn copy(&self) -> Result<Signal, AllocError> {
        Ok(Signal { set: self.set })
    }

    ghost lawful = { signal_lawful };

    ghost use Rattle.std.proofs.Common.{rules};

    ghost equality = { Prim.search rules };
}

impl ScriptUnit for Signal {
    ghost use Rattle.po_classic_units.specs.Signal.{signal_unit};

    ghost known = { signal_unit };

    fn names() -> UnitNames {
        UnitNames {
            unit: "signal",
            is_sized: false,
            entries: &ENTRY_NAMES,
            procedures: &PROCEDURE_NAMES,
            functions: &FUNCTION_NAMES,
        }
    }

    fn made(_alloc: Global, _size: u16) -> Result<Signal, AllocError> {
        Ok(Signal::new())
    }

    fn shape(&self, alloc: Global) -> Result<Shape, ShapeError> {
        Shape::new(alloc, &DECLARATIONS)
    }
}
