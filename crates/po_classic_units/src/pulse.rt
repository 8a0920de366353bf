// SPDX-License-Identifier: MIT
//! The pulse.
//!
//! ```ada
//! protected type Pulse is
//!    entry Wait (Item : in out Value);
//!    entry Signal (Item : in out Value);
//!    function State return Value;
//! private
//!    entry Reset (Item : in out Value);
//!    Occurred : Boolean := False;
//! end Pulse;
//!
//! protected body Pulse is
//!    entry Wait (Item : in out Value) when Occurred is
//!    begin
//!       null;
//!    end Wait;
//!
//!    entry Signal (Item : in out Value) when True is
//!    begin
//!       if Wait'Count > 0 then
//!          Occurred := True;
//!          requeue Reset;
//!       end if;
//!    end Signal;
//!
//!    entry Reset (Item : in out Value) when Wait'Count = 0 is
//!    begin
//!       Occurred := False;
//!    end Reset;
//!
//!    function State return Value is (if Occurred then 1 else 0);
//! end Pulse;
//! ```
ghost use Rattle.std.specs.Prelude.{◌≡◌, ◌≢◌, ◌↔◌, IfOk, IsTrue};
ghost use Rattle.po_classic_units.specs.Pulse.{IsNewPulse, pulse_meaning};

use crate::declarations::{PRIVATE_ENTRY, PUBLIC_ENTRY};
use crate::script_unit::{ScriptUnit, UnitNames};
use po_unit::{Decl, Outcome, Shape, ShapeError, Unit};
use std::alloc::{AllocError, Global};
use std::marker::Model;

/// The number of the entry `Wait`.
const WAIT: u16 = 0;

/// The number of the entry `Signal`.
const SIGNAL: u16 = 1;

/// The number of the entry `Reset`.
const RESET: u16 = 2;

const DECLARATIONS: [Decl; 3] = [PUBLIC_ENTRY, PUBLIC_ENTRY, PRIVATE_ENTRY];

const ENTRY_NAMES: [&str; 3] = ["Wait", "Signal", "Reset"];

const PROCEDURE_NAMES: [&str; 0] = [];

const FUNCTION_NAMES: [&str; 1] = ["State"];

/// A pulse that releases all calls that wait for it: `Signal` opens `Wait`, and requeues on the private entry `Reset` (9.5.4),
/// which closes `Wait` after the last of them (9.9).
#[derive(Debug, Drop)]
pub struct Pulse {
    occurred: bool,
}

impl Model for Pulse {
    ghost use Rattle.po_classic_units.specs.Pulse.{PulseState};

    ghost Value = { PulseState };

    ghost view = { λ p. record { occurred = p.occurred } };
}

impl Pulse {
    ghost use Rattle.po_classic_units.specs.Pulse.{IsNewPulse, new_pulse};

    /// Returns a pulse that has not occurred yet.
    pub fn new() -> Pulse
        ensures { result ≡ new_pulse }
    {
        Pulse { occurred: false }
    }

    /// Returns whether the state is the one that `new` makes: no pulse lets calls go.
    pub fn is_new(&self) -> bool
        ensures { IsTrue result ↔ IsNewPulse self.now }
    {
        !self.occurred
    }
}

impl Unit for Pulse {
    type Value = u64;

    ghost use Rattle.po_classic_units.specs.Pulse.{pulse_meaning, pulse_lawful};

    ghost meaning = { pulse_meaning };

    fn entries(&self) -> u16 {
        3
    }

    fn procedures(&self) -> u16 {
        0
    }

    fn functions(&self) -> u16 {
        1
    }

    fn barrier(&self, e: u16, counts: &[u64]) -> Result<bool, u32> {
        Ok(match e {
            WAIT => self.occurred,
            SIGNAL => true,
            _ => counts[WAIT as usize] == 0,
        })
    }

    fn body(&mut self, e: u16, v: u64, counts: &[u64]) -> Outcome<u64> {
        match e {
            WAIT => {}
            SIGNAL if counts[WAIT as usize] > 0 => {
                self.occurred = true;
                return Outcome::Requeue {
                    target: RESET,
                    with_abort: false,
                    value: v,
                };
            }
            SIGNAL => {}
            _ => self.occurred = false,
        }
        Outcome::Complete(v)
    }

    /// Does nothing, as the meaning says of any number: there is no procedure to call.
    fn procedure(&mut self, _op: u16, v: u64, _counts: &[u64]) -> Result<u64, u32>
        ensures { (self.new, result) ≡ pulse_meaning.procedure self.old _op v _counts.now }
    {
        Ok(v)
    }

    fn function(&self, _op: u16, _v: u64, _counts: &[u64]) -> Result<u64, u32> {
        Ok(u64::from(self.occurred))
    }

    fn rank(e: u16, _v: u64) -> u8 {
        u8::from(e == SIGNAL)
    }

    fn copy(&self) -> Result<Pulse, AllocError> {
        Ok(Pulse {
            occurred: self.occurred,
        })
    }

    ghost lawful = { pulse_lawful };

    ghost use Rattle.std.proofs.Common.{rules};

    ghost equality = { Prim.search rules };
}

impl ScriptUnit for Pulse {
    ghost use Rattle.po_classic_units.specs.Pulse.{pulse_unit};

    ghost known = { pulse_unit };

    fn names() -> UnitNames {
        UnitNames {
            unit: "pulse",
            is_sized: false,
            entries: &ENTRY_NAMES,
            procedures: &PROCEDURE_NAMES,
            functions: &FUNCTION_NAMES,
        }
    }

    fn made(_alloc: Global, _size: u16) -> Result<Pulse, AllocError> {
        Ok(Pulse::new())
    }

    fn shape(&self, alloc: Global) -> Result<Shape, ShapeError> {
        Shape::new(alloc, &DECLARATIONS)
    }
}
