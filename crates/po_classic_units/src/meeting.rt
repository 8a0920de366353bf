// SPDX-License-Identifier: MIT
//! The meeting.
//!
//! ```ada
//! protected type Meeting (Size : Positive) is
//!    entry Wait (Item : in out Value);
//!    function State return Value;
//! private
//!    Leaving : Boolean := False;
//! end Meeting;
//!
//! protected body Meeting is
//!    entry Wait (Item : in out Value) when Leaving or else Wait'Count = Size is
//!    begin
//!       Leaving := Wait'Count > 0;
//!    end Wait;
//!
//!    function State return Value is (Wait'Count);
//! end Meeting;
//! ```
ghost use Rattle.std.specs.Prelude.{◌≡◌, ◌≢◌, ◌≤◌, ◌↔◌, IfOk, IsTrue};
ghost use Rattle.po_classic_units.specs.Sizes.{IsSize};
ghost use Rattle.po_classic_units.specs.Meeting.{IsNewMeeting, meeting_meaning};

use crate::declarations::PUBLIC_ENTRY;
use crate::script_unit::{ScriptUnit, UnitNames};
use po_unit::{Decl, Outcome, Shape, ShapeError, Unit};
use std::alloc::{AllocError, Global};
use std::marker::Model;

/// The number of the entry `Wait`, the only one.
const WAIT: u16 = 0;

const DECLARATIONS: [Decl; 1] = [PUBLIC_ENTRY];

const ENTRY_NAMES: [&str; 1] = ["Wait"];

const PROCEDURE_NAMES: [&str; 0] = [];

const FUNCTION_NAMES: [&str; 1] = ["State"];

/// Calls that wait for one another: as soon as `size` calls are queued on `Wait`, they all go (9.9).
#[derive(Debug, Drop)]
pub struct Meeting {
    size: u16,
    leaving: bool,
}

impl Model for Meeting {
    ghost use Rattle.po_classic_units.specs.Meeting.{MeetingState};
    ghost use Rattle.po_classic_units.specs.Sizes.{IsSize};

    ghost Value = { MeetingState };

    ghost view = { λ s. record { size = s.size; leaving = s.leaving } };

    ghost invariant = { λ s. IsSize s.size };
}

const _: () = prove!(Meeting::MAX_SIZE == 1_024);

impl Meeting {
    ghost use Rattle.po_classic_units.specs.Meeting.{IsNewMeeting, new_meeting};

    /// The greatest size: the most calls that can meet.
    pub const MAX_SIZE: u16 = 1_024;

    /// Returns a meeting of this size, which no call is leaving.
    pub fn new(size: u16) -> Meeting
        requires { IsSize size }
        ensures { result ≡ new_meeting size }
    {
        Meeting {
            size,
            leaving: false,
        }
    }

    /// Returns whether the state is one that `new` makes: no call is leaving, and the size is from 1 to 1,024.
    pub fn is_new(&self) -> bool
        ensures { IsTrue result ↔ IsNewMeeting self.now }
    {
        !self.leaving
    }
}

impl Unit for Meeting {
    type Value = u64;

    ghost use Rattle.po_classic_units.specs.Meeting.{meeting_meaning, meeting_lawful};

    ghost meaning = { meeting_meaning };

    fn entries(&self) -> u16 {
        1
    }

    fn procedures(&self) -> u16 {
        0
    }

    fn functions(&self) -> u16 {
        1
    }

    fn barrier(&self, _e: u16, counts: &[u64]) -> Result<bool, u32> {
        Ok(self.leaving || counts[WAIT as usize] == u64::from(self.size))
    }

    fn body(&mut self, _e: u16, v: u64, counts: &[u64]) -> Outcome<u64> {
        self.leaving = counts[WAIT as usize] > 0;
        Outcome::Complete(v)
    }

    /// Does nothing, as the meaning says of any number: there is no procedure to call.
    fn procedure(&mut self, _op: u16, v: u64, _counts: &[u64]) -> Result<u64, u32>
        ensures { (self.new, result) ≡ meeting_meaning.procedure self.old _op v _counts.now }
    {
        Ok(v)
    }

    fn function(&self, _op: u16, _v: u64, counts: &[u64]) -> Result<u64, u32> {
        Ok(counts[WAIT as usize])
    }

    fn rank(_e: u16, _v: u64) -> u8 {
        0
    }

    fn copy(&self) -> Result<Meeting, AllocError> {
        Ok(Meeting {
            size: self.size,
            leaving: self.leaving,
        })
    }

    ghost lawful = { meeting_lawful };

    ghost use Rattle.std.proofs.Common.{rules};

    ghost equality = { Prim.search rules };
}

impl ScriptUnit for Meeting {
    ghost use Rattle.po_classic_units.specs.Meeting.{meeting_unit};

    ghost known = { meeting_unit };

    fn names() -> UnitNames {
        UnitNames {
            unit: "meeting",
            is_sized: true,
            entries: &ENTRY_NAMES,
            procedures: &PROCEDURE_NAMES,
            functions: &FUNCTION_NAMES,
        }
    }

    fn made(_alloc: Global, size: u16) -> Result<Meeting, AllocError> {
        Ok(Meeting::new(size))
    }

    fn shape(&self, alloc: Global) -> Result<Shape, ShapeError> {
        Shape::new(alloc, &DECLARATIONS)
    }
}
