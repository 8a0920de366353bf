// SPDX-License-Identifier: MIT
//! A latch. In Ada it would be:
//!
//! ```ada
//! protected type Latch (Arrivals : Natural) is
//!    entry Wait (Item : in out Value);
//!    procedure Arrive (Item : in out Value);
//!    function State return Value;
//! private
//!    Left : Value := Value (Arrivals);
//! end Latch;
//!
//! protected body Latch is
//!    entry Wait (Item : in out Value) when Left = 0 is
//!    begin
//!       null;
//!    end Wait;
//!
//!    procedure Arrive (Item : in out Value) is
//!    begin
//!       if Left > 0 then
//!          Left := Left - 1;
//!       end if;
//!       Item := Left;
//!    end Arrive;
//!
//!    function State return Value is (Left);
//! end Latch;
//! ```
ghost use Rattle.std.specs.Prelude.{◌≡◌, ◌≢◌, IfOk};

use po_unit::{Decl, Outcome, Shape, ShapeError, Unit};
use std::alloc::{AllocError, Global};
use std::marker::Model;

/// The declaration of the only entry, `Wait`: a single public entry, not a family.
const DECLARATIONS: [Decl; 1] = [Decl {
    public: true,
    family: false,
    low: 0,
    high: 0,
}];

/// A latch: calls on `Wait` wait until `Arrive` has been called as often as `new` says. From then on the latch is open.
#[derive(Debug, Drop)]
pub struct Latch {
    left: u64,
}

impl Model for Latch {
    ghost use Rattle.example_unit.specs.Latch.{LatchState};

    ghost Value = { LatchState };

    ghost view = { λ s. record { left = s.left } };
}

impl Latch {
    ghost use Rattle.po_unit.specs.Numbering.{entry_count};
    ghost use Rattle.example_unit.specs.Latch.{new_latch, latch_declarations, latch_meaning};

    /// Returns a latch that opens after `arrivals` arrivals, or is open at once if that is 0.
    pub fn new(arrivals: u64) -> Latch
        ensures { result ≡ new_latch arrivals }
    {
        Latch { left: arrivals }
    }

    /// Returns the shape that the entries' declarations make (9.5.2). It can fail only if memory runs out.
    pub fn shape(&self, alloc: Global) -> Result<Shape, ShapeError>
        ensures shape { IfOk result (λ shape. shape ≡ latch_declarations) }
        ensures counted { IfOk result (λ shape. entry_count shape ≡ latch_meaning.entries self.now) }
        ensures within_limits { result ≢ Err ShapeError.TooManyEntries }
    {
        Shape::new(alloc, &DECLARATIONS)
    }
}

impl Unit for Latch {
    type Value = u64;

    ghost use Rattle.example_unit.specs.Latch.{latch_meaning, latch_lawful};

    ghost meaning = { latch_meaning };

    fn entries(&self) -> u16 {
        1
    }

    fn procedures(&self) -> u16 {
        1
    }

    fn functions(&self) -> u16 {
        1
    }

    fn barrier(&self, _e: u16, _counts: &[u64]) -> Result<bool, u32> {
        Ok(self.left == 0)
    }

    fn body(&mut self, _e: u16, v: u64, _counts: &[u64]) -> Outcome<u64> {
        Outcome::Complete(v)
    }

    fn procedure(&mut self, _op: u16, _v: u64, _counts: &[u64]) -> Result<u64, u32> {
        self.left = self.left.saturating_sub(1);
        Ok(self.left)
    }

    fn function(&self, _op: u16, _v: u64, _counts: &[u64]) -> Result<u64, u32> {
        Ok(self.left)
    }

    fn rank(_e: u16, _v: u64) -> u8 {
        0
    }

    fn copy(&self) -> Result<Latch, AllocError> {
        Ok(Latch { left: self.left })
    }

    ghost lawful = { latch_lawful };

    ghost use Rattle.std.proofs.Common.{rules};

    ghost equality = { Prim.search rules };
}

#[cfg(test)]
mod tests {
    use super::*;
    use po_core::{CallStatus, Core, Deadline, End, Order};
    use po_unit::EntryRef;
    use std::process::Abort;
    use std::test::Fail;

    /// The entry `Wait`.
    const WAIT: EntryRef = EntryRef {
        declaration: 0,
        index: None,
    };

    /// The number of the procedure `Arrive`.
    const ARRIVE: u16 = 0;

    /// The number of the function `State`.
    const STATE: u16 = 0;

    fn latch_core(alloc: Global, arrivals: u64) -> Result<Core<Latch>, Fail> {
        let latch = Latch::new(arrivals);
        let shape = latch.shape(alloc)?;
        Ok(Core::new(alloc, latch, shape, Order::Textual, 1)?)
    }

    /// A waiting call goes through at the second of two arrivals.
    fn run_to_opening<R: Abort>(rt: &R, core: &mut Core<Latch>) -> Result<(), Fail> {
        let ticket = core.issue(0, WAIT, 7, Deadline::Never)?;
        assert_eq!(rt; core.procedure(0, ARRIVE, 0)?, Ok(1));
        assert_eq!(rt; core.end_of(ticket), CallStatus::Waiting);
        assert_eq!(rt; core.procedure(0, ARRIVE, 0)?, Ok(0));
        assert_eq!(rt; core.end_of(ticket), CallStatus::Ended(End::Completed(7)));
        Ok(())
    }

    /// After the only arrival, and one more, a call goes through at once.
    fn run_past_opening<R: Abort>(rt: &R, core: &mut Core<Latch>) -> Result<(), Fail> {
        assert_eq!(rt; core.function(STATE, 0)?, Ok(1));
        assert_eq!(rt; core.procedure(0, ARRIVE, 0)?, Ok(0));
        assert_eq!(rt; core.procedure(0, ARRIVE, 0)?, Ok(0));
        let ticket = core.issue(0, WAIT, 7, Deadline::At(0))?;
        assert_eq!(rt; core.end_of(ticket), CallStatus::Ended(End::Completed(7)));
        Ok(())
    }

    #[test]
    fn opens_at_the_last_arrival(rt: HostRuntime) -> Result<(), Fail> {
        run_to_opening(&rt, &mut latch_core(rt.alloc(), 2)?)
    }

    #[test]
    fn stays_open(rt: HostRuntime) -> Result<(), Fail> {
        run_past_opening(&rt, &mut latch_core(rt.alloc(), 1)?)
    }
}
