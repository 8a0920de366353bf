// SPDX-License-Identifier: MIT
//! Readers and writers. In Ada the unit would be:
//!
//! ```ada
//! protected type Readers_Writers (Most : Natural) is
//!    entry Read (Item : in out Value);
//!    entry Write (Item : in out Value);
//!    procedure Read_Done (Item : in out Value);
//!    procedure Write_Done (Item : in out Value);
//!    function State return Value;
//! private
//!    entry Turn (Item : in out Value);
//!    Readers : Value := 0;
//!    Writers : Value := 0;
//! end Readers_Writers;
//!
//! protected body Readers_Writers is
//!    entry Read (Item : in out Value)
//!      when Writers = 0 and Turn'Count = 0 and Readers < Value (Most) is
//!    begin
//!       Readers := Readers + 1;
//!    end Read;
//!
//!    entry Write (Item : in out Value) when True is
//!    begin
//!       requeue Turn with abort;
//!    end Write;
//!
//!    entry Turn (Item : in out Value) when Writers = 0 and Readers = 0 is
//!    begin
//!       Writers := 1;
//!    end Turn;
//!
//!    procedure Read_Done (Item : in out Value) is
//!    begin
//!       if Readers = 0 then
//!          raise Nobody_Inside;
//!       end if;
//!       Readers := Readers - 1;
//!    end Read_Done;
//!
//!    procedure Write_Done (Item : in out Value) is
//!    begin
//!       if Writers = 0 then
//!          raise Nobody_Inside;
//!       end if;
//!       Writers := Writers - 1;
//!    end Write_Done;
//!
//!    function State return Value is (Readers);
//! end Readers_Writers;
//! ```
ghost use Rattle.std.specs.Prelude.{◌≡◌, ◌≢◌, ◌↔◌, IfOk, IsTrue};

use po_unit::{Decl, Outcome, Shape, ShapeError, Unit};
use std::alloc::{AllocError, Global};
use std::marker::Model;

/// The number of the entry `Read`.
pub const READ: u16 = 0;

/// The number of the entry `Write`.
pub const WRITE: u16 = 1;

/// The number of the private entry `Turn`.
const TURN: u16 = 2;

/// The number of the procedure `Read_Done`.
pub const READ_DONE: u16 = 0;

/// The number of the procedure `Write_Done`.
pub const WRITE_DONE: u16 = 1;

/// The number of the function `State`.
pub const STATE: u16 = 0;

/// The exception `Nobody_Inside`.
const NOBODY_INSIDE: u32 = 1;

const PUBLIC: Decl = Decl {
    public: true,
    family: false,
    low: 0,
    high: 0,
};

const PRIVATE: Decl = Decl {
    public: false,
    family: false,
    low: 0,
    high: 0,
};

/// The declarations of `Read`, `Write` and `Turn`.
const DECLARATIONS: [Decl; 3] = [PUBLIC, PUBLIC, PRIVATE];

/// Readers go in together, a writer goes in alone, and no further reader goes in while a writer waits for its turn.
#[derive(Debug, Drop)]
pub struct ReadersWriters {
    most: u64,
    readers: u64,
    writers: u64,
}

impl Model for ReadersWriters {
    ghost use Rattle.example_readers.specs.ReadersWriters.{ReadersWritersState};

    ghost Value = { ReadersWritersState };

    ghost view = { λ s. record { most = s.most; readers = s.readers; writers = s.writers } };
}

impl ReadersWriters {
    ghost use Rattle.po_unit.specs.Numbering.{entry_count};
    ghost use Rattle.example_readers.specs.ReadersWriters.{new_readers_writers, readers_writers_declarations, readers_writers_meaning};

    /// Returns a unit with nobody inside, which lets in at most `most` readers at once.
    pub fn new(most: u64) -> ReadersWriters
        ensures { result ≡ new_readers_writers most }
    {
        ReadersWriters {
            most,
            readers: 0,
            writers: 0,
        }
    }

    /// Returns whether the state is one that `new` makes: nobody is inside.
    pub fn is_new(&self) -> bool
        ensures { IsTrue result ↔ self.now ≡ new_readers_writers self.now.most }
    {
        self.readers == 0 && self.writers == 0
    }

    /// Returns the shape that the entries' declarations make (9.5.2). It can fail only if memory runs out.
    pub fn shape(&self, alloc: Global) -> Result<Shape, ShapeError>
        ensures shape { IfOk result (λ shape. shape ≡ readers_writers_declarations) }
        ensures counted { IfOk result (λ shape. entry_count shape ≡ readers_writers_meaning.entries self.now) }
        ensures within_limits { result ≢ Err ShapeError.TooManyEntries }
    {
        Shape::new(alloc, &DECLARATIONS)
    }
}

impl Unit for ReadersWriters {
    type Value = u64;

    ghost use Rattle.example_readers.specs.ReadersWriters.{readers_writers_meaning, readers_writers_lawful};

    ghost meaning = { readers_writers_meaning };

    fn entries(&self) -> u16 {
        3
    }

    fn procedures(&self) -> u16 {
        2
    }

    fn functions(&self) -> u16 {
        1
    }

    fn barrier(&self, e: u16, counts: &[u64]) -> Result<bool, u32> {
        Ok(match e {
            READ => self.writers == 0 && counts[TURN as usize] == 0 && self.readers < self.most,
            WRITE => true,
            _ => self.writers == 0 && self.readers == 0,
        })
    }

    fn body(&mut self, e: u16, v: u64, _counts: &[u64]) -> Outcome<u64> {
        match e {
            READ if self.readers < self.most => self.readers += 1,
            READ => {}
            WRITE => {
                return Outcome::Requeue {
                    target: TURN,
                    with_abort: true,
                    value: v,
                };
            }
            _ => self.writers = 1,
        }
        Outcome::Complete(v)
    }

    fn procedure(&mut self, op: u16, v: u64, _counts: &[u64]) -> Result<u64, u32> {
        if op == READ_DONE {
            if self.readers == 0 {
                return Err(NOBODY_INSIDE);
            }
            self.readers -= 1;
        } else {
            if self.writers == 0 {
                return Err(NOBODY_INSIDE);
            }
            self.writers -= 1;
        }
        Ok(v)
    }

    fn function(&self, _op: u16, _v: u64, _counts: &[u64]) -> Result<u64, u32> {
        Ok(self.readers)
    }

    fn rank(e: u16, _v: u64) -> u8 {
        u8::from(e == WRITE)
    }

    fn copy(&self) -> Result<ReadersWriters, AllocError> {
        Ok(ReadersWriters {
            most: self.most,
            readers: self.readers,
            writers: self.writers,
        })
    }

    ghost lawful = { readers_writers_lawful };

    ghost use Rattle.std.proofs.Common.{rules};

    ghost equality = { Prim.search rules };
}

#[cfg(test)]
mod tests {
    use super::*;
    use po_core::{Attempt, CallStatus, Core, Deadline, End, Order};
    use po_unit::EntryRef;
    use std::process::Abort;
    use std::test::Fail;

    fn on(entry: u16) -> EntryRef {
        EntryRef {
            declaration: entry,
            index: None,
        }
    }

    fn new_core(alloc: Global) -> Result<Core<ReadersWriters>, Fail> {
        let unit = ReadersWriters::new(2);
        let shape = unit.shape(alloc)?;
        Ok(Core::new(alloc, unit, shape, Order::Textual, 1)?)
    }

    /// A reader that waits because of a writer's turn goes in when the writer is cancelled. It goes in only once.
    fn give_up_a_turn<R: Abort>(rt: &R, core: &mut Core<ReadersWriters>) -> Result<(), Fail> {
        core.issue(0, on(READ), 0, Deadline::Never)?;
        core.issue(0, on(WRITE), 0, Deadline::Never)?;
        let reader = core.issue(0, on(READ), 7, Deadline::Never)?;
        assert_eq!(rt; core.end_of(reader), CallStatus::Waiting);
        assert_eq!(rt; core.cancel_number(2)?, Attempt::Cancelled);
        assert_eq!(rt; core.end_of(reader), CallStatus::Ended(End::Completed(7)));
        assert_eq!(rt; core.function(STATE, 0)?, Ok(2));
        Ok(())
    }

    #[test]
    fn a_cancelled_writer_gives_up_its_turn(rt: HostRuntime) -> Result<(), Fail> {
        give_up_a_turn(&rt, &mut new_core(rt.alloc())?)
    }

    #[test]
    fn nobody_comes_out_who_is_not_inside(rt: HostRuntime) -> Result<(), Fail> {
        let mut core = new_core(rt.alloc())?;
        assert_eq!(&rt; core.procedure(0, WRITE_DONE, 0)?, Err(NOBODY_INSIDE));
        Ok(())
    }
}
