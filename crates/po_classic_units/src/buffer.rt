// SPDX-License-Identifier: MIT
//! The bounded buffer.
//!
//! ```ada
//! type Value_Array is array (Positive range <>) of Value;
//!
//! protected type Buffer (Capacity : Positive) is
//!    entry Put (Item : in out Value);
//!    entry Get (Item : in out Value);
//!    function State return Value;
//! private
//!    Values : Value_Array (1 .. Capacity);
//!    First  : Positive := 1;
//!    Length : Natural := 0;
//! end Buffer;
//!
//! protected body Buffer is
//!    entry Put (Item : in out Value) when Length < Capacity is
//!    begin
//!       Values ((First + Length - 1) mod Capacity + 1) := Item;
//!       Length := Length + 1;
//!    end Put;
//!
//!    entry Get (Item : in out Value) when Length > 0 is
//!    begin
//!       Item := Values (First);
//!       First := First mod Capacity + 1;
//!       Length := Length - 1;
//!    end Get;
//!
//!    function State return Value is (Value (Length));
//! end Buffer;
//! ```
ghost use Rattle.std.specs.Prelude.{◌≡◌, ◌≢◌, ◌≤◌, ◌↔◌, IfOk, IsTrue};
ghost use Rattle.po_classic_units.specs.Sizes.{IsSize};
ghost use Rattle.po_classic_units.specs.Buffer.{IsNewBuffer, buffer_meaning};

use crate::declarations::PUBLIC_ENTRY;
use crate::script_unit::{ScriptUnit, UnitNames};
use po_unit::{Decl, Outcome, Shape, ShapeError, Unit};
use std::alloc::{AllocError, Global};
use std::collections::VecDeque;
use std::marker::Model;

/// The number of the entry `Put`. The other entry is `Get`.
const PUT: u16 = 0;

const DECLARATIONS: [Decl; 2] = [PUBLIC_ENTRY, PUBLIC_ENTRY];

const ENTRY_NAMES: [&str; 2] = ["Put", "Get"];

const PROCEDURE_NAMES: [&str; 0] = [];

const FUNCTION_NAMES: [&str; 1] = ["State"];

/// Values in the order in which they came, up to a capacity: `Put` adds one, and `Get` takes the first. Their memory
/// is reserved when the buffer is made.
#[derive(Debug, Drop)]
pub struct Buffer {
    values: VecDeque<u64>,
    capacity: u16,
    alloc: Global,
}

impl Model for Buffer {
    ghost use Rattle.std.specs.VecDeque.{deque_capacity};
    ghost use Rattle.po_classic_units.specs.Buffer.{BufferState, HasRoomFor};

    ghost Value = { BufferState };

    ghost view = { λ b. record { values = b.values.items; capacity = b.capacity } };

    ghost invariant = { λ b. HasRoomFor (deque_capacity b.values) (record { values = b.values.items; capacity = b.capacity }) };
}

const _: () = prove!(Buffer::MAX_CAPACITY == 1_024);

impl Buffer {
    ghost use Rattle.po_classic_units.specs.Buffer.{IsNewBuffer, new_buffer};

    /// The greatest capacity.
    pub const MAX_CAPACITY: u16 = 1_024;

    /// Returns a buffer without values, and with all the memory that it needs.
    pub fn new(alloc: Global, capacity: u16) -> Result<Buffer, AllocError>
        requires { IsSize capacity }
        ensures { IfOk result (λ b. b ≡ new_buffer capacity) }
    {
        Ok(Buffer {
            values: VecDeque::with_capacity(alloc, usize::from(capacity))?,
            capacity,
            alloc,
        })
    }

    /// Returns whether the state is one that `new` makes: no values, and a capacity from 1 to 1,024.
    pub fn is_new(&self) -> bool
        ensures { IsTrue result ↔ IsNewBuffer self.now }
    {
        self.values.is_empty()
    }
}

impl Unit for Buffer {
    type Value = u64;

    ghost use Rattle.po_classic_units.specs.Buffer.{buffer_meaning, buffer_lawful};

    ghost meaning = { buffer_meaning };

    fn entries(&self) -> u16 {
        2
    }

    fn procedures(&self) -> u16 {
        0
    }

    fn functions(&self) -> u16 {
        1
    }

    fn barrier(&self, e: u16, _counts: &[u64]) -> Result<bool, u32> {
        Ok(match e {
            PUT => self.values.len() < usize::from(self.capacity),
            _ => !self.values.is_empty(),
        })
    }

    fn body(&mut self, e: u16, v: u64, _counts: &[u64]) -> Outcome<u64> {
        if e != PUT {
            return Outcome::Complete(self.values.pop_front().unwrap_or(v));
        }
        if self.values.len() < usize::from(self.capacity) {
            self.values.push_back_reserved(v);
        }
        Outcome::Complete(v)
    }

    /// Does nothing, as the meaning says of any number: there is no procedure to call.
    fn procedure(&mut self, _op: u16, v: u64, _counts: &[u64]) -> Result<u64, u32>
        ensures { (self.new, result) ≡ buffer_meaning.procedure self.old _op v _counts.now }
    {
        Ok(v)
    }

    fn function(&self, _op: u16, _v: u64, _counts: &[u64]) -> Result<u64, u32> {
        Ok(self.values.len() as u64)
    }

    fn rank(_e: u16, _v: u64) -> u8 {
        0
    }

    fn copy(&self) -> Result<Buffer, AllocError> {
        let mut values = VecDeque::with_capacity(self.alloc, usize::from(self.capacity))?;
        for value in &self.values {
            values.push_back_reserved(*value);
        }
        Ok(Buffer {
            values,
            capacity: self.capacity,
            alloc: self.alloc,
        })
    }

    ghost lawful = { buffer_lawful };

    ghost use Rattle.std.proofs.Common.{rules};

    ghost equality = { Prim.search rules };
}

impl ScriptUnit for Buffer {
    ghost use Rattle.po_classic_units.specs.Buffer.{buffer_unit};

    ghost known = { buffer_unit };

    fn names() -> UnitNames {
        UnitNames {
            unit: "buffer",
            is_sized: true,
            entries: &ENTRY_NAMES,
            procedures: &PROCEDURE_NAMES,
            functions: &FUNCTION_NAMES,
        }
    }

    fn made(alloc: Global, size: u16) -> Result<Buffer, AllocError> {
        Buffer::new(alloc, size)
    }

    fn shape(&self, alloc: Global) -> Result<Shape, ShapeError> {
        Shape::new(alloc, &DECLARATIONS)
    }
}
