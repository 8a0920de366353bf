// SPDX-License-Identifier: MIT
//! A unit of which one command queues its caller's call and ends another's. In Ada it would be:
//!
//! ```ada
//! protected type Station is
//!    entry Put (Item : in out Value);
//!    entry Get (Item : in out Value);
//!    entry Pass (Item : in out Value);
//!    entry Open (Item : in out Value);
//!    entry Release (Item : in out Value);
//!    entry Never (Item : in out Value);
//!    entry Change (Item : in out Value);
//!    procedure Signal (Item : in out Value);
//!    procedure Spoil (Item : in out Value);
//!    function Last return Value;
//! private
//!    entry Stay (Item : in out Value);
//!    Store : Value := 0;
//!    Is_Full, Is_Open, Is_Released, Is_Spoiled : Boolean := False;
//! end Station;
//!
//! protected body Station is
//!    entry Put (Item : in out Value) when not Is_Full is
//!    begin
//!       Store := Item;
//!       Is_Full := True;
//!    end Put;
//!
//!    entry Get (Item : in out Value) when Is_Full is
//!    begin
//!       Item := Store;
//!       Is_Full := False;
//!    end Get;
//!
//!    entry Pass (Item : in out Value) when (if Is_Spoiled then raise Spoiled else Is_Open) is
//!    begin
//!       null;
//!    end Pass;
//!
//!    entry Open (Item : in out Value) when True is
//!    begin
//!       Is_Open := True;
//!       requeue Stay with abort;
//!    end Open;
//!
//!    entry Release (Item : in out Value) when True is
//!    begin
//!       Is_Released := True;
//!    end Release;
//!
//!    entry Never (Item : in out Value) when False is
//!    begin
//!       null;
//!    end Never;
//!
//!    entry Change (Item : in out Value) when Is_Open is
//!    begin
//!       requeue Stay with abort;
//!    end Change;
//!
//!    entry Stay (Item : in out Value) when Is_Released is
//!    begin
//!       null;
//!    end Stay;
//!
//!    procedure Signal (Item : in out Value) is
//!    begin
//!       Is_Open := True;
//!    end Signal;
//!
//!    procedure Spoil (Item : in out Value) is
//!    begin
//!       Is_Spoiled := True;
//!    end Spoil;
//!
//!    function Last return Value is (Store);
//! end Station;
//! ```

ghost use Rattle.std.specs.Prelude.{◌≡◌, true};
ghost use Rattle.po_unit.specs.declared.outcome.Outcome.TheVariants.{Requeue};

use po_unit::{Decl, Outcome, Shape, Unit};
use std::alloc::{AllocError, Global};
use std::marker::Model;

/// The entry that puts a value into the store, which has room for one.
pub(crate) const PUT: u16 = 0;

/// The entry that takes the value out of the store.
pub(crate) const GET: u16 = 1;

/// The entry that waits until the station is open, and faults if it is spoiled.
pub(crate) const PASS: u16 = 2;

/// The entry that opens the station, and requeues its call on `STAY`.
pub(crate) const OPEN: u16 = 3;

/// The entry that lets the calls on `STAY` go.
pub(crate) const RELEASE: u16 = 4;

/// The entry that never opens.
pub(crate) const NEVER: u16 = 5;

/// The entry that waits until the station is open, and then requeues its call on `STAY`.
pub(crate) const CHANGE: u16 = 6;

/// The private entry that waits for `RELEASE`.
pub(crate) const STAY: u16 = 7;

/// The procedure that opens the station.
pub(crate) const SIGNAL: u16 = 0;

/// The procedure that spoils the barrier of `PASS`.
pub(crate) const SPOIL: u16 = 1;

/// The exception that a spoiled barrier raises.
const SPOILED: u32 = 1;

/// A single entry in the visible part.
const PUBLIC: Decl = Decl {
    public: true,
    family: false,
    low: 0,
    high: 0,
};

/// A single entry in the private part.
const PRIVATE: Decl = Decl {
    public: false,
    family: false,
    low: 0,
    high: 0,
};

const DECLARATIONS: [Decl; 8] = [
    PUBLIC, PUBLIC, PUBLIC, PUBLIC, PUBLIC, PUBLIC, PUBLIC, PRIVATE,
];

/// A store for one value, a gate, and entries that hand their calls on to a private one.
#[derive(Drop)]
pub(crate) struct Station {
    store: u64,
    is_full: bool,
    is_open: bool,
    is_released: bool,
    is_spoiled: bool,
}

impl Model for Station {
    ghost use Rattle.test_schedules.specs.Station.{StationState};

    ghost Value = { StationState };

    ghost view = { λ s. record {
      store = s.store;
      is_full = s.is_full;
      is_open = s.is_open;
      is_released = s.is_released;
      is_spoiled = s.is_spoiled;
    } };
}

impl Station {
    /// Makes an empty station that is closed.
    pub(crate) fn new() -> Station {
        Station {
            store: 0,
            is_full: false,
            is_open: false,
            is_released: false,
            is_spoiled: false,
        }
    }

    /// Makes the shape of its entries' declarations.
    pub(crate) fn shape(alloc: Global) -> Result<Shape, AllocError> {
        Shape::new(alloc, &DECLARATIONS).map_err(|_| AllocError)
    }
}

impl Unit for Station {
    type Value = u64;

    ghost use Rattle.test_schedules.specs.Station.{station_meaning, station_lawful};

    ghost meaning = { station_meaning };

    fn entries(&self) -> u16 {
        8
    }

    fn procedures(&self) -> u16 {
        2
    }

    fn functions(&self) -> u16 {
        1
    }

    fn barrier(&self, e: u16, _counts: &[u64]) -> Result<bool, u32> {
        match e {
            PUT => Ok(!self.is_full),
            GET => Ok(self.is_full),
            PASS if self.is_spoiled => Err(SPOILED),
            PASS => Ok(self.is_open),
            CHANGE => Ok(self.is_open),
            STAY => Ok(self.is_released),
            NEVER => Ok(false),
            _ => Ok(true),
        }
    }

    fn body(&mut self, e: u16, v: u64, _counts: &[u64]) -> Outcome<u64> {
        match e {
            PUT => {
                self.store = v;
                self.is_full = true;
                Outcome::Complete(v)
            }
            GET => {
                self.is_full = false;
                Outcome::Complete(self.store)
            }
            OPEN => {
                self.is_open = true;
                to_stay(v)
            }
            RELEASE => {
                self.is_released = true;
                Outcome::Complete(v)
            }
            CHANGE => to_stay(v),
            _ => Outcome::Complete(v),
        }
    }

    fn procedure(&mut self, op: u16, v: u64, _counts: &[u64]) -> Result<u64, u32> {
        if op == SIGNAL {
            self.is_open = true;
        } else {
            self.is_spoiled = true;
        }
        Ok(v)
    }

    fn function(&self, _op: u16, _v: u64, _counts: &[u64]) -> Result<u64, u32> {
        Ok(self.store)
    }

    fn rank(e: u16, _v: u64) -> u8 {
        match e {
            OPEN | CHANGE => 1,
            _ => 0,
        }
    }

    /// Fails, as if memory ran out, while the station is open and calls on `STAY` have to wait.
    fn copy(&self) -> Result<Station, AllocError> {
        if self.is_open && !self.is_released {
            return Err(AllocError);
        }
        Ok(Station {
            store: self.store,
            is_full: self.is_full,
            is_open: self.is_open,
            is_released: self.is_released,
            is_spoiled: self.is_spoiled,
        })
    }

    ghost lawful = { station_lawful };

    ghost use Rattle.std.proofs.Common.{rules};

    ghost equality = { Prim.search rules };
}

/// Requeues a call on `STAY`, with abort (9.5.4).
fn to_stay(value: u64) -> Outcome<u64>
    ensures { result ≡ Requeue 7 true value }
{
    Outcome::Requeue {
        target: STAY,
        with_abort: true,
        value,
    }
}
