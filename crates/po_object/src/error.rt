// SPDX-License-Identifier: MIT
//! Why an object isn't opened, and why it isn't closed.

use crate::Pass;
use crate::ledgers::Story;
use crate::object::Object;
use crate::steps::{Hook, NoHook};
use po_core::{Core, Event, Record, Recorded, Unrecorded};
use po_log::Keeper;
use po_receipts::{Receipt, Receipts};
use po_unit::Unit;
use std::fmt;
use std::sync::ledger::{Blank, Ledger};
use thiserror::Error;

/// Why no object is opened, with the core, the blanks of the ledgers and the keeper of the log, as they were.
#[derive(Drop, Error)]
pub enum OpenError<U: Unit, R: Record<U> = Recorded<U>> {
    /// 1: the core has an event, or had one before a cut.
    #[error("the core has events already: an object is opened over a new core")]
    NotFresh(Core<U, R>, Blank, Blank, Keeper<Event<<U as Unit>::Value>>),
    /// 2: memory ran out.
    #[error("out of memory")]
    OutOfMemory(Core<U, R>, Blank, Blank, Keeper<Event<<U as Unit>::Value>>),
}

impl<U: Unit, R: Record<U>> fmt::Debug for OpenError<U, R> {
    fn fmt<W: fmt::Write>(&self, f: &mut fmt::Formatter<W>) -> fmt::Result {
        match self {
            OpenError::NotFresh(..) => f.write_str("NotFresh"),
            OpenError::OutOfMemory(..) => f.write_str("OutOfMemory"),
        }
    }
}

/// Why no bounded object is opened, with everything that was given for it, as it was.
#[derive(Drop, Error)]
#[error("{fault}")]
pub struct BoundedOpenError<U: Unit, R: Record<U> = Unrecorded<U>> {
    /// The error, with the core, the blanks of the ledgers of calls and procedures, and the keeper of the log.
    pub fault: OpenError<U, R>,
    /// The blank of the ledger of free passes.
    pub free: Blank,
}

impl<U: Unit, R: Record<U>> fmt::Debug for BoundedOpenError<U, R> {
    fn fmt<W: fmt::Write>(&self, f: &mut fmt::Formatter<W>) -> fmt::Result {
        self.fault.fmt(f)
    }
}

/// Why an object isn't closed, with the object and the passes. The passes are as they were. The object has the same number of
/// seats, which is all that contracts see of it.
#[derive(Drop, Error)]
pub enum CloseError<
    U: Unit,
    C: Story<U, <U as Unit>::Value>,
    P: Ledger,
    F: Ledger = C,
    R: Record<U> = Recorded<U>,
    Q: Receipts<<U as Unit>::Value> = Vec<Receipt<<U as Unit>::Value>>,
    S: Hook = NoHook,
> {
    /// 1: a seat doesn't have exactly one of the passes.
    #[error("seat {seat} doesn't have exactly one of the passes that were given back")]
    PassMissing {
        /// The lowest such seat.
        seat: u16,
        /// The object.
        object: Object<U, C, P, F, R, Q, S>,
        /// The passes.
        passes: Vec<Pass<U::Value, C, P, F, Q>>,
    },
}

impl<
    U: Unit,
    C: Story<U, U::Value>,
    P: Ledger,
    F: Ledger,
    R: Record<U>,
    Q: Receipts<U::Value>,
    S: Hook,
> fmt::Debug for CloseError<U, C, P, F, R, Q, S> {
    fn fmt<W: fmt::Write>(&self, f: &mut fmt::Formatter<W>) -> fmt::Result {
        match self {
            CloseError::PassMissing { seat, .. } => write!(f, "PassMissing {{ seat: {seat} }}"),
        }
    }
}
