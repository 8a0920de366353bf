// SPDX-License-Identifier: MIT
//! What commands are measured on: a core that records its history, or a core whose memory is fixed.

ghost use Rattle.std.specs.Prelude.{◌≡◌, IfSome, Some};

use po_classic_units::{ScriptUnit, Trap};
use po_core::{
    Attempt, BoundedCore, Core, Deadline, End, Order, Record, Recorded, Start, Ticket, Unrecorded,
};
use po_unit::EntryRef;
use std::alloc::{AllocError, Global};

/// The owner of all calls.
const OWNER: u16 = 0;

/// The first procedure: Set of the trap, and Release of the allocator.
const PROCEDURE: u16 = 0;

/// The first entry of the family Wait of the trap.
const WAIT: EntryRef = EntryRef {
    declaration: 0,
    index: Some(1),
};

/// The function State of the trap.
const STATE: u16 = 0;

/// How many uncollected calls a core with fixed memory has room for.
const MOST: usize = 1;

/// The first call is number 1, the first event has place 0, and queues may have any length.
const START: Start = Start {
    first_number: 1,
    first_place: 0,
    max_queue: None,
};

/// Returns a core of the unit with memory for `most` uncollected calls, or `None` if memory runs
/// out.
pub(crate) fn make_bounded<U: ScriptUnit>(
    alloc: Global,
    unit: U,
    order: Order,
    most: usize,
) -> Option<BoundedCore<U>>
    ensures { IfSome result (λ core. core.capacity ≡ Some most) }
{
    let shape = unit.shape(alloc).ok()?;
    BoundedCore::with_capacity(alloc, unit, shape, order, START, most).ok()
}

/// What a measured core keeps of the past.
pub(crate) trait Kept<U: ScriptUnit>: Record<U> + Drop {
    /// Returns a core of the unit that keeps this, or `None` if memory runs out.
    fn make_core(alloc: Global, unit: U, order: Order) -> Option<Core<U, Self>>;
}

impl<U: ScriptUnit> Kept<U> for Recorded<U> {
    fn make_core(alloc: Global, unit: U, order: Order) -> Option<Core<U>> {
        let shape = unit.shape(alloc).ok()?;
        Core::start(alloc, unit, shape, order, START).ok()
    }
}

impl<U: ScriptUnit> Kept<U> for Unrecorded<U> {
    fn make_core(alloc: Global, unit: U, order: Order) -> Option<BoundedCore<U>> {
        make_bounded(alloc, unit, order, MOST)
    }
}

/// An object whose commands are measured.
pub(crate) trait Engine: Drop {
    /// Its unit.
    type Unit;

    /// Returns an object with this unit, or `None` if memory runs out.
    fn make(alloc: Global, unit: Self::Unit, order: Order) -> Option<Self>;

    /// Calls an entry, and returns the ticket if the call isn't refused.
    fn issue(&mut self, entry: EntryRef, value: u64, deadline: Deadline) -> Option<Ticket>;

    /// Collects the call of the ticket, if it has ended.
    fn collect(&mut self, ticket: Ticket) -> Option<End<u64>>;

    /// Runs the first procedure, and returns whether it wasn't refused.
    fn run(&mut self, value: u64) -> bool;

    /// Raises the clock by 1, and returns whether that wasn't refused.
    fn raise_clock(&mut self) -> bool;

    /// Returns what the first function replies.
    fn read(&self) -> Option<u64>;

    /// Calls the first entry, and collects the end unless the call waits.
    fn call(&mut self, deadline: Deadline) -> Option<End<u64>> {
        let ticket = self.issue(WAIT, 1, deadline)?;
        self.collect(ticket)
    }
}

/// An object whose waiting calls are cancelled by their numbers.
pub(crate) trait Cancelling: Engine {
    /// Returns whether the call of the ticket waits.
    fn is_waiting(&self, ticket: Ticket) -> bool;

    /// Tries to cancel the call of the ticket, and returns whether it is cancelled.
    fn cancel(&mut self, ticket: Ticket) -> bool;
}

/// Makes a trap at level 0, which closes the entries of its family Wait.
pub(crate) fn make_trap<E: Engine<Unit = Trap>>(alloc: Global) -> Result<E, AllocError> {
    E::make(alloc, Trap::new(), Order::Textual).ok_or(AllocError)
}

impl<U: ScriptUnit, R: Kept<U>> Engine for Core<U, R> {
    type Unit = U;

    fn make(alloc: Global, unit: U, order: Order) -> Option<Core<U, R>> {
        R::make_core(alloc, unit, order)
    }

    fn issue(&mut self, entry: EntryRef, value: u64, deadline: Deadline) -> Option<Ticket> {
        Core::issue(self, OWNER, entry, value, deadline).ok()
    }

    fn collect(&mut self, ticket: Ticket) -> Option<End<u64>> {
        Core::collect(self, ticket)
    }

    fn run(&mut self, value: u64) -> bool {
        Core::procedure(self, OWNER, PROCEDURE, value).is_ok()
    }

    fn raise_clock(&mut self) -> bool {
        self.tick(self.clock().saturating_add(1)).is_ok()
    }

    fn read(&self) -> Option<u64> {
        Core::function(self, STATE, 0).ok()?.ok()
    }
}

impl<U: ScriptUnit> Cancelling for Core<U> {
    fn is_waiting(&self, ticket: Ticket) -> bool {
        Core::is_waiting(self, ticket.number)
    }

    fn cancel(&mut self, ticket: Ticket) -> bool {
        matches!(
            Core::cancel_number(self, ticket.number),
            Ok(Attempt::Cancelled)
        )
    }
}
