// SPDX-License-Identifier: MIT
//! What is known of the waiting calls of each seat, so that one is found without a walk over the calls of all seats.

ghost use Rattle.std.specs.Prelude.{◌≡◌, ◌≢◌, ◌<◌, IfOk, IfSome, None, option_map, find, length, slice_set, true, false, if◌then◌else◌};
ghost use Rattle.po_calls.specs.declared.end.CallStatus.TheVariants.{Waiting};
ghost use Rattle.po_engine.specs.WaitingCalls.{is_of};
ghost use Rattle.po_engine.specs.Tickets.{is_live};
ghost use Rattle.po_core.specs.View.{IsInOnePlace};
ghost use Rattle.po_core.specs.Tickets.{status_of_ticket};
ghost use Rattle.po_object.specs.LatestCalls.{latest_of, KnowsLatest, MayWait, NoneIssued};

use po_core::{CallStatus, Core, Record, Ticket};
use po_unit::Unit;
use std::alloc::{AllocError, Global};
use std::marker::Model;

/// What is known of the waiting calls of one seat.
#[derive(Clone, Copy)]
pub(crate) enum Latest {
    /// No call waits.
    Never,
    /// If a call waits, it is the one with this ticket, which the seat issued last.
    Only(Ticket),
    /// Other calls may wait besides the one that the seat issued last.
    Several,
}

/// What is known of the waiting calls of each seat. Contracts see it as a list, by seat.
///
/// A pass makes one call at a time, so `Several` never occurs through an object. The value behind the lock can't know that, so
/// for `Several` it falls back on a walk.
#[derive(Drop)]
pub(crate) struct LatestCalls {
    by_seat: Vec<Latest>,
}

impl Model for LatestCalls {
    ghost use Rattle.std.specs.Prelude.{List};
    ghost use Rattle.po_object.specs.declared.latest.Latest.{Latest};

    ghost Value = { List Latest };

    ghost view = { λ c. c.by_seat.items };
}

impl LatestCalls {
    /// Returns the list for seats of which none has issued a call.
    pub(crate) fn new(alloc: Global, seats: u16) -> Result<LatestCalls, AllocError>
        ensures { IfOk result (λ c. NoneIssued seats c) }
    {
        let by_seat = vec![in alloc; Latest::Never; seats as usize]?;
        Ok(LatestCalls { by_seat })
    }

    /// Returns what is known of the seat.
    fn of_seat(&self, seat: u16) -> Latest
        ensures { result ≡ latest_of self.now seat }
    {
        self.by_seat
            .get(seat as usize)
            .copied()
            .unwrap_or(Latest::Never)
    }

    /// Returns the ticket of the seat's earliest queued call.
    pub(crate) fn waiting_ticket_of<U: Unit, R: Record<U>>(
        &self,
        core: &Core<U, R>,
        seat: u16,
    ) -> Option<Ticket>
        requires { KnowsLatest self.now core.now }
        ensures number { option_map (λ t. t.number) result ≡
            option_map (λ x. x.number) (find (is_of seat) core.now.object.state.waiting) }
        ensures live { IfSome result (λ t. is_live core.now.tickets t ≡ true) }
    {
        match self.of_seat(seat) {
            Latest::Never => None,
            Latest::Only(ticket) => waits(core, ticket).then_some(ticket),
            Latest::Several => core.waiting_ticket_of(seat),
        }
    }

    /// Returns whether it is known that no call of the seat waits.
    pub(crate) fn is_idle<U: Unit, R: Record<U>>(&self, core: &Core<U, R>, seat: u16) -> bool
        requires { KnowsLatest self.now core.now }
        ensures none { result ≡ true → find (is_of seat) core.now.object.state.waiting ≡ None }
        ensures some { result ≡ false → MayWait core.now (latest_of self.now seat) }
    {
        match self.of_seat(seat) {
            Latest::Never => true,
            Latest::Only(ticket) => !waits(core, ticket),
            Latest::Several => false,
        }
    }

    /// Notes that the seat has issued the call of this ticket. `idle` says whether it was known that no call of the seat
    /// waited.
    pub(crate) fn note(&mut self, seat: u16, ticket: Ticket, idle: bool)
        requires { seat < length self.old }
        ensures { self.new ≡ slice_set self.old seat (if idle then Latest.Only ticket else Latest.Several) }
    {
        self.by_seat[seat as usize] = if idle {
            Latest::Only(ticket)
        } else {
            Latest::Several
        };
    }
}

/// Returns whether the call of the ticket waits.
fn waits<U: Unit, R: Record<U>>(core: &Core<U, R>, ticket: Ticket) -> bool
    ensures waits { result ≡ true → status_of_ticket core.now ticket ≡ Waiting }
    ensures placed { IsInOnePlace core.now.object.setup.first_number core.now.object.state }
    ensures not { result ≡ false → status_of_ticket core.now ticket ≢ Waiting }
{
    core.headline();
    matches!(core.end_of(ticket), CallStatus::Waiting)
}
