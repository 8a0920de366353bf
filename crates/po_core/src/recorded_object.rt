// SPDX-License-Identifier: MIT
//! What an object does with a record in memory: it reads it, finds a call by its number, and cuts
//! the history.

ghost use Rattle.std.specs.Prelude.{◌≡◌, ◌<◌, find, option_map, None, true, IfOk, OnOk, OnErr, IfSome};
ghost use Rattle.po_engine.specs.Ending.{has_ended};
ghost use Rattle.po_engine.specs.Tickets.{is_live};
ghost use Rattle.po_engine.specs.WaitingCalls.{has_number};
ghost use Rattle.po_core.specs.View.{base_state, next_place};
ghost use Rattle.po_core.specs.Cutting.{cut, cut_off, procedures_run};

use crate::base::Base;
use crate::core_in_action::CoreInAction;
use crate::recorded::Recorded;
use po_calls::{Call, End, Ticket};
use po_engine::Ended;
use po_history::{Event, Volume};
use po_unit::Unit;
use std::alloc::AllocError;

impl<U: Unit + Drop> CoreInAction<U, Recorded<U>> {
    /// Cuts off the events since the base as a volume. The present picture becomes the base.
    pub(crate) fn cut(&mut self) -> Result<Volume<U::Value>, AllocError>
        requires { next_place self.old.object < u64.MAX }
        ensures volume { IfOk result (λ volume. volume ≡ cut_off self.old.object) }
        ensures after { OnOk result (self.new ≡ record self.old { object = cut U.meaning self.old.object }) }
        ensures err { OnErr result (self.new ≡ self.old) }
    {
        let unit = self.state.unit().copy()?;
        let waiting = self.state.arrivals()?;
        let place = self.kept.history.place() as u64;
        let volume = self.kept.history.cut()?;
        self.kept.base = Base {
            unit,
            waiting,
            ended: self.kept.ended.len(),
            next: self.state.next_number(),
            clock: self.state.clock(),
            finalized: self.state.is_finalized(),
            place,
            ran: self.kept.ran,
            last: self.last,
        };
        Ok(volume)
    }
}

impl<U: Unit> CoreInAction<U, Recorded<U>> {
    /// Returns the ticket of the queued call with number n, and the call.
    pub(crate) fn waiting_call(&self, n: u64) -> Option<(Ticket, Call<U::Value>)>
        ensures call { option_map (λ found. found.1) result ≡ find (has_number n) self.now.object.state.waiting }
        ensures live { IfSome result (λ found. is_live self.now.tickets found.0 ≡ true) }
        ensures number { IfSome result (λ found. found.0.number ≡ n) }
    {
        self.state.recall_invariant();
        let ticket = self.kept.ticket_of(self.setup.first_number(), n)?;
        let call = self.state.waiting_call(ticket)?;
        Some((ticket, call))
    }

    /// Returns what the history replays from.
    pub(crate) fn base(&self) -> &Base<U>
        ensures { result.now ≡ self.now.object.base }
    {
        &self.kept.base
    }

    /// Returns the events of the history since the base.
    pub(crate) fn events(&self) -> &[Event<U::Value>]
        ensures { result.now ≡ self.now.object.events }
    {
        self.kept.history.events()
    }

    /// Returns how the call with number n ended, if it has.
    pub(crate) fn outcome(&self, n: u64) -> Option<End<U::Value>>
        ensures { result ≡ option_map (λ x. x.end) (find (has_ended n) self.now.object.state.ended) }
    {
        self.kept.history.outcome(n)
    }

    /// Returns how many procedures have run in the whole history.
    pub(crate) fn procedures_run(&self) -> u64
        ensures { result ≡ procedures_run self.now.object }
    {
        self.kept.ran
    }

    /// Returns the calls that had ended at the base, in the order in which they ended.
    pub(crate) fn ended_at_base(&self) -> &[Ended<U::Value>]
        ensures { result.now ≡ (base_state self.now.object).ended }
    {
        &self.kept.ended[..self.kept.base.ended]
    }

    /// Recalls for proofs that memory is taken for each call, so the number of calls isn't fixed.
    pub(crate) fn recall_unbounded(&self)
        ensures { self.now.capacity ≡ None }
    {
        // Only for the prover: brings the object's invariant into the proof.
        let _ = &self.kept;
    }
}
