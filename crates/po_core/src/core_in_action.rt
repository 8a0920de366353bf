// SPDX-License-Identifier: MIT
//! An object with its record, in the middle of a protected action or between two.

ghost use Rattle.std.specs.Prelude.{◌≡◌, ◌<◌, ◌≤◌, ◌&&◌, [], find, is_some, option_map, None, Some, true, false, MatchOption, MatchBool, MatchResult, IfOk, IfErr, IfNone, IfSome, OnSome, OnOk, OnErr};
ghost use Rattle.po_unit.specs.Numbering.{entry_count, is_public};
ghost use Rattle.po_engine.specs.Finding.{IsFound};
ghost use Rattle.po_engine.specs.Tickets.{number_at, is_live, SetsTicket};
ghost use Rattle.po_engine.specs.WaitingCalls.{has_number, is_of};
ghost use Rattle.po_engine.specs.ObjectState.{IsAtRest, counts_in, opening_state};
ghost use Rattle.po_engine.specs.Step.{MayBegin};
ghost use Rattle.po_engine.specs.Pick.{pick, weight};
ghost use Rattle.po_core.specs.View.{ended_now, last_served, next_place, opening_view};
ghost use Rattle.po_core.specs.Progress.{Settles, Begins, Happens, IsSameCommand};
ghost use Rattle.po_core.specs.ProtectedAction.{settled, without_event};
ghost use Rattle.po_core.specs.Headline.{IsSound};
ghost use Rattle.po_core.specs.Tickets.{capacity_of, status_of_ticket, end_of_ticket};
ghost use Rattle.po_core.specs.Refusals.{MayRefuse, cancel_refusal, if_full, if_uncounted};
ghost use Rattle.po_core.specs.Tracking.{opening_of};
ghost use Rattle.po_core.specs.Noting.{known_of};

use crate::Setup;
use crate::record::{Record, note};
use crate::refusal::Refusal;
use po_calls::{Call, CallStatus, Deadline, End, Ticket};
use po_engine::{Ended, State, served_by};
use po_history::Event;
use po_unit::Unit;
use std::marker::Model;

/// An object in the middle of a protected action or between two: its state, and a record of what has happened.
#[derive(Drop)]
pub(crate) struct CoreInAction<U: Unit, R: Record<U>> {
    pub(crate) setup: Setup<U>,
    pub(crate) state: State<U>,
    pub(crate) kept: R,
    /// The place of the next event.
    pub(crate) place: u128,
    /// The entry that was served last.
    pub(crate) last: Option<u16>,
}

impl<U: Unit, R: Record<U>> Model for CoreInAction<U, R> {
    ghost use Rattle.po_engine.specs.Pick.{owed};
    ghost use Rattle.po_core.specs.Tickets.{CoreView, capacity_of as the_capacity};
    ghost use Rattle.po_core.specs.Tracking.{IsTracked};
    ghost use Rattle.po_core.specs.Noting.{known_of as what_is_known};

    ghost Value = { CoreView U U.Value };

    ghost view = { λ a. record {
      object = record {
        setup = a.setup;
        base = R.base a.setup a.kept;
        events = R.events a.kept;
        state = a.state.state;
        ended_before = a.state.before;
      };
      tickets = a.state.tickets;
      capacity = the_capacity a.state;
    } };

    ghost invariant = { λ a. record {
      tracked : IsTracked U.meaning a.setup (R.base a.setup a.kept) a.state (R.events a.kept) a.place a.last;
      has : R.IsOf a.setup a.kept (what_is_known a.state) (owed U.meaning a.state.state) 0;
    } };
}

/// Returns the rank of a call, which is a byte.
fn rank_of<U: Unit>(e: u16, v: U::Value) -> u8
    ensures rank { result ≡ U.meaning.rank e v }
    ensures low { U.meaning.rank e v ≤ 255 }
{
    U::rank(e, v)
}

impl<U: Unit, R: Record<U>> CoreInAction<U, R> {
    /// Makes an object without events.
    pub(crate) fn new(setup: Setup<U>, state: State<U>, kept: R) -> CoreInAction<U, R>
        requires total { U.meaning.entries setup.opening ≡ entry_count setup.shape }
        requires state { state ≡ record {
          state = opening_state setup.opening setup.first_number;
          places = [];
          serving = None;
          tickets = [];
          keys = [];
          first = setup.first_number;
          capacity = state.capacity;
          is_fixed = state.is_fixed;
          before = 0;
        } }
        requires base { R.base setup kept ≡ opening_of setup }
        requires events { R.events kept ≡ [] }
        requires has { R.IsOf setup kept (known_of state) 1 0 }
        ensures { result ≡ record { object = opening_view setup; tickets = []; capacity = capacity_of state } }
    {
        // `_number` is only for the prover: it brings the bound of the first number into the proof.
        let (place, _number) = (u128::from(setup.first_place()), setup.first_number());
        CoreInAction {
            setup,
            state,
            kept,
            place,
            last: None,
        }
    }

    /// Carries out the next inner event, if there is one, and returns whether there was.
    fn step(&mut self) -> bool
        ensures step { MatchOption (pick U.meaning self.old.object.setup.order (last_served self.old.object) self.old.object.state)
            ((result ≡ false) × (self.new ≡ self.old))
            (λ e. (result ≡ true) × Happens U.meaning self.old.object self.new.object e) }
        ensures same { IsSameCommand self.old.object self.new.object }
        ensures tickets { self.new.tickets ≡ self.old.tickets }
        ensures capacity { self.new.capacity ≡ self.old.capacity }
        ensures falls { MatchBool result (weight U.meaning self.new.object.state < weight U.meaning self.old.object.state) (IsAtRest U.meaning self.new.object.state) }
    {
        match self.state.pick(self.setup.order(), self.last) {
            Some(event) => {
                let noted = self.state.ended_now().len();
                let queueing = self.setup.queueing(self.place);
                self.state.perform(queueing, event);
                note(&mut self.kept, &self.setup, &self.state, event, noted, None);
                self.place += 1;
                self.last = served_by(self.last, event);
                true
            }
            None => false,
        }
    }

    /// Carries out the inner events that follow, up to rest.
    pub(crate) fn settle(&mut self)
        ensures settles { Settles U.meaning self.old.object self.new.object }
        ensures exact { self.new ≡ record self.old { object = settled U.meaning self.old.object } }
        ensures rest { IsAtRest U.meaning self.new.object.state }
        ensures same { IsSameCommand self.old.object self.new.object }
    {
        while self.step() {}
    }

    /// Issues a call.
    pub(crate) fn issue(
        &mut self,
        owner: u16,
        e: u16,
        v: U::Value,
        deadline: Deadline,
    ) -> Result<Ticket, Refusal>
        requires begin { MayBegin U.meaning self.old.object.state }
        requires entry { e < U.meaning.entries self.old.object.state.unit }
        requires public { is_public self.old.object.setup.shape e ≡ true }
        requires number { self.old.object.state.next < u64.MAX }
        ensures begins { OnOk result (Begins U.meaning self.old.object self.new.object (Event.Issue self.old.object.state.next owner e v deadline)) }
        ensures number { IfOk result (λ ticket. ticket.number ≡ self.old.object.state.next) }
        ensures key { IfOk result (λ ticket. number_at self.old.tickets ticket.key ≡ None) }
        ensures ticket { IfOk result (λ ticket.
            SetsTicket self.old.tickets self.new.tickets ticket.key (Some ticket.number)) }
        ensures capacity { self.new.capacity ≡ self.old.capacity }
        ensures allowed { OnOk result (if_full self.old.capacity self.old.tickets ≡ None) }
        ensures refused { IfErr result (MayRefuse self.old.capacity (if_full self.old.capacity self.old.tickets)) }
        ensures err { OnErr result (self.new ≡ self.old) }
    {
        let rank = rank_of::<U>(e, v);
        self.kept.reserve_call(&self.setup, &mut self.state, rank)?;
        self.state.begin();
        let event = Event::Issue {
            n: self.state.next_number(),
            owner,
            e,
            v,
            deadline,
        };
        let queueing = self.setup.queueing(self.place);
        let ticket = self.state.issue(queueing, owner, e, v, deadline);
        note(
            &mut self.kept,
            &self.setup,
            &self.state,
            event,
            0,
            Some(ticket),
        );
        self.place += 1;
        Ok(ticket)
    }

    /// Runs a procedure, and returns its reply.
    pub(crate) fn procedure(
        &mut self,
        owner: u16,
        op: u16,
        v: U::Value,
    ) -> Result<Result<U::Value, u32>, Refusal>
        requires begin { MayBegin U.meaning self.old.object.state }
        requires op { op < U.meaning.procedures self.old.object.state.unit }
        requires place { next_place self.old.object < u64.MAX }
        ensures reply { IfOk result (λ reply. reply ≡ (U.meaning.procedure self.old.object.state.unit op v (counts_in U.meaning self.old.object.state)).1) }
        ensures begins { IfOk result (λ reply. Begins U.meaning self.old.object self.new.object (Event.Procedure owner op v reply)) }
        ensures tickets { self.new.tickets ≡ self.old.tickets }
        ensures capacity { self.new.capacity ≡ self.old.capacity }
        ensures refused { IfErr result (MayRefuse self.old.capacity None) }
        ensures err { OnErr result (self.new ≡ self.old) }
    {
        self.kept
            .reserve_event(&self.setup, &self.state, self.place)?;
        self.state.recall_invariant();
        self.state.begin();
        let reply = self.state.procedure(op, v);
        let event = Event::Procedure {
            owner,
            op,
            v,
            reply,
        };
        note(&mut self.kept, &self.setup, &self.state, event, 0, None);
        self.place += 1;
        Ok(reply)
    }

    /// Cancels the queued call of the ticket, or marks it as aborted.
    pub(crate) fn attempt_cancel(&mut self, ticket: Ticket)
        requires begin { MayBegin U.meaning self.old.object.state }
        requires live { is_live self.old.tickets ticket ≡ true }
        requires found { IsFound (λ x. (x.without_abort && x.aborted) ≡ false) (find (has_number ticket.number) self.old.object.state.waiting) }
        ensures begins { Begins U.meaning self.old.object self.new.object (Event.Cancel ticket.number) }
        ensures tickets { self.new.tickets ≡ self.old.tickets }
        ensures capacity { self.new.capacity ≡ self.old.capacity }
    {
        self.state.begin();
        self.state.attempt_cancel(ticket);
        let event = Event::Cancel(ticket.number);
        note(&mut self.kept, &self.setup, &self.state, event, 0, None);
        self.place += 1;
    }

    /// Raises the clock.
    pub(crate) fn tick(&mut self, t: u64) -> Result<(), Refusal>
        requires begin { MayBegin U.meaning self.old.object.state }
        ensures begins { OnOk result (Begins U.meaning self.old.object self.new.object (Event.Tick t)) }
        ensures tickets { self.new.tickets ≡ self.old.tickets }
        ensures capacity { self.new.capacity ≡ self.old.capacity }
        ensures allowed { OnOk result (if_uncounted self.old.capacity (next_place self.old.object) ≡ None) }
        ensures refused { IfErr result (MayRefuse self.old.capacity (if_uncounted self.old.capacity (next_place self.old.object))) }
        ensures err { OnErr result (self.new ≡ self.old) }
    {
        self.kept
            .reserve_event(&self.setup, &self.state, self.place)?;
        self.state.recall_invariant();
        self.state.begin();
        self.state.tick(t);
        let event = Event::Tick(t);
        note(&mut self.kept, &self.setup, &self.state, event, 0, None);
        self.place += 1;
        Ok(())
    }

    /// Finalizes the object, and ends all queued calls.
    pub(crate) fn finalize(&mut self)
        requires begin { MayBegin U.meaning self.old.object.state }
        ensures begins { Begins U.meaning self.old.object self.new.object Event.Finalize }
        ensures tickets { self.new.tickets ≡ self.old.tickets }
        ensures capacity { self.new.capacity ≡ self.old.capacity }
    {
        self.state.begin();
        self.state.finalize();
        let event = Event::Finalize;
        note(&mut self.kept, &self.setup, &self.state, event, 0, None);
        self.place += 1;
    }

    /// Carries out a command that has no event and ends no call.
    pub(crate) fn pass(&mut self)
        ensures { self.new ≡ record self.old { object = without_event self.old.object } }
    {
        self.state.begin();
    }

    /// Returns the waiting call of the ticket, or else the refusal of an attempt to cancel it.
    pub(crate) fn cancellable(&self, ticket: Ticket) -> Result<Call<U::Value>, Refusal>
        ensures live { OnOk result (is_live self.now.tickets ticket ≡ true) }
        ensures found { IfOk result (λ x. find (has_number ticket.number) self.now.object.state.waiting ≡ Some x) }
        ensures refused { MatchResult result
            (λ _. cancel_refusal (status_of_ticket self.now ticket) ≡ None)
            (λ r. cancel_refusal (status_of_ticket self.now ticket) ≡ Some r) }
    {
        match self.state.status(ticket) {
            CallStatus::Unknown => Err(Refusal::UnknownCall),
            CallStatus::Ended(_) => Err(Refusal::AlreadyEnded),
            CallStatus::Waiting => match self.state.waiting_call(ticket) {
                Some(call) => Ok(call),
                None => Err(Refusal::AlreadyEnded),
            },
        }
    }

    /// Takes the end of the call of a ticket, if it has ended, and makes the ticket Unknown for good. Otherwise nothing
    /// changes.
    pub(crate) fn collect(&mut self, ticket: Ticket) -> Option<End<U::Value>>
        ensures end { result ≡ end_of_ticket self.old ticket }
        ensures object { self.new.object ≡ self.old.object }
        ensures taken { OnSome result (SetsTicket self.old.tickets self.new.tickets ticket.key None) }
        ensures capacity { self.new.capacity ≡ self.old.capacity }
        ensures left { IfNone result (self.new ≡ self.old) }
    {
        self.state.collect(ticket)
    }

    /// Returns whether the call of a ticket waits, has ended or is unknown.
    pub(crate) fn status_of(&self, ticket: Ticket) -> CallStatus<U::Value>
        ensures { result ≡ status_of_ticket self.now ticket }
    {
        self.state.status(ticket)
    }

    /// Returns the ticket of the owner's earliest queued call.
    pub(crate) fn waiting_ticket_of(&self, owner: u16) -> Option<Ticket>
        ensures number { option_map (λ t. t.number) result ≡
            option_map (λ x. x.number) (find (is_of owner) self.now.object.state.waiting) }
        ensures live { IfSome result (λ t. is_live self.now.tickets t ≡ true) }
    {
        self.state.waiting_ticket_of(owner)
    }

    /// Recalls for proofs what holds of every history, such as that it replays from its base.
    pub(crate) fn recall_invariant(&self)
        ensures { IsSound U.meaning self.now.object }
    {
        // Only for the prover: brings the object's invariant into the proof.
        let _ = &self.state;
    }

    /// Recalls for proofs whether the number of uncollected calls is fixed.
    pub(crate) fn recall_kind(&self)
        ensures { is_some self.now.capacity ≡ R.is_bounded }
    {
        self.kept.recall_kind(&self.setup, &self.state);
    }

    /// Returns what the object was made with.
    pub(crate) fn setup(&self) -> &Setup<U>
        ensures { result.now ≡ self.now.object.setup }
    {
        &self.setup
    }

    /// Returns how many calls may be uncollected at once, if that number is fixed.
    pub(crate) fn capacity(&self) -> Option<usize>
        ensures { result ≡ self.now.capacity }
    {
        self.state.capacity()
    }

    /// Returns the data of the object and its calls.
    pub(crate) fn state(&self) -> &State<U>
        ensures { result.now.state ≡ self.now.object.state }
    {
        &self.state
    }

    /// Returns the place of the next event.
    pub(crate) fn place(&self) -> u128
        ensures { result ≡ next_place self.now.object }
    {
        self.place
    }

    /// Returns the entry that servicing served last, if it has served one.
    pub(crate) fn last_served(&self) -> Option<u16>
        ensures { result ≡ last_served self.now.object }
    {
        self.last
    }

    /// Returns the calls that the last command ended.
    pub(crate) fn ended_now(&self) -> &[Ended<U::Value>]
        ensures { result.now ≡ ended_now self.now.object }
    {
        self.state.ended_now()
    }
}
