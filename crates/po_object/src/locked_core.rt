// SPDX-License-Identifier: MIT
//! The value behind an object's lock, which callers command through their passes.

ghost use Rattle.std.specs.Prelude.{ℕ, ◌≡◌, ◌<◌, ◌≤◌, ◌+◌, ◌⊎◌, ◌∷◌, ◌++◌, [], None, Some, find, is_some, length, unwrap_or, List, IfOk, IfErr, IfSome, IfNone, IsSome, OnOk, OnErr, OnSome, MatchResult, slice_index};
ghost use Rattle.po_engine.specs.Tickets.{number_at, SetsTicket};
ghost use Rattle.po_engine.specs.WaitingCalls.{is_of};
ghost use Rattle.po_engine.specs.Finding.{IsFound};
ghost use Rattle.po_history.specs.Histories.{VolumeView};
ghost use Rattle.po_history.specs.declared.event.Event.{Event};
ghost use Rattle.po_core.specs.Tickets.{CoreView, end_of_ticket};
ghost use Rattle.po_core.specs.View.{base_state, next_place};
ghost use Rattle.po_core.specs.Cutting.{cut, cut_off, Leads, KeepsArrivals, KeepsVolumes, procedures_run, AreVolumes};
ghost use Rattle.po_core.specs.Commands.{issue_of, reply_of};
ghost use Rattle.po_core.specs.ProtectedAction.{IsProtectedAction, IsAttemptOf, after_action, after_attempt, attempt_answer};
ghost use Rattle.po_core.specs.Commands.{entry_of};
ghost use Rattle.po_core.specs.Refusals.{MayRefuse, issue_refusal, procedure_refusal, function_refusal, tick_refusal, finalized_refusal, cut_refusal, if_unindexed};
ghost use Rattle.po_unit.specs.Numbering.{flat_number};
ghost use Rattle.po_engine.specs.ObjectState.{counts_in};
ghost use Rattle.po_core.specs.declared.refusal.Refusal.{Refusal};
ghost use Rattle.po_receipts.specs.Passes.{PassView};
ghost use Rattle.po_receipts.specs.Answers.{AskedBySeats};
ghost use Rattle.po_receipts.specs.OneHistory.{IsWholeLog, Stands, HasEnded, IsTicked, IsFunctionAt, IsCountAt, IsAttempted, IsCutOff, HoldsAt, end_in};
ghost use Rattle.po_object.specs.Filing.{IsFinished, asking, running, seeing};
ghost use Rattle.po_object.specs.Counted.{IsCounted};
ghost use Rattle.po_object.specs.Stories.{IsStory};
ghost use Rattle.po_object.specs.Refused.{IsOutOfMemory, IsTickRefusalOf};
ghost use Rattle.po_object.specs.LatestCalls.{NoneIssued};

use crate::front::{Front, Log, go_on};
use crate::latest::LatestCalls;
use crate::ledgers::Story;
use crate::pass::Pass;
use crate::reservation::Reservations;
use po_core::{
    Attempt, Core, Deadline, End, Event, Record, Recorded, Refusal, Ticket, Unrecorded, Volume,
};
use po_history::Trace;
use po_receipts::{Asked, Receipt, Receipts};
use po_unit::{EntryRef, Unit};
use std::marker::{Model, PhantomData};
use std::snapshot::Snapshot;
use std::sync::ledger::{Book, Ledger, Share};

/// The core of an object, with the books of its ledgers. Contracts see it as its core, so the headline holds of it.
///
/// Each hold of the lock is one command of the core, or a look at it. In its whole history the core has issued as many calls,
/// and run as many procedures, as the tallies of the passes say; only seats asked for them. If the number of calls is fixed,
/// there is memory for one more call of each free pass. `latest` finds a seat's waiting call in constant time. `log` is the
/// whole history, from the opening on.
#[derive(Drop)]
pub struct LockedCore<
    U: Unit,
    C: Story<U, <U as Unit>::Value>,
    P: Ledger,
    F: Ledger = C,
    R: Record<U> = Recorded<U>,
    Q: Receipts<<U as Unit>::Value> = Vec<Receipt<<U as Unit>::Value>>,
> {
    core: Core<U, R>,
    calls: Book<C>,
    procedures: Book<P>,
    reservations: Reservations<F>,
    receipts: PhantomData<Q>,
    last_calls: Share<C>,
    last_procedures: Share<P>,
    latest: LatestCalls,
    log: Log<<U as Unit>::Value, C>,
}

/// The value behind the lock of an object that takes no memory.
pub type BoundedLockedCore<U, C, P, F> = LockedCore<
    U,
    C,
    P,
    F,
    Unrecorded<U>,
    Trace<Receipt<<U as Unit>::Value>>,
>;

impl<
    U: Unit,
    C: Story<U, U::Value>,
    P: Ledger,
    F: Ledger,
    R: Record<U>,
    Q: Receipts<U::Value>,
> Model for LockedCore<U, C, P, F, R, Q> {
    ghost use Rattle.std.specs.Prelude.{◌≡◌, ◌+◌, is_some, length, Some};
    ghost use Rattle.po_core.specs.Tickets.{CoreView};
    ghost use Rattle.po_receipts.specs.Answers.{AskedBySeats};
    ghost use Rattle.po_object.specs.Counted.{IsCounted};
    ghost use Rattle.po_object.specs.LatestCalls.{KnowsLatest};
    ghost use Rattle.po_object.specs.Reservations.{HasRoomFor};
    ghost use Rattle.po_receipts.specs.OneHistory.{IsWholeLog, end_in};

    ghost Value = { CoreView U U.Value };

    ghost view = { λ h. h.core };

    ghost invariant = { λ h. record {
      counted : IsCounted h.core.object h.calls.total h.procedures.total;
      parts : (h.last_calls.parts ≡ 1) × (h.last_procedures.parts ≡ 1);
      amounts : (h.last_calls.amount ≡ 0) × (h.last_procedures.amount ≡ 0);
      shape : h.core.object.setup.shape ≡ C.shape;
      latest : KnowsLatest h.latest h.core;
      bounded : (is_some h.reservations ≡ Q.is_bounded) × (Q.is_bounded ≡ R.is_bounded);
      room : HasRoomFor h.core h.reservations;
      seats : length h.latest + 1 ≡ C.parts;
      asked : AskedBySeats (length h.latest) h.log;
      made : C.setup ≡ Some h.core.object.setup;
      ends : C.end_of ≡ end_in U.meaning h.core.object.setup;
      log : IsWholeLog U.meaning h.core.object h.log;
    } };
}

impl<U: Unit + Drop, C: Story<U, U::Value>, P: Ledger, F: Ledger, Q: Receipts<U::Value>> LockedCore<
    U,
    C,
    P,
    F,
    Recorded<U>,
    Q,
> {
    /// Cuts the history, as `Core::cut` does.
    ///
    /// Refused as `NumbersSpent` or `OutOfMemory`. A finalized object can be cut too.
    pub fn cut(&mut self, front: &mut Front<U::Value, C>) -> Result<Volume<U::Value>, Refusal>
        ensures volume { IfOk result (λ volume. volume ≡ cut_off self.old.object) }
        ensures after { OnOk result (self.new ≡ record self.old { object = cut U.meaning self.old.object }) }
        ensures leads { IfOk result (λ volume. Leads U.meaning self.old.object.setup volume.events
            (base_state self.old.object) (base_state self.new.object)) }
        ensures arrivals { OnOk result (KeepsArrivals U.meaning self.old.object self.new.object) }
        ensures procedures { OnOk result (procedures_run self.new.object ≡ procedures_run self.old.object) }
        ensures joins { IfOk result (λ volume. (volumes : List (VolumeView U.Value)) →
            AreVolumes U.meaning self.old.object volumes → AreVolumes U.meaning self.new.object (volumes ++ volume ∷ [])) }
        // The volume is the last part of the history of the object.
        ensures cut_off { IfOk result (λ volume. IsFound (λ setup. IsCutOff U.meaning setup volume front.old front.new) C.setup) }
        // Only seats asked for what is in it.
        ensures asked { IfOk result (λ volume. (seats : ℕ) → C.parts ≡ seats + 1 → AskedBySeats seats volume.events) }
        ensures allowed { OnOk result (cut_refusal self.old.object ≡ None) }
        ensures refused { IfErr result (λ r.
            r ≡ unwrap_or (cut_refusal self.old.object) Refusal.OutOfMemory) }
        // It is refused at a moment of that history.
        ensures refused_at { IfErr result (λ r. IsFound (λ setup. HoldsAt U.meaning setup
            (λ view. r ≡ unwrap_or (cut_refusal view) Refusal.OutOfMemory) front.old front.new) C.setup) }
        ensures unchanged { OnErr result (self.new ≡ self.old) }
    {
        self.core.headline();
        self.log.show_to(front);
        let volume = self.core.cut()?;
        Ok(volume)
    }
}

impl<
    U: Unit,
    C: Story<U, U::Value>,
    P: Ledger,
    F: Ledger,
    R: Record<U>,
    Q: Receipts<U::Value>,
> LockedCore<U, C, P, F, R, Q> {
    pub(crate) fn new(
        core: Core<U, R>,
        calls: Book<C>,
        procedures: Book<P>,
        reservations: Reservations<F>,
        last_calls: Share<C>,
        last_procedures: Share<P>,
        latest: LatestCalls,
        log: Log<U::Value, C>,
    ) -> LockedCore<U, C, P, F, R, Q>
        requires fresh { next_place core.object ≡ core.object.setup.first_place }
        requires shape { core.object.setup.shape ≡ C.shape }
        requires story { IsStory U.meaning core.object.setup C.setup C.end_of }
        requires log { log ≡ [] }
        requires totals { (calls.total ≡ 0) × (procedures.total ≡ 0) }
        requires parts { (last_calls.parts ≡ 1) × (last_procedures.parts ≡ 1) }
        requires amounts { (last_calls.amount ≡ 0) × (last_procedures.amount ≡ 0) }
        requires seats { length latest + 1 ≡ C.parts }
        requires latest { NoneIssued (length latest) latest }
        requires bounded { (is_some reservations ≡ Q.is_bounded) × (Q.is_bounded ≡ R.is_bounded) }
        // There is memory for one call of each free pass.
        requires room { IfSome reservations (λ n. IfSome core.capacity (λ most. n ≤ most)) }
        ensures { result ≡ core }
    {
        core.headline();
        core.recall_kind();
        LockedCore {
            core,
            calls,
            procedures,
            reservations,
            receipts: PhantomData,
            last_calls,
            last_procedures,
            latest,
            log,
        }
    }

    /// Returns the core.
    pub fn core(&self) -> &Core<U, R>
        ensures core { result.now ≡ self.now }
        // The ledger of calls names the declarations of the core's entries.
        ensures shape { self.now.object.setup.shape ≡ C.shape }
    {
        &self.core
    }

    /// Issues a call from the pass's seat (9.5.3), as `Core::issue` does. It is then the pass's pending call.
    ///
    /// Refused as `NoSuchEntry`, `PrivateEntry`, `BadIndex`, `Finalized` or `NumbersSpent`. If the number of calls isn't fixed,
    /// also as `OutOfMemory`, which comes first if there is no room for a receipt. There is always room for the call, so it is
    /// never refused as `TooManyCalls`. Accepted or refused, its caller has then seen the history up to now.
    pub fn issue(
        &mut self,
        pass: &mut Pass<U::Value, C, P, F, Q>,
        entry: EntryRef,
        value: U::Value,
        deadline: Deadline,
    ) -> Result<Ticket, Refusal>
        requires { pass.old.pending ≡ None }
        ensures after { OnOk result (self.new.object ≡
            after_action U.meaning self.old.object (issue_of self.old.object pass.old.seat entry value deadline)) }
        ensures number { IfOk result (λ ticket. ticket.number ≡ self.old.object.state.next) }
        // No uncollected call had the key of the ticket.
        ensures key { IfOk result (λ ticket. number_at self.old.tickets ticket.key ≡ None) }
        ensures ticket { IfOk result (λ ticket.
            SetsTicket self.old.tickets self.new.tickets ticket.key (Some ticket.number)) }
        ensures capacity { self.new.capacity ≡ self.old.capacity }
        ensures volumes { OnOk result (KeepsVolumes U.meaning self.old.object self.new.object) }
        ensures action { OnOk result (IsProtectedAction U.meaning self.old.object self.new.object
            (issue_of self.old.object pass.old.seat entry value deadline)) }
        ensures pending { IfOk result (λ ticket. pass.new ≡ asking pass.old (record {
          ticket = ticket;
          entry = entry_of C.shape entry;
          value = value;
          deadline = deadline;
        }) pass.new.seen) }
        // The call is in the history of the object, after all that was seen before.
        ensures issued { IfOk result (λ ticket. IsFound (λ setup. Stands U.meaning setup
            (Event.Issue ticket.number pass.old.seat (entry_of C.shape entry) value deadline) pass.old.seen pass.new.seen) C.setup) }
        // The ledger of calls names the declarations of the core's entries.
        ensures shape { self.old.object.setup.shape ≡ C.shape }
        ensures allowed { OnOk result (issue_refusal self.old.object entry ≡ None) }
        ensures refused { IfErr result (λ r. IsOutOfMemory R.is_bounded r ⊎ (issue_refusal self.old.object entry ≡ Some r)) }
        // It is refused at a moment of that history.
        ensures refused_at { IfErr result (λ r. IsFound (λ setup. HoldsAt U.meaning setup
            (λ view. IsOutOfMemory R.is_bounded r ⊎ (issue_refusal view entry ≡ Some r)) pass.old.seen pass.new.seen) C.setup) }
        ensures unchanged { OnErr result ((self.new ≡ self.old) × (pass.new ≡ seeing pass.old pass.new.seen)) }
    {
        self.core.headline();
        self.log.show_to(&mut pass.front);
        let number = number_of(&self.core, entry);
        pass.receipts.make_room()?;
        self.reservations.audit(&mut pass.reservation);
        let idle = self.latest.is_idle(&self.core, pass.seat);
        let before = Snapshot::of(&self.core);
        let ticket = self.core.issue(pass.seat, entry, value, deadline)?;
        // Only for the prover: the next number fits into a `u64`.
        let _next = self.core.next_number();
        self.core.headline();
        go_on(&mut self.log, &mut pass.front, &before, &self.core);
        self.calls.audit(&mut pass.made);
        self.calls.add(&mut pass.made, 1);
        self.reservations.take(&mut pass.reservation);
        pass.calls += 1;
        self.latest.note(pass.seat, ticket, idle);
        pass.pending = Some(Asked {
            ticket,
            entry: number,
            value,
            deadline,
        });
        Ok(ticket)
    }

    /// Collects the pass's pending call, if it has ended, and files its receipt. Otherwise nothing changes. Takes no memory.
    // If inlining is left to the compiler, an entry call of a bounded object takes a little longer.
    #[inline(always)]
    pub fn collect(&mut self, pass: &mut Pass<U::Value, C, P, F, Q>) -> Option<End<U::Value>>
        requires { IsSome pass.old.pending }
        ensures end { IfSome pass.old.pending (λ asked. result ≡ end_of_ticket self.old asked.ticket) }
        ensures object { self.new.object ≡ self.old.object }
        ensures capacity { self.new.capacity ≡ self.old.capacity }
        ensures taken { OnSome result (IfSome pass.old.pending (λ asked.
            SetsTicket self.old.tickets self.new.tickets asked.ticket.key None)) }
        ensures filed { IfSome result (λ end. IsFinished pass.old end pass.new) }
        // The history of the object says that the call has ended with this end.
        ensures ended { IfSome result (λ end. IfSome pass.old.pending (λ asked. IsFound (λ setup.
            HasEnded U.meaning setup asked.ticket.number end pass.old.seen pass.new.seen) C.setup)) }
        ensures left { IfNone result ((self.new ≡ self.old) × (pass.new ≡ pass.old)) }
    {
        let asked = pass.pending?;
        self.core.headline();
        let end = self.core.collect(asked.ticket)?;
        self.reservations.give(&mut pass.reservation);
        self.log.show_to(&mut pass.front);
        pass.pending = None;
        pass.receipts.file(Receipt::Called {
            number: asked.ticket.number,
            entry: asked.entry,
            value: asked.value,
            deadline: asked.deadline,
            answer: end,
        });
        Some(end)
    }

    /// Runs a procedure from the pass's seat (9.5.1), as `Core::procedure` does, and files its receipt.
    ///
    /// Refused as `NoSuchOperation`, `Finalized` or `NumbersSpent`. If the number of calls isn't fixed, also as `OutOfMemory`,
    /// which comes first if there is no room for a receipt.
    pub fn procedure(
        &mut self,
        pass: &mut Pass<U::Value, C, P, F, Q>,
        op: u16,
        value: U::Value,
    ) -> Result<Result<U::Value, u32>, Refusal>
        requires { pass.old.pending ≡ None }
        ensures after { IfOk result (λ reply. self.new ≡ record self.old {
          object = after_action U.meaning self.old.object (Event.Procedure pass.old.seat op value reply);
        }) }
        ensures reply { IfOk result (λ reply. reply ≡ reply_of U.meaning self.old.object op value) }
        ensures volumes { OnOk result (KeepsVolumes U.meaning self.old.object self.new.object) }
        ensures action { IfOk result (λ reply.
            IsProtectedAction U.meaning self.old.object self.new.object (Event.Procedure pass.old.seat op value reply)) }
        ensures filed { IfOk result (λ reply. pass.new ≡ running pass.old op value reply pass.new.seen) }
        // The procedure is in the history of the object, after all that was seen before.
        ensures ran { IfOk result (λ reply. IsFound (λ setup. Stands U.meaning setup
            (Event.Procedure pass.old.seat op value reply) pass.old.seen pass.new.seen) C.setup) }
        ensures allowed { OnOk result (procedure_refusal U.meaning self.old.object op ≡ None) }
        ensures refused { IfErr result (λ r. IsOutOfMemory R.is_bounded r ⊎ (procedure_refusal U.meaning self.old.object op ≡ Some r)) }
        // It is refused at a moment of that history.
        ensures refused_at { IfErr result (λ r. IsFound (λ setup. HoldsAt U.meaning setup
            (λ view. IsOutOfMemory R.is_bounded r ⊎ (procedure_refusal U.meaning view op ≡ Some r)) pass.old.seen pass.new.seen) C.setup) }
        ensures unchanged { OnErr result ((self.new ≡ self.old) × (pass.new ≡ seeing pass.old pass.new.seen)) }
    {
        self.core.headline();
        self.log.show_to(&mut pass.front);
        pass.receipts.make_room()?;
        let before = Snapshot::of(&self.core);
        let reply = self.core.procedure(pass.seat, op, value)?;
        self.core.headline();
        go_on(&mut self.log, &mut pass.front, &before, &self.core);
        self.procedures.audit(&mut pass.ran);
        self.procedures.add(&mut pass.ran, 1);
        pass.procedures += 1;
        pass.receipts.file(Receipt::Ran { op, value, reply });
        Ok(reply)
    }

    /// Raises the clock to t, if it is lower, and returns the clock, as `Core::tick` does.
    ///
    /// Refused as `Finalized`. If the number of calls is fixed, also as `NumbersSpent`, otherwise also as `OutOfMemory`.
    pub fn tick(&mut self, front: &mut Front<U::Value, C>, t: u64) -> Result<u64, Refusal>
        ensures after { OnOk result (self.new ≡ record self.old {
          object = after_action U.meaning self.old.object (Event.Tick t);
        }) }
        ensures clock { IfOk result (λ clock. clock ≡ self.new.object.state.clock) }
        ensures raised { IfOk result (λ clock. t ≤ clock) }
        ensures volumes { OnOk result (KeepsVolumes U.meaning self.old.object self.new.object) }
        ensures action { OnOk result (
            IsProtectedAction U.meaning self.old.object self.new.object (Event.Tick t)) }
        ensures allowed { OnOk result (tick_refusal self.old ≡ None) }
        ensures refused { IfErr result (MayRefuse self.old.capacity (tick_refusal self.old)) }
        // The number of calls is fixed exactly if the record is that of a bounded core.
        ensures kind { is_some self.old.capacity ≡ R.is_bounded }
        // The tick is in the history of the object, after all that was seen before.
        ensures ticked { IfOk result (λ clock. IsFound (λ setup. IsTicked U.meaning setup t clock front.old front.new) C.setup) }
        // It is refused at a moment of that history.
        ensures refused_at { IfErr result (λ r. IsFound (λ setup. HoldsAt U.meaning setup
            (λ view. IsTickRefusalOf R.is_bounded view r) front.old front.new) C.setup) }
        ensures unchanged { OnErr result (self.new ≡ self.old) }
    {
        self.core.recall_kind();
        self.core.headline();
        self.log.show_to(front);
        let before = Snapshot::of(&self.core);
        let clock = self.core.tick(t)?;
        self.core.headline();
        go_on(&mut self.log, front, &before, &self.core);
        Ok(clock)
    }

    /// Finalizes the object (9.4), as `Core::finalize` does. Takes no memory.
    ///
    /// Refused as `Finalized`.
    pub fn finalize(&mut self, front: &mut Front<U::Value, C>) -> Result<(), Refusal>
        ensures after { OnOk result (self.new ≡ record self.old {
          object = after_action U.meaning self.old.object Event.Finalize;
        }) }
        ensures volumes { OnOk result (KeepsVolumes U.meaning self.old.object self.new.object) }
        ensures action { OnOk result (
            IsProtectedAction U.meaning self.old.object self.new.object Event.Finalize) }
        ensures alone { OnOk result (self.new.object.events ≡ self.old.object.events ++ Event.Finalize ∷ []) }
        ensures refused { MatchResult result
            (λ _. finalized_refusal self.old.object ≡ None)
            (λ r. finalized_refusal self.old.object ≡ Some r) }
        // The end is in the history of the object, after all that was seen before.
        ensures finalized { OnOk result (IsFound (λ setup. Stands U.meaning setup Event.Finalize front.old front.new) C.setup) }
        // It is refused at a moment of that history.
        ensures refused_at { IfErr result (λ r. IsFound (λ setup. HoldsAt U.meaning setup
            (λ view. finalized_refusal view ≡ Some r) front.old front.new) C.setup) }
        ensures unchanged { OnErr result (self.new ≡ self.old) }
    {
        self.core.headline();
        self.log.show_to(front);
        let before = Snapshot::of(&self.core);
        self.core.finalize()?;
        self.core.headline();
        go_on(&mut self.log, front, &before, &self.core);
        Ok(())
    }

    /// Attempts to cancel the seat's earliest queued call (9.5.3, 9.5.4), as `Core::cancel` does. Takes no memory.
    ///
    /// Refused as `NoCall`, if no call of the seat is queued.
    pub fn cancel_seat(
        &mut self,
        front: &mut Front<U::Value, C>,
        seat: u16,
    ) -> Result<Attempt, Refusal>
        ensures found { IfOk result (λ aborted. IsFound (λ x.
            (aborted ≡ attempt_answer self.old.object x.number)
            × (self.new ≡ record self.old { object = after_attempt U.meaning self.old.object x.number })
            × IsAttemptOf U.meaning self.old.object self.new.object x.number)
            (find (is_of seat) self.old.object.state.waiting)) }
        ensures volumes { OnOk result (KeepsVolumes U.meaning self.old.object self.new.object) }
        ensures refused { IfErr result (λ r. (r ≡ Refusal.NoCall) × (find (is_of seat) self.old.object.state.waiting ≡ None)) }
        // This was the result at a moment of the history of the object, after all that was seen before.
        ensures aborted { IfOk result (λ aborted. IsFound (λ setup. IsAttempted U.meaning setup seat aborted front.old front.new) C.setup) }
        // No call of the seat is queued at a moment of that history.
        ensures refused_at { OnErr result (IsFound (λ setup. HoldsAt U.meaning setup
            (λ view. find (is_of seat) view.state.waiting ≡ None) front.old front.new) C.setup) }
        ensures unchanged { OnErr result (self.new ≡ self.old) }
    {
        self.core.headline();
        self.log.show_to(front);
        let Some(ticket) = self.latest.waiting_ticket_of(&self.core, seat) else {
            return Err(Refusal::NoCall);
        };
        let before = Snapshot::of(&self.core);
        let aborted = self.core.cancel(ticket)?;
        self.core.headline();
        go_on(&mut self.log, front, &before, &self.core);
        Ok(aborted)
    }

    /// Returns what a function gives (9.5.1), as `Core::function` does, or `None` if the front had seen more than the whole
    /// history, which never happens. The front then sees the history up to now.
    ///
    /// Refused as `NoSuchOperation` or `Finalized`.
    pub fn function(
        &self,
        front: &mut Front<U::Value, C>,
        op: u16,
        value: U::Value,
    ) -> Option<Result<Result<U::Value, u32>, Refusal>>
        ensures reply { IfSome result (λ r. IfOk r (λ reply. reply ≡
            U.meaning.function self.now.object.state.unit op value (counts_in U.meaning self.now.object.state))) }
        // The function gives this at the end of that history.
        ensures read { IfSome result (λ r. IfOk r (λ reply. IsFound (λ setup.
            IsFunctionAt U.meaning setup op value reply front.old front.new) C.setup)) }
        ensures refused { IfSome result (λ r. MatchResult r
            (λ _. function_refusal U.meaning self.now.object op ≡ None)
            (λ why. function_refusal U.meaning self.now.object op ≡ Some why)) }
        // It is refused at a moment of that history.
        ensures refused_at { IfSome result (λ r. IfErr r (λ why. IsFound (λ setup. HoldsAt U.meaning setup
            (λ view. function_refusal U.meaning view op ≡ Some why) front.old front.new) C.setup)) }
        ensures ahead { IfNone result ((front.new ≡ front.old)
            × (next_place self.now.object + 1 ≤ self.now.object.setup.first_place + length front.old)) }
    {
        self.core.headline();
        if !self.log.show_beside(front) {
            return None;
        }
        Some(function_now(&self.core, op, value))
    }

    /// Answers as `function` does, for a caller that has seen nothing of the object before.
    ///
    /// Refused as `NoSuchOperation` or `Finalized`.
    pub fn function_first(&self, op: u16, value: U::Value) -> Result<Result<U::Value, u32>, Refusal>
        ensures reply { IfOk result (λ reply. reply ≡
            U.meaning.function self.now.object.state.unit op value (counts_in U.meaning self.now.object.state)) }
        ensures read { IfOk result (λ reply. (log : List (Event U.Value))
            × IsFound (λ setup. IsFunctionAt U.meaning setup op value reply [] log) C.setup) }
        ensures refused { MatchResult result
            (λ _. function_refusal U.meaning self.now.object op ≡ None)
            (λ why. function_refusal U.meaning self.now.object op ≡ Some why) }
        ensures refused_at { IfErr result (λ why. (log : List (Event U.Value))
            × IsFound (λ setup. HoldsAt U.meaning setup (λ view. function_refusal U.meaning view op ≡ Some why) [] log) C.setup) }
    {
        self.core.headline();
        function_now(&self.core, op, value)
    }

    /// Answers as `function` does, with exclusive access, which proves that the front hasn't seen more than the history.
    pub fn function_alone(
        &mut self,
        front: &mut Front<U::Value, C>,
        op: u16,
        value: U::Value,
    ) -> Result<Result<U::Value, u32>, Refusal>
        ensures reply { IfOk result (λ reply. reply ≡
            U.meaning.function self.old.object.state.unit op value (counts_in U.meaning self.old.object.state)) }
        ensures read { IfOk result (λ reply. IsFound (λ setup.
            IsFunctionAt U.meaning setup op value reply front.old front.new) C.setup) }
        ensures refused { MatchResult result
            (λ _. function_refusal U.meaning self.old.object op ≡ None)
            (λ why. function_refusal U.meaning self.old.object op ≡ Some why) }
        ensures refused_at { IfErr result (λ why. IsFound (λ setup. HoldsAt U.meaning setup
            (λ view. function_refusal U.meaning view op ≡ Some why) front.old front.new) C.setup) }
        ensures same { self.new ≡ self.old }
    {
        self.core.headline();
        self.log.show_to(front);
        function_now(&self.core, op, value)
    }

    /// Returns how many calls are queued on an entry (9.9), as `Core::count` does, or `None` if the front had seen more than
    /// the whole history, which never happens. The front then sees the history up to now.
    ///
    /// Refused as `NoSuchEntry` or `BadIndex`.
    pub fn count(
        &self,
        front: &mut Front<U::Value, C>,
        entry: EntryRef,
    ) -> Result<Option<u64>, Refusal>
        ensures number { IfOk result (λ count. IfSome count (λ n. n ≡
            slice_index (counts_in U.meaning self.now.object.state) (entry_of C.shape entry))) }
        // That many calls are queued at the end of that history.
        ensures count { IfOk result (λ count. IfSome count (λ n. IsFound (λ setup.
            IsCountAt U.meaning setup (entry_of C.shape entry) n front.old front.new) C.setup)) }
        ensures refused { MatchResult result
            (λ _. if_unindexed (flat_number C.shape entry) None ≡ None)
            (λ r. if_unindexed (flat_number C.shape entry) None ≡ Some r) }
        ensures ahead { IfOk result (λ count. IfNone count ((front.new ≡ front.old)
            × (next_place self.now.object + 1 ≤ self.now.object.setup.first_place + length front.old))) }
        ensures unchanged { OnErr result (front.new ≡ front.old) }
    {
        self.core.headline();
        let count = self.core.count(entry)?;
        if !self.log.show_beside(front) {
            return Ok(None);
        }
        Ok(Some(count))
    }

    /// Returns the core, the books of the ledgers with the parts that no pass holds, and the log.
    pub(crate) fn take_apart(
        self,
    ) -> (
        Core<U, R>,
        Book<C>,
        Book<P>,
        Share<C>,
        Share<P>,
        Log<U::Value, C>,
    )
        ensures core { result.0 ≡ self }
        ensures totals { IsCounted result.0.object result.1.total result.2.total }
        ensures parts { (result.3.parts ≡ 1) × (result.4.parts ≡ 1) }
        ensures amounts { (result.3.amount ≡ 0) × (result.4.amount ≡ 0) }
        ensures made { C.setup ≡ Some result.0.object.setup }
        ensures log { IsWholeLog U.meaning result.0.object result.5 }
        ensures ends { C.end_of ≡ end_in U.meaning result.0.object.setup }
        ensures asked { (seats : ℕ) → C.parts ≡ seats + 1 → AskedBySeats seats result.5 }
    {
        let LockedCore {
            core,
            calls,
            procedures,
            reservations: _reservations,
            receipts: _receipts,
            last_calls,
            last_procedures,
            latest: _latest,
            log,
        } = self;
        (core, calls, procedures, last_calls, last_procedures, log)
    }
}

/// Returns what a function gives now, if the unit has it.
fn function_now<U: Unit, R: Record<U>>(
    core: &Core<U, R>,
    op: u16,
    value: U::Value,
) -> Result<Result<U::Value, u32>, Refusal>
    ensures reply { IfOk result (λ reply. reply ≡
        U.meaning.function core.now.object.state.unit op value (counts_in U.meaning core.now.object.state)) }
    ensures has { OnOk result (op < U.meaning.functions core.now.object.state.unit) }
    ensures refused { MatchResult result
        (λ _. function_refusal U.meaning core.now.object op ≡ None)
        (λ why. function_refusal U.meaning core.now.object op ≡ Some why) }
{
    core.function(op, value)
}

/// Returns the flat number of the entry that an accepted call names.
fn number_of<U: Unit, R: Record<U>>(core: &Core<U, R>, entry: EntryRef) -> u16
    ensures { result ≡ entry_of core.now.object.setup.shape entry }
{
    core.shape().flat(entry).unwrap_or(0)
}
