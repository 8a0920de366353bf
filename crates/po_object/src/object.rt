// SPDX-License-Identifier: MIT
//! An object that threads share: its core behind a lock, and the seats at which its callers wait.

ghost use Rattle.std.specs.Prelude.{◌≡◌, ◌+◌, ◌≤◌, ◌⊎◌, List, [], ◌∷◌, ◌++◌, None, Some, IfOk, IfErr, IfSome, IfNone, OnOk, OnErr, IsSome, find, unwrap_or};
ghost use Rattle.po_unit.specs.Numbering.{flat_number};
ghost use Rattle.po_calls.specs.declared.call.Deadline.TheVariants.{Never, At};
ghost use Rattle.po_history.specs.declared.event.Event.{Event};
ghost use Rattle.po_history.specs.Histories.{VolumeView};
ghost use Rattle.po_engine.specs.Finding.{IsFound};
ghost use Rattle.po_engine.specs.WaitingCalls.{is_of};
ghost use Rattle.po_core.specs.Commands.{entry_of};
ghost use Rattle.po_core.specs.Refusals.{entry_refusal, issue_refusal, procedure_refusal, function_refusal, finalized_refusal, cut_refusal, if_unindexed};
ghost use Rattle.po_core.specs.declared.refusal.Refusal.{Refusal};
ghost use Rattle.po_receipts.specs.Answers.{AskedBySeats};
ghost use Rattle.po_receipts.specs.OneHistory.{Stands, HasEnded, IsAnswered, IsTicked, IsFunctionAt, IsCountAt, IsAttempted, IsCutOff, HoldsAt};
ghost use Rattle.po_object.specs.Filing.{IsFinished, IsCalled, running, seeing};
ghost use Rattle.po_object.specs.Parts.{AreParts};
ghost use Rattle.po_object.specs.Refused.{IsCallRefusal, IsProcedureRefusal, IsFunctionRefusal, IsOutOfMemory, IsTickRefusal, IsTickRefusalOf, IsCutRefusal};

use crate::front::Front;
use crate::ledgers::{SeatParts, Story};
use crate::seat::{Seat, Sleepers};
use crate::steps::{Hook, NoHook, SharedStep, Taken};
use crate::{LockedCore, Pass};
use crossbeam_utils::Backoff;
use po_core::{Attempt, CallStatus, Deadline, End, Record, Recorded, Refusal, Unrecorded, Volume};
use po_history::Trace;
use po_receipts::{ClosedPass, Receipt, Receipts};
use po_unit::{EntryRef, Unit};
use std::marker::Model;
use std::sync::ledger::Ledger;
use std::sync::{RwLock, RwLockReadGuard, RwLockWriteGuard, Wait};

/// A protected object (9.4) that any number of threads call. Contracts see it as its number of seats.
///
/// Each call takes the lock for one command of the core, and holds nothing while its caller waits. Functions run side by side
/// (9.5.1). A thread that ends other callers' calls notifies exactly their seats.
#[derive(Drop)]
pub struct Object<
    U: Unit,
    C: Story<U, <U as Unit>::Value>,
    P: Ledger,
    F: Ledger = C,
    R: Record<U> = Recorded<U>,
    Q: Receipts<<U as Unit>::Value> = Vec<Receipt<<U as Unit>::Value>>,
    S: Hook = NoHook,
> {
    pub(crate) locked: RwLock<LockedCore<U, C, P, F, R, Q>>,
    pub(crate) seats: Vec<Seat>,
    pub(crate) calls: SeatParts<C>,
    pub(crate) procedures: SeatParts<P>,
    pub(crate) room: Vec<ClosedPass<U::Value, Q>>,
    pub(crate) counts: Vec<usize>,
    pub(crate) opening: Front<<U as Unit>::Value, C>,
    pub(crate) steps: S,
}

/// An object that takes all its memory when it is opened; its calls take none. Only proofs know its history and receipts.
pub type BoundedObject<U, C, P, F> = Object<
    U,
    C,
    P,
    F,
    Unrecorded<U>,
    Trace<Receipt<<U as Unit>::Value>>,
>;

impl<
    U: Unit,
    C: Story<U, U::Value>,
    P: Ledger,
    F: Ledger,
    R: Record<U>,
    Q: Receipts<U::Value>,
    S: Hook,
> Model for Object<U, C, P, F, R, Q, S> {
    ghost use Rattle.std.specs.Prelude.{◌≡◌, ℕ, [], vec_len};

    ghost Value = { ℕ };

    ghost view = { λ o. vec_len o.seats };

    ghost invariant = { λ o. record {
      calls : o.calls.seats ≡ vec_len o.seats;
      procedures : o.procedures.seats ≡ vec_len o.seats;
      room : vec_len o.room ≡ vec_len o.seats;
      counts : vec_len o.counts ≡ vec_len o.seats;
      opening : o.opening ≡ [];
    } };
}

impl<
    U: Unit + Drop,
    C: Story<U, U::Value>,
    P: Ledger,
    F: Ledger,
    Q: Receipts<U::Value>,
    S: Hook,
> Object<U, C, P, F, Recorded<U>, Q, S> {
    /// Cuts the history, as `Core::cut` does.
    ///
    /// Refused as `NumbersSpent` or `OutOfMemory`. A finalized object can be cut too.
    pub fn cut<W: Wait>(&self, rt: &W) -> Result<Volume<U::Value>, Refusal>
        ensures cut_off { IfOk result (λ volume. (log : List (Event U.Value))
            × IsFound (λ setup. IsCutOff U.meaning setup volume [] log) C.setup) }
        // Only seats of this object asked for the calls and procedures that are in the volume.
        ensures asked { IfOk result (λ volume. AskedBySeats self.now volume.events) }
        ensures refused { IfErr result IsCutRefusal }
    {
        let mut front = self.front();
        self.cut_after(rt, &mut front)
    }

    /// Cuts as `cut` does, after all that the front has seen. The front then sees the history up to this cut, or up to the
    /// refusal.
    ///
    /// So a caller who makes all cuts with one front, keeps the volumes, and closes the object by `close_after` with this front
    /// can prove by `are_volumes` that they are the volumes of all cuts.
    ///
    /// Refused as `cut` is.
    pub fn cut_after<W: Wait>(
        &self,
        rt: &W,
        front: &mut Front<U::Value, C>,
    ) -> Result<Volume<U::Value>, Refusal>
        ensures cut_off { IfOk result (λ volume. IsFound (λ setup. IsCutOff U.meaning setup volume front.old front.new) C.setup) }
        // What were parts of what the front had seen are parts of what it sees now, and so is the new volume.
        ensures joins { IfOk result (λ volume. (volumes : List (VolumeView U.Value)) →
            AreParts C.setup front.old volumes → AreParts C.setup front.new (volumes ++ volume ∷ [])) }
        ensures keeps { OnErr result ((volumes : List (VolumeView U.Value)) →
            AreParts C.setup front.old volumes → AreParts C.setup front.new volumes) }
        ensures asked { IfOk result (λ volume. AskedBySeats self.now volume.events) }
        ensures refused { IfErr result IsCutRefusal }
        ensures refused_at { IfErr result (λ r. IsFound (λ setup. HoldsAt U.meaning setup
            (λ view. r ≡ unwrap_or (cut_refusal view) Refusal.OutOfMemory) front.old front.new) C.setup) }
    {
        self.recall_parts();
        let mut taken = self.change(rt);
        taken.locked.cut(front)
    }
}

impl<
    U: Unit,
    C: Story<U, U::Value>,
    P: Ledger,
    F: Ledger,
    R: Record<U>,
    Q: Receipts<U::Value>,
    S: Hook,
> Object<U, C, P, F, R, Q, S> {
    /// Returns how many seats the object was opened with.
    pub fn seats(&self) -> u16
        ensures { result ≡ self.now }
    {
        self.calls.seats
    }

    /// Returns a front that has seen nothing of the history yet, for a thread that has no seat.
    pub fn front(&self) -> Front<U::Value, C>
        ensures { result ≡ [] }
    {
        self.opening.again()
    }

    /// Calls an entry (9.5.3), and waits for the end of the call.
    ///
    /// Refused as `Core::issue` is. If there is no room for a receipt, that is reported before any other refusal. A refusal
    /// leaves the pass as it was, except that its caller has seen the history up to then.
    pub fn call<W: Wait>(
        &self,
        rt: &W,
        pass: &mut Pass<U::Value, C, P, F, Q>,
        entry: EntryRef,
        value: U::Value,
    ) -> Result<End<U::Value>, Refusal>
        requires { pass.old.pending ≡ None }
        ensures called { IfOk result (λ end. IsCalled pass.old (entry_of C.shape entry) value Never end pass.new) }
        ensures answered { IfOk result (λ end. IsFound (λ setup. IsAnswered U.meaning setup
            pass.old.seat (entry_of C.shape entry) value Never end pass.old.seen pass.new.seen) C.setup) }
        ensures allowed { OnOk result (entry_refusal C.shape entry None ≡ None) }
        ensures refused { IfErr result (IsCallRefusal R.is_bounded C.shape entry) }
        ensures refused_at { IfErr result (λ r. IsFound (λ setup. HoldsAt U.meaning setup
            (λ view. IsOutOfMemory R.is_bounded r ⊎ (issue_refusal view entry ≡ Some r)) pass.old.seen pass.new.seen) C.setup) }
        ensures unchanged { OnErr result (pass.new ≡ seeing pass.old pass.new.seen) }
    {
        self.ask(rt, pass, entry, value, Deadline::Never)
    }

    /// Calls an entry, and gives the call up if it isn't selected at once: a conditional entry call (9.7.3).
    ///
    /// Refused as `call` is.
    pub fn conditional<W: Wait>(
        &self,
        rt: &W,
        pass: &mut Pass<U::Value, C, P, F, Q>,
        entry: EntryRef,
        value: U::Value,
    ) -> Result<End<U::Value>, Refusal>
        requires { pass.old.pending ≡ None }
        ensures called { IfOk result (λ end. IsCalled pass.old (entry_of C.shape entry) value (At 0) end pass.new) }
        ensures answered { IfOk result (λ end. IsFound (λ setup. IsAnswered U.meaning setup
            pass.old.seat (entry_of C.shape entry) value (At 0) end pass.old.seen pass.new.seen) C.setup) }
        ensures allowed { OnOk result (entry_refusal C.shape entry None ≡ None) }
        ensures refused { IfErr result (IsCallRefusal R.is_bounded C.shape entry) }
        ensures refused_at { IfErr result (λ r. IsFound (λ setup. HoldsAt U.meaning setup
            (λ view. IsOutOfMemory R.is_bounded r ⊎ (issue_refusal view entry ≡ Some r)) pass.old.seen pass.new.seen) C.setup) }
        ensures unchanged { OnErr result (pass.new ≡ seeing pass.old pass.new.seen) }
    {
        self.ask(rt, pass, entry, value, Deadline::At(0))
    }

    /// Calls an entry, and gives the call up if it isn't selected before the clock reaches the deadline: a timed entry call
    /// (9.7.2).
    ///
    /// Refused as `call` is.
    pub fn timed<W: Wait>(
        &self,
        rt: &W,
        pass: &mut Pass<U::Value, C, P, F, Q>,
        entry: EntryRef,
        value: U::Value,
        deadline: u64,
    ) -> Result<End<U::Value>, Refusal>
        requires { pass.old.pending ≡ None }
        ensures called { IfOk result (λ end. IsCalled pass.old (entry_of C.shape entry) value (At deadline) end pass.new) }
        ensures answered { IfOk result (λ end. IsFound (λ setup. IsAnswered U.meaning setup
            pass.old.seat (entry_of C.shape entry) value (At deadline) end pass.old.seen pass.new.seen) C.setup) }
        ensures allowed { OnOk result (entry_refusal C.shape entry None ≡ None) }
        ensures refused { IfErr result (IsCallRefusal R.is_bounded C.shape entry) }
        ensures refused_at { IfErr result (λ r. IsFound (λ setup. HoldsAt U.meaning setup
            (λ view. IsOutOfMemory R.is_bounded r ⊎ (issue_refusal view entry ≡ Some r)) pass.old.seen pass.new.seen) C.setup) }
        ensures unchanged { OnErr result (pass.new ≡ seeing pass.old pass.new.seen) }
    {
        self.ask(rt, pass, entry, value, Deadline::At(deadline))
    }

    /// Runs a protected procedure (9.5.1). The reply is a value, or the number of the exception that the procedure propagates.
    ///
    /// Refused as `Core::procedure` is. If there is no room for a receipt, that is reported before any other refusal. A refusal
    /// leaves the pass as it was, except that its caller has seen the history up to then.
    pub fn procedure<W: Wait>(
        &self,
        rt: &W,
        pass: &mut Pass<U::Value, C, P, F, Q>,
        op: u16,
        value: U::Value,
    ) -> Result<Result<U::Value, u32>, Refusal>
        requires { pass.old.pending ≡ None }
        ensures filed { IfOk result (λ reply. pass.new ≡ running pass.old op value reply pass.new.seen) }
        ensures ran { IfOk result (λ reply. IsFound (λ setup. Stands U.meaning setup
            (Event.Procedure pass.old.seat op value reply) pass.old.seen pass.new.seen) C.setup) }
        ensures refused { IfErr result (IsProcedureRefusal R.is_bounded) }
        ensures refused_at { IfErr result (λ r. IsFound (λ setup. HoldsAt U.meaning setup
            (λ view. IsOutOfMemory R.is_bounded r ⊎ (procedure_refusal U.meaning view op ≡ Some r)) pass.old.seen pass.new.seen) C.setup) }
        ensures unchanged { OnErr result (pass.new ≡ seeing pass.old pass.new.seen) }
    {
        let mut taken = self.change(rt);
        let reply = taken.locked.procedure(pass, op, value)?;
        let sleepers = self.tell(&taken.locked, Some(pass.seat()));
        drop(taken);
        self.wake(&sleepers);
        Ok(reply)
    }

    /// Returns the reply of a protected function (9.5.1). Functions run side by side. Takes no memory.
    ///
    /// Refused as `Core::function` is.
    pub fn function<W: Wait>(
        &self,
        rt: &W,
        op: u16,
        value: U::Value,
    ) -> Result<Result<U::Value, u32>, Refusal>
        ensures read { IfOk result (λ reply. (log : List (Event U.Value))
            × IsFound (λ setup. IsFunctionAt U.meaning setup op value reply [] log) C.setup) }
        ensures refused { IfErr result IsFunctionRefusal }
        ensures refused_at { IfErr result (λ r. (log : List (Event U.Value))
            × IsFound (λ setup. HoldsAt U.meaning setup (λ view. function_refusal U.meaning view op ≡ Some r) [] log) C.setup) }
    {
        self.look(rt).locked.function_first(op, value)
    }

    /// Reads as `function` does, after all that the front has seen. The front then sees the history up to the reply or the
    /// refusal.
    ///
    /// Refused as `Core::function` is.
    pub fn function_after<W: Wait>(
        &self,
        rt: &W,
        front: &mut Front<U::Value, C>,
        op: u16,
        value: U::Value,
    ) -> Result<Result<U::Value, u32>, Refusal>
        ensures read { IfOk result (λ reply. IsFound (λ setup. IsFunctionAt U.meaning setup op value reply front.old front.new) C.setup) }
        ensures refused { IfErr result IsFunctionRefusal }
        ensures refused_at { IfErr result (λ r. IsFound (λ setup. HoldsAt U.meaning setup
            (λ view. function_refusal U.meaning view op ≡ Some r) front.old front.new) C.setup) }
    {
        let looked = self.look(rt);
        if let Some(reply) = looked.locked.function(front, op, value) {
            return reply;
        }
        drop(looked);
        self.change(rt).locked.function_alone(front, op, value)
    }

    /// Raises the clock to t, if it is lower, and returns the clock.
    ///
    /// Refused as `Core::tick` is.
    pub fn tick<W: Wait>(&self, rt: &W, t: u64) -> Result<u64, Refusal>
        ensures raised { IfOk result (λ clock. t ≤ clock) }
        ensures ticked { IfOk result (λ clock. (log : List (Event U.Value))
            × IsFound (λ setup. IsTicked U.meaning setup t clock [] log) C.setup) }
        ensures refused { IfErr result (IsTickRefusal R.is_bounded) }
    {
        let mut front = self.front();
        self.tick_after(rt, &mut front, t)
    }

    /// Ticks as `tick` does, after all that the front has seen. The front then sees the history up to this tick, or up to the
    /// refusal.
    ///
    /// Refused as `Core::tick` is.
    pub fn tick_after<W: Wait>(
        &self,
        rt: &W,
        front: &mut Front<U::Value, C>,
        t: u64,
    ) -> Result<u64, Refusal>
        ensures raised { IfOk result (λ clock. t ≤ clock) }
        ensures ticked { IfOk result (λ clock. IsFound (λ setup. IsTicked U.meaning setup t clock front.old front.new) C.setup) }
        ensures refused { IfErr result (IsTickRefusal R.is_bounded) }
        ensures refused_at { IfErr result (λ r. IsFound (λ setup. HoldsAt U.meaning setup
            (λ view. IsTickRefusalOf R.is_bounded view r) front.old front.new) C.setup) }
    {
        let mut taken = self.change(rt);
        let clock = taken.locked.tick(front, t)?;
        let sleepers = self.tell(&taken.locked, None);
        drop(taken);
        self.wake(&sleepers);
        Ok(clock)
    }

    /// Finalizes the object: Program_Error is raised at each queued call (9.4). Takes no memory.
    ///
    /// Refused as `Core::finalize` is.
    pub fn finalize<W: Wait>(&self, rt: &W) -> Result<(), Refusal>
        ensures finalized { OnOk result ((log : List (Event U.Value))
            × IsFound (λ setup. Stands U.meaning setup Event.Finalize [] log) C.setup) }
        ensures refused { IfErr result (λ r. r ≡ Refusal.Finalized) }
    {
        let mut front = self.front();
        self.finalize_after(rt, &mut front)
    }

    /// Finalizes as `finalize` does, after all that the front has seen. The front then sees the history up to this end, or up
    /// to the refusal.
    ///
    /// Refused as `Core::finalize` is.
    pub fn finalize_after<W: Wait>(
        &self,
        rt: &W,
        front: &mut Front<U::Value, C>,
    ) -> Result<(), Refusal>
        ensures finalized { OnOk result (IsFound (λ setup. Stands U.meaning setup Event.Finalize front.old front.new) C.setup) }
        ensures refused { IfErr result (λ r. r ≡ Refusal.Finalized) }
        ensures refused_at { IfErr result (λ r. IsFound (λ setup. HoldsAt U.meaning setup
            (λ view. finalized_refusal view ≡ Some r) front.old front.new) C.setup) }
    {
        let mut taken = self.change(rt);
        taken.locked.finalize(front)?;
        let sleepers = self.tell(&taken.locked, None);
        drop(taken);
        self.wake(&sleepers);
        Ok(())
    }

    /// Attempts to cancel the seat's earliest queued call (9.5.3, 9.5.4). Takes no memory.
    ///
    /// Refused as `NoCall`, if no call of the seat is queued.
    pub fn cancel_seat<W: Wait>(&self, rt: &W, seat: u16) -> Result<Attempt, Refusal>
        ensures aborted { IfOk result (λ aborted. (log : List (Event U.Value))
            × IsFound (λ setup. IsAttempted U.meaning setup seat aborted [] log) C.setup) }
        ensures refused { IfErr result (λ r. r ≡ Refusal.NoCall) }
    {
        let mut front = self.front();
        self.cancel_seat_after(rt, &mut front, seat)
    }

    /// Attempts what `cancel_seat` does, after all that the front has seen. The front then sees the history up to this attempt,
    /// or up to the refusal.
    ///
    /// Refused as `NoCall`, if no call of the seat is queued.
    pub fn cancel_seat_after<W: Wait>(
        &self,
        rt: &W,
        front: &mut Front<U::Value, C>,
        seat: u16,
    ) -> Result<Attempt, Refusal>
        ensures aborted { IfOk result (λ aborted. IsFound (λ setup. IsAttempted U.meaning setup seat aborted front.old front.new) C.setup) }
        ensures refused { IfErr result (λ r. r ≡ Refusal.NoCall) }
        ensures refused_at { OnErr result (IsFound (λ setup. HoldsAt U.meaning setup
            (λ view. find (is_of seat) view.state.waiting ≡ None) front.old front.new) C.setup) }
    {
        let mut taken = self.change(rt);
        let aborted = taken.locked.cancel_seat(front, seat)?;
        let sleepers = self.tell(&taken.locked, None);
        drop(taken);
        self.wake(&sleepers);
        Ok(aborted)
    }

    /// Returns how many calls are queued on an entry (9.9). Returns `None` if a thread had the lock for a change or had asked
    /// for it, or if the lock was being handed on. Takes no memory.
    ///
    /// Refused as `Core::count` is.
    pub fn try_count(&self, entry: EntryRef) -> Result<Option<u64>, Refusal>
        ensures count { IfOk result (λ count. IfSome count (λ n. (log : List (Event U.Value))
            × IsFound (λ setup. IsCountAt U.meaning setup (entry_of C.shape entry) n [] log) C.setup)) }
        ensures allowed { IfOk result (λ count. IsSome count → if_unindexed (flat_number C.shape entry) None ≡ None) }
        ensures refused { IfErr result (λ r. if_unindexed (flat_number C.shape entry) None ≡ Some r) }
    {
        let mut front = self.front();
        self.try_count_after(&mut front, entry)
    }

    /// Counts as `try_count` does, after all that the front has seen. The front then sees the history up to the count, and no
    /// more than before if there is none.
    ///
    /// Refused as `Core::count` is.
    pub fn try_count_after(
        &self,
        front: &mut Front<U::Value, C>,
        entry: EntryRef,
    ) -> Result<Option<u64>, Refusal>
        ensures count { IfOk result (λ count. IfSome count (λ n. IsFound (λ setup.
            IsCountAt U.meaning setup (entry_of C.shape entry) n front.old front.new) C.setup)) }
        ensures allowed { IfOk result (λ count. IsSome count → if_unindexed (flat_number C.shape entry) None ≡ None) }
        ensures refused { IfErr result (λ r. if_unindexed (flat_number C.shape entry) None ≡ Some r) }
        // The front sees no more if nothing is counted.
        ensures none { IfOk result (λ count. IfNone count (front.new ≡ front.old)) }
        ensures unchanged { OnErr result (front.new ≡ front.old) }
    {
        match self.try_look() {
            Some(taken) => taken.locked.count(front, entry),
            None => Ok(None),
        }
    }

    /// Proves that the ledger of calls has a part for each seat, and one more.
    fn recall_parts(&self)
        ensures { C.parts ≡ self.now + 1 }
    {
        // Only for the prover: the use of the field brings in its invariant.
        let _calls = &self.calls;
    }

    /// Takes the lock for a change. Tries several times before it queues for the lock, since sleeping is costly.
    fn change<'a, W: Wait>(
        &'a self,
        rt: &W,
    ) -> Taken<'a, RwLockWriteGuard<'a, LockedCore<U, C, P, F, R, Q>>, S> {
        let backoff = Backoff::new();
        for _ in 0..S::TRIES {
            self.steps.reach(SharedStep::TryChange);
            if let Some(locked) = self.locked.try_write() {
                return Taken::new(locked, &self.steps, SharedStep::Changed);
            }
            backoff.snooze();
        }
        self.steps.reach(SharedStep::Change);
        Taken::new(self.locked.write(rt), &self.steps, SharedStep::Changed)
    }

    /// Takes the lock for a look.
    // If inlining is left to the compiler, a function of a bounded object takes half as long again.
    #[inline(always)]
    fn look<'a, W: Wait>(
        &'a self,
        rt: &W,
    ) -> Taken<'a, RwLockReadGuard<'a, LockedCore<U, C, P, F, R, Q>>, S> {
        self.steps.reach(SharedStep::Look);
        Taken::new(self.locked.read(rt), &self.steps, SharedStep::Looked)
    }

    /// Takes the lock for a look, if it is free at once.
    fn try_look<'a>(
        &'a self,
    ) -> Option<Taken<'a, RwLockReadGuard<'a, LockedCore<U, C, P, F, R, Q>>, S>> {
        self.steps.reach(SharedStep::TryLook);
        let locked = self.locked.try_read()?;
        Some(Taken::new(locked, &self.steps, SharedStep::Looked))
    }

    /// Issues a call, and waits for its end.
    fn ask<W: Wait>(
        &self,
        rt: &W,
        pass: &mut Pass<U::Value, C, P, F, Q>,
        entry: EntryRef,
        value: U::Value,
        deadline: Deadline,
    ) -> Result<End<U::Value>, Refusal>
        requires { pass.old.pending ≡ None }
        ensures called { IfOk result (λ end. IsCalled pass.old (entry_of C.shape entry) value deadline end pass.new) }
        ensures answered { IfOk result (λ end. IsFound (λ setup. IsAnswered U.meaning setup
            pass.old.seat (entry_of C.shape entry) value deadline end pass.old.seen pass.new.seen) C.setup) }
        ensures allowed { OnOk result (entry_refusal C.shape entry None ≡ None) }
        ensures refused { IfErr result (IsCallRefusal R.is_bounded C.shape entry) }
        ensures refused_at { IfErr result (λ r. IsFound (λ setup. HoldsAt U.meaning setup
            (λ view. IsOutOfMemory R.is_bounded r ⊎ (issue_refusal view entry ≡ Some r)) pass.old.seen pass.new.seen) C.setup) }
        ensures unchanged { OnErr result (pass.new ≡ seeing pass.old pass.new.seen) }
    {
        let mut taken = self.change(rt);
        taken.locked.issue(pass, entry, value, deadline)?;
        let sleepers = self.tell(&taken.locked, Some(pass.seat()));
        if let Some(end) = taken.locked.collect(pass) {
            drop(taken);
            self.wake(&sleepers);
            return Ok(end);
        }
        self.stay(pass.seat());
        drop(taken);
        self.wake(&sleepers);
        Ok(self.wait(rt, pass))
    }

    /// Waits for the end of the pending call. Nothing is locked in the meantime.
    fn wait<W: Wait>(&self, rt: &W, pass: &mut Pass<U::Value, C, P, F, Q>) -> End<U::Value>
        requires { IsSome pass.old.pending }
        ensures finished { IsFinished pass.old result pass.new }
        ensures ended { IfSome pass.old.pending (λ asked. IsFound (λ setup. HasEnded U.meaning setup
            asked.ticket.number result pass.old.seen pass.new.seen) C.setup) }
    {
        for _ in rt.forever() {
            if !self.look_for_end(pass.seat()) {
                pass.sleep(rt, &self.steps);
                if !self.has_ended(rt, pass) {
                    continue;
                }
            }
            let mut taken = self.change(rt);
            if let Some(end) = taken.locked.collect(pass) {
                return end;
            }
        }
        unreachable!()
    }

    /// Returns whether the pending call has ended.
    fn has_ended<W: Wait>(&self, rt: &W, pass: &Pass<U::Value, C, P, F, Q>) -> bool {
        match pass.asked() {
            Some(asked) => matches!(
                self.look(rt).locked.core().end_of(asked.ticket),
                CallStatus::Ended(_)
            ),
            None => false,
        }
    }

    /// Notes at the seat that its call waits.
    fn stay(&self, seat: u16) {
        if let Some(there) = self.seats.get(seat as usize) {
            there.wait(&self.steps, seat);
        }
    }

    /// Looks for a while at the seat whether its call has ended.
    fn look_for_end(&self, seat: u16) -> bool {
        match self.seats.get(seat as usize) {
            Some(there) => there.look(&self.steps, seat),
            None => false,
        }
    }

    /// Notifies the seats of the calls that this hold of the lock ended, except the caller's own. Returns those whose sleeping
    /// callers are still to be woken.
    fn tell(&self, locked: &LockedCore<U, C, P, F, R, Q>, own: Option<u16>) -> Sleepers {
        let mut sleepers = Sleepers::new();
        for ended in locked.core().ended_now() {
            if Some(ended.owner) != own {
                self.tell_one(ended.owner, &mut sleepers);
            }
        }
        sleepers
    }

    /// Notifies the seat that its call has ended. If its caller sleeps, adds the seat to the sleepers, or wakes the caller if
    /// they are full.
    fn tell_one(&self, seat: u16, sleepers: &mut Sleepers) {
        if let Some(there) = self.seats.get(seat as usize) {
            if there.end(&self.steps, seat) && !sleepers.add(seat) {
                there.wake(&self.steps, seat);
            }
        }
    }

    /// Wakes the sleeping callers, after the lock is released.
    fn wake(&self, sleepers: &Sleepers) {
        for seat in sleepers.seats() {
            if let Some(there) = self.seats.get(*seat as usize) {
                there.wake(&self.steps, *seat);
            }
        }
    }
}
