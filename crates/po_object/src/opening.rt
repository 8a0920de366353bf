// SPDX-License-Identifier: MIT
//! How an object is opened.

ghost use Rattle.std.specs.Prelude.{◌≡◌, ◌≢◌, ◌+◌, ◌≤◌, [], true, false, IfOk, IfErr, IfSome, OnOk, MatchResult, is_some, option_map, vec_len, vec_capacity};
ghost use Rattle.po_core.specs.View.{next_place};
ghost use Rattle.po_object.specs.Stories.{IsStory};
ghost use Rattle.po_object.specs.Seats.{AreFresh};
ghost use Rattle.po_object.specs.Faults.{HandsBack, IsWhy};
ghost use Rattle.po_object.specs.LatestCalls.{NoneIssued};
ghost use Rattle.po_object.specs.Reservations.{reserved};

use crate::error::{BoundedOpenError, OpenError};
use crate::front::{Front, Log};
use crate::latest::LatestCalls;
use crate::ledgers::{CallLedger, SeatParts, Story};
use crate::object::Object;
use crate::reservation::{Reservations, Unreserved};
use crate::seat::Seat;
use crate::steps::{Hook, NoHook};
use crate::{LockedCore, Pass};
use crossbeam_utils::sync::Parker;
use po_core::{Core, Event, Record};
use po_log::Keeper;
use po_receipts::{ClosedPass, Receipts};
use po_unit::Unit;
use std::alloc::{AllocError, Global};
use std::marker::PhantomData;
use std::sync::RwLock;
use std::sync::ledger::{Blank, Ledger, Share};

impl<
    U: Unit,
    C: Story<U, U::Value>,
    P: Ledger,
    F: Ledger,
    R: Record<U>,
    Q: Receipts<U::Value>,
> Object<U, C, P, F, R, Q> {
    /// Opens an object with `seats` seats over a core that has no event, and hands out a pass for each seat.
    ///
    /// The log is a new one, which the ledger of calls names. An error hands the core, the blanks and the log back. It is 1 if
    /// the core has an event, or had one before a cut, and 2 if memory runs out.
    pub fn open(
        alloc: Global,
        core: Core<U, R>,
        seats: u16,
        calls: Blank,
        procedures: Blank,
        log: Keeper<Event<U::Value>>,
    ) -> Result<(Object<U, C, P, F, R, Q>, Vec<Pass<U::Value, C, P, F, Q>>), OpenError<U, R>>
        // Each ledger has a part for each seat, and one for the object.
        requires calls { (calls.name ≡ C.name) × (calls.parts ≡ C.parts) × (calls.parts ≡ seats + 1) }
        requires procedures { (procedures.name ≡ P.name) × (procedures.parts ≡ P.parts) × (procedures.parts ≡ seats + 1) }
        requires shape { core.object.setup.shape ≡ C.shape }
        requires story { IsStory U.meaning core.object.setup C.setup C.end_of }
        requires log { (log.name ≡ C.log) × (log.items ≡ []) }
        // Memory is taken for each call.
        requires unbounded { (Q.is_bounded ≡ false) × (R.is_bounded ≡ false) }
        ensures seats { IfOk result (λ r. r.0 ≡ seats) }
        ensures fresh { IfOk result (λ r. AreFresh seats r.1.items) }
        ensures core { OnOk result (next_place core.object ≡ core.object.setup.first_place) }
        ensures fault { IfErr result (λ fault. HandsBack core calls procedures log fault) }
    {
        Object::<U, C, P, F, R, Q, NoHook>::open_with(
            alloc, core, seats, calls, procedures, log, NoHook,
        )
    }

    /// Opens an object with `seats` seats over a core that has no event and takes no memory, and hands out a pass for each
    /// seat. No call of the object takes memory later.
    ///
    /// The log is a new one, which the ledger of calls names. An error hands the core, the blanks and the log back. It is 1 if
    /// the core has an event, and 2 if memory runs out.
    pub fn open_bounded(
        alloc: Global,
        core: Core<U, R>,
        seats: u16,
        calls: Blank,
        procedures: Blank,
        free: Blank,
        log: Keeper<Event<U::Value>>,
    ) -> Result<(Object<U, C, P, F, R, Q>, Vec<Pass<U::Value, C, P, F, Q>>), BoundedOpenError<U, R>>
        // Each ledger has a part for each seat, and one for the object.
        requires calls { (calls.name ≡ C.name) × (calls.parts ≡ C.parts) × (calls.parts ≡ seats + 1) }
        requires procedures { (procedures.name ≡ P.name) × (procedures.parts ≡ P.parts) × (procedures.parts ≡ seats + 1) }
        requires free { (free.name ≡ F.name) × (free.parts ≡ F.parts) × (free.parts ≡ seats + 1) }
        requires shape { core.object.setup.shape ≡ C.shape }
        requires story { IsStory U.meaning core.object.setup C.setup C.end_of }
        requires log { (log.name ≡ C.log) × (log.items ≡ []) }
        // All memory was taken before, and there is enough for a call of each seat.
        requires bounded { (Q.is_bounded ≡ true) × (R.is_bounded ≡ true) }
        requires room { IfSome core.capacity (λ most. seats ≤ most) }
        ensures seats { IfOk result (λ r. r.0 ≡ seats) }
        ensures fresh { IfOk result (λ r. AreFresh seats r.1.items) }
        ensures core { OnOk result (next_place core.object ≡ core.object.setup.first_place) }
        ensures fault { IfErr result (λ fault. HandsBack core calls procedures log fault.fault × (fault.free ≡ free)) }
    {
        Object::<U, C, P, F, R, Q, NoHook>::open_bounded_with(
            alloc, core, seats, calls, procedures, free, log, NoHook,
        )
    }
}

impl<
    U: Unit,
    C: Story<U, U::Value>,
    P: Ledger,
    F: Ledger,
    R: Record<U>,
    Q: Receipts<U::Value>,
    S: Hook,
> Object<U, C, P, F, R, Q, S> {
    /// Opens an object as `open` does. The object asks `steps` before each of its steps.
    pub fn open_with(
        alloc: Global,
        core: Core<U, R>,
        seats: u16,
        calls: Blank,
        procedures: Blank,
        log: Keeper<Event<U::Value>>,
        steps: S,
    ) -> Result<(Object<U, C, P, F, R, Q, S>, Vec<Pass<U::Value, C, P, F, Q>>), OpenError<U, R>>
        // Each ledger has a part for each seat, and one for the object.
        requires calls { (calls.name ≡ C.name) × (calls.parts ≡ C.parts) × (calls.parts ≡ seats + 1) }
        requires procedures { (procedures.name ≡ P.name) × (procedures.parts ≡ P.parts) × (procedures.parts ≡ seats + 1) }
        requires shape { core.object.setup.shape ≡ C.shape }
        requires story { IsStory U.meaning core.object.setup C.setup C.end_of }
        requires log { (log.name ≡ C.log) × (log.items ≡ []) }
        // Memory is taken for each call.
        requires unbounded { (Q.is_bounded ≡ false) × (R.is_bounded ≡ false) }
        ensures seats { IfOk result (λ r. r.0 ≡ seats) }
        ensures fresh { IfOk result (λ r. AreFresh seats r.1.items) }
        ensures core { OnOk result (next_place core.object ≡ core.object.setup.first_place) }
        ensures fault { IfErr result (λ fault. HandsBack core calls procedures log fault) }
    {
        core.recall_kind();
        match Prepared::make(alloc, &core, seats) {
            Ok(prepared) => {
                let free = Reservations::without();
                Ok(open_over(
                    alloc, core, seats, calls, procedures, free, log, prepared, steps,
                ))
            }
            Err(why) => Err(why.with(core, calls, procedures, log)),
        }
    }

    /// Opens an object as `open_bounded` does. The object asks `steps` before each of its steps.
    pub fn open_bounded_with(
        alloc: Global,
        core: Core<U, R>,
        seats: u16,
        calls: Blank,
        procedures: Blank,
        free: Blank,
        log: Keeper<Event<U::Value>>,
        steps: S,
    ) -> Result<
        (Object<U, C, P, F, R, Q, S>, Vec<Pass<U::Value, C, P, F, Q>>),
        BoundedOpenError<U, R>,
    >
        // Each ledger has a part for each seat, and one for the object.
        requires calls { (calls.name ≡ C.name) × (calls.parts ≡ C.parts) × (calls.parts ≡ seats + 1) }
        requires procedures { (procedures.name ≡ P.name) × (procedures.parts ≡ P.parts) × (procedures.parts ≡ seats + 1) }
        requires free { (free.name ≡ F.name) × (free.parts ≡ F.parts) × (free.parts ≡ seats + 1) }
        requires shape { core.object.setup.shape ≡ C.shape }
        requires story { IsStory U.meaning core.object.setup C.setup C.end_of }
        requires log { (log.name ≡ C.log) × (log.items ≡ []) }
        // All memory was taken before, and there is enough for a call of each seat.
        requires bounded { (Q.is_bounded ≡ true) × (R.is_bounded ≡ true) }
        requires room { IfSome core.capacity (λ most. seats ≤ most) }
        ensures seats { IfOk result (λ r. r.0 ≡ seats) }
        ensures fresh { IfOk result (λ r. AreFresh seats r.1.items) }
        ensures core { OnOk result (next_place core.object ≡ core.object.setup.first_place) }
        ensures fault { IfErr result (λ fault. HandsBack core calls procedures log fault.fault × (fault.free ≡ free)) }
    {
        match Prepared::make(alloc, &core, seats) {
            Ok(prepared) => {
                let free = Reservations::open(free);
                Ok(open_over(
                    alloc, core, seats, calls, procedures, free, log, prepared, steps,
                ))
            }
            Err(why) => Err(BoundedOpenError {
                fault: why.with(core, calls, procedures, log),
                free,
            }),
        }
    }
}

/// Why no object is opened.
#[derive(Clone, Copy)]
enum Unopened {
    /// The core has an event, or had one before a cut.
    NotFresh,
    /// Memory ran out.
    OutOfMemory,
}

impl Unopened {
    /// Returns the error, which hands everything back.
    fn with<U: Unit, R: Record<U>>(
        self,
        core: Core<U, R>,
        calls: Blank,
        procedures: Blank,
        log: Keeper<Event<U::Value>>,
    ) -> OpenError<U, R>
        requires { IsWhy core self }
        ensures { HandsBack core calls procedures log result }
    {
        match self {
            Unopened::NotFresh => OpenError::NotFresh(core, calls, procedures, log),
            Unopened::OutOfMemory => OpenError::OutOfMemory(core, calls, procedures, log),
        }
    }
}

/// All that an opening takes memory for.
struct Prepared<V: Copy, C: CallLedger<V>, P: Ledger, F: Ledger, Q: Receipts<V>> {
    /// The parkers on which callers sleep, those of the highest seats first.
    parkers: Vec<Parker>,
    /// The seats, which wake these callers.
    places: Vec<Seat>,
    /// Room for the closed passes.
    room: Vec<ClosedPass<V, Q>>,
    /// Room to count the passes of each seat.
    counts: Vec<usize>,
    /// Room for the passes.
    passes: Vec<Pass<V, C, P, F, Q>>,
    /// The list that says that no seat has issued a call.
    latest: LatestCalls,
}

impl<V: Copy, C: CallLedger<V>, P: Ledger, F: Ledger, Q: Receipts<V>> Prepared<V, C, P, F, Q> {
    /// Takes all memory that an object with `seats` seats over this core needs, if the core has no event.
    fn make<U: Unit, R: Record<U>>(
        alloc: Global,
        core: &Core<U, R>,
        seats: u16,
    ) -> Result<Prepared<V, C, P, F, Q>, Unopened>
        ensures fresh { OnOk result (next_place core.now.object ≡ core.now.object.setup.first_place) }
        ensures parkers { IfOk result (λ p. vec_len p.parkers ≡ seats) }
        ensures places { IfOk result (λ p. vec_len p.places ≡ seats) }
        ensures room { IfOk result (λ p. (vec_len p.room ≡ seats) × (vec_len p.counts ≡ seats)) }
        ensures passes { IfOk result (λ p. (p.passes.items ≡ []) × (seats ≤ vec_capacity p.passes)) }
        ensures latest { IfOk result (λ p. NoneIssued seats p.latest) }
        ensures fault { IfErr result (λ why. IsWhy core.now why) }
    {
        core.headline();
        if core.place() != u128::from(core.first_place()) {
            return Err(Unopened::NotFresh);
        }
        let Ok(prepared) = prepare(alloc, seats) else {
            return Err(Unopened::OutOfMemory);
        };
        Ok(prepared)
    }
}

/// Takes all memory that an object with `seats` seats needs.
fn prepare<V: Copy, C: CallLedger<V>, P: Ledger, F: Ledger, Q: Receipts<V>>(
    alloc: Global,
    seats: u16,
) -> Result<Prepared<V, C, P, F, Q>, AllocError>
    ensures parkers { IfOk result (λ p. vec_len p.parkers ≡ seats) }
    ensures places { IfOk result (λ p. vec_len p.places ≡ seats) }
    ensures room { IfOk result (λ p. (vec_len p.room ≡ seats) × (vec_len p.counts ≡ seats)) }
    ensures passes { IfOk result (λ p. (p.passes.items ≡ []) × (seats ≤ vec_capacity p.passes)) }
    ensures latest { IfOk result (λ p. NoneIssued seats p.latest) }
{
    let latest = LatestCalls::new(alloc, seats)?;
    let mut parkers = Vec::new(alloc);
    let mut places = Vec::new(alloc);
    let mut room = Vec::new(alloc);
    let mut counts = Vec::new(alloc);
    let mut passes = Vec::new(alloc);
    let mut nothing = Keeper::open();
    passes.reserve(seats as usize)?;
    for i in 0..seats {
        let parker = Parker::new(alloc)?;
        places.push(Seat::new(parker.unparker().clone()?))?;
        parkers.push(parker)?;
        room.push(ClosedPass::new(0, 0, 0, None, Q::none(alloc), nothing.show()))?;
        counts.push(0)?;
    }
    parkers.reverse();
    Ok(Prepared {
        parkers,
        places,
        room,
        counts,
        passes,
        latest,
    })
}

/// Opens the object in memory that was taken before.
fn open_over<
    U: Unit,
    C: Story<U, U::Value>,
    P: Ledger,
    F: Ledger,
    R: Record<U>,
    Q: Receipts<U::Value>,
    S: Hook,
>(
    alloc: Global,
    core: Core<U, R>,
    seats: u16,
    calls: Blank,
    procedures: Blank,
    free: (Reservations<F>, Unreserved<F>),
    log: Keeper<Event<U::Value>>,
    prepared: Prepared<U::Value, C, P, F, Q>,
    steps: S,
) -> (Object<U, C, P, F, R, Q, S>, Vec<Pass<U::Value, C, P, F, Q>>)
    requires fresh { next_place core.object ≡ core.object.setup.first_place }
    requires calls { (calls.name ≡ C.name) × (calls.parts ≡ C.parts) × (calls.parts ≡ seats + 1) }
    requires procedures { (procedures.name ≡ P.name) × (procedures.parts ≡ P.parts) × (procedures.parts ≡ seats + 1) }
    requires shape { core.object.setup.shape ≡ C.shape }
    requires story { IsStory U.meaning core.object.setup C.setup C.end_of }
    requires log { (log.name ≡ C.log) × (log.items ≡ []) }
    requires bounded { Q.is_bounded ≡ R.is_bounded }
    requires free { (free.0 ≡ reserved Q.is_bounded 0) × (free.1 ≡ reserved Q.is_bounded (seats + 1)) }
    requires capacity { IfSome core.capacity (λ most. seats ≤ most) }
    requires parkers { vec_len prepared.parkers ≡ seats }
    requires places { vec_len prepared.places ≡ seats }
    requires room { (vec_len prepared.room ≡ seats) × (vec_len prepared.counts ≡ seats) }
    requires passes { (prepared.passes.items ≡ []) × (seats ≤ vec_capacity prepared.passes) }
    requires latest { NoneIssued seats prepared.latest }
    ensures seats { result.0 ≡ seats }
    ensures fresh { AreFresh seats result.1.items }
{
    let Prepared {
        parkers,
        places,
        room,
        counts,
        passes,
        latest,
    } = prepared;
    let (calls, mut last_calls) = calls.open::<C>();
    let (procedures, mut last_procedures) = procedures.open::<P>();
    let (mut reservations, mut unreserved) = free;
    let log = Log::open(log);
    let front = log.show();
    let passes = hand_out(
        alloc,
        seats,
        parkers,
        passes,
        &front,
        &mut last_calls,
        &mut last_procedures,
        &mut reservations,
        &mut unreserved,
    );
    let locked = LockedCore::new(
        core,
        calls,
        procedures,
        reservations,
        last_calls,
        last_procedures,
        latest,
        log,
    );
    (
        object_over(locked, seats, places, room, counts, front, steps),
        passes,
    )
}

/// Returns an object with this value behind its lock, these seats, and the room that its closing needs.
fn object_over<
    U: Unit,
    C: Story<U, U::Value>,
    P: Ledger,
    F: Ledger,
    R: Record<U>,
    Q: Receipts<U::Value>,
    S: Hook,
>(
    locked: LockedCore<U, C, P, F, R, Q>,
    seats: u16,
    places: Vec<Seat>,
    room: Vec<ClosedPass<U::Value, Q>>,
    counts: Vec<usize>,
    opening: Front<U::Value, C>,
    steps: S,
) -> Object<U, C, P, F, R, Q, S>
    requires calls { C.parts ≡ seats + 1 }
    requires procedures { P.parts ≡ seats + 1 }
    requires places { vec_len places ≡ seats }
    requires room { (vec_len room ≡ seats) × (vec_len counts ≡ seats) }
    requires opening { opening ≡ [] }
    ensures { result ≡ seats }
{
    Object {
        locked: RwLock::new(locked),
        seats: places,
        calls: SeatParts {
            seats,
            of: PhantomData,
        },
        procedures: SeatParts {
            seats,
            of: PhantomData,
        },
        room,
        counts,
        opening,
        steps,
    }
}

/// Makes a pass for each seat, with a part of each ledger. No pass has a call pending.
fn hand_out<V: Copy, C: CallLedger<V>, P: Ledger, F: Ledger, Q: Receipts<V>>(
    alloc: Global,
    seats: u16,
    parkers: Vec<Parker>,
    room: Vec<Pass<V, C, P, F, Q>>,
    front: &Front<V, C>,
    last_calls: &mut Share<C>,
    last_procedures: &mut Share<P>,
    reservations: &mut Reservations<F>,
    unreserved: &mut Unreserved<F>,
) -> Vec<Pass<V, C, P, F, Q>>
    requires parkers { vec_len parkers ≡ seats }
    requires room { (room.items ≡ []) × (seats ≤ vec_capacity room) }
    requires parts { (last_calls.old.parts ≡ seats + 1) × (last_procedures.old.parts ≡ seats + 1) }
    requires amounts { (last_calls.old.amount ≡ 0) × (last_procedures.old.amount ≡ 0) }
    requires free { (reservations.old ≡ reserved Q.is_bounded 0) × (unreserved.old ≡ reserved Q.is_bounded (seats + 1)) }
    requires seats { C.parts ≡ seats + 1 }
    requires front { front.now ≡ [] }
    ensures passes { AreFresh seats result.items }
    ensures parts { (last_calls.new.parts ≡ 1) × (last_procedures.new.parts ≡ 1) }
    ensures amounts { (last_calls.new.amount ≡ 0) × (last_procedures.new.amount ≡ 0) }
    ensures free { reservations.new ≡ reserved Q.is_bounded seats }
{
    let mut parkers = parkers;
    let mut passes = room;
    for seat in 0..seats {
        let Some(parker) = parkers.pop() else {
            unreachable!()
        };
        let made = last_calls.split_off(1, 0);
        let ran = last_procedures.split_off(1, 0);
        let own = reservations.reserve(unreserved);
        passes.push_reserved(Pass::new(seat, made, ran, own, parker, front.again(), alloc));
    }
    passes
}
