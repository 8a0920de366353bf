// SPDX-License-Identifier: MIT
//! What the tests do with an object over a buffer, using the first of its passes, and what is left of the object then.

use crate::asks::{Answer, Ask, GET, PUT, ask_all, same};
use po_core::{Deadline, End, Refusal, Volume};
use po_object::{Agreed, Closed, Object, Pass, Receipt, Story, every_answer, reconcile};
use po_unit::Unit;
use std::process::Abort;
use std::sync::Wait;
use std::sync::ledger::Ledger;

/// What is done with an object, from its opening to its end.
#[derive(Clone, Copy)]
pub enum Scene {
    /// One call.
    OneCall,
    /// Calls of each kind, the clock, and a finalization.
    EachKind,
    /// Attempts to cancel when no call waits.
    NoneWaits,
    /// The value is put and taken out, and the history is cut after each of the two calls.
    Cuts(u64),
    /// Nothing.
    Idle,
}

/// Plays the scene with the first of the passes, if there is one, and keeps the volumes that are cut off.
pub fn play<U: Unit<Value = u64> + Drop, C: Story<U, u64>, P: Ledger, R: Abort + Wait>(
    rt: &R,
    object: &Object<U, C, P>,
    passes: &mut Vec<Pass<u64, C, P>>,
    scene: Scene,
    volumes: &mut Vec<Volume<u64>>,
) {
    let Some(pass) = passes.first_mut() else {
        return;
    };
    match scene {
        Scene::OneCall => one_call(rt, object, pass),
        Scene::EachKind => each_kind(rt, object, pass),
        Scene::NoneWaits => none_waits(rt, object, pass),
        Scene::Cuts(value) => put_and_get(rt, object, pass, value, volumes),
        Scene::Idle => {}
    }
}

/// Returns how many events and receipts there are after the scene.
fn totals(scene: Scene) -> (usize, usize) {
    match scene {
        Scene::OneCall => (1, 1),
        Scene::EachKind => (9, 4),
        Scene::Cuts(_) => (0, 2),
        Scene::NoneWaits | Scene::Idle => (0, 0),
    }
}

/// Returns how many receipts all passes have, and checks that the passes are sorted by seat.
fn count_receipts<U: Unit<Value = u64>, R: Abort>(rt: &R, closed: &Closed<U>) -> usize {
    let mut filed = 0usize;
    let mut seat = 0u16;
    for pass in closed.passes() {
        same(rt, pass.seat(), seat);
        filed = filed.saturating_add(pass.receipts().len());
        seat = seat.saturating_add(1);
    }
    filed
}

/// Checks what is left of an object whose history was not cut.
pub fn look<U: Unit<Value = u64>, R: Abort>(rt: &R, closed: &Closed<U>, scene: Scene) {
    let seen = (closed.core().events().len(), count_receipts(rt, closed));
    same(rt, seen, totals(scene));
    let verdict = reconcile(closed, &[]);
    if verdict.is_ok() {
        // Only for the prover: states what then holds of each answer.
        every_answer(closed, &[]);
    }
    same(rt, (verdict, closed.none_pending()), (Ok(Agreed), true));
}

/// Checks that the receipt shows the value put.
fn one_call<U: Unit<Value = u64>, C: Story<U, u64>, P: Ledger, R: Abort + Wait>(
    rt: &R,
    object: &Object<U, C, P>,
    pass: &mut Pass<u64, C, P>,
) {
    let rows = [
        (Ask::Call(PUT, 7), Ok(Answer::Ended(End::Completed(7)))),
        (Ask::Count(PUT), Ok(Answer::Counted(Some(0)))),
    ];
    ask_all(rt, object, pass, &rows);
    let receipt = Receipt::Called {
        number: 1,
        entry: 0,
        value: 7,
        deadline: Deadline::Never,
        answer: End::Completed(7),
    };
    same(rt, pass.receipts().last().copied(), Some(receipt));
    look_behind(rt, object, pass);
}

/// Checks that a function and a count come after all that the caller has seen, and that the caller has then seen as far as they
/// did. The same holds for a thread without a pass.
fn look_behind<U: Unit<Value = u64>, C: Story<U, u64>, P: Ledger, R: Abort + Wait>(
    rt: &R,
    object: &Object<U, C, P>,
    pass: &mut Pass<u64, C, P>,
) {
    let mut front = pass.front();
    same(rt, object.function_after(rt, &mut front, 0, 0), Ok(Ok(1)));
    same(rt, object.try_count_after(&mut front, GET), Ok(Some(0)));
    pass.see(&front);
    let mut other = object.front();
    other.see(&front);
    same(
        rt,
        object.function_after(rt, &mut other, 9, 0),
        Err(Refusal::NoSuchOperation),
    );
}

/// Checks that an empty buffer of 1 has nothing to get at once, that a value put into it is seen and taken out, that the clock
/// doesn't go back, and that every command on a finalized object is refused.
fn each_kind<U: Unit<Value = u64>, C: Story<U, u64>, P: Ledger, R: Abort + Wait>(
    rt: &R,
    object: &Object<U, C, P>,
    pass: &mut Pass<u64, C, P>,
) {
    let rows = [
        (Ask::Conditional(GET, 0), Ok(Answer::Ended(End::Cancelled))),
        (Ask::Timed(GET, 0, 0), Ok(Answer::Ended(End::Cancelled))),
        (Ask::Call(PUT, 7), Ok(Answer::Ended(End::Completed(7)))),
        (Ask::Function(0), Ok(Answer::Replied(Ok(1)))),
        (
            Ask::Conditional(GET, 0),
            Ok(Answer::Ended(End::Completed(7))),
        ),
        (Ask::Tick(3), Ok(Answer::Clock(3))),
        (Ask::Tick(2), Ok(Answer::Clock(3))),
        (Ask::Procedure(0), Err(Refusal::NoSuchOperation)),
        (Ask::Finalize, Ok(Answer::Finalized)),
    ];
    ask_all(rt, object, pass, &rows);
    refused_everywhere(rt, object, pass);
    same(rt, pass.calls(), 4);
}

/// Checks that every command on a finalized object is refused.
fn refused_everywhere<U: Unit<Value = u64>, C: Story<U, u64>, P: Ledger, R: Abort + Wait>(
    rt: &R,
    object: &Object<U, C, P>,
    pass: &mut Pass<u64, C, P>,
) {
    let rows = [
        (Ask::Call(PUT, 1), Err(Refusal::Finalized)),
        (Ask::Conditional(PUT, 1), Err(Refusal::Finalized)),
        (Ask::Timed(PUT, 1, 9), Err(Refusal::Finalized)),
        (Ask::Function(0), Err(Refusal::Finalized)),
        (Ask::Tick(4), Err(Refusal::Finalized)),
        (Ask::Finalize, Err(Refusal::Finalized)),
        (Ask::CancelSeat(0), Err(Refusal::NoCall)),
    ];
    ask_all(rt, object, pass, &rows);
}

/// Checks what is answered if no call waits, and that there is no seat 9.
fn none_waits<U: Unit<Value = u64>, C: Story<U, u64>, P: Ledger, R: Abort + Wait>(
    rt: &R,
    object: &Object<U, C, P>,
    pass: &mut Pass<u64, C, P>,
) {
    let rows = [
        (Ask::CancelSeat(0), Err(Refusal::NoCall)),
        (Ask::CancelSeat(9), Err(Refusal::NoCall)),
    ];
    ask_all(rt, object, pass, &rows);
}

/// Cuts the history, and keeps the volume. If the cut fails, the volume is missing at the end.
fn cut<U: Unit<Value = u64> + Drop, C: Story<U, u64>, P: Ledger, R: Wait>(
    rt: &R,
    object: &Object<U, C, P>,
    volumes: &mut Vec<Volume<u64>>,
) {
    if let Ok(volume) = object.cut(rt) {
        let _kept = volumes.push(volume);
    }
}

/// Puts the value, gets it, and cuts the history after each of the two calls.
fn put_and_get<U: Unit<Value = u64> + Drop, C: Story<U, u64>, P: Ledger, R: Abort + Wait>(
    rt: &R,
    object: &Object<U, C, P>,
    pass: &mut Pass<u64, C, P>,
    value: u64,
    volumes: &mut Vec<Volume<u64>>,
) {
    for what in [Ask::Call(PUT, value), Ask::Call(GET, 0)] {
        let wanted = Ok(Answer::Ended(End::Completed(value)));
        ask_all(rt, object, pass, &[(what, wanted)]);
        cut(rt, object, volumes);
    }
}
