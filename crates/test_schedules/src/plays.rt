// SPDX-License-Identifier: MIT
//! Does what a thread has to do, on an object of either kind.

use crate::act::Act;
use crate::station::Station;
use crate::told::{Answer, Told};
use po_core::{Record, Refusal, Volume};
use po_object::steps::Hook;
use po_object::{Object, Pass, Receipts, Story};
use po_unit::EntryRef;
use std::sync::Wait;
use std::sync::ledger::Ledger;

/// An object that the threads of a scene share, with passes of this type.
pub(crate) trait Plays<P> {
    /// Does what the act says, if the thread has a pass or needs none, and notes the answer. Returns the volume that it cut off
    /// from the history, if it cut it.
    fn play<W: Wait>(
        &self,
        rt: &W,
        pass: Option<&mut P>,
        act: Act,
        told: &mut Told,
    ) -> Option<Volume<u64>>;
}

/// What an object keeps of the past. If that is its history, it can be cut.
pub(crate) trait Kept: Record<Station> + Drop {
    /// Cuts the history, if the object keeps one.
    fn cut<C: Story<Station, u64>, P: Ledger, F: Ledger, Q: Receipts<u64>, S: Hook, W: Wait>(
        rt: &W,
        object: &Object<Station, C, P, F, Self, Q, S>,
    ) -> Option<Volume<u64>>;
}

/// Returns the single entry with this number.
fn single(entry: u16) -> EntryRef {
    EntryRef {
        declaration: entry,
        index: None,
    }
}

impl<C: Story<Station, u64>, P: Ledger, F: Ledger, R: Kept, Q: Receipts<u64>, S: Hook> Plays<
    Pass<u64, C, P, F, Q>,
> for Object<Station, C, P, F, R, Q, S> {
    fn play<W: Wait>(
        &self,
        rt: &W,
        pass: Option<&mut Pass<u64, C, P, F, Q>>,
        act: Act,
        told: &mut Told,
    ) -> Option<Volume<u64>> {
        if matches!(act, Act::Cut) {
            return R::cut(rt, self);
        }
        match pass {
            Some(pass) if act.needs_pass() => call_again(rt, self, pass, act, told),
            _ => ask(rt, self, act),
        }
        None
    }
}

/// Asks the object what the act says, if that needs no pass. The answer doesn't matter.
fn ask<
    C: Story<Station, u64>,
    P: Ledger,
    F: Ledger,
    R: Record<Station>,
    Q: Receipts<u64>,
    S: Hook,
    W: Wait,
>(rt: &W, object: &Object<Station, C, P, F, R, Q, S>, act: Act) {
    match act {
        Act::Function => {
            let _reply = object.function(rt, 0, 0);
        }
        Act::Count(entry) => {
            let _count = object.try_count(single(entry));
        }
        Act::Tick(time) => {
            let _clock = object.tick(rt, time);
        }
        Act::Finalize => {
            let _done = object.finalize(rt);
        }
        Act::Cancel(seat) => {
            let _aborted = object.cancel_seat(rt, seat);
        }
        _ => {}
    }
}

/// Returns the part of the pass that a refused call may not change.
fn tally_of<C: Story<Station, u64>, P: Ledger, F: Ledger, Q: Receipts<u64>>(
    pass: &Pass<u64, C, P, F, Q>,
) -> (u64, u64, bool) {
    (pass.calls(), pass.procedures(), pass.pending())
}

/// Makes the call of the act, or runs its procedure, once more if memory runs out, and notes the answer.
fn call_again<
    C: Story<Station, u64>,
    P: Ledger,
    F: Ledger,
    R: Record<Station>,
    Q: Receipts<u64>,
    S: Hook,
    W: Wait,
>(
    rt: &W,
    object: &Object<Station, C, P, F, R, Q, S>,
    pass: &mut Pass<u64, C, P, F, Q>,
    act: Act,
    told: &mut Told,
) {
    for _ in 0..2 {
        let before = tally_of(pass);
        match call(rt, object, pass, act) {
            Ok(answer) => return told.note(answer),
            Err(Refusal::OutOfMemory) => told.note_refusal(before == tally_of(pass)),
            Err(_) => return,
        }
    }
}

/// Makes the call of the act, or runs its procedure.
fn call<
    C: Story<Station, u64>,
    P: Ledger,
    F: Ledger,
    R: Record<Station>,
    Q: Receipts<u64>,
    S: Hook,
    W: Wait,
>(
    rt: &W,
    object: &Object<Station, C, P, F, R, Q, S>,
    pass: &mut Pass<u64, C, P, F, Q>,
    act: Act,
) -> Result<Answer, Refusal> {
    if pass.pending() {
        return Ok(Answer::Nothing);
    }
    match act {
        Act::Call(entry, value) => Ok(Answer::Ended(object.call(rt, pass, single(entry), value)?)),
        Act::Timed(entry, time) => {
            let end = object.timed(rt, pass, single(entry), 0, time)?;
            Ok(Answer::Ended(end))
        }
        Act::Conditional(entry) => {
            let end = object.conditional(rt, pass, single(entry), 7)?;
            Ok(Answer::Ended(end))
        }
        Act::Procedure(procedure) => {
            let reply = object.procedure(rt, pass, procedure, 0)?;
            Ok(Answer::Replied(reply))
        }
        _ => Ok(Answer::Nothing),
    }
}
