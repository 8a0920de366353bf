// SPDX-License-Identifier: MIT
//! The C interface of a driven object: the functions of include/pobj.h.
//!
//! C holds an object by a `Handle`. Each `pobj_` function takes the object out of its handle, calls the method of
//! `DrivenObject` (`po_driven`) that matches, and puts the object back. `NamedCall` tells C which call an answer is about. Actions,
//! barriers and entries are numbers in C, which src/numbers.rt translates.
//!
//! A function on a handle with no object changes nothing, and returns that it refuses, false or 0.
//!
//! Begin with include/pobj.h and `pobj_issue` here; specs/Told.antt says what each number means.
#![tactic(auto)]

ghost use Rattle.std.specs.Prelude.{◌≡◌, ◌<◌, [], None, Some, MatchBool, count_by, slice_set, true, false, ◌≤◌};
ghost use Rattle.po_c.specs.Told.{FromTo, KeepsObject, LeavesTold, Cancelling, is_not_zero, Answers, entry_named, arriving_named, barrier_named, body_end_named, number_of_action, number_of_cancellation, requeue_named};
ghost use Rattle.po_driven.specs.declared.action.Action.TheVariants.{Refused};
ghost use Rattle.po_driven.specs.declared.phase.Phase.TheVariants.{Resting};
ghost use Rattle.po_driven.specs.declared.words.BodyEnd.TheVariants.{Completed};
ghost use Rattle.po_driven.specs.declared.words.Cancellation.TheVariants.{Refused as IsRefused};
ghost use Rattle.po_driven.specs.Passing.{MakesReady, Serves, ServesTwice, TurnsAway, Waits};
ghost use Rattle.po_driven.specs.Steps.{Attempts, EndsBody, Evaluates, Finalizes, GoesOn, Issues};
ghost use Rattle.po_engine.specs.WaitingCalls.{is_on};
ghost use Rattle.po_driven.specs.DrivenView.{DrivenView, at_opening};
ghost use Rattle.po_driven.specs.DrivenCallsView.{opening_calls};

mod handle;
mod loose;
mod numbers;

use handle::Handle;
use numbers::{
    answer_of, arriving_of, barrier_of, body_end_of, entry_of, number_of, refused, requeue_of,
};
use po_driven::{Cancellation, DrivenObject, NamedCall, Ticket};
use std::alloc::Global;

/// Puts the object into a handle that has none. Returns false if memory runs out.
fn put(alloc: Global, handle: &mut Handle, object: DrivenObject) -> bool
    requires { handle.old.object ≡ None }
    ensures { MatchBool result (handle.new.object ≡ Some object) (handle.new.object ≡ None) }
{
    match Box::new(alloc, object) {
        Ok(boxed) => {
            *handle = Handle::of(boxed);
            true
        }
        Err(_) => false,
    }
}

/// Makes an object in a handle that has none. Returns false if memory runs out or there are too many entries.
#[unsafe(no_mangle)]
pub extern "C" fn pobj_make(alloc: Global, handle: &mut Handle, entries: u64) -> bool
    requires { handle.old.object ≡ None }
    ensures { MatchBool result (handle.new.object ≡ Some (at_opening (opening_calls entries 0 false) entries)) (handle.new.object ≡ None) }
{
    if entries > 65535 {
        return false;
    }
    match DrivenObject::new(alloc, entries as u16) {
        Ok(object) => put(alloc, handle, object),
        Err(_) => false,
    }
}

/// Like `pobj_make`, but takes all its memory at once, for up to `calls` calls that are queued or being served.
#[unsafe(no_mangle)]
pub extern "C" fn pobj_make_fixed(
    alloc: Global,
    handle: &mut Handle,
    entries: u64,
    calls: usize,
) -> bool
    requires { handle.old.object ≡ None }
    ensures { MatchBool result (handle.new.object ≡ Some (at_opening (opening_calls entries calls true) entries)) (handle.new.object ≡ None) }
{
    if entries > 65535 {
        return false;
    }
    match DrivenObject::with_capacity(alloc, entries as u16, calls) {
        Ok(object) => put(alloc, handle, object),
        Err(_) => false,
    }
}

/// Frees the object, if there is one.
#[unsafe(no_mangle)]
pub extern "C" fn pobj_free(alloc: Global, handle: &mut Handle)
    ensures { handle.new.object ≡ None }
{
    drop(handle.take(alloc));
}

/// Sets how many calls may be queued on the entry from now on; 0 means any number. Returns false if there is no such entry.
#[unsafe(no_mangle)]
pub extern "C" fn pobj_limit(alloc: Global, handle: &mut Handle, entry: u64, longest: u64) -> bool
    ensures made { KeepsObject handle.old.object handle.new.object }
    ensures no_object { handle.old.object ≡ None → result ≡ false }
    ensures set { FromTo handle.old.object handle.new.object (λ old new. entry_named entry < old.calls.object.state.unit
        → (result ≡ true) × (new ≡ record old { limits = slice_set old.limits (entry_named entry) longest })) }
    ensures none { FromTo handle.old.object handle.new.object (λ old new. old.calls.object.state.unit ≤ entry_named entry
        → (result ≡ false) × (new ≡ old)) }
{
    let Some(mut object) = handle.take(alloc) else {
        return false;
    };
    let is_set = object.limit(entry_of(entry), longest);
    *handle = Handle::of(object);
    is_set
}

/// Issues a call of this caller, with this answer about its barrier.
#[unsafe(no_mangle)]
pub extern "C" fn pobj_issue(
    alloc: Global,
    handle: &mut Handle,
    caller: u64,
    entry: u64,
    marks: u64,
    barrier: u64,
    step: &mut NamedCall,
) -> u64
    ensures made { KeepsObject handle.old.object handle.new.object }
    ensures no_object { handle.old.object ≡ None → (result ≡ number_of_action Refused) × (step.new ≡ step.old) }
    ensures answer { FromTo handle.old.object handle.new.object (λ old new.
        Answers result (Issues (arriving_named caller entry marks) (barrier_named barrier) step.new old new)) }
    ensures named { LeavesTold result step.old step.new }
{
    let Some(mut object) = handle.take(alloc) else {
        return refused();
    };
    let arriving = arriving_of(caller, entry, marks);
    let action = object.issue(arriving, barrier_of(barrier), step);
    *handle = Handle::of(object);
    answer_of(action)
}

/// Takes the answer about the barrier that was asked for, and returns what is next.
#[unsafe(no_mangle)]
pub extern "C" fn pobj_answer(
    alloc: Global,
    handle: &mut Handle,
    barrier: u64,
    step: &mut NamedCall,
) -> u64
    ensures made { KeepsObject handle.old.object handle.new.object }
    ensures no_object { handle.old.object ≡ None → (result ≡ number_of_action Refused) × (step.new ≡ step.old) }
    ensures answer { FromTo handle.old.object handle.new.object (λ old new. Answers result (Evaluates (barrier_named barrier) step.new old new)) }
    ensures named { LeavesTold result step.old step.new }
{
    let Some(mut object) = handle.take(alloc) else {
        return refused();
    };
    let action = object.answer(barrier_of(barrier), step);
    *handle = Handle::of(object);
    answer_of(action)
}

/// Takes how the body that was run has ended, and returns what is next.
#[unsafe(no_mangle)]
pub extern "C" fn pobj_body_ended(
    alloc: Global,
    handle: &mut Handle,
    how: u64,
    entry: u64,
    marks: u64,
    step: &mut NamedCall,
) -> u64
    ensures made { KeepsObject handle.old.object handle.new.object }
    ensures no_object { handle.old.object ≡ None → (result ≡ number_of_action Refused) × (step.new ≡ step.old) }
    ensures answer { FromTo handle.old.object handle.new.object (λ old new. Answers result (EndsBody (body_end_named how entry marks) step.new old new)) }
    ensures named { LeavesTold result step.old step.new }
{
    let Some(mut object) = handle.take(alloc) else {
        return refused();
    };
    let action = object.body_ended(body_end_of(how, entry, marks), step);
    *handle = Handle::of(object);
    answer_of(action)
}

/// Returns what the client is to do next.
#[unsafe(no_mangle)]
pub extern "C" fn pobj_next(alloc: Global, handle: &mut Handle, step: &mut NamedCall) -> u64
    ensures made { KeepsObject handle.old.object handle.new.object }
    ensures no_object { handle.old.object ≡ None → (result ≡ number_of_action Refused) × (step.new ≡ step.old) }
    ensures answer { FromTo handle.old.object handle.new.object (λ old new. Answers result (GoesOn step.new old new)) }
    ensures named { LeavesTold result step.old step.new }
{
    let Some(mut object) = handle.take(alloc) else {
        return refused();
    };
    let action = object.next(step);
    *handle = Handle::of(object);
    answer_of(action)
}

/// Attempts to cancel a queued call.
#[unsafe(no_mangle)]
pub extern "C" fn pobj_cancel(
    alloc: Global,
    handle: &mut Handle,
    key: usize,
    number: u64,
    expired: u64,
) -> u64
    ensures made { KeepsObject handle.old.object handle.new.object }
    ensures no_object { handle.old.object ≡ None → result ≡ number_of_cancellation IsRefused }
    ensures refused { FromTo handle.old.object handle.new.object (λ old new. 1 < result → new ≡ old) }
    ensures noted { FromTo handle.old.object handle.new.object (λ old new. Cancelling result (Attempts (record { key = key; number = number }) (is_not_zero expired) old new)) }
{
    let Some(mut object) = handle.take(alloc) else {
        return number_of(Cancellation::Refused);
    };
    let what = object.cancel(Ticket { key, number }, expired != 0);
    *handle = Handle::of(object);
    number_of(what)
}

/// Finalizes the object.
#[unsafe(no_mangle)]
pub extern "C" fn pobj_finalize(alloc: Global, handle: &mut Handle, step: &mut NamedCall) -> u64
    ensures made { KeepsObject handle.old.object handle.new.object }
    ensures no_object { handle.old.object ≡ None → (result ≡ number_of_action Refused) × (step.new ≡ step.old) }
    ensures answer { FromTo handle.old.object handle.new.object (λ old new. Answers result (Finalizes step.new old new)) }
    ensures named { LeavesTold result step.old step.new }
{
    let Some(mut object) = handle.take(alloc) else {
        return refused();
    };
    let action = object.finalize(step);
    *handle = Handle::of(object);
    answer_of(action)
}

/// Makes room for one more call, so that `pobj_served` accepts it.
#[unsafe(no_mangle)]
pub extern "C" fn pobj_ready(alloc: Global, handle: &mut Handle) -> u64
    ensures made { KeepsObject handle.old.object handle.new.object }
    ensures no_object { handle.old.object ≡ None → result ≡ number_of_action Refused }
    ensures answer { FromTo handle.old.object handle.new.object (λ old new. Answers result (MakesReady old new)) }
{
    let Some(mut object) = handle.take(alloc) else {
        return refused();
    };
    let action = object.ready();
    *handle = Handle::of(object);
    answer_of(action)
}

/// Takes a call of this caller whose barrier was open and whose body has run, and returns what is next.
#[unsafe(no_mangle)]
pub extern "C" fn pobj_served(
    alloc: Global,
    handle: &mut Handle,
    caller: u64,
    entry: u64,
    marks: u64,
    how: u64,
    target: u64,
    target_marks: u64,
    step: &mut NamedCall,
) -> u64
    ensures made { KeepsObject handle.old.object handle.new.object }
    ensures no_object { handle.old.object ≡ None → (result ≡ number_of_action Refused) × (step.new ≡ step.old) }
    ensures answer { FromTo handle.old.object handle.new.object (λ old new.
        Answers result (Serves (arriving_named caller entry marks) (body_end_named how target target_marks) step.new old new)) }
    ensures named { LeavesTold result step.old step.new }
{
    let Some(mut object) = handle.take(alloc) else {
        return refused();
    };
    let answer = if how == 0 {
        completed(&mut object, caller, entry, marks, step)
    } else {
        served(
            &mut object,
            caller,
            entry,
            marks,
            how,
            target,
            target_marks,
            step,
        )
    };
    *handle = Handle::of(object);
    answer
}

/// Takes a call whose body has completed, which is how most bodies end: so it is inlined.
#[inline(always)]
fn completed(
    object: &mut DrivenObject,
    caller: u64,
    entry: u64,
    marks: u64,
    step: &mut NamedCall,
) -> u64
    ensures answers { Answers result (Serves (arriving_named caller entry marks) Completed step.new object.old object.new) }
    ensures named { LeavesTold result step.old step.new }
{
    answer_of(object.served_and_completed(arriving_of(caller, entry, marks), step))
}

/// Takes a call whose body has ended in one of the ways.
#[inline(never)]
fn served(
    object: &mut DrivenObject,
    caller: u64,
    entry: u64,
    marks: u64,
    how: u64,
    target: u64,
    target_marks: u64,
    step: &mut NamedCall,
) -> u64
    ensures answers { Answers result (Serves (arriving_named caller entry marks) (body_end_named how target target_marks) step.new object.old object.new) }
    ensures named { LeavesTold result step.old step.new }
{
    let end = body_end_of(how, target, target_marks);
    answer_of(object.served(arriving_of(caller, entry, marks), end, step))
}

/// Takes a call of this caller whose barrier was open, whose body has requeued it to an open entry of the object, and whose body
/// there has completed it, while no other call is queued.
#[unsafe(no_mangle)]
pub extern "C" fn pobj_served_twice(
    alloc: Global,
    handle: &mut Handle,
    caller: u64,
    entry: u64,
    marks: u64,
    how: u64,
    target: u64,
    target_marks: u64,
) -> bool
    ensures made { KeepsObject handle.old.object handle.new.object }
    ensures no_object { handle.old.object ≡ None → result ≡ false }
    ensures answer { FromTo handle.old.object handle.new.object (λ old new.
        ServesTwice (arriving_named caller entry marks) (requeue_named how target target_marks) old new result) }
{
    let Some(mut object) = handle.take(alloc) else {
        return false;
    };
    let arriving = arriving_of(caller, entry, marks);
    let is_told = object.served_twice(arriving, requeue_of(how, target, target_marks));
    *handle = Handle::of(object);
    is_told
}

/// Returns whether the object waits for a command, and no call is queued.
#[unsafe(no_mangle)]
pub extern "C" fn pobj_is_idle(alloc: Global, handle: &mut Handle) -> bool
    ensures same { handle.new.object ≡ handle.old.object }
    ensures no_object { handle.old.object ≡ None → result ≡ false }
    ensures idle { (d : DrivenView) → handle.old.object ≡ Some d → result ≡ true → (d.phase ≡ Resting) × (d.calls.object.state.waiting ≡ []) }
    ensures not_idle { (d : DrivenView) → handle.old.object ≡ Some d → d.phase ≡ Resting → d.calls.object.state.waiting ≡ [] → result ≡ true }
{
    let Some(object) = handle.take(alloc) else {
        return false;
    };
    let is_idle = object.is_idle();
    *handle = Handle::of(object);
    is_idle
}

/// Queues a call of this caller that arrives alone and isn't due, and whose barrier is closed whatever the number of queued calls.
#[unsafe(no_mangle)]
pub extern "C" fn pobj_wait(
    alloc: Global,
    handle: &mut Handle,
    caller: u64,
    entry: u64,
    marks: u64,
    step: &mut NamedCall,
) -> bool
    ensures made { KeepsObject handle.old.object handle.new.object }
    ensures no_object { handle.old.object ≡ None → (result ≡ false) × (step.new ≡ step.old) }
    ensures answer { FromTo handle.old.object handle.new.object (λ old new. Waits (arriving_named caller entry marks) step.new old new result) }
    ensures named { result ≡ false → step.new ≡ step.old }
{
    let Some(mut object) = handle.take(alloc) else {
        return false;
    };
    let is_queued = object.wait(arriving_of(caller, entry, marks), step);
    *handle = Handle::of(object);
    is_queued
}

/// Cancels a call of this caller that arrives alone and is due, and whose barrier is closed whatever the number of queued calls.
#[unsafe(no_mangle)]
pub extern "C" fn pobj_turn_away(
    alloc: Global,
    handle: &mut Handle,
    caller: u64,
    entry: u64,
    marks: u64,
) -> bool
    ensures made { KeepsObject handle.old.object handle.new.object }
    ensures no_object { handle.old.object ≡ None → result ≡ false }
    ensures answer { FromTo handle.old.object handle.new.object (λ old new. TurnsAway (arriving_named caller entry marks) old new result) }
{
    let Some(mut object) = handle.take(alloc) else {
        return false;
    };
    let is_away = object.turn_away(arriving_of(caller, entry, marks));
    *handle = Handle::of(object);
    is_away
}

/// Returns how many calls are queued on the entry, or 0 if there is no such entry.
#[unsafe(no_mangle)]
pub extern "C" fn pobj_count(alloc: Global, handle: &mut Handle, entry: u64) -> u64
    ensures no_object { handle.old.object ≡ None → result ≡ 0 }
    ensures same { handle.new.object ≡ handle.old.object }
    ensures exact { (d : DrivenView) → handle.old.object ≡ Some d → entry_named entry < d.calls.object.state.unit
        → result ≡ count_by (is_on (entry_named entry)) d.calls.object.state.waiting }
    ensures none { (d : DrivenView) → handle.old.object ≡ Some d → d.calls.object.state.unit ≤ entry_named entry → result ≡ 0 }
{
    let Some(object) = handle.take(alloc) else {
        return 0;
    };
    let count = object.count(entry_of(entry));
    *handle = Handle::of(object);
    count
}
