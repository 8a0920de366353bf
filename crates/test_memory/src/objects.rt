// SPDX-License-Identifier: MIT
//! An object whose allocations are refused. An opening that runs out of memory hands back what it was given; a call that does
//! has changed neither its pass nor the object; both do their work when they are asked again. What takes no memory answers the
//! same, whatever was refused.

ghost use Rattle.std.specs.Prelude.{◌≡◌, [], Some};
ghost use Rattle.po_classic_units.specs.Allocator.{allocator_meaning};
ghost use Rattle.po_object.specs.Stories.{IsStory};

use crate::cores::make_again;
use crate::refusals::Refusals;
use po_classic_units::Allocator;
use po_core::{Core, End, Event, Order, Refusal, Volume};
use po_object::{Closed, Keeper, Object, OpenError, Pass, Story, reconcile};
use po_unit::{EntryRef, Unit};
use std::alloc::Global;
use std::io::{self, Print};
use std::marker::Brand;
use std::sync::Wait;
use std::sync::ledger::{Blank, Ledger};

/// The entry Request.
const REQUEST: EntryRef = EntryRef {
    declaration: 0,
    index: None,
};

/// What a caller asks for that takes memory.
#[derive(Clone, Copy)]
enum Ask {
    /// A call of Request with this value.
    Call(u64),
    /// The same, given up if it isn't selected at once.
    Conditional(u64),
    /// The same, given up at the time that is the second number.
    Timed(u64, u64),
    /// The procedure with this value.
    Procedure(u64),
    /// The clock raised to this time.
    Tick(u64),
}

/// What the object answers.
#[derive(Clone, Copy, Debug)]
enum Answer {
    /// How a call ended.
    Ended(End<u64>),
    /// What the procedure replied.
    Replied(Result<u64, u32>),
    /// What the clock shows.
    Clock(u64),
    /// The pass waits for a call, so it was not asked.
    Pending,
}

/// What a call that is refused may not change.
#[derive(Clone, Copy, PartialEq, Eq)]
struct Snapshot {
    calls: u64,
    procedures: u64,
    receipts: usize,
    pending: bool,
    free: Result<Result<u64, u32>, Refusal>,
    waiting: Result<Option<u64>, Refusal>,
}

/// Returns what is seen of the pass and of the object.
fn see<U: Unit<Value = u64> + Drop, C: Story<U, u64>, P: Ledger, R: Wait>(
    rt: &R,
    object: &Object<U, C, P>,
    pass: &Pass<u64, C, P>,
) -> Snapshot {
    Snapshot {
        calls: pass.calls(),
        procedures: pass.procedures(),
        receipts: pass.receipts().len(),
        pending: pass.pending(),
        free: object.function(rt, 0, 0),
        waiting: object.try_count(REQUEST),
    }
}

/// Asks the object.
fn answer_of<U: Unit<Value = u64> + Drop, C: Story<U, u64>, P: Ledger, R: Wait>(
    rt: &R,
    object: &Object<U, C, P>,
    pass: &mut Pass<u64, C, P>,
    what: Ask,
) -> Result<Answer, Refusal> {
    if pass.pending() {
        return Ok(Answer::Pending);
    }
    match what {
        Ask::Call(value) => Ok(Answer::Ended(object.call(rt, pass, REQUEST, value)?)),
        Ask::Conditional(value) => Ok(Answer::Ended(object.conditional(rt, pass, REQUEST, value)?)),
        Ask::Timed(value, time) => Ok(Answer::Ended(object.timed(rt, pass, REQUEST, value, time)?)),
        Ask::Procedure(value) => Ok(Answer::Replied(object.procedure(rt, pass, 0, value)?)),
        Ask::Tick(time) => Ok(Answer::Clock(object.tick(rt, time)?)),
    }
}

/// Asks the object, once more if memory runs out, prints the answer, and counts how often memory ran out.
fn print_answer<U: Unit<Value = u64> + Drop, C: Story<U, u64>, P: Ledger, R: Print + Wait>(
    rt: &R,
    object: &Object<U, C, P>,
    pass: &mut Pass<u64, C, P>,
    what: Ask,
    refusals: &mut Refusals,
) -> io::Result<()> {
    for _ in 0..2 {
        let before = see(rt, object, pass);
        let answer = answer_of(rt, object, pass, what);
        if !matches!(answer, Err(Refusal::OutOfMemory)) {
            return println!(rt; "{answer:?}");
        }
        refusals.note(before == see(rt, object, pass));
    }
    println!(rt; "refused twice")
}

/// Asks for all of these, and counts how often memory runs out.
fn print_all<U: Unit<Value = u64> + Drop, C: Story<U, u64>, P: Ledger, R: Print + Wait>(
    rt: &R,
    object: &Object<U, C, P>,
    pass: &mut Pass<u64, C, P>,
    all: &[Ask],
    refusals: &mut Refusals,
) -> io::Result<()> {
    for what in all {
        print_answer(rt, object, pass, *what, refusals)?;
    }
    Ok(())
}

/// Cuts the history, once more if memory runs out, and counts how often it did.
fn cut<U: Unit<Value = u64> + Drop, C: Story<U, u64>, P: Ledger, R: Wait>(
    rt: &R,
    object: &Object<U, C, P>,
    pass: &Pass<u64, C, P>,
    refusals: &mut Refusals,
) -> Option<Volume<u64>> {
    for _ in 0..2 {
        let before = see(rt, object, pass);
        if let Ok(volume) = object.cut(rt) {
            return Some(volume);
        }
        refusals.note(before == see(rt, object, pass));
    }
    None
}

/// Prints what takes no memory, and finalizes the object.
fn print_the_rest<U: Unit<Value = u64> + Drop, C: Story<U, u64>, P: Ledger, R: Print + Wait>(
    rt: &R,
    object: &Object<U, C, P>,
) -> io::Result<()> {
    println!(rt; "count {:?}", object.try_count(REQUEST))?;
    println!(rt; "function {:?}", object.function(rt, 0, 0))?;
    println!(rt; "abort {:?}", object.cancel_seat(rt, 0))?;
    println!(rt; "finalize {:?}", object.finalize(rt))
}

/// Asks for all of these, and cuts the history.
fn ask_and_cut<U: Unit<Value = u64> + Drop, C: Story<U, u64>, P: Ledger, R: Print + Wait>(
    rt: &R,
    object: &Object<U, C, P>,
    pass: &mut Pass<u64, C, P>,
    all: &[Ask],
    refusals: &mut Refusals,
) -> io::Result<Option<Volume<u64>>> {
    print_all(rt, object, pass, all, refusals)?;
    Ok(cut(rt, object, pass, refusals))
}

/// Uses the object, whose history is cut twice, and returns the two volumes.
fn use_object<U: Unit<Value = u64> + Drop, C: Story<U, u64>, P: Ledger, R: Print + Wait>(
    rt: &R,
    object: &Object<U, C, P>,
    pass: &mut Pass<u64, C, P>,
    refusals: &mut Refusals,
) -> io::Result<Option<[Volume<u64>; 2]>> {
    let first = [Ask::Call(1), Ask::Conditional(1), Ask::Timed(1, 0)];
    let second = [Ask::Procedure(1), Ask::Tick(5), Ask::Timed(1, 6)];
    let earlier = ask_and_cut(rt, object, pass, &first, refusals)?;
    let later = ask_and_cut(rt, object, pass, &second, refusals)?;
    print_the_rest(rt, object)?;
    print_all(rt, object, pass, &[Ask::Call(1)], refusals)?;
    match (earlier, later) {
        (Some(earlier), Some(later)) => Ok(Some([earlier, later])),
        _ => Ok(None),
    }
}

/// Does the same with the first of the passes, if there is one.
fn use_first<U: Unit<Value = u64> + Drop, C: Story<U, u64>, P: Ledger, R: Print + Wait>(
    rt: &R,
    object: &Object<U, C, P>,
    passes: &mut Vec<Pass<u64, C, P>>,
    refusals: &mut Refusals,
) -> io::Result<Option<[Volume<u64>; 2]>> {
    match passes.first_mut() {
        Some(pass) => use_object(rt, object, pass, refusals),
        None => Ok(None),
    }
}

/// Returns whether the core is new: no call was issued, and there is no event.
fn is_new<U: Unit>(core: &Core<U>) -> bool {
    issued_none(core) && core.events().is_empty()
}

/// Returns whether no call was issued.
fn issued_none<U: Unit>(core: &Core<U>) -> bool {
    core.next_number() == 1
}

/// Opens an object with one seat. If memory runs out, it tries once more with what is handed back.
fn open<C: Story<Allocator, u64>, P: Ledger>(
    alloc: Global,
    core: Core<Allocator>,
    calls: Blank,
    procedures: Blank,
    log: Keeper<Event<u64>>,
    refusals: &mut Refusals,
) -> Option<(Object<Allocator, C, P>, Vec<Pass<u64, C, P>>)>
    requires shape { core.object.setup.shape ≡ C.shape }
    requires story { IsStory allocator_meaning core.object.setup C.setup C.end_of }
    requires log { (log.name ≡ C.log) × (log.items ≡ []) }
    requires calls { (calls.name ≡ C.name) × (calls.parts ≡ C.parts) × (calls.parts ≡ 2) }
    requires procedures { (procedures.name ≡ P.name) × (procedures.parts ≡ P.parts) × (procedures.parts ≡ 2) }
{
    match Object::open(alloc, core, 1, calls, procedures, log) {
        Ok(opened) => Some(opened),
        Err(OpenError::OutOfMemory(core, calls, procedures, log)) => {
            refusals.note(is_new(&core));
            Object::open(alloc, core, 1, calls, procedures, log).ok()
        }
        Err(_) => None,
    }
}

/// Prints the history and the receipts of a closed object, and what they say together.
fn print_closed<U: Unit<Value = u64>, R: Print>(
    rt: &R,
    closed: &Closed<U>,
    volumes: &[Volume<u64>],
) -> io::Result<()> {
    println!(rt;
        "closed {} of {}",
        closed.core().place(),
        closed.core().events().len()
    )?;
    for volume in volumes {
        println!(rt;
            "volume {} of {}",
            volume.first_place(),
            volume.events().len()
        )?;
    }
    for pass in closed.passes() {
        for receipt in pass.receipts() {
            println!(rt; "{receipt:?}")?;
        }
    }
    println!(rt; "{:?}", reconcile(closed, volumes))
}

/// Prints what is left of an object that was used, with the two volumes.
fn print_end<U: Unit<Value = u64>, R: Print>(
    rt: &R,
    closed: &Option<Closed<U>>,
    volumes: io::Result<Option<[Volume<u64>; 2]>>,
) -> io::Result<()> {
    match (closed, volumes?) {
        (_, None) => println!(rt; "no pass, or not cut"),
        (None, _) => println!(rt; "not closed"),
        (Some(closed), Some(volumes)) => print_closed(rt, closed, &volumes),
    }
}

/// Opens, uses and closes an object over the core, and counts how often memory runs out.
fn try_object<C: Story<Allocator, u64>, P: Ledger, R: Print + Wait + AllocGlobal>(
    rt: &R,
    core: Core<Allocator>,
    calls: Blank,
    procedures: Blank,
    log: Keeper<Event<u64>>,
    refusals: &mut Refusals,
) -> io::Result<()>
    requires shape { core.object.setup.shape ≡ C.shape }
    requires story { IsStory allocator_meaning core.object.setup C.setup C.end_of }
    requires log { (log.name ≡ C.log) × (log.items ≡ []) }
    requires calls { (calls.name ≡ C.name) × (calls.parts ≡ C.parts) × (calls.parts ≡ 2) }
    requires procedures { (procedures.name ≡ P.name) × (procedures.parts ≡ P.parts) × (procedures.parts ≡ 2) }
{
    let opened = open::<C, P>(rt.alloc(), core, calls, procedures, log, refusals);
    let Some((object, mut passes)) = opened else {
        return println!(rt; "not opened");
    };
    let volumes = use_first(rt, &object, &mut passes, refusals);
    let closed = object.close(passes).ok();
    print_end(rt, &closed, volumes)
}

/// Tries an object over an allocator of 1, and counts how often memory runs out.
pub(crate) fn run<R: Print + Wait + AllocGlobal>(
    rt: &R,
    refusals: &mut Refusals,
) -> io::Result<()> {
    let Some(core) = make_again::<Allocator>(rt.alloc(), 1, Order::Textual, refusals) else {
        return println!(rt; "refused twice");
    };
    let (calls, procedures) = (Blank::new(2), Blank::new(2));
    try_object::<Brand, Brand, R>(rt, core, calls, procedures, Keeper::open(), refusals)
}
