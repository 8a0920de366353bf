// SPDX-License-Identifier: MIT
//! The example of docs/OBJECTS.md: threads that share a bounded buffer.
//!
//! Two producers put 100 values each into a buffer for two, and two consumers get 100 each. When they are done, one more thread
//! calls Get on the empty buffer, and its call waits until it is cancelled. Then the object is closed, and the callers' answers
//! are compared with the history. Every run prints the same.
#![tactic(auto)]

ghost use Rattle.std.specs.Prelude.{◌≡◌, ◌+◌, [], Some};
ghost use Rattle.po_classic_units.specs.Buffer.{buffer_meaning};
ghost use Rattle.po_object.specs.Stories.{IsStory};

use anyhow::{Result, bail};
use po_classic_units::{Buffer, ScriptUnit};
use po_core::{Attempt, Core, End, Event, Order, Record};
use po_object::{Closed, Keeper, Object, Pass, Receipt, Receipts, Story, reconcile};
use po_threads::{Job, start};
use po_unit::EntryRef;
use std::alloc::{AllocError, Global};
use std::io::Print;
use std::marker::Brand;
use std::sync::ledger::{Blank, Ledger};
use std::sync::{Arc, Wait};
use std::thread::{self, Threads};
use std::time::{Clock, Duration};

/// How many values the buffer has room for.
const CAPACITY: u16 = 2;

/// How many values a producer puts, and a consumer gets.
const VALUES: u64 = 100;

/// Two producers, two consumers, and the one whose call is cancelled.
const SEATS: u16 = 5;

/// How many parts each ledger has: one for each seat, and one that the object keeps.
const PARTS: u64 = 6;

/// How many times the main thread tries to cancel that call, one a millisecond.
const ATTEMPTS: u32 = 10_000;

/// The entry Put of the buffer.
const PUT: EntryRef = EntryRef {
    declaration: 0,
    index: None,
};

/// The entry Get of the buffer.
const GET: EntryRef = EntryRef {
    declaration: 1,
    index: None,
};

/// The function State of the buffer: how many values it holds.
const STATE: u16 = 0;

/// Makes a core over an empty buffer, whose calls are numbered from 1.
fn empty_buffer(alloc: Global) -> Result<Core<Buffer>> {
    let buffer = Buffer::new(alloc, CAPACITY)?;
    let shape = buffer.shape(alloc)?;
    Ok(Core::new(alloc, buffer, shape, Order::Textual, 1)?)
}

/// Calls the entry `times` times, with the values from 0 on, and gives the pass back. The object is of either kind.
///
/// A caller that is refused finalizes the object, so that no other caller waits for what this one doesn't do.
fn call_often<
    C: Story<Buffer, u64>,
    P: Ledger,
    F: Ledger,
    R: Record<Buffer>,
    Q: Receipts<u64>,
    W: Wait,
>(
    rt: &W,
    object: &Object<Buffer, C, P, F, R, Q>,
    mut pass: Pass<u64, C, P, F, Q>,
    entry: EntryRef,
    times: u64,
) -> Pass<u64, C, P, F, Q> {
    if pass.pending() {
        return pass;
    }
    for value in 0..times {
        if object.call(rt, &mut pass, entry, value).is_err() {
            let _ended = object.finalize(rt);
            break;
        }
    }
    pass
}

/// What a thread does: it calls the entry `times` times.
#[derive(Clone, Copy)]
struct Calls {
    entry: EntryRef,
    times: u64,
}

impl<C: Story<Buffer, u64>, P: Ledger> Job<Object<Buffer, C, P>, Pass<u64, C, P>> for Calls {
    fn run<W: Wait>(
        self,
        rt: &W,
        object: &Object<Buffer, C, P>,
        pass: Pass<u64, C, P>,
    ) -> Pass<u64, C, P> {
        call_often(rt, object, pass, self.entry, self.times)
    }
}

/// Cancels the call of the seat, which may not be queued yet. If the call never comes, the object is finalized.
fn cancel<C: Story<Buffer, u64>, P: Ledger, R: Wait + Clock>(
    rt: &R,
    object: &Object<Buffer, C, P>,
    seat: u16,
) {
    for _ in 0..ATTEMPTS {
        if object.cancel_seat(rt, seat) == Ok(Attempt::Cancelled) {
            return;
        }
        thread::sleep(rt, Duration::from_millis(1));
    }
    let _ended = object.finalize(rt);
}

/// Has a thread for each pass call Put if its seat is even, or else Get, and waits until all are done.
fn exchange<
    C: Story<Buffer, u64> + Send + Sync + 'static,
    P: Ledger + Send + Sync + 'static,
    R: Threads + Wait + AllocGlobal + Copy + Send + 'static,
>(
    rt: R,
    object: &Arc<Object<Buffer, C, P>>,
    passes: &mut Vec<Pass<u64, C, P>>,
) -> Result<(), AllocError> {
    let mut running = Vec::new(rt.alloc());
    while let Some(pass) = passes.pop() {
        let entry = if pass.seat() % 2 == 0 { PUT } else { GET };
        let calls = Calls {
            entry,
            times: VALUES,
        };
        running.push(start(rt, Arc::try_clone(object)?, pass, calls)?)?;
    }
    for thread in running {
        passes.push(thread.join(&rt))?;
    }
    Ok(())
}

/// Has a thread call Get, which waits since the buffer is empty, and cancels that call.
fn get_in_vain<
    C: Story<Buffer, u64> + Send + Sync + 'static,
    P: Ledger + Send + Sync + 'static,
    R: Threads + Wait + Clock + Copy + Send + 'static,
>(
    rt: R,
    object: &Arc<Object<Buffer, C, P>>,
    pass: Pass<u64, C, P>,
) -> Result<Pass<u64, C, P>, AllocError> {
    let seat = pass.seat();
    let call = Calls {
        entry: GET,
        times: 1,
    };
    let waiting = start(rt, Arc::try_clone(object)?, pass, call)?;
    cancel(&rt, object, seat);
    Ok(waiting.join(&rt))
}

/// Has a thread for each pass call the object, the last one after all others.
fn call_all<
    C: Story<Buffer, u64> + Send + Sync + 'static,
    P: Ledger + Send + Sync + 'static,
    R: Threads + Wait + Clock + AllocGlobal + Copy + Send + 'static,
>(
    rt: R,
    object: &Arc<Object<Buffer, C, P>>,
    passes: &mut Vec<Pass<u64, C, P>>,
) -> Result<(), AllocError> {
    let last = passes.pop();
    exchange(rt, object, passes)?;
    if let Some(pass) = last {
        passes.push(get_in_vain(rt, object, pass)?)?;
    }
    Ok(())
}

/// Returns how many values the buffer holds, after all that these callers have seen.
fn held<C: Story<Buffer, u64>, P: Ledger, R: Wait>(
    rt: &R,
    object: &Object<Buffer, C, P>,
    passes: &[Pass<u64, C, P>],
) -> Result<u64> {
    let mut front = object.front();
    for pass in passes {
        front.see(&pass.front());
    }
    match object.function_after(rt, &mut front, STATE, 0) {
        Ok(Ok(held)) => Ok(held),
        _ => bail!("the buffer is finalized"),
    }
}

/// Prints how many values the buffer holds.
fn print_held<C: Story<Buffer, u64>, P: Ledger, R: Wait + Print>(
    rt: &R,
    object: &Object<Buffer, C, P>,
    passes: &[Pass<u64, C, P>],
) -> Result<()> {
    let held = held(rt, object, passes)?;
    println!(rt; "{held} values are left")?;
    Ok(())
}

/// Returns how many calls completed and how many were cancelled, by their callers' answers.
fn answers(closed: &Closed<Buffer>) -> (u64, u64) {
    let mut completed = 0u64;
    let mut cancelled = 0u64;
    for pass in closed.passes() {
        for receipt in pass.receipts() {
            match receipt {
                Receipt::Called {
                    answer: End::Completed(_),
                    ..
                } => completed = completed.saturating_add(1),
                Receipt::Called {
                    answer: End::Cancelled,
                    ..
                } => cancelled = cancelled.saturating_add(1),
                _ => {}
            }
        }
    }
    (completed, cancelled)
}

/// Closes the object, which no thread has any more.
fn close<C: Story<Buffer, u64>, P: Ledger>(
    object: Arc<Object<Buffer, C, P>>,
    passes: Vec<Pass<u64, C, P>>,
) -> Result<Closed<Buffer>> {
    let Ok(object) = Arc::try_unwrap(object) else {
        bail!("a thread still has the object");
    };
    match object.close(passes) {
        Ok(closed) => Ok(closed),
        Err(fault) => bail!("{fault}"),
    }
}

/// Opens an object over the core, has threads call it, and closes it.
fn use_object<
    C: Story<Buffer, u64> + Send + Sync + 'static,
    P: Ledger + Send + Sync + 'static,
    R: Threads + Wait + Clock + Print + AllocGlobal + Copy + Send + 'static,
>(
    rt: R,
    core: Core<Buffer>,
    calls: Blank,
    procedures: Blank,
    log: Keeper<Event<u64>>,
) -> Result<Closed<Buffer>>
    requires shape { core.object.setup.shape ≡ C.shape }
    requires story { IsStory buffer_meaning core.object.setup C.setup C.end_of }
    requires log { (log.name ≡ C.log) × (log.items ≡ []) }
    requires calls { (calls.name ≡ C.name) × (calls.parts ≡ C.parts) × (calls.parts ≡ SEATS + 1) }
    requires procedures { (procedures.name ≡ P.name) × (procedures.parts ≡ P.parts) × (procedures.parts ≡ SEATS + 1) }
{
    let opened = Object::<Buffer, C, P>::open(rt.alloc(), core, SEATS, calls, procedures, log);
    let (object, mut passes) = opened?;
    let object = Arc::new(rt.alloc(), object)?;
    call_all(rt, &object, &mut passes)?;
    print_held(&rt, &object, &passes)?;
    close(object, passes)
}

/// Prints how the calls ended, and that each answer agrees with the history. If one doesn't, that is an error.
fn report<R: Print>(rt: &R, closed: &Closed<Buffer>) -> Result<()> {
    let (completed, cancelled) = answers(closed);
    println!(rt; "{completed} calls completed, {cancelled} cancelled")?;
    reconcile(closed, &[])?;
    println!(rt; "every answer agrees with the history")?;
    Ok(())
}

fn main(rt: HostRuntime) -> Result<()> {
    let core = empty_buffer(rt.alloc())?;
    let (calls, procedures) = (Blank::new(PARTS), Blank::new(PARTS));
    let closed = use_object::<Brand, Brand, HostRuntime>(
        rt,
        core,
        calls,
        procedures,
        Keeper::open(),
    )?;
    report(&rt, &closed)
}
