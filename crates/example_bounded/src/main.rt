// SPDX-License-Identifier: MIT
//! A bounded buffer that takes all its memory when it is made: first one thread uses it by itself, then threads share one.
//!
//! The one thread puts a million values into a core and gets them back; the core's memory is the same after the first call and
//! after the last. Then two producers put 100,000 values each into an object, and two consumers get 100,000 each; the object is
//! closed, and the program prints its closing totals. Every run prints the same.
#![tactic(auto)]

ghost use Rattle.std.specs.Prelude.{◌≡◌, ◌≤◌, ◌+◌, IfOk, IfSome, Some, []};
ghost use Rattle.po_classic_units.specs.Buffer.{buffer_meaning};
ghost use Rattle.po_object.specs.Stories.{IsStory};

mod alone;

use anyhow::{Result, bail};
use po_classic_units::{Buffer, ScriptUnit};
use po_core::{BoundedCore, Event, Order, Record, Start};
use po_object::{BoundedClosed, BoundedObject, BoundedPass, Keeper, Object, Pass, Receipts, Story};
use po_threads::{Job, start};
use po_unit::EntryRef;
use std::alloc::{AllocError, Global};
use std::io::Print;
use std::marker::Brand;
use std::sync::ledger::{Blank, Ledger};
use std::sync::{Arc, Wait};
use std::thread::Threads;

/// How many values the buffer has room for.
const CAPACITY: u16 = 4;

/// How many values a producer puts, and a consumer gets.
const VALUES: u64 = 100_000;

/// Two producers and two consumers.
const SEATS: u16 = 4;

/// How many calls may be uncollected at once: one for each seat.
const MOST: usize = 4;

/// How many parts each ledger has: one for each seat, and one that the object keeps.
const PARTS: u64 = 5;

/// The entry Put of the buffer.
const PUT: EntryRef = EntryRef {
    declaration: 0,
    index: None,
};

/// The entry Get of the buffer.
const GET: EntryRef = EntryRef {
    declaration: 1,
    index: None,
};

/// The start of the core: calls are numbered from 1, events from 0, and queues may have any length.
const START: Start = Start {
    first_number: 1,
    first_place: 0,
    max_queue: None,
};

/// Makes a core over an empty buffer, with memory for one call of each seat.
fn empty_buffer(alloc: Global) -> Result<BoundedCore<Buffer>>
    ensures { IfOk result (λ core. core.capacity ≡ Some MOST) }
{
    let buffer = Buffer::new(alloc, CAPACITY)?;
    let shape = buffer.shape(alloc)?;
    let core = BoundedCore::with_capacity(alloc, buffer, shape, Order::Textual, START, MOST)?;
    Ok(core)
}

/// Calls the entry `times` times, with the values from 0 on, and gives the pass back. The object is of either kind.
///
/// A caller that is refused finalizes the object, so that no other caller waits for what this one doesn't do.
fn call_often<
    C: Story<Buffer, u64>,
    P: Ledger,
    F: Ledger,
    R: Record<Buffer>,
    Q: Receipts<u64>,
    W: Wait,
>(
    rt: &W,
    object: &Object<Buffer, C, P, F, R, Q>,
    mut pass: Pass<u64, C, P, F, Q>,
    entry: EntryRef,
    times: u64,
) -> Pass<u64, C, P, F, Q> {
    if pass.pending() {
        return pass;
    }
    for value in 0..times {
        if object.call(rt, &mut pass, entry, value).is_err() {
            let _ended = object.finalize(rt);
            break;
        }
    }
    pass
}

/// What a thread does: it calls the entry `times` times.
#[derive(Clone, Copy)]
struct Calls {
    entry: EntryRef,
    times: u64,
}

impl<C: Story<Buffer, u64>, P: Ledger, F: Ledger> Job<
    BoundedObject<Buffer, C, P, F>,
    BoundedPass<u64, C, P, F>,
> for Calls {
    fn run<W: Wait>(
        self,
        rt: &W,
        object: &BoundedObject<Buffer, C, P, F>,
        pass: BoundedPass<u64, C, P, F>,
    ) -> BoundedPass<u64, C, P, F> {
        call_often(rt, object, pass, self.entry, self.times)
    }
}

/// Has a thread for each pass call Put if its seat is even, or else Get, and waits until all are done.
fn exchange<
    C: Story<Buffer, u64> + Send + Sync + 'static,
    P: Ledger + Send + Sync + 'static,
    F: Ledger + Send + Sync + 'static,
    R: Threads + Wait + AllocGlobal + Copy + Send + 'static,
>(
    rt: R,
    object: &Arc<BoundedObject<Buffer, C, P, F>>,
    passes: &mut Vec<BoundedPass<u64, C, P, F>>,
) -> Result<(), AllocError> {
    let mut running = Vec::new(rt.alloc());
    while let Some(pass) = passes.pop() {
        let entry = if pass.seat() % 2 == 0 { PUT } else { GET };
        let calls = Calls {
            entry,
            times: VALUES,
        };
        running.push(start(rt, Arc::try_clone(object)?, pass, calls)?)?;
    }
    for thread in running {
        passes.push(thread.join(&rt))?;
    }
    Ok(())
}

/// Closes the object, which no thread has any more.
fn close<C: Story<Buffer, u64>, P: Ledger, F: Ledger>(
    object: Arc<BoundedObject<Buffer, C, P, F>>,
    passes: Vec<BoundedPass<u64, C, P, F>>,
) -> Result<BoundedClosed<Buffer>> {
    let Ok(object) = Arc::try_unwrap(object) else {
        bail!("a thread still has the object");
    };
    match object.close(passes) {
        Ok(closed) => Ok(closed),
        Err(fault) => bail!("{fault}"),
    }
}

/// Opens an object over the core, has threads call it, and closes it.
fn use_object<
    C: Story<Buffer, u64> + Send + Sync + 'static,
    P: Ledger + Send + Sync + 'static,
    F: Ledger + Send + Sync + 'static,
    R: Threads + Wait + AllocGlobal + Copy + Send + 'static,
>(
    rt: R,
    core: BoundedCore<Buffer>,
    calls: Blank,
    procedures: Blank,
    free: Blank,
    log: Keeper<Event<u64>>,
) -> Result<BoundedClosed<Buffer>>
    requires shape { core.object.setup.shape ≡ C.shape }
    requires story { IsStory buffer_meaning core.object.setup C.setup C.end_of }
    requires log { (log.name ≡ C.log) × (log.items ≡ []) }
    requires most { IfSome core.capacity (λ most. SEATS ≤ most) }
    requires calls { (calls.name ≡ C.name) × (calls.parts ≡ C.parts) × (calls.parts ≡ SEATS + 1) }
    requires procedures { (procedures.name ≡ P.name) × (procedures.parts ≡ P.parts) × (procedures.parts ≡ SEATS + 1) }
    requires free { (free.name ≡ F.name) × (free.parts ≡ F.parts) × (free.parts ≡ SEATS + 1) }
{
    let opened = BoundedObject::<Buffer, C, P, F>::open_bounded(
        rt.alloc(),
        core,
        SEATS,
        calls,
        procedures,
        free,
        log,
    );
    let (object, mut passes) = opened?;
    let object = Arc::new(rt.alloc(), object)?;
    exchange(rt, &object, &mut passes)?;
    close(object, passes)
}

/// Returns how many calls were accepted, as the passes counted them.
fn counted(closed: &BoundedClosed<Buffer>) -> u64 {
    let mut calls = 0u64;
    for pass in closed.passes() {
        calls = calls.saturating_add(pass.calls());
    }
    calls
}

fn main(rt: HostRuntime) -> Result<()> {
    alone::run(&rt)?;
    let core = empty_buffer(rt.alloc())?;
    let (calls, procedures, free) = (Blank::new(PARTS), Blank::new(PARTS), Blank::new(PARTS));
    let closed = use_object::<Brand, Brand, Brand, HostRuntime>(
        rt,
        core,
        calls,
        procedures,
        free,
        Keeper::open(),
    )?;
    let issued = closed
        .core()
        .next_number()
        .saturating_sub(START.first_number);
    println!(rt;
        "{issued} calls were issued, and {} were counted",
        counted(&closed)
    )?;
    Ok(())
}
