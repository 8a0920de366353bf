// SPDX-License-Identifier: MIT
//! Threads that do jobs with an object over a buffer of 1, and tickers that raise its clock.

ghost use Rattle.std.specs.Prelude.{◌≡◌, ◌+◌, [], Some};
ghost use Rattle.po_classic_units.specs.Buffer.{buffer_meaning};
ghost use Rattle.po_object.specs.Stories.{IsStory};

use crate::asks::{GET, PUT, same};
use crate::buffers::empty_buffer;
use po_classic_units::Buffer;
use po_core::{Core, Deadline, End, Event, Refusal};
use po_object::{Agreed, Closed, Keeper, Object, Pass, Receipt, Story, reconcile};
use po_threads::{Job, Ticker, start};
use po_unit::EntryRef;
use std::alloc::AllocError;
use std::marker::Brand;
use std::process::Abort;
use std::sync::ledger::{Blank, Ledger};
use std::sync::{Arc, Wait};
use std::test::Fail;
use std::thread::Threads;
use std::time::{Clock, Duration, Instant};

/// How many values are put in and taken out.
const VALUES: u64 = 100;

/// After how many milliseconds the timed call expires.
const DEADLINE: u64 = 20;

/// How many milliseconds the thread of a ticker sleeps.
const PERIOD: u64 = 1;

/// How many seats an object has.
const SEATS: u16 = 2;

/// How many parts each ledger has: one for each seat, and one that the object keeps.
const PARTS: u64 = 3;

/// What the thread at a seat does.
#[derive(Clone, Copy)]
enum Errand {
    /// Calls the entry with the values from 0 on.
    Calls(EntryRef),
    /// Calls Get with this deadline.
    Timed(u64),
    /// Nothing.
    Idle,
}

impl<C: Story<Buffer, u64>, P: Ledger> Job<Object<Buffer, C, P>, Pass<u64, C, P>> for Errand {
    fn run<W: Wait>(
        self,
        rt: &W,
        object: &Object<Buffer, C, P>,
        pass: Pass<u64, C, P>,
    ) -> Pass<u64, C, P> {
        match self {
            Errand::Calls(entry) => call_often(rt, object, pass, entry),
            Errand::Timed(deadline) => call_once(rt, object, pass, deadline),
            Errand::Idle => pass,
        }
    }
}

/// Calls the entry with the values from 0 on. If a call is refused, the object is finalized, so that no one waits for this
/// thread.
fn call_often<C: Story<Buffer, u64>, P: Ledger, W: Wait>(
    rt: &W,
    object: &Object<Buffer, C, P>,
    mut pass: Pass<u64, C, P>,
    entry: EntryRef,
) -> Pass<u64, C, P> {
    if pass.pending() {
        return pass;
    }
    for value in 0..VALUES {
        if object.call(rt, &mut pass, entry, value).is_err() {
            let _ended = object.finalize(rt);
            break;
        }
    }
    pass
}

/// Calls Get with the deadline.
fn call_once<C: Story<Buffer, u64>, P: Ledger, W: Wait>(
    rt: &W,
    object: &Object<Buffer, C, P>,
    mut pass: Pass<u64, C, P>,
    deadline: u64,
) -> Pass<u64, C, P> {
    if !pass.pending() {
        let _end = object.timed(rt, &mut pass, GET, 0, deadline);
    }
    pass
}

/// Has a thread at each seat do its errand, and waits until both are done.
fn do_both<
    C: Story<Buffer, u64> + Send + Sync + 'static,
    P: Ledger + Send + Sync + 'static,
    R: Threads + Wait + AllocGlobal + Copy + Send + 'static,
>(
    rt: R,
    object: &Arc<Object<Buffer, C, P>>,
    passes: &mut Vec<Pass<u64, C, P>>,
    first: Errand,
    second: Errand,
) -> Result<(), AllocError> {
    let mut running = Vec::new(rt.alloc());
    while let Some(pass) = passes.pop() {
        let errand = if pass.seat() == 0 { first } else { second };
        running.push(start(rt, Arc::try_clone(object)?, pass, errand)?)?;
    }
    for thread in running {
        passes.push(thread.join(&rt))?;
    }
    Ok(())
}

/// Has the threads do their errands beside a ticker, which the object doesn't refuse.
fn do_in_time<
    C: Story<Buffer, u64> + Send + Sync + 'static,
    P: Ledger + Send + Sync + 'static,
    R: Threads + Wait + Clock + Abort + AllocGlobal + Copy + Send + 'static,
>(
    rt: R,
    object: &Arc<Object<Buffer, C, P>>,
    passes: &mut Vec<Pass<u64, C, P>>,
    first: Errand,
    second: Errand,
) -> Result<(), Fail> {
    let period = Duration::from_millis(PERIOD);
    let ticker = Ticker::start(rt, Arc::try_clone(object)?, period)?;
    do_both(rt, object, passes, first, second)?;
    same(&rt, ticker.stop(&rt), None);
    Ok(())
}

/// Checks that a ticker over a finalized object is refused at once.
fn tick_in_vain<
    C: Story<Buffer, u64> + Send + Sync + 'static,
    P: Ledger + Send + Sync + 'static,
    R: Threads + Wait + Clock + Abort + AllocGlobal + Copy + Send + 'static,
>(rt: R, object: &Arc<Object<Buffer, C, P>>) -> Result<(), Fail> {
    same(&rt, object.finalize(&rt), Ok(()));
    let period = Duration::from_millis(PERIOD);
    let ticker = Ticker::start(rt, Arc::try_clone(object)?, period)?;
    same(&rt, ticker.stop(&rt), Some(Refusal::Finalized));
    Ok(())
}

/// Opens an object over the core, has threads do their errands, and closes it.
fn open_and_close<
    C: Story<Buffer, u64> + Send + Sync + 'static,
    P: Ledger + Send + Sync + 'static,
    R: Threads + Wait + Clock + Abort + AllocGlobal + Copy + Send + 'static,
>(
    rt: R,
    core: Core<Buffer>,
    calls: Blank,
    procedures: Blank,
    log: Keeper<Event<u64>>,
    first: Errand,
    second: Errand,
) -> Result<Closed<Buffer>, Fail>
    requires calls { (calls.name ≡ C.name) × (calls.parts ≡ C.parts) × (calls.parts ≡ SEATS + 1) }
    requires procedures { (procedures.name ≡ P.name) × (procedures.parts ≡ P.parts) × (procedures.parts ≡ SEATS + 1) }
    requires shape { core.object.setup.shape ≡ C.shape }
    requires story { IsStory buffer_meaning core.object.setup C.setup C.end_of }
    requires log { (log.name ≡ C.log) × (log.items ≡ []) }
{
    let opened = Object::<Buffer, C, P>::open(rt.alloc(), core, SEATS, calls, procedures, log);
    let (object, mut passes) = opened?;
    let object = Arc::new(rt.alloc(), object)?;
    do_in_time(rt, &object, &mut passes, first, second)?;
    tick_in_vain(rt, &object)?;
    let Ok(object) = Arc::try_unwrap(object) else {
        return Err(Fail::new("a thread still has the object"));
    };
    Ok(object.close(passes)?)
}

/// Returns what is left of an object after threads did these errands. Checks that its history agrees with the receipts.
fn perform<R: Threads + Wait + Clock + Abort + AllocGlobal + Copy + Send + 'static>(
    rt: R,
    first: Errand,
    second: Errand,
) -> Result<Closed<Buffer>, Fail> {
    let core = empty_buffer(&rt, 1)?;
    let (calls, procedures) = (Blank::new(PARTS), Blank::new(PARTS));
    let closed = open_and_close::<Brand, Brand, R>(
        rt,
        core,
        calls,
        procedures,
        Keeper::open(),
        first,
        second,
    )?;
    same(&rt, reconcile(&closed, &[]), Ok(Agreed));
    Ok(closed)
}

/// Returns how many calls of all passes completed.
fn completed(closed: &Closed<Buffer>) -> u64 {
    let mut completed = 0u64;
    for pass in closed.passes() {
        for receipt in pass.receipts() {
            if let Receipt::Called {
                answer: End::Completed(_),
                ..
            } = receipt
            {
                completed = completed.saturating_add(1);
            }
        }
    }
    completed
}

/// One thread gets all values that another puts.
#[test]
fn two_jobs(rt: HostRuntime) -> Result<(), Fail> {
    let closed = perform(rt, Errand::Calls(PUT), Errand::Calls(GET))?;
    same(&rt, completed(&closed), 2 * VALUES);
    Ok(())
}

/// A timed call on an empty buffer expires, no sooner than its deadline.
#[test]
fn a_timed_call_expires(rt: HostRuntime) -> Result<(), Fail> {
    let before = Instant::now(&rt)?;
    let closed = perform(rt, Errand::Timed(DEADLINE), Errand::Idle)?;
    let waited = before.elapsed(&rt)? >= Duration::from_millis(DEADLINE);
    same(&rt, waited, true);
    let receipt = Receipt::Called {
        number: 1,
        entry: 1,
        value: 0,
        deadline: Deadline::At(DEADLINE),
        answer: End::Cancelled,
    };
    let Some(pass) = closed.passes().first() else {
        return Err(Fail::new("no pass"));
    };
    same(&rt, pass.receipts().last().copied(), Some(receipt));
    Ok(())
}
