// SPDX-License-Identifier: MIT
//! Has threads go in and out of an object of readers and writers, and states the law of what they did.

ghost use Rattle.std.specs.Prelude.{◌≡◌, ◌+◌, [], IfOk};
ghost use Rattle.po_object.specs.Stories.{IsStory};
ghost use Rattle.example_readers.specs.Exclusion.{WritersAreAlone};
ghost use Rattle.example_readers.specs.ReadersWriters.{new_readers_writers, readers_writers_meaning};

use crate::law::exclusion_law_of_log;
use crate::readers_writers::{READ, READ_DONE, ReadersWriters, WRITE, WRITE_DONE};
use anyhow::{Result, bail};
use po_calls::End;
use po_core::{Core, Event};
use po_object::{Closed, Keeper, Object, Pass, Story};
use po_threads::{Job, start};
use po_unit::EntryRef;
use std::alloc::AllocError;
use std::sync::ledger::{Blank, Ledger};
use std::sync::{Arc, Wait};
use std::thread::Threads;

/// How many threads visit: half of them read, half of them write.
pub(crate) const SEATS: u16 = 4;

/// How often each thread goes in and comes out.
const VISITS: u64 = 100;

/// A reader or a writer: the entry by which it goes in, and the procedure by which it comes out.
#[derive(Clone, Copy)]
struct Visitor {
    enter: u16,
    leave: u16,
}

const READER: Visitor = Visitor {
    enter: READ,
    leave: READ_DONE,
};

const WRITER: Visitor = Visitor {
    enter: WRITE,
    leave: WRITE_DONE,
};

/// Goes in and comes out `VISITS` times, and gives the pass back.
///
/// A visitor that isn't let in, or is refused, finalizes the object, so that no other visitor waits for it.
fn visit_often<C: Story<ReadersWriters, u64>, P: Ledger, W: Wait>(
    rt: &W,
    object: &Object<ReadersWriters, C, P>,
    mut pass: Pass<u64, C, P>,
    visitor: Visitor,
) -> Pass<u64, C, P> {
    if pass.pending() {
        return pass;
    }
    let enter = EntryRef {
        declaration: visitor.enter,
        index: None,
    };
    for _ in 0..VISITS {
        let entered = object.call(rt, &mut pass, enter, 0);
        if !matches!(entered, Ok(End::Completed(_)))
            || object.procedure(rt, &mut pass, visitor.leave, 0).is_err()
        {
            let _ended = object.finalize(rt);
            break;
        }
    }
    pass
}

impl<C: Story<ReadersWriters, u64>, P: Ledger> Job<Object<ReadersWriters, C, P>, Pass<u64, C, P>>
    for Visitor {
    fn run<W: Wait>(
        self,
        rt: &W,
        object: &Object<ReadersWriters, C, P>,
        pass: Pass<u64, C, P>,
    ) -> Pass<u64, C, P> {
        visit_often(rt, object, pass, self)
    }
}

/// Has a thread visit from each seat, and waits until all are done.
fn visit_all<
    C: Story<ReadersWriters, u64> + Send + Sync + 'static,
    P: Ledger + Send + Sync + 'static,
    W: Threads + Wait + AllocGlobal + Copy + Send + 'static,
>(
    rt: W,
    object: &Arc<Object<ReadersWriters, C, P>>,
    passes: &mut Vec<Pass<u64, C, P>>,
) -> Result<(), AllocError> {
    let mut running = Vec::new(rt.alloc());
    while let Some(pass) = passes.pop() {
        let visitor = if pass.seat() % 2 == 0 { WRITER } else { READER };
        running.push(start(rt, Arc::try_clone(object)?, pass, visitor)?)?;
    }
    for thread in running {
        passes.push(thread.join(&rt))?;
    }
    Ok(())
}

/// Closes the object, which no thread has any more. By its setup it is the one that was opened.
fn close<C: Story<ReadersWriters, u64>, P: Ledger>(
    object: Arc<Object<ReadersWriters, C, P>>,
    passes: Vec<Pass<u64, C, P>>,
) -> Result<Closed<ReadersWriters>>
    ensures { IfOk result (λ closed. C.setup ≡ Some closed.core.object.setup) }
{
    let Ok(object) = Arc::try_unwrap(object) else {
        bail!("a thread still has the object");
    };
    match object.close(passes) {
        Ok(closed) => Ok(closed),
        Err(fault) => bail!("{fault}"),
    }
}

/// States the law for the whole history of an object that began with nobody inside: at each point at most one writer was
/// inside, and while one was, no reader.
fn writers_were_alone(closed: &Closed<ReadersWriters>)
    requires { closed.now.core.object.setup.opening ≡ new_readers_writers closed.now.core.object.setup.opening.most }
    ensures { WritersAreAlone closed.now.core.object.setup closed.now.log }
{
    // Only for the prover: the log of a closed object is its whole history, and the law holds of it.
    closed.closing_totals();
    exclusion_law_of_log(closed.core(), closed.log());
}

/// Opens an object over the core, has threads visit it, and closes it. However the threads were scheduled, at each point of the
/// object's history at most one writer was inside, and while one was, no reader.
pub(crate) fn visit_by_threads<
    C: Story<ReadersWriters, u64> + Send + Sync + 'static,
    P: Ledger + Send + Sync + 'static,
    W: Threads + Wait + AllocGlobal + Copy + Send + 'static,
>(
    rt: W,
    core: Core<ReadersWriters>,
    calls: Blank,
    procedures: Blank,
    log: Keeper<Event<u64>>,
) -> Result<Closed<ReadersWriters>>
    requires new { core.object.setup.opening ≡ new_readers_writers core.object.setup.opening.most }
    requires shape { core.object.setup.shape ≡ C.shape }
    requires story { IsStory readers_writers_meaning core.object.setup C.setup C.end_of }
    requires log { (log.name ≡ C.log) × (log.items ≡ []) }
    requires calls { (calls.name ≡ C.name) × (calls.parts ≡ C.parts) × (calls.parts ≡ SEATS + 1) }
    requires procedures { (procedures.name ≡ P.name) × (procedures.parts ≡ P.parts) × (procedures.parts ≡ SEATS + 1) }
    ensures alone { IfOk result (λ closed. WritersAreAlone core.object.setup closed.log) }
{
    let opened = Object::<ReadersWriters, C, P>::open(
        rt.alloc(),
        core,
        SEATS,
        calls,
        procedures,
        log,
    );
    let (object, mut passes) = opened?;
    let object = Arc::new(rt.alloc(), object)?;
    visit_all(rt, &object, &mut passes)?;
    let closed = close(object, passes)?;
    writers_were_alone(&closed);
    Ok(closed)
}
