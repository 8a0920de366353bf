// SPDX-License-Identifier: MIT
//! An object whose history is cut between its calls. The volumes that were kept are proved to be those of its cuts, so every
//! answer is proved to be its caller's own.

ghost use Rattle.std.specs.Prelude.{◌≡◌, ◌+◌, [], Some, OnOk};
ghost use mathlib.Core.List.{IsPrefix};
ghost use Rattle.po_classic_units.specs.Buffer.{buffer_meaning};
ghost use Rattle.po_object.specs.Parts.{AreParts};
ghost use Rattle.po_object.specs.Stories.{IsStory};

use crate::asks::{Answer, Ask, GET, PUT, ask_all, same};
use crate::buffers::empty_buffer;
use po_classic_units::Buffer;
use po_core::{Core, End, Event, Volume};
use po_object::{Closed, Front, Keeper, Object, Pass, Story, are_volumes, every_answer, reconcile};
use std::marker::Brand;
use std::process::Abort;
use std::sync::Wait;
use std::sync::ledger::{Blank, Ledger};
use std::test::Fail;

/// Makes a call that ends with 7, cuts the history after it, and keeps the volume.
fn call_and_cut<C: Story<Buffer, u64>, P: Ledger, R: Abort + Wait>(
    rt: &R,
    object: &Object<Buffer, C, P>,
    pass: &mut Pass<u64, C, P>,
    what: Ask,
    front: &mut Front<u64, C>,
    volumes: &mut Vec<Volume<u64>>,
) -> Result<(), Fail>
    requires { AreParts C.setup front.old volumes.old.items }
    ensures { OnOk result (AreParts C.setup front.new volumes.new.items) }
{
    let wanted = Ok(Answer::Ended(End::Completed(7)));
    ask_all(rt, object, pass, &[(what, wanted)]);
    let volume = object.cut_after(rt, front)?;
    volumes.push(volume)?;
    Ok(())
}

/// Puts 7 and gets it, with a cut after each of the two calls.
fn cut_twice<C: Story<Buffer, u64>, P: Ledger, R: Abort + Wait>(
    rt: &R,
    object: &Object<Buffer, C, P>,
    passes: &mut Vec<Pass<u64, C, P>>,
    front: &mut Front<u64, C>,
    volumes: &mut Vec<Volume<u64>>,
) -> Result<(), Fail>
    requires { AreParts C.setup front.old volumes.old.items }
    ensures { OnOk result (AreParts C.setup front.new volumes.new.items) }
{
    let Some(pass) = passes.first_mut() else {
        return Ok(());
    };
    call_and_cut(rt, object, pass, Ask::Call(PUT, 7), front, volumes)?;
    call_and_cut(rt, object, pass, Ask::Call(GET, 0), front, volumes)
}

/// Returns whether the receipts agree with the volumes and no call is pending. Then every answer is its caller's own.
fn all_agrees<C: Story<Buffer, u64>>(
    closed: &Closed<Buffer>,
    front: &Front<u64, C>,
    volumes: &[Volume<u64>],
) -> bool
    requires setup { C.setup ≡ Some closed.now.core.object.setup }
    requires seen { IsPrefix front.now closed.now.log }
    requires parts { AreParts C.setup front.now volumes.now }
{
    if !closed.none_pending() {
        return false;
    }
    let verdict = reconcile(closed, volumes);
    if verdict.is_ok() {
        // Only for the prover: states what then holds of each answer.
        are_volumes(closed, front, volumes);
        every_answer(closed, volumes);
    }
    verdict.is_ok()
}

/// Opens an object, cuts its history twice, closes it, and checks that its two volumes agree with the receipts.
fn open_and_close<C: Story<Buffer, u64>, P: Ledger, R: Abort + Wait + AllocGlobal>(
    rt: &R,
    core: Core<Buffer>,
    calls: Blank,
    procedures: Blank,
    log: Keeper<Event<u64>>,
) -> Result<(), Fail>
    requires calls { (calls.name ≡ C.name) × (calls.parts ≡ C.parts) × (calls.parts ≡ 2) }
    requires procedures { (procedures.name ≡ P.name) × (procedures.parts ≡ P.parts) × (procedures.parts ≡ 2) }
    requires shape { core.object.setup.shape ≡ C.shape }
    requires story { IsStory buffer_meaning core.object.setup C.setup C.end_of }
    requires log { (log.name ≡ C.log) × (log.items ≡ []) }
{
    let opened = Object::<Buffer, C, P>::open(rt.alloc(), core, 1, calls, procedures, log);
    let (object, mut passes) = opened.map_err(|_| "not opened")?;
    let mut front = object.front();
    let mut volumes = Vec::new(rt.alloc());
    cut_twice(rt, &object, &mut passes, &mut front, &mut volumes)?;
    let Ok(closed) = object.close_after(&front, passes) else {
        return Err(Fail::new("not closed"));
    };
    same(rt, volumes.len(), 2);
    same(rt, all_agrees(&closed, &front, volumes.as_slice()), true);
    Ok(())
}

/// Does that with an object over the core.
fn perform<R: Abort + Wait + AllocGlobal>(rt: &R, core: Core<Buffer>) -> Result<(), Fail> {
    let (calls, procedures) = (Blank::new(2), Blank::new(2));
    open_and_close::<Brand, Brand, R>(rt, core, calls, procedures, Keeper::open())
}

#[test]
fn every_answer_of_a_cut_object(rt: HostRuntime) -> Result<(), Fail> {
    perform(&rt, empty_buffer(&rt, 1)?)
}
