// SPDX-License-Identifier: MIT
//! Opens an object over a buffer for the tests, and closes it.

ghost use Rattle.std.specs.Prelude.{◌≡◌, ◌+◌, [], Some};
ghost use Rattle.po_classic_units.specs.Buffer.{buffer_meaning};
ghost use Rattle.po_object.specs.Stories.{IsStory};

use crate::asks::same;
use crate::scenes::{Scene, look, play};
use po_classic_units::Buffer;
use po_core::{Core, Event, Volume};
use po_object::{CloseError, Closed, Keeper, Object, OpenError, Pass, Story};
use std::marker::Brand;
use std::process::Abort;
use std::sync::Wait;
use std::sync::ledger::{Blank, Ledger};
use std::test::Fail;

/// What is said of a core that already has events.
pub const NOT_FRESH: &str = "not fresh";

/// What is left of an object, and the volumes that were cut off from its history, in order.
#[derive(Drop)]
pub struct Shelf {
    pub closed: Closed<Buffer>,
    pub volumes: Vec<Volume<u64>>,
}

/// Closes the object without the pass of seat 0, which is refused, and then with it.
fn close_twice<C: Story<Buffer, u64>, P: Ledger, R: Abort>(
    rt: &R,
    object: Object<Buffer, C, P>,
    mut passes: Vec<Pass<u64, C, P>>,
) -> Option<Closed<Buffer>> {
    passes.reverse();
    let first = passes.pop()?;
    let fault = object.close(passes).err()?;
    let CloseError::PassMissing {
        seat,
        object,
        mut passes,
    } = fault;
    same(rt, seat, 0);
    passes.push(first).ok()?;
    object.close(passes).ok()
}

/// Drops what the fault hands back, and returns which fault it is.
fn name_of(fault: OpenError<Buffer>) -> &'static str {
    match &fault {
        OpenError::NotFresh(..) => NOT_FRESH,
        OpenError::OutOfMemory(..) => "out of memory",
    }
}

/// Opens an object, plays the scene, and closes it. If it has two seats, it is first closed without the pass of one of them.
fn open_and_close<C: Story<Buffer, u64>, P: Ledger, R: Abort + Wait + AllocGlobal>(
    rt: &R,
    core: Core<Buffer>,
    seats: u16,
    calls: Blank,
    procedures: Blank,
    log: Keeper<Event<u64>>,
    scene: Scene,
) -> Result<Shelf, &'static str>
    requires calls { (calls.name ≡ C.name) × (calls.parts ≡ C.parts) × (calls.parts ≡ seats + 1) }
    requires procedures { (procedures.name ≡ P.name) × (procedures.parts ≡ P.parts) × (procedures.parts ≡ seats + 1) }
    requires shape { core.object.setup.shape ≡ C.shape }
    requires story { IsStory buffer_meaning core.object.setup C.setup C.end_of }
    requires log { (log.name ≡ C.log) × (log.items ≡ []) }
{
    let opened = Object::<Buffer, C, P>::open(rt.alloc(), core, seats, calls, procedures, log);
    let (object, mut passes) = opened.map_err(name_of)?;
    let mut volumes = Vec::new(rt.alloc());
    play(rt, &object, &mut passes, scene, &mut volumes);
    let closed = if seats == 2 {
        close_twice(rt, object, passes)
    } else {
        object.close(passes).ok()
    };
    Ok(Shelf {
        closed: closed.ok_or("not closed")?,
        volumes,
    })
}

/// Plays the scene with an object of `seats` seats over the core. Returns what is left of it, or the reason why there is none.
pub fn perform<R: Abort + Wait + AllocGlobal>(
    rt: &R,
    core: Core<Buffer>,
    seats: u16,
    scene: Scene,
) -> Result<Shelf, &'static str> {
    let parts = u64::from(seats) + 1;
    let (calls, procedures) = (Blank::new(parts), Blank::new(parts));
    open_and_close::<Brand, Brand, R>(rt, core, seats, calls, procedures, Keeper::open(), scene)
}

/// Plays the scene, and checks what is left.
pub fn show<R: Abort + Wait + AllocGlobal>(
    rt: &R,
    core: Core<Buffer>,
    seats: u16,
    scene: Scene,
) -> Result<(), Fail> {
    let shelf = perform(rt, core, seats, scene)?;
    look(rt, &shelf.closed, scene);
    Ok(())
}
