// SPDX-License-Identifier: MIT
//! An example of a unit of your own with a requeue and a law: readers and writers.
//!
//! A reader goes in, a writer asks to, and then a second reader asks: the writer has the next turn, and the second reader goes
//! in after it. The program prints each call that asks and each that goes in. Then threads go in and out.
#![tactic(auto)]

ghost use Rattle.std.specs.Prelude.{◌≡◌, [], IfOk, OnOk};
ghost use Rattle.po_core.specs.Cutting.{AreVolumes, KeepsVolumes};
ghost use Rattle.example_readers.specs.ReadersWriters.{new_readers_writers, readers_writers_meaning};

mod law;
mod readers_writers;
mod visits;

use anyhow::Result;
use law::exclusion_law;
use po_core::{Core, Deadline, Order};
use po_object::{Closed, Keeper};
use po_unit::EntryRef;
use readers_writers::{READ, READ_DONE, ReadersWriters, WRITE, WRITE_DONE};
use std::alloc::Global;
use std::io::Print;
use std::marker::Brand;
use std::sync::Wait;
use std::sync::ledger::Blank;
use std::thread::Threads;
use visits::{SEATS, visit_by_threads};

/// How many readers may be inside at once.
const MOST: u64 = 8;

/// How many parts each ledger has: one for each seat, and one that the object keeps.
const PARTS: u64 = SEATS as u64 + 1;

/// Makes a core over readers and writers, whose calls are numbered from 1.
fn new_core(alloc: Global) -> Result<Core<ReadersWriters>>
    ensures whole { IfOk result (λ c. AreVolumes readers_writers_meaning c.object []) }
    ensures new { IfOk result (λ c. c.object.setup.opening ≡ new_readers_writers c.object.setup.opening.most) }
{
    let unit = ReadersWriters::new(MOST);
    let shape = unit.shape(alloc)?;
    Ok(Core::new(alloc, unit, shape, Order::Textual, 1)?)
}

/// Prints which calls the latest command let in.
fn tell<R: Print>(rt: &R, core: &Core<ReadersWriters>) -> Result<()> {
    for call in core.ended_now() {
        println!(rt; "call {} is inside", call.number)?;
    }
    Ok(())
}

/// Prints that a caller asks to go in, and issues its call on this entry.
fn ask<R: Print>(rt: &R, core: &mut Core<ReadersWriters>, entry: u16) -> Result<()>
    ensures { OnOk result (KeepsVolumes readers_writers_meaning core.old.object core.new.object) }
{
    println!(rt; "call {} asks", core.next_number())?;
    core.issue(
        0,
        EntryRef {
            declaration: entry,
            index: None,
        },
        0,
        Deadline::Never,
    )?;
    tell(rt, core)
}

/// Lets a reader or a writer out by this procedure, and prints that one comes out.
fn leave<R: Print>(rt: &R, core: &mut Core<ReadersWriters>, op: u16) -> Result<()>
    ensures { OnOk result (KeepsVolumes readers_writers_meaning core.old.object core.new.object) }
{
    match core.procedure(0, op, 0)? {
        Ok(_) => println!(rt; "one comes out")?,
        Err(exception) => println!(rt; "exception {exception}")?,
    }
    tell(rt, core)
}

/// Plays the scene that the head of this file tells. At the end it states the law of all that has happened, since nothing was
/// cut off.
fn visit<R: Print>(rt: &R, core: &mut Core<ReadersWriters>) -> Result<()>
    requires { AreVolumes readers_writers_meaning core.old.object [] }
{
    ask(rt, core, READ)?;
    ask(rt, core, WRITE)?;
    ask(rt, core, READ)?;
    leave(rt, core, READ_DONE)?;
    leave(rt, core, WRITE_DONE)?;
    if core.opening().is_new() {
        exclusion_law(core, &[]);
    }
    Ok(())
}

/// Returns how often threads went in.
fn count_visits(closed: &Closed<ReadersWriters>) -> u64 {
    let mut visits = 0u64;
    for pass in closed.passes() {
        visits = visits.saturating_add(pass.calls());
    }
    visits
}

/// Has one thread use a core by itself.
fn take_turns<R: Print + AllocGlobal>(rt: &R) -> Result<()> {
    let mut core = new_core(rt.alloc())?;
    visit(rt, &mut core)
}

/// Has threads share an object. At the end it is proved that two writers were never inside at once, whatever the threads did.
fn share<R: Threads + Wait + AllocGlobal + Print + Copy + Send + 'static>(rt: R) -> Result<()> {
    let core = new_core(rt.alloc())?;
    let (calls, procedures) = (Blank::new(PARTS), Blank::new(PARTS));
    let log = Keeper::open();
    let closed = visit_by_threads::<Brand, Brand, R>(rt, core, calls, procedures, log)?;
    println!(&rt;
        "{} visits by threads, and never two writers inside",
        count_visits(&closed)
    )?;
    Ok(())
}

fn main(rt: HostRuntime) -> Result<()> {
    take_turns(&rt)?;
    share(rt)
}
