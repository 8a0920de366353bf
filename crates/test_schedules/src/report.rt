// SPDX-License-Identifier: MIT
//! Prints a schedule in words, so that a reader can go through it by hand.

use crate::explorer::Explorer;
use crate::next::Next;
use crate::scene::Scene;
use po_object::steps::SharedStep;
use std::io::{self, Print};
use std::sync::Wait;

/// Returns in words what a thread does in a step of the object.
fn words_of_step(step: SharedStep) -> &'static str {
    match step {
        SharedStep::TryChange => "tries to take the lock for a change",
        SharedStep::Change => "takes the lock for a change",
        SharedStep::Changed => "leaves the lock after a change",
        SharedStep::TryLook => "tries to take the lock for a look",
        SharedStep::Look => "takes the lock for a look",
        SharedStep::Looked => "leaves the lock after a look",
        SharedStep::Flag(_) => "reads or writes the flag of seat",
        SharedStep::Sleep(_) => "sleeps until it is woken at seat",
        SharedStep::Wake(_) => "wakes the caller of seat",
    }
}

/// Returns in words what a thread does.
fn words(next: Next) -> &'static str {
    match next {
        Next::Begin => "begins",
        Next::Take(step) => words_of_step(step),
        Next::HandOver => "hands its pass over",
        Next::TakeOver => "takes over the pass of another",
        Next::Nothing => "is at its end",
    }
}

/// Returns the seat of a step, if it belongs to one.
fn seat_of(next: Next) -> Option<u16> {
    match next {
        Next::Take(SharedStep::Flag(seat) | SharedStep::Sleep(seat) | SharedStep::Wake(seat)) =>
            Some(seat),
        _ => None,
    }
}

/// Prints a step of a thread.
fn print_step<W: Print>(rt: &W, thread: usize, verb: &str, step: Next) -> io::Result<()> {
    print!(rt; "  thread {thread}{verb} {}", words(step))?;
    match seat_of(step) {
        Some(seat) => println!(rt; " {seat}"),
        None => println!(rt;),
    }
}

/// Prints what each thread had to do.
fn print_scene<W: Print>(rt: &W, scene: Scene) -> io::Result<()> {
    for thread in 0..usize::from(scene.threads()) {
        print!(rt; "  thread {thread}:")?;
        for act in scene.acts(thread) {
            print!(rt; " {act};")?;
        }
        println!(rt;)?;
    }
    Ok(())
}

/// Prints the schedule: what each thread had to do, the steps in their order, and the step at which each thread is that hasn't
/// ended.
pub(crate) fn print_schedule<W: Wait + Print>(
    rt: &W,
    explorer: &Explorer,
    scene: Scene,
) -> io::Result<()> {
    print_scene(rt, scene)?;
    let schedule = explorer.schedule(rt);
    for taken in schedule.log().iter().take(200) {
        print_step(rt, taken.thread, "", taken.step)?;
    }
    for thread in 0..usize::from(scene.threads()) {
        match schedule.next(thread) {
            Next::Begin => println!(rt; "  thread {thread} hasn't begun")?,
            Next::Nothing => {}
            next => print_step(rt, thread, " is at the step where it", next)?,
        }
    }
    Ok(())
}
