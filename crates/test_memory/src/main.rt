// SPDX-License-Identifier: MIT
//! A program for the gate: cores, scripts, an object and runs of threads, whose allocations are refused.
//!
//! It prints what all of them answered, how often memory ran out, and how often something had changed when it did. Before that
//! it takes and gives back a byte for each byte on standard input. If the allocation with a fixed number is refused, the length
//! of the input thus chooses which of the allocations that count is refused. After all of them it takes some more bytes, and
//! prints whether it got each. From this the test knows which allocation that counts is the last, and that it has refused each
//! of them.
//!
//! The runs of threads come last, and more than one byte is taken after them, since the number of allocations of such a run
//! depends a little on the threads' schedule.
#![tactic(auto)]

mod cores;
mod objects;
mod refusals;
mod runs;
mod scripts;

use refusals::Refusals;
use std::alloc::Global;
use std::io::{self, Input, Print, Read};

/// How many bytes of standard input are looked at.
const MOST: usize = 512;

/// How many bytes are taken after all allocations that count.
const BEHIND: usize = 16;

/// Takes a byte of memory, if there is one, and gives it back. Returns whether there was one.
fn take_one(alloc: Global) -> bool {
    let mut piece: Vec<u8> = Vec::new(alloc);
    piece.reserve(1).is_ok()
}

/// Takes and gives back a byte for each byte on standard input.
fn take_for_input<R: Input + AllocGlobal>(rt: &R) -> io::Result<()> {
    let mut bytes = [0u8; MOST];
    for _ in 0..rt.reader().read(&mut bytes)? {
        let _taken = take_one(rt.alloc());
    }
    Ok(())
}

/// Takes some bytes one after another, and returns whether all were there.
fn take_some(alloc: Global) -> bool {
    let mut all = true;
    for _ in 0..BEHIND {
        all = take_one(alloc) && all;
    }
    all
}

fn main(rt: HostRuntime) -> io::Result<()> {
    take_for_input(&rt)?;
    let mut refusals = Refusals::new();
    cores::run(&rt, &mut refusals)?;
    scripts::run(&rt, &mut refusals)?;
    objects::run(&rt, &mut refusals)?;
    runs::run(rt, &mut refusals)?;
    println!(rt; "refused {}, changed {}", refusals.times, refusals.changes)?;
    println!(rt;
        "some more {}",
        if take_some(rt.alloc()) {
            "taken"
        } else {
            "refused"
        }
    )
}
