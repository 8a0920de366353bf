// SPDX-License-Identifier: MIT
//! A program for the gate: objects that several threads use at once, runs of many threads, and their reports.
//!
//! The output is the same for every schedule of the threads. Each scene ends by closing its object; if the object keeps its
//! history, the receipts of all callers are compared with it.
#![tactic(auto)]

mod answers;
mod beside;
mod bounded;
mod buffers;
mod cancelled;
mod companies;
mod company;
mod cuts;
mod finalized;
mod held_lock;
mod objects;
mod recorded;
mod reports;
mod runs;
mod scenes;
mod second_wait;
mod shared;
mod side_by_side;
mod signs;
mod sinks;
mod stage;
mod team;
mod threads;

use buffers::buffer;
use scenes::Scene;
use std::io::{self, Print};
use std::sync::Wait;
use std::thread::Threads;
use std::time::{Clock, CpuClock};

/// Plays the scene with a buffer for one value, on an object of each kind.
fn show_both<R: Threads + Wait + Clock + CpuClock + Print + AllocGlobal + Copy + Send + 'static>(
    rt: R,
    seats: u16,
    scene: Scene,
) -> io::Result<()> {
    let alloc = rt.alloc();
    recorded::show(rt, buffer(alloc)?, seats, scene)?;
    bounded::show(rt, buffer(alloc)?, seats, scene)
}

fn main(rt: HostRuntime) -> io::Result<()> {
    beside::run(rt)?;
    show_both(rt, 1, Scene::Answers)?;
    show_both(rt, 2, Scene::HeldLock)?;
    side_by_side::run(rt)?;
    finalized::run(rt)?;
    cancelled::run(rt)?;
    company::run(rt)?;
    show_both(rt, second_wait::SEATS, Scene::SecondWait)?;
    show_both(rt, cuts::CALLERS, Scene::Cuts)?;
    show_both(rt, 0, Scene::Idle)?;
    show_both(rt, u16::MAX, Scene::Idle)?;
    runs::print_all(rt)?;
    reports::print_all(&rt)
}
