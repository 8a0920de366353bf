// SPDX-License-Identifier: MIT
//! The program `bench_calls`: measures what commands cost on a core, also on one with fixed memory, and what calls cost on an
//! object that threads share.
//!
//! Commands are measured in batches. The batch in which a command took the least counts, since whatever else the machine does
//! can only add to it; in `history` the round of batches counts in which a command took the least on average. Each batch of
//! calls and of procedures that is measured against the mutex has its own core, so that each pays for the growth of its
//! history. For the work of threads, rounds of all rows are taken in turns, and the median over the rounds counts.
//!
//! Without an argument, or with the argument `small`, the batches and rounds are small, and only the number of commands that
//! did what they should is printed. With the argument `full` a line has the measurement's name, how many commands were carried
//! out in all batches, the nanoseconds that one took, and their ratio: to those of a lock and unlock of a mutex or, if names
//! end in a number, to those of the same measurement with the lower number. A number after `full` says how many calls wait,
//! instead of 64,000.
//!
//! With the argument `threads` there are 15 rounds of the work of threads, or as many as the number after it says. A row has
//! its name and threads, how often the work was done, the nanoseconds that it took each time in the median, the best and the
//! worst round, and the ratio of the median to that of its unit: one thread's lock and unlock of a mutex, the same of four
//! threads, or the same buffer over a mutex and two condition variables.
//!
//! `bounded CALLS` issues and collects `CALLS` calls on one core with fixed memory, and prints a line as for `full`: for
//! looking at the memory meanwhile. `row WORK THREADS TURNS` takes a round of one row, and prints its words, how often the work
//! was done, and the nanoseconds of the round: for programs that compare. If the word for the work begins with `bounded-`, the
//! object has fixed memory.
#![tactic(auto)]

mod against_mutex;
mod callers;
mod commands;
mod engine;
mod entries;
mod expiring;
mod history;
mod long;
mod measure;
mod monitor;
mod objects;
mod plan;
mod races;
mod report;
mod rows;
mod team;
mod units;
mod waiting;
mod words;
mod work;

use plan::{MANY, Plan, ROUNDS};
use std::alloc::{AllocError, Global};
use std::env::{Env, args};
use std::io::{self, Eprint, Print};
use std::process::ExitCode;
use std::sync::Wait;
use std::thread::Threads;
use std::time::Clock;
use words::Wanted;

/// The exit status of a good end.
const GOOD: u8 = 0;

/// The exit status if the words of the command line are refused.
const USAGE: u8 = 2;

/// The exit status if memory ran out, a thread couldn't be started, or a write or a look at the clock failed.
const NO_MEANS: u8 = 4;

/// How many bytes the allocator is to keep.
const PIECE: usize = 24 << 20;

/// Takes `PIECE` bytes in one piece and gives them back. From then on the allocator keeps what it is given back, so batches and
/// rounds run in memory that earlier ones touched, and don't pay for the system's pages.
fn keep_memory(alloc: Global) -> Result<(), AllocError> {
    let mut piece: Vec<u8> = Vec::new(alloc);
    piece.reserve(PIECE)
}

/// Takes and prints all measurements of commands.
fn print_commands<R: Print + Clock + Wait + AllocGlobal>(rt: &R, plan: &Plan) -> io::Result<()> {
    keep_memory(rt.alloc())?;
    against_mutex::print(rt, plan)?;
    waiting::print(rt, plan)?;
    expiring::print(rt, plan)?;
    entries::print(rt, plan)?;
    history::print(rt, plan)
}

/// Takes and prints all measurements of the work of threads.
fn print_threads<R: Threads + Wait + Clock + Print + AllocGlobal + Copy + Send + 'static>(
    rt: R,
    plan: &Plan,
) -> io::Result<()> {
    keep_memory(rt.alloc())?;
    rows::print(rt, plan)
}

/// Takes and prints the wanted measurements.
fn print<R: Threads + Wait + Clock + Print + AllocGlobal + Copy + Send + 'static>(
    rt: R,
    wanted: Wanted,
) -> io::Result<()> {
    match wanted {
        Wanted::Small => {
            print_commands(&rt, &Plan::small())?;
            print_threads(rt, &Plan::small())
        }
        Wanted::Commands(many) => print_commands(&rt, &Plan::full(many, ROUNDS)),
        Wanted::Threads(rounds) => print_threads(rt, &Plan::full(MANY, rounds)),
        Wanted::Bounded(calls) => long::print(&rt, calls),
        Wanted::Row(task) => {
            keep_memory(rt.alloc())?;
            rows::print_one(rt, task)
        }
    }
}

/// Returns what the words of the command line ask for, or `None` if they are refused.
fn asked<R: Env + AllocGlobal>(rt: &R) -> io::Result<Option<Wanted>> {
    let mut words = Vec::new(rt.alloc());
    for word in args(rt)? {
        words.push(word)?;
    }
    Ok(Wanted::named(words.as_slice()))
}

/// Does what the command line asks for, and returns the exit status.
fn start<R: Env + Print + Eprint + Clock + Threads + Wait + AllocGlobal + Copy + Send + 'static>(
    rt: R,
) -> io::Result<u8> {
    let Some(wanted) = asked(&rt)? else {
        eprint!(rt; "{}", words::USAGE)?;
        return Ok(USAGE);
    };
    print(rt, wanted)?;
    Ok(GOOD)
}

fn main(rt: HostRuntime) -> ExitCode {
    let status = match start(rt) {
        Ok(status) => status,
        Err(error) => {
            let _ = eprintln!(rt; "bench_calls: {error}");
            NO_MEANS
        }
    };
    ExitCode::from(status)
}
