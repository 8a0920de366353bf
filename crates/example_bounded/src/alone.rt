// SPDX-License-Identifier: MIT
//! One thread uses a core by itself: it puts values into the buffer and takes each out again, and collects each call at once.

use crate::{GET, PUT, empty_buffer};
use anyhow::Result;
use po_classic_units::Buffer;
use po_core::{BoundedCore, Deadline, End};
use po_unit::EntryRef;
use std::alloc::Global;
use std::io::Print;

/// How many values are put in and taken out.
const VALUES: u64 = 1_000_000;

/// Issues a call and collects its end. Returns the value with which the call completed, if it did.
fn completed(core: &mut BoundedCore<Buffer>, entry: EntryRef, value: u64) -> Option<u64> {
    let ticket = core.issue(0, entry, value, Deadline::Never).ok()?;
    match core.collect(ticket)? {
        End::Completed(value) => Some(value),
        _ => None,
    }
}

/// Puts the value and takes one out, and returns whether it is the same.
fn comes_back(core: &mut BoundedCore<Buffer>, value: u64) -> bool {
    completed(core, PUT, value).is_some() && completed(core, GET, 0) == Some(value)
}

/// Puts all values and takes them out, and returns how many came back.
fn exchange(core: &mut BoundedCore<Buffer>) -> u64 {
    let mut right = 0u64;
    for value in 0..VALUES {
        if comes_back(core, value) {
            right = right.saturating_add(1);
        }
    }
    right
}

/// Has all values go through a core. Returns how many came back, and the number of the core's next call.
fn use_core(alloc: Global) -> Result<(u64, u64)> {
    let mut core = empty_buffer(alloc)?;
    let right = exchange(&mut core);
    Ok((right, core.next_number()))
}

/// Has all values go through a core, and prints how many came back.
pub(crate) fn run<R: Print + AllocGlobal>(rt: &R) -> Result<()> {
    let (right, next) = use_core(rt.alloc())?;
    println!(rt; "{right} of {VALUES} values came back, and the next call is {next}")?;
    Ok(())
}
