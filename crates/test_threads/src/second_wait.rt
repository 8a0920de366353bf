// SPDX-License-Identifier: MIT
//! Callers whose calls wait a second time sleep again: they take hardly any processor time.

use crate::buffers::{GET, PUT};
use crate::shared::Shared;
use crate::stage::Stage;
use crate::threads::{Work, sees_waiting, single};
use po_core::End;
use std::io::{self, Print};
use std::sync::Wait;
use std::thread::{self, Threads};
use std::time::{Clock, CpuClock, Duration};

/// How many callers wait.
const WAITERS: u64 = 8;

/// One seat for each of them, and one more.
pub(crate) const SEATS: u16 = 9;

/// For how many milliseconds the callers are watched.
const REST: u64 = 1_000;

/// How many milliseconds of processor time all of them together may take meanwhile. A caller that looked for the end of its
/// call all the time would take more.
const MOST: u128 = 500;

/// Puts a value for each caller, and prints how many were put.
fn put_all<P: Drop, O: Shared<P> + Drop, R: Wait + Print>(
    rt: &R,
    stage: &mut Stage<P, O>,
) -> io::Result<()> {
    let mut put = 0u64;
    for value in 0..WAITERS {
        if let Some(Ok(End::Completed(_))) = stage.call(rt, PUT, value) {
            put = put.saturating_add(1);
        }
    }
    println!(rt; "put {put}")
}

/// Prints whether the process takes hardly any processor time for a second.
fn print_rest<R: Clock + CpuClock + Print>(rt: &R) -> io::Result<()> {
    let before = rt.process_cpu_time()?;
    thread::sleep(rt, Duration::from_millis(REST));
    let taken = rt.process_cpu_time()?.saturating_sub(before);
    println!(rt;
        "less than half a second of processor time: {}",
        taken.as_millis() < MOST
    )
}

/// Eight callers get a value each, for which they wait, and then wait for a second one.
pub(crate) fn play<
    P: Send + Drop + 'static,
    O: Shared<P> + Send + Sync + Drop + 'static,
    R: Threads + Wait + Clock + CpuClock + Print + Copy + Send + 'static,
>(rt: R, stage: &mut Stage<P, O>) -> io::Result<()> {
    stage.start_all(rt, WAITERS, Work::Calls(GET, 2))?;
    if !sees_waiting(&rt, &*stage.object, single(GET), WAITERS) {
        return println!(rt; "not all calls are seen to wait");
    }
    put_all(&rt, stage)?;
    if !sees_waiting(&rt, &*stage.object, single(GET), WAITERS) {
        return println!(rt; "not all calls are seen to wait again");
    }
    print_rest(&rt)?;
    put_all(&rt, stage)?;
    stage.gather(&rt, "got", 2 * WAITERS)
}
