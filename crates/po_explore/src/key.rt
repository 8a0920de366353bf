// SPDX-License-Identifier: MIT
//! What tells the states of an object apart.

use po_ada_unit::{AdaUnit, Values};
use po_core::{Arrival, BoundedCore, Call, Deadline};
use po_queues::Order;
use std::alloc::{AllocError, Global};

/// What stands for a time or a number that there isn't.
const NONE: i128 = -1;

/// Returns the time of a deadline.
fn time_of(deadline: Deadline) -> i128 {
    match deadline {
        Deadline::Never => NONE,
        Deadline::At(time) => i128::from(time),
    }
}

/// Returns 1 for true.
fn bit(is: bool) -> i128 {
    if is { 1 } else { 0 }
}

/// What tells the states of an object apart.
#[derive(Drop)]
pub(crate) struct Key {
    /// All but whose calls wait.
    pub(crate) form: Vec<i128>,
    /// The callers of the calls of which the form tells, in its order. One whose call can expire may be in it twice.
    pub(crate) callers: Vec<u16>,
}

impl Key {
    /// Adds what tells a queued call apart: all of it but its number, which only later calls exceed.
    fn push_call(&mut self, call: &Call<Values>) -> Result<(), AllocError> {
        self.callers.push(call.owner)?;
        let form = &mut self.form;
        form.push(i128::from(call.entry))?;
        form.push(time_of(call.deadline))?;
        form.push(bit(call.without_abort))?;
        form.push(bit(call.aborted))?;
        form.push(i128::from(call.value.requeues))?;
        form.extend_from_slice(&call.value.cells)
    }

    /// Adds the calls of each queue, in order of arrival.
    fn push_queues(&mut self, mut arrivals: Vec<Arrival<Values>>) -> Result<(), AllocError> {
        arrivals.sort_by_key(|arrival| arrival.call.entry)?;
        for arrival in arrivals.iter() {
            self.push_call(&arrival.call)?;
        }
        Ok(())
    }

    /// Adds the callers whose calls can expire, in order of arrival: so a tick cancels those that are due (9.7.2).
    fn push_expiring(&mut self, arrivals: &[Arrival<Values>]) -> Result<(), AllocError> {
        for arrival in arrivals {
            if arrival.call.deadline != Deadline::Never && !arrival.call.without_abort {
                self.callers.push(arrival.call.owner)?;
            }
        }
        Ok(())
    }

    /// Adds the queued calls. With `Oldest`, the order of arrival over all entries matters; else only that of each queue does, and
    /// that of the calls that can expire.
    fn push_calls(&mut self, core: &BoundedCore<AdaUnit>) -> Result<(), AllocError> {
        let arrivals = core.arrivals()?;
        if core.order() != Order::Oldest {
            self.push_expiring(arrivals.as_slice())?;
            return self.push_queues(arrivals);
        }
        for arrival in arrivals.iter() {
            self.push_call(&arrival.call)?;
        }
        Ok(())
    }
}

/// Returns what tells an object apart from others with the same text: its data, its clock, whether it is finalized, its queues,
/// and, with `Rotating`, the entry that was served last.
pub(crate) fn key_of(alloc: Global, core: &BoundedCore<AdaUnit>) -> Result<Key, AllocError> {
    let mut form = Vec::from_slice(alloc, core.unit().cells())?;
    form.push(i128::from(core.clock()))?;
    form.push(bit(core.is_finalized()))?;
    if core.order() == Order::Rotating {
        form.push(core.last_served().map_or(NONE, i128::from))?;
    }
    let mut key = Key {
        form,
        callers: Vec::new(alloc),
    };
    key.push_calls(core)?;
    Ok(key)
}
