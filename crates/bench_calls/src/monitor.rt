// SPDX-License-Identifier: MIT
//! What objects are measured against: a mutex, and a buffer over a mutex and two condition variables.

ghost use Rattle.std.specs.Prelude.{◌<◌, ◌≤◌};

use crate::callers::Called;
use crate::races::race;
use crate::team::Round;
use crate::work::Task;
use po_unit::EntryRef;
use std::io;
use std::sync::{Condvar, Mutex, MutexGuard, Wait};
use std::thread::Threads;
use std::time::Clock;

/// How many values the buffer has room for.
const ROOM: usize = 4;

/// The values of the buffer.
#[derive(Drop)]
struct Values {
    values: [u64; 4],
    first: usize,
    len: usize,
    ghost first_within: { first < 4 },
    ghost len_within: { len ≤ 4 },
}

impl Values {
    /// Adds a value, and returns whether there was room for it.
    fn put(&mut self, value: u64) -> bool {
        if self.len >= ROOM {
            return false;
        }
        let at = (self.first + self.len) % ROOM;
        self.values[at] = value;
        self.len += 1;
        true
    }

    /// Takes the first value.
    fn get(&mut self) -> Option<u64> {
        if self.len == 0 {
            return None;
        }
        let value = self.values[self.first];
        self.first = (self.first + 1) % ROOM;
        self.len -= 1;
        Some(value)
    }
}

/// A buffer over a mutex and two condition variables.
#[derive(Drop)]
struct Monitor {
    values: Mutex<Values>,
    not_full: Condvar,
    not_empty: Condvar,
}

impl Monitor {
    /// Returns an empty buffer.
    fn new() -> Monitor {
        Monitor {
            values: Mutex::new(Values {
                values: [0; 4],
                first: 0,
                len: 0,
            }),
            not_full: Condvar::new(),
            not_empty: Condvar::new(),
        }
    }

    /// Locks, and then waits on `told` as long as there are exactly `len` values.
    fn lock_past<R: Wait>(&self, rt: &R, told: &Condvar, len: usize) -> MutexGuard<'_, Values> {
        let values = self.values.lock(rt);
        told.wait_while(rt, values, |values| values.len == len)
    }

    /// Waits for room, and adds the value.
    fn put<R: Wait>(&self, rt: &R, value: u64) -> bool {
        let mut values = self.lock_past(rt, &self.not_full, ROOM);
        let put = values.put(value);
        drop(values);
        self.not_empty.notify_one();
        put
    }

    /// Waits for a value, and takes it.
    fn get<R: Wait>(&self, rt: &R) -> bool {
        let mut values = self.lock_past(rt, &self.not_empty, 0);
        let got = values.get().is_some();
        drop(values);
        self.not_full.notify_one();
        got
    }
}

/// A monitor needs no passes. Its entries are Put and Get; a procedure or a function only locks and unlocks.
impl Called<()> for Monitor {
    fn enter<R: Wait>(&self, rt: &R, _pass: &mut (), entry: EntryRef, value: u64) -> bool {
        if entry.declaration == 0 {
            self.put(rt, value)
        } else {
            self.get(rt)
        }
    }

    fn run<R: Wait>(&self, rt: &R, _pass: &mut (), value: u64) -> bool {
        self.read(rt, value)
    }

    fn read<R: Wait>(&self, rt: &R, _value: u64) -> bool {
        drop(self.values.lock(rt));
        true
    }
}

/// Has threads do the task.
pub(crate) fn race_on_monitor<R: Threads + Wait + Clock + AllocGlobal + Copy + Send + 'static>(
    rt: R,
    task: Task,
) -> io::Result<Round> {
    let mut passes = Vec::new(rt.alloc());
    for _ in 0..task.threads {
        passes.push(())?;
    }
    race(rt, Monitor::new(), passes, task)
}
