// SPDX-License-Identifier: MIT
//! The rows of the table of threads.

use crate::plan::Plan;
use crate::report::end_line;
use crate::team::Rounds;
use crate::units::race_once;
use crate::work::{Kind, Task, Work};
use std::alloc::{AllocError, Global};
use std::io::{self, Print};
use std::sync::Wait;
use std::thread::Threads;
use std::time::Clock;

/// What the object keeps, what the threads do with it, how many there are, and the number of the row whose time is the unit of
/// this one's ratio.
const ROWS: [(Kind, Work, u16, usize); 25] = [
    (Kind::Recorded, Work::Mutex, 1, 0),
    (Kind::Recorded, Work::Procedure, 1, 0),
    (Kind::Recorded, Work::Function, 1, 0),
    (Kind::Recorded, Work::Entry, 1, 0),
    (Kind::Recorded, Work::Mutex, 4, 4),
    (Kind::Recorded, Work::Function, 4, 4),
    (Kind::Recorded, Work::Monitor, 2, 6),
    (Kind::Recorded, Work::Buffer, 2, 6),
    (Kind::Recorded, Work::Monitor, 4, 8),
    (Kind::Recorded, Work::Buffer, 4, 8),
    (Kind::Recorded, Work::Monitor, 8, 10),
    (Kind::Recorded, Work::Buffer, 8, 10),
    (Kind::Recorded, Work::Allocator, 4, 0),
    (Kind::Recorded, Work::Meeting, 3, 0),
    (Kind::Recorded, Work::Meeting, 4, 0),
    (Kind::Bounded, Work::Procedure, 1, 0),
    (Kind::Bounded, Work::Function, 1, 0),
    (Kind::Bounded, Work::Entry, 1, 0),
    (Kind::Bounded, Work::Function, 4, 4),
    (Kind::Bounded, Work::Buffer, 2, 6),
    (Kind::Bounded, Work::Buffer, 4, 8),
    (Kind::Bounded, Work::Buffer, 8, 10),
    (Kind::Bounded, Work::Allocator, 4, 0),
    (Kind::Bounded, Work::Meeting, 3, 0),
    (Kind::Bounded, Work::Meeting, 4, 0),
];

/// A row, and what its rounds took.
#[derive(Drop)]
struct Row {
    task: Task,
    /// The number of the row whose time is the unit of this one's ratio.
    unit: usize,
    rounds: Rounds,
}

/// Returns the rows, without a round.
fn make_rows(alloc: Global, plan: &Plan) -> Result<Vec<Row>, AllocError> {
    let mut rows = Vec::new(alloc);
    for (kind, work, threads, unit) in ROWS {
        let turns = match work {
            Work::Allocator | Work::Meeting => plan.waiting_turns,
            _ => plan.turns,
        };
        let task = Task {
            kind,
            work,
            threads,
            turns,
        };
        let rounds = Rounds::new(alloc);
        rows.push(Row { task, unit, rounds })?;
    }
    Ok(rows)
}

/// Takes a round of each row.
fn measure<R: Threads + Wait + Clock + AllocGlobal + Copy + Send + 'static>(
    rt: R,
    rows: &mut [Row],
) -> io::Result<()> {
    for row in rows.iter_mut() {
        row.rounds.add(race_once(rt, row.task)?)?;
    }
    Ok(())
}

/// Prints a row: its name, how often the work was done, the nanoseconds in the median, the best and the worst round, and the
/// ratio of the median to that of the unit.
fn print_row<R: Print>(rt: &R, plan: &Plan, row: &Row, unit: u64) -> io::Result<()> {
    let (task, rounds) = (row.task, &row.rounds);
    print!(rt;
        "{}{}/{} {}",
        task.kind.prefix(),
        task.work.name(),
        task.threads,
        rounds.done
    )?;
    let times = [rounds.median(), rounds.lowest(), rounds.highest()];
    end_line(rt, plan, &times, unit)
}

/// Prints the rows.
fn print_rows<R: Print>(rt: &R, plan: &Plan, rows: &[Row]) -> io::Result<()> {
    for row in rows {
        let unit = match rows.get(row.unit) {
            Some(unit) => unit.rounds.median(),
            None => 0,
        };
        print_row(rt, plan, row, unit)?;
    }
    Ok(())
}

/// Takes rounds of all rows, in turns, and prints the rows.
pub(crate) fn print<R: Threads + Wait + Clock + Print + AllocGlobal + Copy + Send + 'static>(
    rt: R,
    plan: &Plan,
) -> io::Result<()> {
    // Not counted: the measurements after it then find memory that was touched before.
    measure(rt, make_rows(rt.alloc(), plan)?.as_mut_slice())?;
    let mut rows = make_rows(rt.alloc(), plan)?;
    for _ in 0..plan.rounds {
        measure(rt, rows.as_mut_slice())?;
    }
    print_rows(&rt, plan, rows.as_slice())
}

/// Takes two rounds of one task, and prints the second one, which finds memory that the first one touched: its name, its
/// threads, how often the work was done, and the nanoseconds of the round.
pub(crate) fn print_one<R: Threads + Wait + Clock + Print + AllocGlobal + Copy + Send + 'static>(
    rt: R,
    task: Task,
) -> io::Result<()> {
    race_once(rt, task)?;
    let round = race_once(rt, task)?;
    println!(rt;
        "{}{} {} {} {}",
        task.kind.prefix(),
        task.work.name(),
        task.threads,
        round.done,
        round.nanos
    )
}
