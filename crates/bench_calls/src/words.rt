// SPDX-License-Identifier: MIT
//! The words of the command line.

use crate::plan::{MANY, ROUNDS};
use crate::units::MOST_THREADS;
use crate::work::{Kind, Task, Work};

/// The usage line, printed when other words are refused.
pub(crate) const USAGE: &str =
    "usage: bench_calls [small | full [CALLS] | threads [ROUNDS] | bounded CALLS | row WORK THREADS TURNS]
WORK: mutex, monitor, or, also with bounded- before it, procedure, function, entry, buffer, allocator, meeting
THREADS: 1 to 64
";

/// What the words of the command line ask for.
#[derive(Clone, Copy)]
pub(crate) enum Wanted {
    /// All counts of a small run.
    Small,
    /// What commands take, with this many calls waiting when many do.
    Commands(u64),
    /// What the work of threads takes, in this many rounds.
    Threads(u32),
    /// This many calls on one core with fixed memory.
    Bounded(u64),
    /// One row of the work of threads.
    Row(Task),
}

/// Returns what the object keeps on which the work of this word is done, and the word for the work alone.
fn kind_of(word: &str) -> (Kind, &str) {
    match word.strip_prefix(Kind::Bounded.prefix()) {
        Some(work) => (Kind::Bounded, work),
        None => (Kind::Recorded, word),
    }
}

/// Returns the task of the row that these words ask for, or `None` if they are refused.
fn task(work: &str, threads: &str, turns: &str) -> Option<Task> {
    let threads: u16 = threads.parse().ok()?;
    if threads < 1 || threads > MOST_THREADS {
        return None;
    }
    let (kind, word) = kind_of(work);
    let work = Work::named(word)?;
    if matches!(kind, Kind::Bounded) && !work.needs_object() {
        return None;
    }
    Some(Task {
        kind,
        work,
        threads,
        turns: turns.parse().ok()?,
    })
}

/// Returns what two words ask for, or `None` if they are refused.
fn table(kind: &str, number: &str) -> Option<Wanted> {
    match kind {
        "full" => Some(Wanted::Commands(number.parse().ok()?)),
        "threads" => Some(Wanted::Threads(number.parse().ok()?)),
        "bounded" => Some(Wanted::Bounded(number.parse().ok()?)),
        _ => None,
    }
}

/// Returns what one word asks for, or `None` if it is refused.
fn plain(kind: &str) -> Option<Wanted> {
    match kind {
        "small" => Some(Wanted::Small),
        "full" => Some(Wanted::Commands(MANY)),
        "threads" => Some(Wanted::Threads(ROUNDS)),
        _ => None,
    }
}

impl Wanted {
    /// Returns what the words of the command line ask for, of which the first is the program's, or `None` if they are refused.
    pub(crate) fn named(words: &[String]) -> Option<Wanted> {
        match words {
            [] | [_] => Some(Wanted::Small),
            [_, kind] => plain(kind.as_str()),
            [_, kind, number] => table(kind.as_str(), number.as_str()),
            [_, kind, work, threads, turns] if kind.as_str() == "row" => {
                Some(Wanted::Row(task(work.as_str(), threads.as_str(), turns.as_str())?))
            }
            _ => None,
        }
    }
}
