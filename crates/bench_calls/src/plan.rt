// SPDX-License-Identifier: MIT
//! How much is measured.

/// How many calls wait when many do, unless the command line says otherwise.
pub(crate) const MANY: u64 = 64_000;

/// How many rounds of the rows of threads there are, unless the command line says otherwise.
pub(crate) const ROUNDS: u32 = 15;

/// How much is measured, and whether times are printed.
#[derive(Drop)]
pub(crate) struct Plan {
    /// Whether times are printed, or only counts.
    pub times: bool,
    /// How many batches a measurement against the mutex has, and a measurement by the number of entries.
    pub batches: u32,
    /// How many commands such a batch has.
    pub commands: u64,
    /// How many cores are measured on which few calls wait, and how many on which many do.
    pub waiting_rounds: u32,
    /// How many batches a measurement has on each of these cores.
    pub waiting_batches: u32,
    /// How many commands such a batch has.
    pub waiting_commands: u64,
    /// How many calls wait when few do.
    pub few: u64,
    /// How many calls wait when many do.
    pub many: u64,
    /// How many rounds of histories there are.
    pub history_rounds: u32,
    /// How many histories are begun in a round.
    pub begun_histories: u32,
    /// How many commands begin a history.
    pub first: u32,
    /// How many commands follow those, and aren't measured.
    pub middle: u32,
    /// How many commands end the history.
    pub last: u32,
    /// How many of the histories of a round go on to their end.
    pub histories: usize,
    /// How many rounds of the rows of threads there are.
    pub rounds: u32,
    /// How often each thread does its work in a round.
    pub turns: u64,
    /// How often each thread does work that is mostly waiting.
    pub waiting_turns: u64,
}

impl Plan {
    /// Returns the plan that prints only counts.
    pub(crate) fn small() -> Plan {
        Plan {
            times: false,
            batches: 2,
            commands: 100,
            waiting_rounds: 1,
            waiting_batches: 2,
            waiting_commands: 10,
            few: 20,
            many: 60,
            history_rounds: 1,
            begun_histories: 2,
            first: 100,
            middle: 200,
            last: 100,
            histories: 1,
            rounds: 1,
            turns: 24,
            waiting_turns: 24,
        }
    }

    /// Returns the plan that prints times, with `many` calls waiting when many do, and `rounds` rounds of the rows of threads.
    pub(crate) fn full(many: u64, rounds: u32) -> Plan {
        Plan {
            times: true,
            batches: 20_000,
            commands: 2_000,
            waiting_rounds: 100,
            waiting_batches: 25,
            waiting_commands: 400,
            few: 1_000,
            many,
            history_rounds: 10,
            begun_histories: 100,
            first: 10_000,
            middle: 890_000,
            last: 100_000,
            histories: 3,
            rounds,
            turns: 20_000,
            waiting_turns: 10_000,
        }
    }
}
