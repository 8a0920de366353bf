// SPDX-License-Identifier: MIT
//! Tests of each layer below objects: flat numbers, the table of calls, queues, accepted calls, examinations, histories and
//! units; whole cores and their cuts; scripts whose readers and writers fail.
//!
//! The tests are apart from the crates that they test, so that the gate proves those crates once, and not a second time with
//! their tests.
//!
//! Most modules have the name of what they test. Two give a list of steps and compare the answers as text: transcript.rt for
//! commands on a core, units/operations.rt for operations of a unit. Begin with runs.rt, which uses the first, and
//! units/buffer.rt, which uses the second.
#![tactic(auto)]

#[cfg(test)]
mod accepted;
#[cfg(test)]
mod conditions;
#[cfg(test)]
mod crowds;
#[cfg(test)]
mod cuts;
#[cfg(test)]
mod ends;
#[cfg(test)]
mod entry_queues;
#[cfg(test)]
mod evaluations;
#[cfg(test)]
mod examination;
#[cfg(test)]
mod expirations;
#[cfg(test)]
mod fakes;
#[cfg(test)]
mod history;
#[cfg(test)]
mod kinds;
#[cfg(test)]
mod ladder;
#[cfg(test)]
mod laws;
#[cfg(test)]
mod queues;
#[cfg(test)]
mod refusals;
#[cfg(test)]
mod runs;
#[cfg(test)]
mod script_runs;
#[cfg(test)]
mod shape;
#[cfg(test)]
mod sizes;
#[cfg(test)]
mod table;
#[cfg(test)]
mod transcript;
#[cfg(test)]
mod uncopied;
#[cfg(test)]
mod units;
