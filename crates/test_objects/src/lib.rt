// SPDX-License-Identifier: MIT
//! Tests of an object behind its lock, which one thread calls, and of jobs and tickers.
//!
//! A `Scene` of scenes.rt says what is done with an object over a buffer. shelf.rt opens the
//! object, plays the scene and closes the object; its `Shelf` is what is left. volumes.rt compares
//! histories that were cut, and cuts.rt proves the answers of an object whose history was cut.
//! threads.rt has threads do jobs at the object's two seats, also beside a ticker, which raises its
//! clock. stopping.rt stops a ticker while a function of a sleeper, the unit of sleeper.rt, holds
//! the lock.
//!
//! Begin with buffers.rt, which plays the scenes.
#![tactic(auto)]

#[cfg(test)]
mod asks;
#[cfg(test)]
mod buffers;
#[cfg(test)]
mod cuts;
#[cfg(test)]
mod scenes;
#[cfg(test)]
mod shelf;
#[cfg(test)]
mod sleeper;
#[cfg(test)]
mod stopping;
#[cfg(test)]
mod threads;
#[cfg(test)]
mod volumes;
