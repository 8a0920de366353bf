// SPDX-License-Identifier: MIT
//! Watches a search: says how far it is, and whether it is to end.

use crate::asked::Watched;
use po_explore::Explored;
use std::fs;
use std::io::Eprint;
use std::rt::Files;
use std::time::{Clock, Instant};

/// What is told of a search, and when.
#[derive(Drop)]
pub(crate) struct Watch {
    watched: Watched,
    start: Instant,
    /// How many seconds after the start it was looked at last.
    last: u64,
}

impl Watch {
    /// Returns the watch over a search that begins now, if there is a clock.
    pub(crate) fn new<R: Clock>(rt: &R, watched: Watched) -> Option<Watch> {
        match Instant::now(rt) {
            Ok(start) => Some(Watch {
                watched,
                start,
                last: 0,
            }),
            Err(_) => None,
        }
    }

    /// Returns how many seconds have passed since the start, if that are more than when it was looked at last.
    fn seconds<R: Clock>(&mut self, rt: &R) -> Option<u64> {
        let seconds = match self.start.elapsed(rt) {
            Ok(elapsed) => elapsed.as_secs(),
            Err(_) => return None,
        };
        if seconds <= self.last {
            return None;
        }
        self.last = seconds;
        Some(seconds)
    }

    /// Says how far the search is after these seconds, if that is asked for. If it can't be written, it isn't told.
    fn tell<R: Eprint>(&self, rt: &R, seconds: u64, explored: &Explored) {
        if self.watched.progress {
            let (depth, situations) = (explored.depth(), explored.situations);
            let rate = (situations as u64).checked_div(seconds).unwrap_or(0);
            let _written = eprintln!(rt;
                "after {depth} commands: {situations} situations, {rate} a second"
            );
        }
    }

    /// Returns whether the file that ends the search is there.
    fn is_ended<R: Files>(&self, rt: &R) -> bool {
        match &self.watched.until {
            Some(file) => fs::exists(rt, file.as_str()).unwrap_or(false),
            None => false,
        }
    }

    /// Once a second, says how far the search is. Returns whether it is to end.
    pub(crate) fn look<R: Eprint + Clock + Files>(&mut self, rt: &R, explored: &Explored) -> bool {
        match self.seconds(rt) {
            Some(seconds) => {
                self.tell(rt, seconds, explored);
                self.is_ended(rt)
            }
            None => false,
        }
    }
}
