// SPDX-License-Identifier: MIT
//! Goes the whole way with a text: reads it, makes an object of its protected unit, and finds hints.

use crate::outcome::{Outcome, faulty};
use anyhow::Result;
use po_ada_reading::{AdaText, read};
use std::alloc::Global;

/// At most this many hints are told.
const MOST_HINTS: usize = 20;

/// Makes an object whose discriminants have their defaults, or 2; returns how many faults the text has, if any.
fn faults_of_object(alloc: Global, ada: &AdaText) -> Result<Option<usize>> {
    let mut values = Vec::new(alloc);
    for discriminant in ada.heading().discriminants.iter() {
        values.push(discriminant.default.unwrap_or(2))?;
    }
    match ada.object(alloc, values.as_slice())? {
        Ok(_) => Ok(None),
        Err(faults) => Ok(Some(faults.len())),
    }
}

/// Makes an object of a text that was read, and finds hints.
fn made(alloc: Global, ada: &AdaText) -> Result<Outcome> {
    let hints = ada.hints(alloc)?;
    if hints.len() > MOST_HINTS {
        return Ok(Outcome::Wrong);
    }
    match faults_of_object(alloc, ada)? {
        Some(count) => Ok(faulty(count)),
        None => Ok(Outcome::Object),
    }
}

/// What becomes of a text on the whole way.
pub fn whole_way(alloc: Global, bytes: &[u8]) -> Result<Outcome> {
    match read(alloc, bytes, None)? {
        Ok(ada) => made(alloc, &ada),
        Err(faults) => Ok(faulty(faults.len())),
    }
}
