// SPDX-License-Identifier: MIT
//! The arguments of a program.

use anyhow::Result;
use std::env;
use std::rt::Env;

/// Returns the number that is this argument of the program; 1 if there is none.
pub fn argument(rt: &(impl Env + AllocGlobal), place: usize) -> Result<usize> {
    match env::args(rt)?.nth(place) {
        Some(word) => Ok(word.as_str().parse::<usize>()?),
        None => Ok(1),
    }
}
