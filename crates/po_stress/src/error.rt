// SPDX-License-Identifier: MIT
//! Why there is no report of a run.

ghost use Rattle.po_stress.specs.declared.error.StressError.TheVariants.{OutOfMemory};

use std::alloc::AllocError;
use thiserror::Error;

/// Why there is no report of a run.
#[derive(Clone, Copy, Debug, PartialEq, Eq, Error)]
pub enum StressError {
    /// 1: half of the unit's threads wait for what the other half does, and the number of threads is odd.
    #[error("this unit needs an even number of threads: half of them put, and half of them get")]
    OddThreads,
    /// 2: memory ran out, or a thread couldn't be started.
    #[error("out of memory")]
    OutOfMemory,
}

impl From<AllocError> for StressError {
    ghost use Rattle.std.specs.Prelude.{◌≡◌};

    ghost from_gives = { λ _ fault. fault ≡ OutOfMemory };

    fn from(_error: AllocError) -> StressError {
        StressError::OutOfMemory
    }
}
