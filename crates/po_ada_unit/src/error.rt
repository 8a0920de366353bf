// SPDX-License-Identifier: MIT
//! Why an object can't be made.

use std::alloc::AllocError;
use thiserror::Error;

/// Why an object can't be made.
#[derive(Clone, Copy, Debug, PartialEq, Eq, Error)]
pub enum SetupError {
    /// There is not enough memory for the data.
    #[error("out of memory")]
    OutOfMemory,
    /// The initial values of the data raise the exception of this number.
    #[error("the initial values raise exception {0}")]
    Raised(u32),
}

impl From<AllocError> for SetupError {
    ghost use Rattle.std.specs.Prelude.{◌≡◌};
    ghost use Rattle.po_ada_unit.specs.declared.error.SetupError.TheVariants.{OutOfMemory};

    ghost from_gives = { λ _ fault. fault ≡ OutOfMemory };

    fn from(_error: AllocError) -> SetupError {
        SetupError::OutOfMemory
    }
}
