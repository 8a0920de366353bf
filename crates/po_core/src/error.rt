// SPDX-License-Identifier: MIT
//! Why no core is made.

ghost use Rattle.po_core.specs.declared.error.MakeError.TheVariants.{OutOfMemory};

use std::alloc::AllocError;
use thiserror::Error;

/// Why no core is made. The unit and the shape are dropped.
#[derive(Clone, Copy, Debug, PartialEq, Eq, Error)]
pub enum MakeError {
    /// The unit doesn't have as many entries as its shape declares.
    #[error("the unit and its shape have different numbers of entries")]
    ShapeMismatch,
    /// Memory ran out.
    #[error("out of memory")]
    OutOfMemory,
}

impl From<AllocError> for MakeError {
    ghost use Rattle.std.specs.Prelude.{◌≡◌};

    ghost from_gives = { λ _ fault. fault ≡ OutOfMemory };

    fn from(_error: AllocError) -> MakeError {
        MakeError::OutOfMemory
    }
}
