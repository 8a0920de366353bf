// SPDX-License-Identifier: MIT
//! How a check of a script fails.

ghost use Rattle.po_check.specs.declared.error.CheckError.TheVariants.{Memory};

use std::alloc::AllocError;
use thiserror::Error;

/// Why a check ended early.
#[derive(Clone, Copy, Debug, PartialEq, Eq, Error)]
pub enum CheckError {
    /// A read failed.
    #[error("read failed")]
    Read,
    /// A write failed, or took no byte.
    #[error("write failed")]
    Write,
    /// Memory ran out.
    #[error("out of memory")]
    Memory,
}

impl From<AllocError> for CheckError {
    ghost use Rattle.std.specs.Prelude.{◌≡◌};

    ghost from_gives = { λ _ fault. fault ≡ Memory };

    fn from(_error: AllocError) -> CheckError {
        CheckError::Memory
    }
}
