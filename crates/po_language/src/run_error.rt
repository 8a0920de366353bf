// SPDX-License-Identifier: MIT
//! How a run of a script fails.

ghost use Rattle.po_language.specs.declared.run_error.RunError.TheVariants.{Memory};

use crate::command::FaultKind;
use std::alloc::AllocError;
use thiserror::Error;

/// Why a run ended early.
#[derive(Clone, Copy, Debug, PartialEq, Eq, Error)]
pub enum RunError {
    /// The script has a fault.
    #[error("line {line}: {kind}")]
    Script { line: u64, kind: FaultKind },
    /// A read failed.
    #[error("read failed")]
    Read,
    /// A write failed, or took no byte.
    #[error("write failed")]
    Write,
    /// Memory ran out.
    #[error("out of memory")]
    Memory,
}

impl From<AllocError> for RunError {
    ghost use Rattle.std.specs.Prelude.{◌≡◌};

    ghost from_gives = { λ _ fault. fault ≡ Memory };

    fn from(_error: AllocError) -> RunError {
        RunError::Memory
    }
}
