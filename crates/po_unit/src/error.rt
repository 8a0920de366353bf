// SPDX-License-Identifier: MIT
//! Why declarations are refused, and why a reference names no entry.

ghost use Rattle.std.specs.Prelude.{◌≡◌};
ghost use Rattle.po_unit.specs.Faults.{shape_error_number, index_error_number};

use std::alloc::AllocError;
use thiserror::Error;

/// Why declarations make no shape.
#[derive(Clone, Copy, Debug, PartialEq, Eq, Error)]
pub enum ShapeError {
    /// There are more than 4,096 declarations, or they declare more than 4,096 entries (this project's own limit).
    #[error("more than 4,096 declarations or entries")]
    TooManyEntries,
    /// There is not enough memory for the shape.
    #[error("out of memory")]
    OutOfMemory,
}

impl ShapeError {
    /// Returns the error's number, 1 or 2, in the order of the variants.
    pub fn number(self) -> u8
        ensures { result ≡ shape_error_number self }
    {
        match self {
            ShapeError::TooManyEntries => 1,
            ShapeError::OutOfMemory => 2,
        }
    }
}

impl From<AllocError> for ShapeError {
    ghost use Rattle.std.specs.Prelude.{◌≡◌};
    ghost use Rattle.po_unit.specs.declared.error.ShapeError.TheVariants.{OutOfMemory};

    ghost from_gives = { λ _ fault. fault ≡ OutOfMemory };

    fn from(_error: AllocError) -> ShapeError {
        ShapeError::OutOfMemory
    }
}

/// Why a reference names no entry (9.5.2). If several reasons hold, the first of them is reported.
#[derive(Clone, Copy, Debug, PartialEq, Eq, Error)]
pub enum IndexError {
    /// There is no declaration at this position of the list.
    #[error("there is no such entry")]
    NoSuchEntry,
    /// An index was given to a single entry.
    #[error("an index was given to a single entry")]
    NotAFamily,
    /// A family was named without an index.
    #[error("a family of entries was named without an index")]
    IndexMissing,
    /// The index is outside the family's range.
    #[error("the index is outside the family's range")]
    BadIndex,
}

impl IndexError {
    /// Returns the error's number, 1 to 4, in the order of the variants.
    pub fn number(self) -> u8
        ensures { result ≡ index_error_number self }
    {
        match self {
            IndexError::NoSuchEntry => 1,
            IndexError::NotAFamily => 2,
            IndexError::IndexMissing => 3,
            IndexError::BadIndex => 4,
        }
    }
}
