// SPDX-License-Identifier: MIT
//! Copies of vectors.

ghost use Rattle.std.specs.Prelude.{◌≡◌, IfOk};

use std::alloc::AllocError;

/// Makes a vector of the same values.
pub(crate) fn copied<T: Copy>(values: &Vec<T>) -> Result<Vec<T>, AllocError>
    ensures { IfOk result (λ copy. copy.items ≡ values.now.items) }
{
    Vec::from_slice(*values.allocator(), values.as_slice())
}
