// SPDX-License-Identifier: MIT
//! How many keys are reserved at a time.

ghost use Rattle.std.specs.Prelude.{◌≡◌, ◌+◌, ◌*◌, max, min, IfOk};

use std::alloc::AllocError;

/// Returns how many keys to reserve for this one, if `reserved` are and it isn't among them.
///
/// The number at least doubles, so the cost per call is constant on average.
pub(crate) fn grown(reserved: usize, key: usize) -> Result<usize, AllocError>
    ensures { IfOk result (λ more. more ≡ max (key + 1) (min (2 * reserved) usize.MAX)) }
{
    let least = key.checked_add(1).ok_or(AllocError)?;
    Ok(least.max(reserved.saturating_mul(2)))
}
