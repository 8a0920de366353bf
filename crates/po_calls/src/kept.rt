// SPDX-License-Identifier: MIT
//! What the table keeps of a call.

ghost use Rattle.std.specs.Prelude.{◌≡◌, ⊤};

use crate::call::Call;
use crate::end::End;
use std::alloc::AllocError;

/// A call that isn't collected, and how it ended, if it has.
#[derive(Copy, Debug, PartialEq, Eq)]
pub struct Kept<V> {
    pub call: Call<V>,
    pub end: Option<End<V>>,
}

// A clone is a copy. The derived impl would clone the values, and say no more than the clause of their own `clone`.
impl<V: Copy> Clone for Kept<V> {
    ghost is_clone = { λ kept clone. clone ≡ kept };

    ghost is_infallible = { λ _. ⊤ };

    fn clone(&self) -> Result<Kept<V>, AllocError> {
        Ok(*self)
    }
}
