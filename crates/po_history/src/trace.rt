// SPDX-License-Identifier: MIT
//! A list that only proofs read. It takes no memory, and its methods do nothing at run time.

ghost use Rattle.std.specs.Prelude.{◌≡◌, List, [], ◌∷◌, ◌++◌};
ghost use Rattle.std.specs.Borrow.{ftrue};

use std::marker::{Model, PhantomData};

/// What has happened, in order; clauses read it as `items`.
///
/// By itself it says nothing about a program, since any list meets the contracts here. It gets its meaning from the invariant
/// of the type that keeps it, which says how that type's real fields follow from the list.
#[derive(Drop)]
pub struct Trace<T> {
    of: PhantomData<T>,
    pub ghost items: { List T },
}

impl<T> Model for Trace<T> {
    ghost also_owns = { λ _. ftrue };
}

// A trace owns nothing.
unsafe impl<T: Send> Send for Trace<T> {}

unsafe impl<T: Send> Sync for Trace<T> {}

impl<T> Trace<T> {
    /// Makes the trace in which nothing has happened yet.
    pub fn new() -> Trace<T>
        ensures { result.items ≡ [] }
    {
        Trace { of: PhantomData }
    }

    /// Makes a trace with the same items.
    pub fn copy(&self) -> Trace<T>
        ensures { result.items ≡ self.now.items }
    {
        Trace { of: PhantomData }
    }

    /// Makes a trace in which one more thing has happened: `last`.
    pub fn then(&self, last: &T) -> Trace<T>
        ensures { result.items ≡ self.now.items ++ last.now ∷ [] }
    {
        Trace { of: PhantomData }
    }
}
