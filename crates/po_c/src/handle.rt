// SPDX-License-Identifier: MIT
//! The handle that C holds of an object.

ghost use Rattle.std.specs.Prelude.{◌≡◌, Some, None, Option, MatchOption};
ghost use Rattle.po_c.specs.Held.{held, object_coded};
ghost use Rattle.po_driven.specs.DrivenView.{DrivenView};

use crate::loose::Loose;
use po_driven::DrivenObject;
use std::alloc::Global;
use std::marker::Model;
use std::mem::replace;
use std::ptr::null_mut;

/// An object as C holds it: a pointer, null if there is none.
#[repr(C)]
#[derive(Drop)]
pub struct Handle {
    at: *mut u8,
    alloc: Global,
    pub ghost object: { Option DrivenView } by { object_coded },
}

impl Model for Handle {
    ghost also_owns = { λ h. held h.alloc h.at h.object };
}

impl Handle {
    /// Makes a handle with no object.
    fn none(alloc: Global) -> Handle
        ensures { result.object ≡ None }
    {
        Handle {
            at: null_mut(),
            alloc,
        }
    }

    /// Takes the object's box out of the handle, if there is an object, and leaves none.
    pub fn take(&mut self, alloc: Global) -> Option<Box<DrivenObject, Global>>
        ensures taken { MatchOption result (self.old.object ≡ None) (λ b. self.old.object ≡ Some b.value) }
        ensures left { self.new.object ≡ None }
    {
        let loose = replace(self, Handle::none(alloc)).into_loose()?;
        Some(loose.into_box())
    }

    fn of_loose(loose: Loose<DrivenObject, Global>) -> Handle
        ensures { result.object ≡ Some loose.value }
    {
        let Loose { at, alloc } = loose;
        Handle {
            at: at as *mut u8,
            alloc,
        }
    }

    fn into_loose(self) -> Option<Loose<DrivenObject, Global>>
        ensures { MatchOption result (self.object ≡ None) (λ l. self.object ≡ Some l.value) }
    {
        let Handle { at, alloc } = self;
        if at.is_null() {
            None
        } else {
            Some(Loose {
                at: at as *mut DrivenObject,
                alloc,
            })
        }
    }

    /// Makes the handle of a box.
    pub fn of(boxed: Box<DrivenObject, Global>) -> Handle
        ensures { result.object ≡ Some boxed.value }
    {
        Handle::of_loose(Loose::of(boxed))
    }
}

// Another thread may drop what it owns.
unsafe impl Send for Handle {}
