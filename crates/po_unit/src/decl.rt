// SPDX-License-Identifier: MIT
//! Declarations of entries, and references to entries.

ghost use Rattle.std.specs.Prelude.{◌≡◌, ◌<◌};
ghost use Rattle.po_unit.specs.Numbering.{width, distance, entry_at};

use crate::error::IndexError;

/// The declaration of a single entry or of an entry family (9.5.2). The default is a private single entry.
#[derive(Clone, Copy, Debug, Default, PartialEq, Eq)]
pub struct Decl {
    /// Whether it is in the visible part, so that it can be named from outside the object (9.4).
    pub public: bool,
    /// Whether it declares a family, which has an entry for each index of `low..=high`.
    pub family: bool,
    /// The first index of a family; a single entry ignores it.
    pub low: i32,
    /// The last index of a family. If it is below `low`, the family has no entry. A single entry ignores it.
    pub high: i32,
}

/// The name of an entry: a single entry, or a member of a family (9.5.2).
#[derive(Clone, Copy, Debug, PartialEq, Eq)]
pub struct EntryRef {
    /// The position of the declaration in the list of declarations, counted from 0.
    pub declaration: u16,
    /// The index of a family's member; `None` for a single entry.
    pub index: Option<i32>,
}

impl Decl {
    /// Returns how many entries this declares: one, or one for each index of a family's range (9.5.2).
    pub(crate) fn width(self) -> u64
        ensures { result ≡ width self }
    {
        if !self.family {
            1
        } else if self.low <= self.high {
            u64::from(self.high.abs_diff(self.low)) + 1
        } else {
            0
        }
    }

    /// Returns how far the entry with this index is from the first one that this declares, or what is wrong with the index.
    pub(crate) fn distance(self, index: Option<i32>) -> Result<u32, IndexError>
        ensures { result ≡ distance self index }
    {
        match index {
            None if self.family => Err(IndexError::IndexMissing),
            None => Ok(0),
            Some(_) if !self.family => Err(IndexError::NotAFamily),
            Some(index) if self.low <= index && index <= self.high => Ok(index.abs_diff(self.low)),
            Some(_) => Err(IndexError::BadIndex),
        }
    }

    /// Returns the entry at this distance from the first one that this declares. `position` is the declaration's in its list.
    pub(crate) fn entry_at(self, position: u16, distance: u16) -> EntryRef
        requires { distance < width self }
        ensures { result ≡ entry_at position self distance }
    {
        let index = if self.family {
            Some(self.low + i32::from(distance))
        } else {
            None
        };
        EntryRef {
            declaration: position,
            index,
        }
    }
}
