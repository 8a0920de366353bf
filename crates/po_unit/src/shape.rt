// SPDX-License-Identifier: MIT
//! The shape of a protected object: its declarations, and the flat numbers of their entries.

ghost use Rattle.std.specs.Prelude.{◌≡◌, ℕ, ◌<◌, ◌≤◌, ◌↔◌, IsNone, IfSome, IfOk, length, slice_get};
ghost use Rattle.po_unit.specs.Numbering.{HasTooMany, entry_count, entry_references, flat_number, is_public};
ghost use Rattle.po_unit.specs.FirstNumbers.{first_numbers, IsPositionOf};

use crate::decl::{Decl, EntryRef};
use crate::error::{IndexError, ShapeError};
use smallvec::SmallVec;
use std::alloc::{AllocError, Global};
use std::marker::Model;

/// How many declarations, and how many entries, a shape has at most.
const MOST_ENTRIES: u16 = 4096;

/// A list of declarations, with a flat number for each entry that they declare (9.5.2).
///
/// The numbers start at 0. They run through the declarations in order, and through a family from its first index to its last.
#[derive(Debug, Drop)]
pub struct Shape {
    decls: SmallVec<Decl, 8>,
    // For each declaration, how many entries come before its own: the number of its first entry, if it has one.
    firsts: SmallVec<u16, 8>,
    total: u16,
}

impl Model for Shape {
    ghost use Rattle.std.specs.Prelude.{List};
    ghost use Rattle.po_unit.specs.declared.decl.Decl.{Decl};
    ghost use Rattle.po_unit.specs.FirstNumbers.{KeepsNumbers};

    ghost Value = { List Decl };

    ghost view = { λ s. s.decls.items };

    ghost invariant = { λ s. KeepsNumbers s.decls.items s.firsts.items s.total };
}

impl Shape {
    /// Makes the shape of these declarations. There may be none, and families may have no member (9.5.2).
    ///
    /// Fails with `TooManyEntries` if there are more than 4,096 declarations or entries, and otherwise only with `OutOfMemory`.
    pub fn new(alloc: Global, decls: &[Decl]) -> Result<Shape, ShapeError>
        ensures shape { IfOk result (λ s. s ≡ decls.now) }
        ensures too_many { (result ≡ Err ShapeError.TooManyEntries) ↔ HasTooMany decls.now }
    {
        let Some(total) = count_entries(decls) else {
            return Err(ShapeError::TooManyEntries);
        };
        let firsts = number_firsts(alloc, decls)?;
        let decls = SmallVec::from_slice(alloc, decls)?;
        Ok(Shape {
            decls,
            firsts,
            total,
        })
    }

    /// Makes an equal shape. Fails only if memory runs out.
    pub fn copy(&self) -> Result<Shape, AllocError>
        ensures { IfOk result (λ copy. copy ≡ self.now) }
    {
        Ok(Shape {
            decls: SmallVec::from_slice(*self.decls.allocator(), self.decls.as_slice())?,
            firsts: SmallVec::from_slice(*self.firsts.allocator(), self.firsts.as_slice())?,
            total: self.total,
        })
    }

    /// Returns the flat number of the named entry, or the first reason why none is named (9.5.2). Takes constant time.
    pub fn flat(&self, reference: EntryRef) -> Result<u16, IndexError>
        ensures exact { result ≡ flat_number self.now reference }
        ensures bijection { (n : ℕ) → (result ≡ Ok n)
            ↔ (slice_get (entry_references self.now) n ≡ Some reference) }
    {
        let Some(decl) = self.decl(reference.declaration) else {
            return Err(IndexError::NoSuchEntry);
        };
        let distance = decl.distance(reference.index)?;
        let first = self.firsts.as_slice()[usize::from(reference.declaration)];
        Ok(first + distance as u16)
    }

    /// Returns the entry with this flat number; `flat` turns it back into the number. Takes logarithmic time.
    pub fn of_flat(&self, number: u16) -> EntryRef
        requires { number < entry_count self.now }
        ensures listed { slice_get (entry_references self.now) number ≡ Some result }
        ensures flat_back { flat_number self.now result ≡ Ok number }
    {
        let position = self.position_of(number);
        let first = self.firsts.as_slice()[position];
        let decl = self.decls.as_slice()[position];
        decl.entry_at(position as u16, number - first)
    }

    /// Returns whether the entry with this flat number is declared in the visible part (9.4).
    pub fn is_public(&self, number: u16) -> bool
        requires { number < entry_count self.now }
        ensures { result ≡ is_public self.now number }
    {
        self.decls.as_slice()[self.position_of(number)].public
    }

    /// Returns how many entries there are, each member of a family counted (9.5.2). All flat numbers are below this.
    pub fn total(&self) -> u16
        ensures counted { result ≡ entry_count self.now }
        ensures listed { result ≡ length (entry_references self.now) }
        ensures limited { result ≤ 4096 }
    {
        self.total
    }

    /// Returns the declaration at this position in the list, if there is one.
    pub fn decl(&self, entry: u16) -> Option<Decl>
        ensures { result ≡ slice_get self.now entry }
    {
        self.decls.as_slice().get(usize::from(entry)).copied()
    }

    /// Returns the position of the declaration that declares the entry with this flat number.
    fn position_of(&self, number: u16) -> usize
        requires { number < entry_count self.now }
        ensures { IsPositionOf self.now number result }
    {
        self.firsts
            .as_slice()
            .partition_point(|first| *first <= number)
            - 1
    }
}

/// Returns how many entries the declarations declare together, unless there are too many.
fn count_entries(decls: &[Decl]) -> Option<u16>
    ensures counted { IfSome result (λ n. n ≡ entry_count decls.now) }
    ensures too_many { IsNone result ↔ HasTooMany decls.now }
{
    if decls.len() > usize::from(MOST_ENTRIES) {
        return None;
    }
    let mut total = 0;
    for decl in decls {
        let width = decl.width();
        if width > u64::from(MOST_ENTRIES - total) {
            return None;
        }
        total += width as u16;
    }
    Some(total)
}

/// Returns the flat numbers of the declarations' first entries, in the order of the declarations.
fn number_firsts(alloc: Global, decls: &[Decl]) -> Result<SmallVec<u16, 8>, AllocError>
    requires { entry_count decls.now ≤ 4096 }
    ensures { IfOk result (λ firsts. firsts.items ≡ first_numbers decls.now) }
{
    let mut firsts = SmallVec::with_capacity(alloc, decls.len())?;
    let mut total = 0;
    for decl in decls {
        firsts.push(total)?;
        total += decl.width() as u16;
    }
    Ok(firsts)
}
