// SPDX-License-Identifier: MIT
//! The hints on a protected unit, in the order of their places.

ghost use Rattle.std.specs.Prelude.{◌≡◌, ◌≤◌, vec_len, IfOk};
ghost use Rattle.std.specs.List.Sorted.{IsNonDecreasingBy};
ghost use Rattle.po_ada_tree.specs.declared.fault.Fault.{Fault};

use crate::gathering::gather;
use crate::reaches::reach_all;
use crate::tallies::tally_all;
use crate::uses::Facts;
use po_ada_tree::tree::Name;
use po_ada_tree::{Fault, Names, Text};
use std::alloc::{AllocError, Global};

/// At most this many hints are told.
const MOST_HINTS: usize = 20;

/// The hints that were found.
#[derive(Drop)]
pub struct HintList<'a> {
    pub alloc: Global,
    pub names: &'a Names,
    items: Vec<Fault>,
}

impl<'a> HintList<'a> {
    /// Adds a hint.
    pub fn add(&mut self, place: usize, message: String) -> Result<(), AllocError> {
        self.items.push(Fault { place, message })?;
        Ok(())
    }

    /// Adds a hint with a fixed message.
    pub fn tell(&mut self, place: usize, message: &str) -> Result<(), AllocError> {
        self.add(place, String::from_str(self.alloc, message)?)
    }

    /// The name of something that the text declares.
    pub fn name_of(&self, facts: &Facts<'a>, entity: usize) -> &'a str {
        match facts.entities.get(entity) {
            Some(found) => self.names.written(found.name.number),
            None => "",
        }
    }
}

/// All hints, in the order in which they are found.
fn all_hints(alloc: Global, text: &Text, wanted: Name) -> Result<Vec<Fault>, AllocError> {
    let facts = gather(alloc, text, wanted)?;
    let tallies = tally_all(alloc, &facts)?;
    let reaches = reach_all(alloc, &facts, &tallies)?;
    let mut hints = HintList {
        alloc,
        names: &text.names,
        items: Vec::new(alloc),
    };
    hints.tell_barriers(&facts, &reaches)?;
    hints.tell_unused(&facts, &tallies)?;
    hints.tell_ends(&facts, &reaches)?;
    let HintList { items, .. } = hints;
    Ok(items)
}

/// The first hints in the order of their places.
fn first_hints(list: Vec<Fault>) -> Result<Vec<Fault>, AllocError>
    ensures few { IfOk result (λ first. vec_len first ≤ 20) }
    ensures sorted { IfOk result (λ first. IsNonDecreasingBy (λ (hint : Fault). hint.place) first.items) }
{
    let mut list = list;
    list.sort_by_key(|hint| hint.place)?;
    list.truncate(MOST_HINTS);
    Ok(list)
}

/// The hints on the protected unit of this name: at most 20, in the order of their places.
pub fn hints(alloc: Global, text: &Text, wanted: Name) -> Result<Vec<Fault>, AllocError>
    ensures few { IfOk result (λ told. vec_len told ≤ 20) }
    ensures sorted { IfOk result (λ told. IsNonDecreasingBy (λ (hint : Fault). hint.place) told.items) }
{
    first_hints(all_hints(alloc, text, wanted)?)
}
