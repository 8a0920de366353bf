// SPDX-License-Identifier: MIT
//! What is known of a text: types, the meanings of names, and the faults that were told.

ghost use Rattle.std.specs.Prelude.{◌≡◌, vec_len};

use crate::types::{Kind, Meaning, Symbol};
use po_ada_tree::tree::{Name, Unread};
use po_ada_tree::{Fault, Faults, Names, Stop};
use std::alloc::{AllocError, Global};
use std::mem;
use strsim::levenshtein;

/// A text declares at most this many names.
const MOST_NAMES: usize = 10_000;

/// The types of a text, the names in scope, and the faults that were told.
#[derive(Drop)]
pub struct Known<'a> {
    pub alloc: Global,
    pub names: &'a Names,
    pub faults: &'a mut Faults,
    pub kinds: Vec<Kind<'a>>,
    pub scope: Vec<Symbol>,
    /// The literals of enumeration types, each with its type.
    pub literals: Vec<(u32, usize)>,
    /// Why names may not be used: the faults of their declarations.
    pub reasons: Vec<Fault>,
}

/// A scope in which the names from `from` on stand before those from `inner` on.
fn turned(
    alloc: Global,
    scope: &[Symbol],
    inner: usize,
    from: usize,
) -> Result<Vec<Symbol>, AllocError> {
    let mut turned = Vec::new(alloc);
    turned.extend_from_slice(scope.get(..inner).unwrap_or(&[]))?;
    turned.extend_from_slice(scope.get(from..).unwrap_or(&[]))?;
    turned.extend_from_slice(scope.get(inner..from).unwrap_or(&[]))?;
    Ok(turned)
}

impl<'a> Known<'a> {
    /// Nothing is known yet.
    pub fn new(alloc: Global, names: &'a Names, faults: &'a mut Faults) -> Known<'a> {
        Known {
            alloc,
            names,
            faults,
            kinds: Vec::new(alloc),
            scope: Vec::new(alloc),
            literals: Vec::new(alloc),
            reasons: Vec::new(alloc),
        }
    }

    /// Returns how many faults were told.
    pub fn told(&self) -> usize
        ensures { result ≡ vec_len self.now.faults.now.items }
    {
        self.faults.len()
    }

    /// Tells a fault.
    pub fn refuse(&mut self, place: usize, message: &str) -> Stop {
        match String::from_str(self.alloc, message) {
            Ok(message) => self.refuse_by(place, message),
            Err(_) => Stop::OutOfMemory,
        }
    }

    /// Tells a fault, whose message was made.
    pub fn refuse_by(&mut self, place: usize, message: String) -> Stop {
        match self.faults.add(place, message) {
            Ok(()) => Stop::Fault,
            Err(_) => Stop::OutOfMemory,
        }
    }

    /// Tells a fault with a name in its message.
    pub fn refuse_name(&mut self, place: usize, before: &str, name: u32, after: &str) -> Stop {
        match self.quoted(before, name, after) {
            Ok(message) => self.refuse_by(place, message),
            Err(_) => Stop::OutOfMemory,
        }
    }

    fn quoted(&self, before: &str, name: u32, after: &str) -> Result<String, AllocError> {
        let mut message = String::from_str(self.alloc, before)?;
        message.push('\'')?;
        message.push_str(self.names.written(name))?;
        message.push('\'')?;
        message.push_str(after)?;
        Ok(message)
    }

    /// Puts the names that came last, from this place of the scope on, before those from `inner` on, so that they hide none of these
    /// (8.3). Returns where these begin then.
    pub fn lower(&mut self, inner: usize, from: usize) -> Result<usize, AllocError> {
        let lowered = self.scope.len().saturating_sub(from);
        if lowered > 0 {
            let scope = turned(self.alloc, self.scope.as_slice(), inner, from)?;
            drop(mem::replace(&mut self.scope, scope));
        }
        Ok(inner.saturating_add(lowered))
    }

    /// If a fault was told after this many, forgets what was told since. These names may not be used, then.
    pub fn excuse(&mut self, told: usize, names: &[Name]) -> Result<(), Stop> {
        let Some(fault) = self.faults.nth(self.alloc, told)? else {
            return Ok(());
        };
        self.faults.truncate(told);
        let reason = self.reasons.len();
        self.reasons.push(fault)?;
        for name in names {
            self.define(*name, Meaning::Unread(Some(reason)))?;
        }
        Ok(())
    }

    /// Gives the name of a declaration that isn't in the subset its meaning.
    pub fn define_unread(&mut self, unread: &Unread) -> Result<(), Stop> {
        let mut reason = None;
        if let Some(fault) = &unread.fault {
            reason = Some(self.reasons.len());
            self.reasons.push(fault.copy(self.alloc)?)?;
        }
        self.define(unread.name, Meaning::Unread(reason))
    }

    /// Tells why a name may not be used: the fault of its declaration, or, if none is known, that of its use at this place.
    pub fn refuse_unread(
        &mut self,
        reason: Option<usize>,
        place: usize,
        before: &str,
        name: u32,
        after: &str,
    ) -> Stop {
        let Some(fault) = reason.and_then(|reason| self.reasons.get(reason)) else {
            return self.refuse_name(place, before, name, after);
        };
        match fault.copy(self.alloc) {
            Ok(fault) => self.refuse_by(fault.place, fault.message),
            Err(_) => Stop::OutOfMemory,
        }
    }

    /// What a name stands for.
    pub fn look_up(&self, name: u32) -> Option<Meaning> {
        self.scope
            .iter()
            .rev()
            .find(|symbol| symbol.name == name)
            .map(|symbol| symbol.meaning)
    }

    /// The name that this one may be meant to be, at most two letters apart.
    fn meant(&self, name: u32) -> Result<Option<u32>, AllocError> {
        let text = self.names.written(name);
        let mut least = if text.len() < 5 { 2 } else { 3 };
        let mut found = None;
        if text.len() < 3 || text.len() > 40 {
            return Ok(None);
        }
        for symbol in self.scope.iter() {
            let other = self.names.written(symbol.name);
            if other.len() <= text.len().saturating_add(2) {
                let distance = levenshtein(self.alloc, text, other)?;
                if distance < least {
                    least = distance;
                    found = Some(symbol.name);
                }
            }
        }
        Ok(found)
    }

    /// The fault of a name that nothing has.
    pub fn unknown(&mut self, place: usize, name: u32) -> Stop {
        match self.meant(name) {
            Ok(Some(other)) => self.refuse_meant(place, name, other),
            Ok(None) => self.refuse_name(
                place,
                "nothing here has the name ",
                name,
                ": write its declaration here, as other files aren't read",
            ),
            Err(_) => Stop::OutOfMemory,
        }
    }

    fn refuse_meant(&mut self, place: usize, name: u32, other: u32) -> Stop {
        let after = match self.quoted("; did you mean ", other, "?") {
            Ok(after) => after,
            Err(_) => return Stop::OutOfMemory,
        };
        self.refuse_name(place, "nothing here has the name ", name, after.as_str())
    }

    /// Gives a name its meaning.
    pub fn define(&mut self, name: Name, meaning: Meaning) -> Result<(), Stop> {
        if self.scope.len() >= MOST_NAMES {
            return Err(self.refuse(name.place, "a text declares at most 10,000 names"));
        }
        self.scope.push(Symbol {
            name: name.number,
            meaning,
        })?;
        Ok(())
    }
}
