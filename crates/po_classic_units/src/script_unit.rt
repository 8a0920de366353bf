// SPDX-License-Identifier: MIT
//! What a script must know of a unit.
ghost use Rattle.std.specs.Prelude.{◌≡◌, ◌≢◌, IfOk};

use crate::names::number_of_name;
use po_unit::{Shape, ShapeError, Unit};
use std::alloc::{AllocError, Global};
use std::marker::Model;

/// The names by which scripts know a unit and its operations, each table in the order of their numbers.
#[derive(Debug, Drop)]
pub struct UnitNames {
    /// The word that names it in a `unit` line.
    pub unit: &'static str,
    /// Whether a size follows that word.
    pub is_sized: bool,
    /// The names of the declarations of its entries and families (9.5.2).
    pub entries: &'static [&'static str],
    /// The names of its protected procedures (9.5.1).
    pub procedures: &'static [&'static str],
    /// The names of its protected functions (9.5.1).
    pub functions: &'static [&'static str],
}

impl Model for UnitNames {
    ghost use Rattle.std.specs.Prelude.{length};
    ghost use Rattle.po_classic_units.specs.Names.{texts_of};
    ghost use Rattle.po_classic_units.specs.ScriptUnit.{KnownNames, HasFewNames};

    ghost Value = { KnownNames };

    ghost view = { λ n. record { unit = n.unit.now; is_sized = n.is_sized; entries = texts_of n.entries.now; procedures = texts_of n.procedures.now; functions = texts_of n.functions.now } };

    ghost invariant = { λ n. HasFewNames (length n.entries.now) (length n.procedures.now) (length n.functions.now) };
}

impl UnitNames {
    ghost use Rattle.po_classic_units.specs.Names.{number_of_name};

    /// Returns the number of the entry's declaration, or the number of declarations if none has this name.
    pub fn entry_named(&self, word: &[u8]) -> u16
        ensures { result ≡ number_of_name self.now.entries word.now }
    {
        number_of_name(self.entries, word)
    }

    /// Returns the number of the procedure, or the number of procedures if none has this name.
    pub fn procedure_named(&self, word: &[u8]) -> u16
        ensures { result ≡ number_of_name self.now.procedures word.now }
    {
        number_of_name(self.procedures, word)
    }

    /// Returns the number of the function, or the number of functions if none has this name.
    pub fn function_named(&self, word: &[u8]) -> u16
        ensures { result ≡ number_of_name self.now.functions word.now }
    {
        number_of_name(self.functions, word)
    }
}

/// A unit that scripts can name and begin.
pub trait ScriptUnit: Unit<Value = u64> + Drop {
    ghost use Rattle.po_unit.specs.Numbering.{entry_count};
    ghost use Rattle.po_classic_units.specs.Names.{texts_of};
    ghost use Rattle.po_classic_units.specs.ScriptUnit.{KnownUnit};
    ghost use Rattle.po_classic_units.specs.Sizes.{IsSizeWhere};

    /// What scripts know of it.
    ghost known: { KnownUnit Self };

    /// Returns the names of the unit and of its operations.
    fn names() -> UnitNames
        ensures { result ≡ known.names };

    /// Makes the unit, of this size if the unit has a size.
    fn made(alloc: Global, size: u16) -> Result<Self, AllocError>
        requires { IsSizeWhere known.names.is_sized size }
        ensures { IfOk result (λ unit. unit ≡ known.opening size) };

    /// Makes the shape of the entries' declarations (9.5.2). Fails only if memory runs out.
    fn shape(&self, alloc: Global) -> Result<Shape, ShapeError>
        ensures shape { IfOk result (λ shape. shape ≡ known.declarations self.now) }
        ensures counted { IfOk result (λ shape. entry_count shape ≡ Self.meaning.entries self.now) }
        ensures within_limits { result ≢ Err ShapeError.TooManyEntries };

    /// Returns the names of the declarations of the entries and families, in their order (9.5.2).
    fn entry_names() -> &'static [&'static str]
        ensures { texts_of result.now ≡ known.names.entries }
    {
        Self::names().entries
    }

    /// Returns the names of the protected procedures, in the order of their numbers (9.5.1).
    fn procedure_names() -> &'static [&'static str]
        ensures { texts_of result.now ≡ known.names.procedures }
    {
        Self::names().procedures
    }

    /// Returns the names of the protected functions, in the order of their numbers (9.5.1).
    fn function_names() -> &'static [&'static str]
        ensures { texts_of result.now ≡ known.names.functions }
    {
        Self::names().functions
    }
}
