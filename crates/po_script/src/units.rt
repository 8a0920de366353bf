// SPDX-License-Identifier: MIT
//! The units that scripts know.

ghost use Rattle.std.specs.Prelude.{◌≡◌, [], IfOk, OnOk, OnErr, string_bytes};

use crate::facts::{UnitFacts, facts_of};
use crate::object::UnitObject;
use po_classic_units::{
    Allocator, Broadcast, Buffer, Meeting, Pulse, Relay, ScriptUnit, Signal, Trap, UnitNames,
};
use po_language::{Beginning, Operation, UnitList};
use po_unit::Unit;
use std::alloc::{AllocError, Global};

/// The units that scripts know, in the order in which the name of a `unit` line is looked up. To add a unit, add it here.
pub type Units = OneOf<
    UnitObject<Buffer>,
    OneOf<
        UnitObject<Signal>,
        OneOf<
            UnitObject<Broadcast>,
            OneOf<
                UnitObject<Pulse>,
                OneOf<
                    UnitObject<Meeting>,
                    OneOf<UnitObject<Allocator>, OneOf<UnitObject<Relay>, UnitObject<Trap>>>,
                >,
            >,
        >,
    >,
>;

/// The object of a script, of one of a list of units.
pub trait ScriptObject: UnitList {
    ghost use Rattle.po_classic_units.specs.Sizes.{IsSizeWhere};
    ghost use Rattle.po_language.specs.Units.{names_at};
    ghost use Rattle.po_script.specs.Operations.{IsEither};
    ghost use Rattle.po_script.specs.Facts.{facts_at};
    ghost use Rattle.po_script.specs.Units.{ScriptUnits, Object as ObjectOf, listed, AreLawful, made_at, after_on, lines_on};

    /// The units of the list.
    ghost units: { ScriptUnits };

    /// What commands of a script see of the object: all except its tickets.
    ghost object: { Self → ObjectOf units };

    /// Makes the object of the unit with this number that a `unit` line begins.
    fn begin(alloc: Global, number: u16, beginning: Beginning) -> Result<Self, AllocError>
        requires { IsSizeWhere (names_at (listed units) number).is_sized beginning.unit.size }
        ensures { IfOk result (λ it. object it ≡ made_at units number beginning) };

    /// Returns what is known of an object of the unit with this number and of this size, in any state.
    fn facts(alloc: Global, number: u16, size: u16) -> Result<UnitFacts, AllocError>
        requires { IsSizeWhere (names_at (listed units) number).is_sized size }
        ensures { IfOk result (λ facts. facts ≡ facts_at units number size) };

    /// Carries out the operation, and puts the lines that answer it into the empty reply.
    fn dispatch(&mut self, operation: Operation, reply: &mut String) -> Result<(), AllocError>
        requires { string_bytes reply.old ≡ [] }
        ensures object { OnOk result (object self.new ≡ after_on units (object self.old) operation) }
        ensures failed { OnErr result (IsEither (object self.new) (object self.old) (after_on units (object self.old) operation)) }
        ensures lines { OnOk result (string_bytes reply.new ≡ lines_on units (object self.old) operation) };

    /// The list has the names of these units.
    ghost same_list: { Self.listed ≡ listed units };

    /// Each unit of the list meets the laws of a unit.
    ghost lawful: { AreLawful units };
}

/// The object of one unit, or of one of the others.
#[derive(Drop)]
pub enum OneOf<O, R> {
    /// An object of this unit.
    This(O),
    /// An object of one of the others.
    Other(R),
}

impl<U: ScriptUnit> UnitList for UnitObject<U> {
    ghost use Rattle.po_language.specs.Units.UnitList.{last};

    ghost listed = { last U.known.names };

    fn unit_number(word: &[u8]) -> Option<u16> {
        if U::names().unit.as_bytes() == word {
            Some(0)
        } else {
            None
        }
    }

    fn names_at(_number: u16) -> UnitNames {
        U::names()
    }
}

impl<U: ScriptUnit, R: UnitList> UnitList for OneOf<UnitObject<U>, R> {
    ghost use Rattle.po_language.specs.Units.UnitList.{before};

    ghost listed = { before U.known.names R.listed };

    fn unit_number(word: &[u8]) -> Option<u16> {
        if U::names().unit.as_bytes() == word {
            return Some(0);
        }
        R::unit_number(word)?.checked_add(1)
    }

    fn names_at(number: u16) -> UnitNames {
        match number.checked_sub(1) {
            None => U::names(),
            Some(rest) => R::names_at(rest),
        }
    }
}

impl<U: ScriptUnit> ScriptObject for UnitObject<U> {
    ghost use Rattle.std.specs.Prelude.{refl};
    ghost use Rattle.po_script.specs.Units.{last};

    ghost units = { last U U.known U.meaning };

    ghost object = { λ it. it.core.object };

    fn begin(
        alloc: Global,
        _number: u16,
        beginning: Beginning,
    ) -> Result<UnitObject<U>, AllocError> {
        UnitObject::new(alloc, beginning)
    }

    fn facts(alloc: Global, _number: u16, size: u16) -> Result<UnitFacts, AllocError> {
        facts_of::<U>(alloc, size)
    }

    fn dispatch(&mut self, operation: Operation, reply: &mut String) -> Result<(), AllocError> {
        UnitObject::operate(self, operation, reply)
    }

    ghost same_list = { refl };

    ghost lawful = { U.lawful };
}

impl<U: ScriptUnit, R: ScriptObject> ScriptObject for OneOf<UnitObject<U>, R> {
    ghost use Rattle.std.proofs.Common.{inl, inr, ap};
    ghost use Rattle.po_language.specs.Units.UnitList.{before as name_before};
    ghost use Rattle.po_script.specs.Units.{before};
    ghost use Rattle.po_script.specs.declared.units.OneOf.TheVariants.{This, Other};

    ghost units = { before U U.known U.meaning R.units };

    ghost object = { elim [ This it ↦ inl it.core.object | Other other ↦ inr (R.object other) ] };

    fn begin(
        alloc: Global,
        number: u16,
        beginning: Beginning,
    ) -> Result<OneOf<UnitObject<U>, R>, AllocError> {
        match number.checked_sub(1) {
            None => Ok(OneOf::This(UnitObject::new(alloc, beginning)?)),
            Some(rest) => Ok(OneOf::Other(R::begin(alloc, rest, beginning)?)),
        }
    }

    fn facts(alloc: Global, number: u16, size: u16) -> Result<UnitFacts, AllocError> {
        match number.checked_sub(1) {
            None => facts_of::<U>(alloc, size),
            Some(rest) => R::facts(alloc, rest, size),
        }
    }

    fn dispatch(&mut self, operation: Operation, reply: &mut String) -> Result<(), AllocError> {
        match self {
            OneOf::This(object) => object.dispatch(operation, reply),
            OneOf::Other(other) => other.dispatch(operation, reply),
        }
    }

    ghost same_list = { ap (name_before U.known.names) R.same_list };

    ghost lawful = { (U.lawful, R.lawful) };
}
