// SPDX-License-Identifier: MIT
//! Names of types, and the names of package Standard.

use crate::known::Known;
use crate::types::{BOOLEAN, GREATEST, INTEGER, LEAST, Meaning, Structure, Sub};
use po_ada_tree::Stop;
use po_ada_tree::tree::{Expression, Form, Name};
use po_program::{ASSERTION_ERROR, CONSTRAINT_ERROR, PROGRAM_ERROR, STORAGE_ERROR, TASKING_ERROR};

impl<'a> Known<'a> {
    /// The subtype that an expression names.
    pub fn subtype_mark(&mut self, mark: &'a Expression) -> Result<Sub, Stop> {
        let name = match &mark.form {
            Form::Name(name) => *name,
            Form::Selected(_, name) => name.number,
            _ => return Err(self.refuse(mark.place, "expected the name of a type")),
        };
        match self.look_up(name) {
            Some(Meaning::Type(sub)) => Ok(sub),
            Some(Meaning::Faulty) => Err(Stop::Fault),
            Some(Meaning::Unread(reason)) => Err(self.refuse_unread(
                reason,
                mark.place,
                "the type ",
                name,
                " isn't in this subset: take an integer type (of a duration, milliseconds), an enumeration, or arrays and records of them",
            )),
            Some(_) => Err(self.refuse_name(
                mark.place,
                "expected the name of a type, and ",
                name,
                " is none",
            )),
            None => Err(self.unknown(mark.place, name)),
        }
    }

    /// The subtype that this names, if it names one.
    pub fn named_type(&self, expression: &'a Expression) -> Option<Sub> {
        match &expression.form {
            Form::Name(name) => match self.look_up(*name) {
                Some(Meaning::Type(sub)) => Some(sub),
                _ => None,
            },
            Form::Selected(_, name) => match self.look_up(name.number) {
                Some(Meaning::Type(sub)) => Some(sub),
                _ => None,
            },
            _ => None,
        }
    }

    /// Gives a predefined name its meaning, if the text has the name.
    fn predefine(&mut self, text: &str, meaning: Meaning) -> Result<u32, Stop> {
        let Some(number) = self.names.find(text) else {
            return Ok(u32::MAX);
        };
        self.define(Name { number, place: 0 }, meaning)?;
        Ok(number)
    }

    /// A predefined type.
    fn predefined_type(
        &mut self,
        text: &str,
        structure: Structure<'a>,
        low: i128,
        high: i128,
    ) -> Result<(), Stop> {
        let kind = self.kinds.len();
        let name = self.predefine(text, Meaning::Type(Sub { kind, low, high }))?;
        self.add_kind(name, 1, structure)?;
        Ok(())
    }

    /// The types of package Standard that the subset has, and those of scripts (A.1).
    fn predefine_types(&mut self) -> Result<(), Stop> {
        self.predefined_type("universal_integer", Structure::Universal, LEAST, GREATEST)?;
        self.predefined_type("boolean", Structure::Enumeration(1), 0, 1)?;
        self.predefined_integer("integer", -2_147_483_648, 2_147_483_647)?;
        self.predefined_integer("long_integer", LEAST, GREATEST)?;
        self.predefined_type("character", Structure::Enumeration(255), 0, 255)?;
        let modulus = 18_446_744_073_709_551_616;
        self.predefined_type(
            "value",
            Structure::Modular(modulus),
            0,
            18_446_744_073_709_551_615,
        )?;
        self.predefined_integer("long_long_integer", LEAST, GREATEST)?;
        self.predefined_integer("short_integer", -32_768, 32_767)
    }

    /// A predefined signed type.
    fn predefined_integer(&mut self, text: &str, low: i128, high: i128) -> Result<(), Stop> {
        self.predefined_type(text, Structure::Integer(low, high), low, high)
    }

    /// The subtypes of Integer, the literals of Boolean, and the default priority as GNAT has it (A.1, D.1).
    fn predefine_subtypes(&mut self) -> Result<(), Stop> {
        for (text, low, high) in [
            ("natural", 0, 2_147_483_647),
            ("positive", 1, 2_147_483_647),
            ("priority", 0, 97),
        ] {
            let kind = INTEGER;
            self.predefine(text, Meaning::Type(Sub { kind, low, high }))?;
        }
        for (text, number) in [("false", 0), ("true", 1)] {
            self.predefine(text, Meaning::Number(number, BOOLEAN))?;
        }
        self.predefine("default_priority", Meaning::Number(48, INTEGER))?;
        Ok(())
    }

    /// Packages, and what isn't in the subset.
    fn predefine_others(&mut self) -> Result<(), Stop> {
        for text in ["standard", "system", "ada", "interfaces"] {
            self.predefine(text, Meaning::Package)?;
        }
        for text in [
            "string",
            "float",
            "long_float",
            "duration",
            "time",
            "unbounded_string",
            "task_id",
        ] {
            self.predefine(text, Meaning::Unread(None))?;
        }
        Ok(())
    }

    /// The exceptions of package Standard and Assertion_Error (A.1, 11.4.2).
    fn predefine_exceptions(&mut self) -> Result<(), Stop> {
        for (text, number) in [
            ("constraint_error", CONSTRAINT_ERROR),
            ("program_error", PROGRAM_ERROR),
            ("storage_error", STORAGE_ERROR),
            ("tasking_error", TASKING_ERROR),
            ("assertion_error", ASSERTION_ERROR),
        ] {
            self.predefine(text, Meaning::Exception(number))?;
        }
        Ok(())
    }

    /// The predefined names that the subset has.
    pub fn predefine_all(&mut self) -> Result<(), Stop> {
        self.predefine_types()?;
        self.predefine_subtypes()?;
        self.predefine_others()?;
        self.predefine_exceptions()
    }
}
