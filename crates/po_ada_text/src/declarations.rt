// SPDX-License-Identifier: MIT
//! Reads declarations of types, variables, constants and exceptions (3.1).

use crate::lexer::Element;
use crate::reader::{MOST_LEVELS, Reader};
use crate::sign::Sign;
use crate::statements::{before, both, go_on};
use po_ada_tree::fault::Stop;
use po_ada_tree::reserved::Reserved;
use po_ada_tree::tree::{
    ArrayIndex, Aspect, Choice, Declaration, Expression, Form, Name, TypeForm, Variables,
};

/// Aspects that change what a type's values are.
const MEANINGFUL: [&str; 5] = [
    "default_value",
    "default_component_value",
    "static_predicate",
    "dynamic_predicate",
    "type_invariant",
];

/// Why a type can't begin with this word; nothing if there is no more to say than what may stand there.
fn no_type(word: Reserved) -> Option<&'static str> {
    match word {
        Reserved::Null => Some("a null record isn't in this subset: it has no component (3.8)"),
        Reserved::Delta | Reserved::Digits => Some(
            "real types aren't in this subset: take an integer type, as milliseconds (3.5.6)",
        ),
        Reserved::Access | Reserved::Not => Some("access types aren't in this subset (3.10)"),
        Reserved::Private => Some(
            "private types aren't in this subset: write the full declaration here (7.3)",
        ),
        Reserved::Tagged | Reserved::Abstract | Reserved::Interface => Some(
            "tagged types aren't in this subset: take a record (3.9)",
        ),
        Reserved::Limited | Reserved::Synchronized | Reserved::Task | Reserved::Protected => Some(
            "limited types and interfaces aren't in this subset (3.9.4, 7.5)",
        ),
        _ => None,
    }
}

impl<'a> Reader<'a> {
    /// Reads the name of a type or subtype, with the packages before it.
    pub fn subtype_mark(&mut self) -> Result<Expression, Stop> {
        let place = self.place();
        if self.takes(Reserved::Access) || self.sees(Reserved::Not) {
            return Err(self.refuse(place, "access types aren't in this subset (3.10)"));
        }
        if self.sees(Reserved::Array) {
            return Err(self.refuse(
                place,
                "an array without a type's name isn't in this subset: declare its type first (3.6)",
            ));
        }
        let number = self.name("the name of a type")?.number;
        let mut mark = Expression {
            place,
            height: 1,
            form: Form::Name(number),
        };
        for _ in 0..self.turns() {
            if !self.takes_sign(Sign::Dot) {
                break;
            }
            mark.form = Form::Name(self.name("the name of a type")?.number);
        }
        if self.takes_sign(Sign::Tick) {
            return Err(self.refuse(
                place,
                "an attribute as a type isn't in this subset: write the type's name (3.5)",
            ));
        }
        Ok(mark)
    }

    /// Reads declarations up to what begins none. After a fault, goes on after the next semicolon.
    pub fn declarations(&mut self) -> Result<Vec<Declaration>, Stop> {
        let mut list = Vec::new(self.alloc);
        for _ in 0..self.turns() {
            if !self.begins_declaration() {
                break;
            }
            match self.declaration() {
                Ok(Some(declaration)) => list.push(declaration)?,
                Ok(None) => {}
                Err(stop) => {
                    go_on(stop)?;
                    self.skip_semicolon();
                }
            }
        }
        Ok(list)
    }

    /// Whether a declaration comes next.
    pub fn begins_declaration(&self) -> bool {
        match self.peek() {
            Element::Name(_) => true,
            Element::Reserved(word) => matches!(
                word,
                Reserved::TypeWord
                    | Reserved::Subtype
                    | Reserved::Pragma
                    | Reserved::Use
                    | Reserved::With
                    | Reserved::For
            ),
            _ => false,
        }
    }

    /// Reads a declaration; none if it changes no meaning.
    pub fn declaration(&mut self) -> Result<Option<Declaration>, Stop> {
        match self.peek() {
            Element::Reserved(Reserved::TypeWord) => Ok(Some(self.type_declaration(false)?)),
            Element::Reserved(Reserved::Subtype) => Ok(Some(self.subtype_declaration()?)),
            Element::Reserved(Reserved::Pragma) => Ok(Some(Declaration::Pragma(self.pragma()?))),
            Element::Reserved(Reserved::For) => {
                self.representation()?;
                Ok(None)
            }
            Element::Name(_) => Ok(Some(self.variables_declaration()?)),
            _ => {
                self.skip_declaration();
                Ok(None)
            }
        }
    }

    /// Passes over a representation clause, which changes no meaning here (13.1).
    fn representation(&mut self) -> Result<(), Stop> {
        let place = self.place();
        if self.skip_to(Reserved::Record) {
            return Err(self.refuse(
                place,
                "a record representation clause isn't in this subset: leave it out (13.5.1)",
            ));
        }
        self.skip_semicolon();
        Ok(())
    }

    /// Reads `A, B : T := V;`, a named number or exceptions.
    fn variables_declaration(&mut self) -> Result<Declaration, Stop> {
        let names = self.name_list("a name")?;
        if !self.takes_sign(Sign::Colon) {
            return Err(self.no_colon(names.as_slice()));
        }
        if self.takes(Reserved::Exception) {
            let names = before(names, self.no_renaming())?;
            return before(Declaration::Exceptions(names), self.semicolon());
        }
        self.takes(Reserved::Aliased);
        let constant = self.takes(Reserved::Constant);
        if constant && self.takes_sign(Sign::Becomes) {
            let (names, value) = both(names, self.expression(MOST_LEVELS))?;
            return before(Declaration::Numbers(names, value), self.semicolon());
        }
        let variables = self.typed(names, constant)?;
        before(Declaration::Variables(variables), self.declaration_end())
    }

    /// The fault of names without a colon after them.
    fn no_colon(&mut self, names: &[Name]) -> Stop {
        match names {
            [only] => self.misspelled(*only, "':'"),
            _ => self.expected("':'"),
        }
    }

    /// Reads a subtype and a value for names.
    pub fn typed(&mut self, names: Vec<Name>, constant: bool) -> Result<Variables, Stop> {
        let (names, subtype) = both(names, self.subtype())?;
        let ((names, subtype), value) = both((names, subtype), self.value_of_variables())?;
        Ok(Variables {
            names,
            constant,
            subtype,
            value,
        })
    }

    /// Reads the initial value of variables, if they have one.
    fn value_of_variables(&mut self) -> Result<Option<Expression>, Stop> {
        self.no_renaming()?;
        self.initial_value()
    }

    /// Refuses a renaming.
    fn no_renaming(&mut self) -> Result<(), Stop> {
        if !self.sees(Reserved::Renames) {
            return Ok(());
        }
        let place = self.place();
        Err(self.refuse(
            place,
            "renaming isn't in this subset: use the first name (8.5)",
        ))
    }

    fn subtype_declaration(&mut self) -> Result<Declaration, Stop> {
        self.step();
        let name = self.name("a subtype's name")?;
        self.needs(Reserved::Is)?;
        let subtype = self.subtype()?;
        before(Declaration::Subtype(name, subtype), self.declaration_end())
    }

    /// Reads aspects that change no meaning, if they come next, and the semicolon of a declaration.
    fn declaration_end(&mut self) -> Result<(), Stop> {
        self.ignored_aspects()?;
        self.semicolon()
    }

    /// Reads a declaration of a type, or of a generic formal type.
    pub fn type_declaration(&mut self, is_formal: bool) -> Result<Declaration, Stop> {
        self.step();
        let name = self.name("a type's name")?;
        if self.sees_sign(Sign::LeftParenthesis) {
            let place = self.place();
            return Err(self.refuse(
                place,
                "a record with discriminants isn't in this subset: only the protected unit has them (3.7)",
            ));
        }
        self.needs(Reserved::Is)?;
        let form = if is_formal {
            self.formal_type()?
        } else {
            self.type_form()?
        };
        self.ignored_aspects()?;
        self.semicolon()?;
        Ok(Declaration::Type(name, form))
    }

    /// Reads what a generic formal type is: an integer is taken for it (12.5).
    fn formal_type(&mut self) -> Result<TypeForm, Stop> {
        let place = self.place();
        self.takes(Reserved::Limited);
        let is_class = self.takes(Reserved::Range) || self.takes(Reserved::Mod);
        if self.takes(Reserved::Private) || is_class && self.takes_sign(Sign::Anything) {
            return Ok(TypeForm::Formal);
        }
        if self.takes_sign(Sign::LeftParenthesis) && self.takes_sign(Sign::Anything) {
            self.needs_sign(Sign::RightParenthesis)?;
            return Ok(TypeForm::Formal);
        }
        Err(self.refuse(
            place,
            "this kind of generic formal type isn't in this subset: 'private', '(<>)', 'range <>' or 'mod <>' (12.5)",
        ))
    }

    /// Reads what a type is.
    fn type_form(&mut self) -> Result<TypeForm, Stop> {
        match self.peek() {
            Element::Reserved(Reserved::Range) => self.range_type(),
            Element::Reserved(Reserved::Mod) => {
                self.step();
                Ok(TypeForm::Modular(self.expression(MOST_LEVELS)?))
            }
            Element::Sign(Sign::LeftParenthesis) => self.enumeration(),
            Element::Reserved(Reserved::Array) => self.array_type(),
            Element::Reserved(Reserved::Record) => self.record_type(),
            Element::Reserved(Reserved::New) => self.derived_type(),
            Element::Reserved(word) => Err(self.no_type_form(no_type(word))),
            _ => Err(self.no_type_form(None)),
        }
    }

    /// The fault of what no type of the subset begins with.
    fn no_type_form(&mut self, message: Option<&str>) -> Stop {
        let place = self.place();
        match message {
            Some(message) => self.refuse(place, message),
            None => self.expected(
                "'range', 'mod', '(', 'array', 'record' or 'new': other types aren't in this subset",
            ),
        }
    }

    fn range_type(&mut self) -> Result<TypeForm, Stop> {
        self.step();
        match self.discrete_range()? {
            Choice::Range(low, high) => Ok(TypeForm::Range(low, high)),
            _ => Err(self.expected("'..' and an upper bound (3.5.4)")),
        }
    }

    fn enumeration(&mut self) -> Result<TypeForm, Stop> {
        self.step();
        if let Element::Character(_) = self.peek() {
            let place = self.place();
            return Err(self.refuse(
                place,
                "character literals of an enumeration type aren't in this subset: take names (3.5.1)",
            ));
        }
        let literals = self.name_list("the name of an enumeration literal")?;
        self.needs_sign(Sign::RightParenthesis)?;
        Ok(TypeForm::Enumeration(literals))
    }

    fn derived_type(&mut self) -> Result<TypeForm, Stop> {
        self.step();
        let parent = self.subtype()?;
        if self.sees(Reserved::With) && self.ahead(1) == Element::Reserved(Reserved::Record) {
            let place = self.place();
            return Err(self.refuse(
                place,
                "tagged types aren't in this subset: take a record (3.9)",
            ));
        }
        Ok(TypeForm::Derived(parent))
    }

    fn array_type(&mut self) -> Result<TypeForm, Stop> {
        self.step();
        self.needs_sign(Sign::LeftParenthesis)?;
        let mut indices = Vec::new(self.alloc);
        for _ in 0..self.turns() {
            indices.push(self.array_index()?)?;
            if !self.takes_sign(Sign::Comma) {
                break;
            }
        }
        self.needs_sign(Sign::RightParenthesis)?;
        self.needs(Reserved::Of)?;
        self.takes(Reserved::Aliased);
        let element = self.subtype()?;
        Ok(TypeForm::Array(indices, element))
    }

    /// Reads `T range <>` or a discrete range.
    fn array_index(&mut self) -> Result<ArrayIndex, Stop> {
        let is_open = matches!(self.peek(), Element::Name(_))
            && self.ahead(1) == Element::Reserved(Reserved::Range)
            && self.ahead(2) == Element::Sign(Sign::Anything);
        if !is_open {
            return Ok(ArrayIndex::Constrained(self.discrete_range()?));
        }
        let mark = self.subtype_mark()?;
        self.step();
        self.step();
        Ok(ArrayIndex::Open(mark))
    }

    fn record_type(&mut self) -> Result<TypeForm, Stop> {
        self.step();
        let mut components = Vec::new(self.alloc);
        for _ in 0..self.turns() {
            if self.takes(Reserved::End) {
                break;
            }
            components.push(self.components()?)?;
        }
        self.needs(Reserved::Record)?;
        Ok(TypeForm::Record(components))
    }

    /// Reads components with one subtype.
    fn components(&mut self) -> Result<Variables, Stop> {
        if self.sees(Reserved::Case) {
            let place = self.place();
            return Err(self.refuse(
                place,
                "variant parts aren't in this subset: a record has all its components (3.8.1)",
            ));
        }
        let names = self.name_list("a component's name")?;
        self.needs_sign(Sign::Colon)?;
        self.takes(Reserved::Aliased);
        let variables = self.typed(names, false)?;
        self.semicolon()?;
        Ok(variables)
    }

    /// Reads aspects after `with`, if they come next (13.1.1).
    pub fn aspects(&mut self) -> Result<Vec<Aspect>, Stop> {
        let mut list = Vec::new(self.alloc);
        if !self.takes(Reserved::With) {
            return Ok(list);
        }
        for _ in 0..self.turns() {
            let name = self.name("an aspect's name")?;
            let mut value = None;
            if self.takes_sign(Sign::Arrow) {
                value = Some(self.expression(MOST_LEVELS)?);
            }
            list.push(Aspect { name, value })?;
            if !self.takes_sign(Sign::Comma) {
                break;
            }
        }
        Ok(list)
    }

    /// Whether the aspect changes what values a type has.
    fn is_meaningful(&self, name: Name) -> bool {
        MEANINGFUL.iter().any(|text| self.is_spelled(name, *text))
    }

    /// Passes over aspects that change no meaning, and refuses others.
    pub fn ignored_aspects(&mut self) -> Result<(), Stop> {
        for aspect in self.aspects()? {
            if self.is_meaningful(aspect.name) {
                return Err(self.refuse(
                    aspect.name.place,
                    "this aspect isn't in this subset: give each variable its value, and test with pragma Assert (3.2.4, 3.5)",
                ));
            }
        }
        Ok(())
    }
}
