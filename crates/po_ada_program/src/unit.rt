// SPDX-License-Identifier: MIT
//! Reads a protected unit and its operations (9.4), and makes its program.

use crate::making::{FIRST_LOCAL, Making};
use po_ada_tree::Stop;
use po_ada_tree::tree::{
    Body, Content, Declaration, Expression, Item, Kind, Mode, Name, Parameters, Part, Profile,
    Protected, ProtectedBody, Variables,
};
use po_ada_types::{Meaning, Sub, Variable};
use po_ada_values::{Declared, LEVELS, Parameter, body_number, sequence, slot_cell};
use po_program::{ASSERTION_ERROR, Area, Entry, Operation, Program, Stmt};
use std::mem;

/// A call carries at most this many parameters.
pub const MOST_PARAMETERS: usize = 8;
/// An object has at most this many entries.
const MOST_ENTRIES: u16 = 4_096;

impl<'a> Making<'a> {
    /// The meaning of a text's items, up to the body of the protected unit, and of the operations in the same package after it.
    pub fn items(
        &mut self,
        items: &'a [Item],
        wanted: Name,
        values: &'a [i128],
    ) -> Result<(), Stop> {
        let mut is_made = false;
        for item in items {
            let done = match item {
                Item::Package(_) if is_made => return Ok(()),
                Item::Operation(body) if is_made => self.later_body(body),
                _ if is_made => Ok(()),
                Item::ProtectedBody(body) if body.name.number == wanted.number => {
                    is_made = true;
                    self.bodies(body)
                }
                other => self.item(other, wanted, values),
            };
            self.keep_on(done)?;
        }
        if is_made {
            return Ok(());
        }
        Err(
            self.lowering.known.refuse_name(
                wanted.place,
                "the protected unit ",
                wanted.number,
                " has no body (9.4)",
            ),
        )
    }

    /// A fault doesn't end reading; want of memory does.
    pub fn keep_on(&self, done: Result<(), Stop>) -> Result<(), Stop> {
        match done {
            Err(Stop::OutOfMemory) => Err(Stop::OutOfMemory),
            _ => Ok(()),
        }
    }

    /// The meaning of an item before the body of the protected unit. What stands after the unit hides none of its names (8.3).
    pub fn item(&mut self, item: &'a Item, wanted: Name, values: &'a [i128]) -> Result<(), Stop> {
        let (inner, from) = (self.lowering.outside, self.lowering.known.scope.len());
        let done = self.any_item(item, wanted, values);
        if inner > 0 {
            self.lowering.outside = self.lowering.known.lower(inner, from)?;
        }
        done
    }

    /// The meaning of an item.
    fn any_item(&mut self, item: &'a Item, wanted: Name, values: &'a [i128]) -> Result<(), Stop> {
        match item {
            Item::Package(name) => self.lowering.known.define(*name, Meaning::Package),
            Item::Declaration(Declaration::Variables(variables)) if !variables.constant =>
                self.outer_variables(variables),
            Item::Declaration(declaration) => self.outer_declared(declaration),
            Item::Operation(body) => self.outer_operation(body),
            Item::Protected(unit) if unit.name.number == wanted.number => self.unit(unit, values),
            Item::Protected(unit) => self.lowering.known.define(unit.name, Meaning::Unread(None)),
            Item::ProtectedBody(_) => Ok(()),
            Item::Unread(unread) => self.lowering.known.define_unread(unread),
        }
    }

    /// Refuses a second operation of a name.
    pub fn two_of_one_name(&mut self, name: Name) -> Stop {
        self.lowering.known.refuse(
            name.place,
            "two operations of one name aren't in this subset: rename one (8.3)",
        )
    }

    /// The declaration of the protected unit (9.4).
    fn unit(&mut self, unit: &'a Protected, values: &'a [i128]) -> Result<(), Stop> {
        self.lowering.unit = Some(self.lowering.known.scope.len());
        self.lowering.known.define(unit.name, Meaning::Package)?;
        self.lowering.outside = self.lowering.known.scope.len();
        self.discriminants(unit, values)?;
        self.parts(unit.public.as_slice(), true)?;
        self.parts(unit.private.as_slice(), false)?;
        self.agree_on_limit()
    }

    /// The discriminants have values (3.7).
    fn discriminants(&mut self, unit: &'a Protected, values: &'a [i128]) -> Result<(), Stop> {
        let mut position = 0usize;
        for variables in unit.discriminants.iter() {
            let sub = self.subtype(&variables.subtype)?;
            for name in variables.names.iter() {
                let number = match (values.get(position), &variables.value) {
                    (Some(number), _) => *number,
                    (None, Some(default)) => self.lowering.fixed(default)?.0,
                    (None, None) => return Err(
                        self.lowering.known.refuse_name(
                            name.place,
                            "the discriminant ",
                            name.number,
                            " needs a value (3.7)",
                        ),
                    ),
                };
                if number < sub.low || number > sub.high {
                    return Err(
                        self.lowering.known.refuse_name(
                            name.place,
                            "the value of the discriminant ",
                            name.number,
                            " isn't in its range (3.7)",
                        ),
                    );
                }
                self.lowering
                    .known
                    .define(*name, Meaning::Number(number, sub.kind))?;
                position = position.saturating_add(1);
            }
        }
        if position < values.len() {
            return Err(
                self.lowering.known.refuse(
                    unit.name.place,
                    "there are more values than discriminants (3.7)",
                ),
            );
        }
        Ok(())
    }

    fn parts(&mut self, parts: &'a [Part], public: bool) -> Result<(), Stop> {
        for part in parts {
            let done = match part {
                Part::Operation(profile) => self.declare_or_fault(profile, public),
                Part::Declaration(Declaration::Pragma(pragma))
                    if self.is_queue_limit(pragma.name) => self.note_pragma(pragma),
                Part::Declaration(declaration) => self.declared(declaration, false),
            };
            self.keep_on(done)?;
        }
        Ok(())
    }

    /// The declaration of an operation. After a fault, its name is known, so that it causes no other fault.
    fn declare_or_fault(&mut self, profile: &'a Profile, public: bool) -> Result<(), Stop> {
        match self.declare(profile, public, false) {
            Ok(_) => Ok(()),
            Err(Stop::OutOfMemory) => Err(Stop::OutOfMemory),
            Err(Stop::Fault) => self.lowering.known.define(profile.name, Meaning::Faulty),
        }
    }

    /// The declaration of an operation; returns its number.
    pub fn declare(
        &mut self,
        profile: &'a Profile,
        public: bool,
        outside: bool,
    ) -> Result<usize, Stop> {
        if let Some(Meaning::Operation(_)) = self.lowering.known.look_up(profile.name.number) {
            return Err(self.two_of_one_name(profile.name));
        }
        self.admit_aspects(profile)?;
        let parameters = self.parameters(profile)?;
        let mut returns = None;
        if let Some(subtype) = &profile.returns {
            let sub = self.subtype(subtype)?;
            self.discrete(subtype.mark.place, sub)?;
            returns = Some(sub);
        }
        let mut family = None;
        if let Some(found) = &profile.family {
            family = Some(self.lowering.static_range(&found.range)?);
        }
        let entry = self.entries;
        if profile.kind == Kind::Entry {
            self.count_entries(profile.name.place, family)?;
            self.note_entry(profile)?;
        }
        let number = self.lowering.operations.len();
        if number >= 30_000 {
            return Err(
                self.lowering.known.refuse(
                    profile.name.place,
                    "an object has at most 30,000 operations",
                ),
            );
        }
        self.lowering.operations.push(Declared {
            profile,
            public,
            outside,
            parameters,
            returns,
            family,
            entry,
            body: None,
            used: false,
        })?;
        self.lowering
            .known
            .define(profile.name, Meaning::Operation(number))?;
        Ok(number)
    }

    /// One entry, or those of a family.
    fn count_entries(&mut self, place: usize, family: Option<Sub>) -> Result<(), Stop> {
        let count = match family {
            Some(sub) => po_ada_types::count(sub),
            None => 1,
        };
        let after = self.entries.saturating_add(count);
        if after > MOST_ENTRIES {
            return Err(
                self.lowering
                    .known
                    .refuse(place, "an object has at most 4,096 entries"),
            );
        }
        self.entries = after;
        Ok(())
    }

    fn discrete(&mut self, place: usize, sub: Sub) -> Result<(), Stop> {
        if self.lowering.known.is_discrete(sub.kind) {
            return Ok(());
        }
        Err(
            self.lowering.known.refuse(
                place,
                "a parameter or a result is of a discrete type here: arrays and records aren't in this subset",
            ),
        )
    }

    /// The parameters of an operation (6.1).
    fn parameters(&mut self, profile: &'a Profile) -> Result<Vec<Parameter<'a>>, Stop> {
        let mut list = Vec::new(self.lowering.known.alloc);
        for group in profile.parameters.iter() {
            let variables = &group.variables;
            let sub = self.subtype(&variables.subtype)?;
            self.discrete(variables.subtype.mark.place, sub)?;
            for name in variables.names.iter() {
                list.push(Parameter {
                    name: name.number,
                    mode: group.mode,
                    sub,
                    default: variables.value.as_ref(),
                })?;
            }
        }
        if list.len() > MOST_PARAMETERS {
            return Err(
                self.lowering.known.refuse(
                    profile.name.place,
                    "an operation has at most 8 parameters here",
                ),
            );
        }
        Ok(list)
    }

    /// The bodies of the protected unit belong to their declarations.
    fn bodies(&mut self, unit: &'a ProtectedBody) -> Result<(), Stop> {
        for body in unit.bodies.iter() {
            let done = self.attach(body);
            self.keep_on(done)?;
        }
        self.missing_bodies(false, " has no body")
    }

    /// A body belongs to its declaration, or declares an operation of the body alone.
    fn attach(&mut self, body: &'a Body) -> Result<(), Stop> {
        let name = body.profile.name;
        let number = match self.lowering.known.look_up(name.number) {
            Some(Meaning::Operation(number)) if !self.lowering.is_outside(number) => {
                let admitted = self.admit_body_aspects(&body.profile);
                self.keep_on(admitted)?;
                number
            }
            Some(Meaning::Faulty) => return Err(Stop::Fault),
            _ if body.profile.kind == Kind::Entry => {
                return Err(
                    self.lowering.known.refuse_name(
                        name.place,
                        "the declaration has no entry ",
                        name.number,
                        " (9.5.2)",
                    ),
                );
            }
            _ => self.declare(&body.profile, false, false)?,
        };
        if matches!(body.content, Content::Declared) {
            return Ok(());
        }
        self.conforms(number, &body.profile)?;
        let Some(declared) = self.lowering.operations.get_mut(number) else {
            return Ok(());
        };
        if declared.body.is_some() {
            return Err(
                self.lowering.known.refuse_name(
                    name.place,
                    "the operation ",
                    name.number,
                    " has a body already",
                ),
            );
        }
        declared.body = Some(body);
        Ok(())
    }

    /// The head of a body is as its declaration (6.3.1).
    fn conforms(&mut self, number: usize, profile: &'a Profile) -> Result<(), Stop> {
        let parameters = self.parameters(profile)?;
        let same = match self.lowering.operations.get(number) {
            Some(declared) => {
                declared.profile.kind == profile.kind
                    && declared.family.is_some() == profile.family.is_some()
                    && declared.parameters.len() == parameters.len()
                    && declared.parameters.iter().zip(parameters.iter()).all(|(a, b)| a.name
                        == b.name
                        && a.mode == b.mode
                        && a.sub == b.sub)
            }
            None => false,
        };
        if same {
            return Ok(());
        }
        Err(
            self.lowering.known.refuse(
                profile.name.place,
                "the head of this body differs from its declaration (6.3.1)",
            ),
        )
    }

    /// Refuses operations of the unit without a body, or those outside of it that are called.
    fn missing_bodies(&mut self, outside: bool, after: &str) -> Result<(), Stop> {
        for number in 0..self.lowering.operations.len() {
            let missing = match self.lowering.operations.get(number) {
                Some(declared)
                    if declared.body.is_none()
                        && declared.outside == outside
                        && (declared.used || !outside) => Some(declared.profile.name),
                _ => None,
            };
            if let Some(name) = missing {
                let stop = self
                    .lowering
                    .known
                    .refuse_name(name.place, "the operation ", name.number, after);
                self.keep_on(Err(stop))?;
            }
        }
        Ok(())
    }

    /// The frame of an operation is empty.
    pub fn begin_frame(&mut self, number: usize) {
        self.lowering.slots = FIRST_LOCAL;
        self.lowering.most_slots = FIRST_LOCAL;
        self.loops.truncate(0);
        self.current = Some(number);
        self.handled = None;
    }

    /// The index of a family, in slot 8.
    fn family_index(&mut self, profile: &'a Profile, family: Option<Sub>) -> Result<(), Stop> {
        let (Some(found), Some(sub)) = (&profile.family, family) else {
            return Ok(());
        };
        let Some(name) = found.name else {
            return Err(
                self.lowering.known.refuse(
                    profile.name.place,
                    "the index of a family has a name in its body: (for I in ..) (9.5.2)",
                ),
            );
        };
        let variable = Variable {
            area: Area::Frame,
            first: 8,
            distance: None,
            sub,
            constant: true,
        };
        self.lowering
            .known
            .define(name, Meaning::Variable(variable))
    }

    /// The parameters of a body, in slots from 0 on.
    pub fn body_parameters(&mut self, profile: &'a Profile) -> Result<(), Stop> {
        let mut slot = 0u16;
        for group in profile.parameters.iter() {
            slot = self.parameter_group(group, slot)?;
        }
        Ok(())
    }

    fn parameter_group(&mut self, group: &'a Parameters, first: u16) -> Result<u16, Stop> {
        let sub = self.subtype(&group.variables.subtype)?;
        let mut slot = first;
        for name in group.variables.names.iter() {
            let variable = Variable {
                area: Area::Frame,
                first: slot,
                distance: None,
                sub,
                constant: group.mode == Mode::In,
            };
            self.lowering
                .known
                .define(*name, Meaning::Variable(variable))?;
            slot = slot.saturating_add(1);
        }
        Ok(slot)
    }

    /// What a body does, as statements.
    fn content(&mut self, body: &'a Body, returns: Option<Sub>) -> Result<(), Stop> {
        match &body.content {
            Content::Declared => Ok(()),
            Content::Value(value) => {
                let Some(sub) = returns else {
                    return Err(
                        self.lowering
                            .known
                            .refuse(value.place, "only a function is an expression (6.8)"),
                    );
                };
                let result = self.lowering.value(value, LEVELS)?;
                let code = self.lowering.fit(value.place, result, sub)?;
                self.give_result(code)
            }
            Content::Statements(declarations, list) => {
                self.locals(declarations.as_slice())?;
                self.handled_sequence(list, LEVELS)?;
                if returns.is_some() {
                    return self.function_end();
                }
                Ok(())
            }
        }
    }

    /// What a body does, with its precondition before it and its postcondition after it (6.1.1). That of an entry isn't the body's.
    fn asserted_content(
        &mut self,
        number: usize,
        body: &'a Body,
        returns: Option<Sub>,
    ) -> Result<(), Stop> {
        if self.lowering.kind_of(number) != Kind::Entry {
            if let Some(condition) = self.aspect(number, "pre") {
                self.assertion(condition, ASSERTION_ERROR)?;
            }
        }
        match self.aspect(number, "post") {
            None => self.content(body, returns),
            Some(condition) => self.ensured_content(condition, body, returns),
        }
    }

    /// What a body does, and the check of its postcondition if it ends normally.
    fn ensured_content(
        &mut self,
        condition: &'a Expression,
        body: &'a Body,
        returns: Option<Sub>,
    ) -> Result<(), Stop> {
        let scope = self.lowering.known.scope.len();
        let slot = self.lowering.take_slots(condition.place, 1)?;
        let inner = self.left_content(slot, body, returns)?;
        self.lowering.known.scope.truncate(scope);
        let check = self.postcondition(condition);
        let alloc = self.lowering.known.alloc;
        let olds = mem::replace(&mut self.lowering.olds, Vec::new(alloc));
        let check = check?;
        self.lowering.emit_all(olds)?;
        let inner = self.lowering.boxed_statement(inner)?;
        self.lowering.emit(Stmt::Loop(inner))?;
        self.lowering.emit(check)?;
        if returns.is_none() {
            return Ok(());
        }
        self.lowering
            .emit(Stmt::Assign(Area::Frame, 0, slot_cell(slot)))
    }

    /// What a body does, as one turn of a loop that it leaves at its end; the result of a function is in the slot then.
    fn left_content(
        &mut self,
        slot: u16,
        body: &'a Body,
        returns: Option<Sub>,
    ) -> Result<Stmt, Stop> {
        let before = self.lowering.begin_list();
        self.has_postcondition = true;
        self.result_slot = slot;
        let made = self.content(body, returns);
        self.has_postcondition = false;
        self.result_slot = 0;
        self.lowering.emit(Stmt::Exit(0))?;
        let inner = self.lowering.end_sequence(before)?;
        made?;
        Ok(inner)
    }

    /// The check of a postcondition, whose values for 'Old are kept in slots that the body doesn't use.
    fn postcondition(&mut self, condition: &'a Expression) -> Result<Stmt, Stop> {
        self.lowering.slots = self.lowering.most_slots;
        self.lowering.in_postcondition = true;
        let before = self.lowering.begin_list();
        let made = self.assertion(condition, ASSERTION_ERROR);
        let check = self.lowering.end_sequence(before)?;
        self.lowering.in_postcondition = false;
        made?;
        Ok(check)
    }

    /// The operation of a body in the program.
    fn made_body(&mut self, number: usize, body: &'a Body) -> Result<Operation, Stop> {
        let (family, returns) = match self.lowering.operations.get(number) {
            Some(declared) => (declared.family, declared.returns),
            None => (None, None),
        };
        let scope = self.lowering.known.scope.len();
        self.begin_frame(number);
        let before = self.lowering.begin_list();
        let mut done = self.family_index(&body.profile, family);
        if done.is_ok() {
            done = self.body_parameters(&body.profile);
        }
        if done.is_ok() {
            done = self.asserted_content(number, body, returns);
        }
        self.ended_operation(scope, before, done)
    }

    /// The operation whose statements were made, which had a scope and a list of its own.
    pub fn ended_operation(
        &mut self,
        scope: usize,
        before: Vec<Stmt>,
        done: Result<(), Stop>,
    ) -> Result<Operation, Stop> {
        let made = self.lowering.end_sequence(before)?;
        self.lowering.known.scope.truncate(scope);
        self.keep_on(done)?;
        Ok(Operation {
            slots: self.lowering.most_slots,
            body: made,
        })
    }

    /// The operation of a barrier in the program: its value is in slot 0.
    fn made_barrier(&mut self, number: usize, body: &'a Body) -> Result<Operation, Stop> {
        let family = match self.lowering.operations.get(number) {
            Some(declared) => declared.family,
            None => None,
        };
        let scope = self.lowering.known.scope.len();
        self.begin_frame(number);
        let before = self.lowering.begin_list();
        let done = self.barrier_code(body, family);
        self.ended_operation(scope, before, done)
    }

    fn barrier_code(&mut self, body: &'a Body, family: Option<Sub>) -> Result<(), Stop> {
        let Some(barrier) = &body.barrier else {
            return Ok(());
        };
        self.family_index(&body.profile, family)?;
        self.hide_parameters(&body.profile)?;
        let test = self.lowering.condition(barrier)?;
        self.lowering.emit(Stmt::Assign(Area::Frame, 0, test))
    }

    /// The barrier doesn't use the parameters.
    fn hide_parameters(&mut self, profile: &'a Profile) -> Result<(), Stop> {
        for group in profile.parameters.iter() {
            for name in group.variables.names.iter() {
                self.lowering.known.define(*name, Meaning::Hidden)?;
            }
        }
        Ok(())
    }

    /// The statements that give the object's data their values.
    fn setup(&mut self) -> Result<Operation, Stop> {
        let alloc = self.lowering.known.alloc;
        let list = self.lowering.end_list(Vec::new(alloc));
        let slots = self.lowering.most_slots;
        Ok(Operation {
            slots,
            body: sequence(alloc, list)?,
        })
    }

    /// An operation that does nothing.
    fn nothing(&self) -> Operation {
        Operation {
            slots: FIRST_LOCAL,
            body: Stmt::Null,
        }
    }

    /// The program: operation 0 gives the data their values; then come the body and the barrier of each operation, and then the
    /// preconditions of entries.
    pub fn program(&mut self) -> Result<Program, Stop> {
        let mut operations = Vec::new(self.lowering.known.alloc);
        operations.push(self.setup()?)?;
        let preconditions = self.made_preconditions()?;
        let mut bodies = Vec::new(self.lowering.known.alloc);
        for number in 0..self.lowering.operations.len() {
            bodies.push(self.made_operation(number, false)?)?;
        }
        self.outer_bodies(&mut bodies)?;
        for made in bodies {
            let (body, barrier) = match made {
                Some(pair) => pair,
                None => (self.nothing(), self.nothing()),
            };
            operations.push(body)?;
            operations.push(barrier)?;
        }
        self.assembled(operations, preconditions)
    }

    /// Makes the bodies of the operations outside of the unit that are called, also by one another.
    fn outer_bodies(
        &mut self,
        bodies: &mut Vec<Option<(Operation, Operation)>>,
    ) -> Result<(), Stop> {
        for _ in 0..bodies.len() {
            if !self.more_outer_bodies(bodies)? {
                break;
            }
        }
        self.missing_bodies(true, " is called and has no body here")
    }

    /// Makes the bodies of the operations outside of the unit that are called so far: they see none of its names. Says whether there
    /// were more.
    fn more_outer_bodies(
        &mut self,
        bodies: &mut Vec<Option<(Operation, Operation)>>,
    ) -> Result<bool, Stop> {
        let mut more = false;
        for number in 0..bodies.len() {
            if matches!(bodies.get(number), Some(None)) {
                let outside = self.lowering.outside;
                let inner = self.lowering.hide_names(outside)?;
                let made = self.made_operation(number, true);
                self.lowering.show_names(inner)?;
                let made = made?;
                more = more || made.is_some();
                if let Some(found) = bodies.get_mut(number) {
                    *found = made;
                }
            }
        }
        Ok(more)
    }

    /// The body and the barrier of an operation; none of one outside of the unit that isn't called.
    fn made_operation(
        &mut self,
        number: usize,
        outside: bool,
    ) -> Result<Option<(Operation, Operation)>, Stop> {
        let body = match self.lowering.operations.get(number) {
            Some(declared) if declared.outside == outside && (declared.used || !outside) =>
                declared.body,
            _ => None,
        };
        match body {
            Some(body) => Ok(Some((
                self.made_body(number, body)?,
                self.made_barrier(number, body)?,
            ))),
            None => Ok(None),
        }
    }

    fn assembled(
        &mut self,
        operations: Vec<Operation>,
        preconditions: Vec<Operation>,
    ) -> Result<Program, Stop> {
        let mut operations = operations;
        let mut entries = Vec::new(self.lowering.known.alloc);
        let mut procedures = Vec::new(self.lowering.known.alloc);
        let mut functions = Vec::new(self.lowering.known.alloc);
        for number in 0..self.lowering.operations.len() {
            let Some(declared) = self.lowering.operations.get(number) else {
                break;
            };
            let body = body_number(number);
            match declared.profile.kind {
                Kind::Entry => {
                    let (low, count) = match declared.family {
                        Some(sub) => (sub.low, po_ada_types::count(sub)),
                        None => (0, 1),
                    };
                    for offset in 0..count {
                        entries.push(Entry {
                            barrier: body.saturating_add(1),
                            body,
                            index: low.saturating_add(i128::from(offset)),
                        })?;
                    }
                }
                Kind::Procedure if declared.public => procedures.push(body)?,
                Kind::Function if declared.public => functions.push(body)?,
                _ => {}
            }
        }
        for precondition in preconditions {
            functions.push(u16::try_from(operations.len()).unwrap_or(0))?;
            operations.push(precondition)?;
        }
        Ok(Program {
            cells: self.cells,
            operations,
            setup: 0,
            entries,
            procedures,
            functions,
        })
    }
}
