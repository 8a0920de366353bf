// SPDX-License-Identifier: MIT
//! Goes over the tree of a text in the order in which it is executed. What is still to be visited is on an agenda.

use crate::entities::{Entity, Sort};
use crate::paths::Paths;
use crate::uses::{Facts, How, Part, Use};
use po_ada_tree::Names;
use po_ada_tree::tree::{Choice, Declaration, Expression, Form, Name, Statement, Variables};
use std::alloc::{AllocError, Global};

/// Something that is to be done.
#[derive(Clone, Copy)]
pub enum Task<'a> {
    Expression(&'a Expression, How),
    Choice(&'a Choice),
    Statement(&'a Statement),
    Declaration(&'a Declaration),
    /// Names of variables get their meaning.
    Variables(&'a Variables, Sort),
    /// A loop parameter gets its meaning; it may stand for the components of an array.
    LoopName(Name, Option<usize>),
    /// A loop begins: its name, its place, and whether it has neither `while` nor `for`.
    OpenLoop(Option<Name>, usize, bool),
    CloseLoop,
    /// The way of execution parts into several.
    Fork,
    /// One of these ways has come to its end.
    Merge,
    /// All of them have: they go on as one.
    Close,
    /// Nothing after this is executed.
    End,
    /// Names that were declared after this many others lose their meaning.
    Leave(usize),
}

/// What a name meant before a declaration hid it (8.3).
#[derive(Clone, Copy)]
struct Hidden {
    name: u32,
    meaning: Option<usize>,
}

/// A text that is gone over.
#[derive(Drop)]
pub struct Walker<'a> {
    pub alloc: Global,
    pub names: &'a Names,
    pub facts: Facts<'a>,
    pub paths: Paths,
    pub part: Part,
    /// What variables that are declared now are.
    pub variable_sort: Sort,
    /// The variable that an assignment changes.
    pub target: Option<usize>,
    /// What comes next, in order.
    pub next: Vec<Task<'a>>,
    agenda: Vec<Task<'a>>,
    meanings: Vec<Option<usize>>,
    hidden: Vec<Hidden>,
    outside: Vec<Option<usize>>,
}

impl<'a> Walker<'a> {
    pub fn new(alloc: Global, names: &'a Names) -> Walker<'a> {
        Walker {
            alloc,
            names,
            facts: Facts {
                entities: Vec::new(alloc),
                operations: Vec::new(alloc),
                uses: Vec::new(alloc),
                loops: Vec::new(alloc),
                open_ends: Vec::new(alloc),
                has_unread: false,
            },
            paths: Paths::new(alloc),
            part: Part::Elsewhere,
            variable_sort: Sort::Outer,
            target: None,
            next: Vec::new(alloc),
            agenda: Vec::new(alloc),
            meanings: Vec::new(alloc),
            hidden: Vec::new(alloc),
            outside: Vec::new(alloc),
        }
    }

    /// How many names have been hidden.
    pub fn mark(&self) -> usize {
        self.hidden.len()
    }

    /// Gives a name a meaning, or none.
    fn set_meaning(&mut self, name: u32, meaning: Option<usize>) {
        if let Some(slot) = self.meanings.get_mut(name as usize) {
            *slot = meaning;
        }
    }

    /// What a name means here.
    pub fn look_up(&self, name: u32) -> Option<usize> {
        self.meanings.get(name as usize).copied().flatten()
    }

    /// What a name means outside of operations.
    pub fn look_up_outside(&self, name: u32) -> Option<usize> {
        self.outside.get(name as usize).copied().flatten()
    }

    /// From here on names after a package or a unit mean what they mean now.
    pub fn keep_meanings(&mut self) -> Result<(), AllocError> {
        self.outside = self.meanings.clone()?;
        Ok(())
    }

    /// Declares something, which hides what had its name.
    pub fn define(&mut self, entity: Entity) -> Result<usize, AllocError> {
        let number = self.facts.entities.len();
        self.facts.entities.push(entity)?;
        let name = entity.name.number;
        let meaning = self.look_up(name);
        self.hidden.push(Hidden { name, meaning })?;
        self.make_room(name)?;
        self.set_meaning(name, Some(number));
        Ok(number)
    }

    /// Makes room for the meaning of this name.
    fn make_room(&mut self, name: u32) -> Result<(), AllocError> {
        let known = self.meanings.len();
        for _ in known..(name as usize).saturating_add(1) {
            self.meanings.push(None)?;
        }
        Ok(())
    }

    /// Declares a name of this sort.
    pub fn define_name(&mut self, name: Name, sort: Sort) -> Result<usize, AllocError> {
        let loops = self.paths.loops();
        self.define(Entity {
            name,
            sort,
            is_bare: false,
            loops,
            array: None,
        })
    }

    /// Names that were declared after the mark lose their meaning.
    pub fn leave(&mut self, mark: usize) {
        for _ in mark..self.hidden.len() {
            if let Some(last) = self.hidden.pop() {
                self.set_meaning(last.name, last.meaning);
            }
        }
    }

    /// What the entity of this number is.
    pub fn sort_of(&self, entity: Option<usize>) -> Option<Sort> {
        match self.facts.entities.get(entity?) {
            Some(found) => Some(found.sort),
            None => None,
        }
    }

    /// Whether the expression names a package or a protected unit.
    pub fn is_package(&self, prefix: &Expression) -> bool {
        let entity = match &prefix.form {
            Form::Name(name) => self.look_up(*name),
            Form::Selected(_, name) => self.look_up_outside(name.number),
            _ => None,
        };
        self.sort_of(entity) == Some(Sort::Package)
    }

    /// What a name means that may stand after its package or unit.
    pub fn denoted(&self, expression: &Expression) -> Option<usize> {
        match &expression.form {
            Form::Name(name) => self.look_up(*name),
            Form::Selected(prefix, name) if self.is_package(prefix) => self.look_up_outside(
                name.number,
            ),
            _ => None,
        }
    }

    /// Notes a use.
    pub fn note(
        &mut self,
        entity: Option<usize>,
        place: usize,
        how: How,
    ) -> Result<(), AllocError> {
        self.facts.uses.push(Use {
            part: self.part,
            entity,
            how,
            place,
            loops: self.paths.loops(),
            within: self.paths.innermost(),
        })?;
        Ok(())
    }

    /// Puts what comes next on the agenda, the first of it on top.
    fn schedule(&mut self) -> Result<(), AllocError> {
        for _ in 0..self.next.len() {
            if let Some(task) = self.next.pop() {
                self.agenda.push(task)?;
            }
        }
        Ok(())
    }

    /// Does all that comes next, and what comes of it.
    pub fn run(&mut self) -> Result<(), AllocError> {
        self.schedule()?;
        for _ in 0..u64::MAX {
            let Some(task) = self.agenda.pop() else {
                break;
            };
            self.perform(task)?;
            self.schedule()?;
        }
        Ok(())
    }

    /// Does one thing.
    fn perform(&mut self, task: Task<'a>) -> Result<(), AllocError> {
        match task {
            Task::Expression(expression, how) => self.expression(expression, how),
            Task::Choice(choice) => self.choice(choice),
            Task::Statement(statement) => self.statement(statement),
            Task::Declaration(declaration) => self.declaration(declaration),
            Task::Variables(variables, sort) => self.define_variables(variables, sort),
            Task::LoopName(name, array) => self.define_loop_name(name, array),
            Task::OpenLoop(name, place, is_endless) => self.open_loop(name, place, is_endless),
            Task::Leave(mark) => {
                self.leave(mark);
                Ok(())
            }
            other => self.go(other),
        }
    }

    /// Goes a step on the ways through the statements.
    fn go(&mut self, task: Task<'a>) -> Result<(), AllocError> {
        match task {
            Task::CloseLoop => self.paths.close_loop(),
            Task::Fork => self.paths.fork()?,
            Task::Merge => self.paths.merge(),
            Task::Close => self.paths.close(),
            Task::End => self.paths.end(),
            _ => {}
        }
        Ok(())
    }
}
