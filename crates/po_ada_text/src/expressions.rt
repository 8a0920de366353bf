// SPDX-License-Identifier: MIT
//! Reads expressions (4.4). The functions call one another; `levels` says how much deeper they may.

use crate::lexer::Element;
use crate::nodes::Suffix;
use crate::operators::{
    ATTRIBUTES, CONDITIONAL, LOGICAL, Operator, RELATION, SUM, clash, most_after,
    operand_precedence, operator_at, prefix_at,
};
use crate::reader::{MOST_LEVELS, Reader};
use crate::sign::Sign;
use crate::statements::go_on;
use po_ada_tree::fault::Stop;
use po_ada_tree::reserved::Reserved;
use po_ada_tree::tree::{
    Arm, Association, Attribute, CaseArm, Choice, Expression, Form, Iteration, Name,
};

/// What a literal, `null` or `<>` is.
fn literal_form(element: Element) -> Option<Form> {
    match element {
        Element::Number(number) => Some(Form::Number(number)),
        Element::Text(from, to) => Some(Form::Text(from, to)),
        Element::Character(byte) => Some(Form::Character(byte)),
        Element::Reserved(Reserved::Null) => Some(Form::Null),
        Element::Sign(Sign::Anything) => Some(Form::Anything),
        _ => None,
    }
}

/// Why a primary can't begin with this element; nothing if no more than a value is missing.
fn no_value(element: Element) -> Option<&'static str> {
    match element {
        Element::Reserved(Reserved::If)
        | Element::Reserved(Reserved::Case)
        | Element::Reserved(Reserved::For) => Some(
            "a conditional or quantified expression stands in parentheses (4.5.7, 4.5.8)",
        ),
        Element::Reserved(Reserved::New) => Some(
            "allocators aren't in this subset: a protected object has all its data in itself (4.8)",
        ),
        Element::Reserved(Reserved::Declare) => Some(
            "declare expressions aren't in this subset: write a function with a block (4.5.9)",
        ),
        Element::Real => Some(
            "real numbers aren't in this subset: take an integer type, as milliseconds",
        ),
        _ => None,
    }
}

/// Whether `others` is among these choices.
pub fn are_others(choices: &[Choice]) -> bool {
    choices
        .iter()
        .any(|choice| matches!(choice, Choice::Others(_)))
}

/// How a loop goes over a range or an array: the words before it (5.5, 5.5.2).
#[derive(Clone, Copy, Debug)]
struct Course {
    is_array: bool,
    reversed: bool,
}

impl<'a> Reader<'a> {
    /// The fault of what begins no primary.
    fn no_primary(&mut self) -> Stop {
        let place = self.place();
        match no_value(self.peek()) {
            Some(message) => self.refuse(place, message),
            None => self.expected("a value"),
        }
    }

    /// Reads a literal, `null` or `<>`.
    fn literal(&mut self) -> Result<Expression, Stop> {
        let place = self.place();
        let Some(form) = literal_form(self.peek()) else {
            return Err(self.no_primary());
        };
        self.step();
        self.node(place, 0, form)
    }

    /// The operator that comes next.
    fn operator(&self) -> Option<Operator> {
        operator_at(self.peek(), self.ahead(1))
    }

    /// Reads this operator, unless it can't stand in one expression with the one before it.
    fn takes_operator(&mut self, before: Option<Operator>, operator: Operator) -> Result<(), Stop> {
        let place = self.place();
        if let Some(message) = before.and_then(|before| clash(before, operator)) {
            return Err(self.refuse(place, message));
        }
        self.step();
        if operator.is_two_words() {
            self.step();
        }
        Ok(())
    }

    /// Whether a conditional or quantified expression comes next.
    fn sees_conditional(&self) -> bool {
        self.sees(Reserved::If) || self.sees(Reserved::Case) || self.sees(Reserved::For)
    }

    /// Reads an expression.
    pub fn expression(&mut self, levels: usize) -> Result<Expression, Stop> {
        if levels == 0 {
            let place = self.place();
            return Err(self.too_deep(place));
        }
        self.operation(LOGICAL, levels - 1)
    }

    /// Reads associations after a parenthesis, with the closing one.
    pub fn arguments(&mut self) -> Result<Vec<Association>, Stop> {
        self.associations(Sign::RightParenthesis, MOST_LEVELS)
    }

    /// Reads the choices of an alternative: `A | B .. C | others`.
    pub fn choice_list(&mut self) -> Result<Vec<Choice>, Stop> {
        self.choices(SUM, MOST_LEVELS)
    }

    /// Reads a discrete range (3.6.1).
    pub fn discrete_range(&mut self) -> Result<Choice, Stop> {
        self.choice(SUM, MOST_LEVELS)
    }

    /// Reads `in ..` or `of ..` of a loop (5.5, 5.5.2).
    pub fn iteration(&mut self) -> Result<Iteration, Stop> {
        let course = self.course()?;
        if course.is_array {
            let array = self.name_expression(MOST_LEVELS)?;
            return self.over_elements(course.reversed, array);
        }
        let range = self.discrete_range()?;
        self.over_range(course.reversed, range)
    }

    /// Reads `in` or `of`, and `reverse` if it comes next.
    fn course(&mut self) -> Result<Course, Stop> {
        let is_array = self.takes(Reserved::Of);
        if !is_array {
            self.needs(Reserved::In)?;
        }
        let reversed = self.takes(Reserved::Reverse);
        Ok(Course { is_array, reversed })
    }

    /// Reads operands with operators between them that bind at least this tight.
    #[cycle(operators)]
    fn operation(&mut self, least: u32, levels: usize) -> Result<Expression, Stop> {
        let mut most = most_after(self.peek());
        let mut before = None;
        let mut left = self.operand(least, levels)?;
        for _ in 0..self.turns() {
            let place = self.place();
            let Some(operator) = self.operator() else {
                break;
            };
            let precedence = operator.precedence();
            if precedence < least || precedence > most {
                break;
            }
            self.takes_operator(before, operator)?;
            if let Operator::Infix(infix) = operator {
                let right = self.operation(precedence + 1, levels)?;
                left = self.infix(place, infix, left, right)?;
            } else {
                let choices = self.choices(SUM, levels)?;
                left = self.membership(place, operator == Operator::NotIn, left, choices)?;
            }
            before = Some(operator);
            most = precedence;
        }
        Ok(left)
    }

    /// Reads an operand, with an operator before it if it may stand there.
    #[cycle(operators)]
    fn operand(&mut self, least: u32, levels: usize) -> Result<Expression, Stop> {
        let place = self.place();
        if let Some(prefix) = prefix_at(self.peek()) {
            let tight = operand_precedence(prefix);
            if least < tight {
                self.step();
                let operand = self.operation(tight, levels)?;
                return self.prefix(place, prefix, operand);
            }
        }
        match self.peek() {
            Element::Sign(Sign::LeftParenthesis) => {
                self.step();
                let list = self.associations(Sign::RightParenthesis, levels)?;
                self.enclosed(place, list)
            }
            Element::Sign(Sign::LeftBracket) => {
                self.step();
                let list = self.associations(Sign::RightBracket, levels)?;
                self.aggregate(place, list)
            }
            Element::Sign(Sign::At) | Element::Name(_) => self.name_expression(levels),
            Element::Reserved(word) => self.worded(word, least, levels),
            _ => self.literal(),
        }
    }

    /// Reads an operand that begins with this word. After `raise` this is a raise expression (11.3).
    #[cycle(operators)]
    fn worded(&mut self, word: Reserved, least: u32, levels: usize) -> Result<Expression, Stop> {
        match word {
            Reserved::Raise if least <= RELATION => {
                let place = self.place();
                self.step();
                let exception = self.name_expression(levels)?;
                if !self.takes(Reserved::With) {
                    return self.raise_form(place, exception);
                }
                let message = self.operation(SUM, levels)?;
                self.raise_with_form(place, exception, message)
            }
            Reserved::If if least == CONDITIONAL => self.if_expression(levels),
            Reserved::Case if least == CONDITIONAL => self.case_expression(levels),
            Reserved::For if least == CONDITIONAL => self.quantified(levels),
            _ => self.literal(),
        }
    }

    /// Reads an if expression (4.5.7).
    #[cycle(operators)]
    fn if_expression(&mut self, levels: usize) -> Result<Expression, Stop> {
        let place = self.place();
        let mut arms = Vec::new(self.alloc);
        for _ in 0..self.turns() {
            let word = if arms.is_empty() {
                Reserved::If
            } else {
                Reserved::Elsif
            };
            if !self.takes(word) {
                break;
            }
            let condition = self.operation(LOGICAL, levels)?;
            self.needs(Reserved::Then)?;
            let value = self.operation(LOGICAL, levels)?;
            arms.push(Arm { condition, value })?;
        }
        if !self.takes(Reserved::Else) {
            return self.if_form(place, arms);
        }
        let otherwise = self.operation(LOGICAL, levels)?;
        self.if_else_form(place, arms, otherwise)
    }

    /// Reads a case expression (4.5.7).
    #[cycle(operators)]
    fn case_expression(&mut self, levels: usize) -> Result<Expression, Stop> {
        let start = self.place();
        self.step();
        let subject = self.operation(LOGICAL, levels)?;
        self.needs(Reserved::Is)?;
        let mut arms = Vec::new(self.alloc);
        for _ in 0..self.turns() {
            let place = self.place();
            self.needs(Reserved::When)?;
            let choices = self.choices(SUM, levels)?;
            self.needs_sign(Sign::Arrow)?;
            let value = self.operation(LOGICAL, levels)?;
            let is_others = are_others(choices.as_slice());
            arms.push(CaseArm {
                place,
                choices,
                value,
            })?;
            if !self.takes_sign(Sign::Comma) {
                break;
            }
            self.needs_last(is_others)?;
        }
        self.case_form(start, subject, arms)
    }

    /// Reads `all` or `some`, and says whether it is `all`.
    fn quantifier(&mut self) -> Result<bool, Stop> {
        let is_all = self.takes(Reserved::All);
        if !is_all && !self.takes(Reserved::Some) {
            return Err(self.expected(
                "'all' or 'some': iterated component associations aren't in this subset (4.3.5)",
            ));
        }
        Ok(is_all)
    }

    /// Reads a quantified expression (4.5.8).
    #[cycle(operators)]
    fn quantified(&mut self, levels: usize) -> Result<Expression, Stop> {
        let place = self.place();
        self.step();
        let is_all = self.quantifier()?;
        let name = self.name("the name of a loop parameter")?;
        let course = self.course()?;
        let iteration = if course.is_array {
            let array = self.name_expression(levels)?;
            self.over_elements(course.reversed, array)?
        } else {
            let range = self.choice(SUM, levels)?;
            self.over_range(course.reversed, range)?
        };
        self.needs_sign(Sign::Arrow)?;
        let condition = self.operation(LOGICAL, levels)?;
        self.quantified_form(place, is_all, name, iteration, condition)
    }

    /// Tells a fault if a part can't come after the part before it: after `others` none can, and after one with a name none without
    /// (4.3.1, 4.3.3, 6.4).
    fn needs_order(&mut self, list: &[Association], next: &Association) -> Result<(), Stop> {
        let Some(before) = list.last() else {
            return Ok(());
        };
        if are_others(before.choices.as_slice()) {
            return go_on(self.refuse(next.place, "'others' comes last (4.3.1, 4.3.3)"));
        }
        if !before.choices.is_empty() && next.choices.is_empty() {
            return go_on(self.refuse(
                next.place,
                "a part without a name comes before those that have one (4.3.1, 6.4)",
            ));
        }
        Ok(())
    }

    /// Tells a fault if one more alternative, arm or handler comes after that of `others` (5.4, 11.2).
    pub fn needs_last(&mut self, is_others: bool) -> Result<(), Stop> {
        if !is_others || !self.sees(Reserved::When) {
            return Ok(());
        }
        let place = self.place();
        go_on(self.refuse(place, "'when others' comes last (5.4, 11.2)"))
    }

    /// Tells a fault if `others` stands beside other choices (3.8.1).
    fn needs_alone(&mut self, place: usize, choices: &[Choice]) -> Result<(), Stop> {
        if choices.len() < 2 || !are_others(choices) {
            return Ok(());
        }
        go_on(self.refuse(
            place,
            "'others' stands alone, without other choices (3.8.1)",
        ))
    }

    /// Reads associations up to the sign that closes them: an expression, `A | B => ..`, or a conditional or quantified
    /// expression without parentheses of its own.
    #[cycle(operators)]
    fn associations(&mut self, closing: Sign, levels: usize) -> Result<Vec<Association>, Stop> {
        let mut list = Vec::new(self.alloc);
        for _ in 0..self.turns() {
            let place = self.place();
            let mut choices = Vec::new(self.alloc);
            if levels == 0 {
                return Err(self.too_deep(place));
            }
            if !self.sees_conditional() {
                choices = self.choices(LOGICAL, levels)?;
            }
            let association = if choices.is_empty() || self.takes_sign(Sign::Arrow) {
                let value = self.operation(CONDITIONAL, levels - 1)?;
                Association {
                    place,
                    choices,
                    value,
                }
            } else {
                self.unnamed(place, choices)?
            };
            self.needs_order(list.as_slice(), &association)?;
            list.push(association)?;
            if !self.takes_sign(Sign::Comma) {
                break;
            }
        }
        self.needs_sign(closing)?;
        Ok(list)
    }

    /// Reads choices, whose first expressions have operators of this precedence: `A | B .. C | others`.
    #[cycle(operators)]
    fn choices(&mut self, least: u32, levels: usize) -> Result<Vec<Choice>, Stop> {
        let place = self.place();
        let mut list = Vec::new(self.alloc);
        for _ in 0..self.turns() {
            list.push(self.choice(least, levels)?)?;
            if !self.takes_sign(Sign::Bar) {
                break;
            }
        }
        self.needs_alone(place, list.as_slice())?;
        Ok(list)
    }

    /// Reads a choice, whose first expression has operators of this precedence.
    #[cycle(operators)]
    fn choice(&mut self, least: u32, levels: usize) -> Result<Choice, Stop> {
        let place = self.place();
        if self.takes(Reserved::Others) {
            return Ok(Choice::Others(place));
        }
        if levels == 0 {
            return Err(self.too_deep(place));
        }
        let first = self.operation(least, levels - 1)?;
        if self.takes_sign(Sign::DoubleDot) {
            let high = self.operation(SUM, levels - 1)?;
            return Ok(Choice::Range(first, high));
        }
        if self.takes(Reserved::Range) {
            let low = self.operation(SUM, levels - 1)?;
            self.needs_sign(Sign::DoubleDot)?;
            let high = self.operation(SUM, levels - 1)?;
            return Ok(Choice::Constrained(first, low, high));
        }
        Ok(Choice::Value(first))
    }

    /// Reads a name with what comes after it: `A.B (C) (D)'E` (4.1).
    #[cycle(operators)]
    pub fn name_expression(&mut self, levels: usize) -> Result<Expression, Stop> {
        let mut name = self.simple_name()?;
        for _ in 0..self.turns() {
            let Some(suffix) = self.suffix()? else {
                break;
            };
            let place = self.place();
            let mut list = Vec::new(self.alloc);
            if self.begins_list(suffix) {
                self.step();
                list = self.associations(Sign::RightParenthesis, levels)?;
            }
            name = self.with_suffix(name, suffix, place, list)?;
        }
        Ok(name)
    }

    /// Reads a name with nothing after it, or `@`.
    fn simple_name(&mut self) -> Result<Expression, Stop> {
        let place = self.place();
        if self.takes_sign(Sign::At) {
            return self.node(place, 0, Form::Target);
        }
        let number = self.name("a name")?.number;
        self.node(place, 0, Form::Name(number))
    }

    /// Reads what comes after a name, up to its list.
    fn suffix(&mut self) -> Result<Option<Suffix>, Stop> {
        let place = self.place();
        if self.takes_sign(Sign::Dot) {
            return Ok(Some(Suffix::Component(self.component()?)));
        }
        if self.sees_sign(Sign::LeftParenthesis) {
            return Ok(Some(Suffix::List));
        }
        if !self.takes_sign(Sign::Tick) {
            return Ok(None);
        }
        if self.sees_sign(Sign::LeftParenthesis) {
            return Ok(Some(Suffix::Operand));
        }
        Ok(Some(Suffix::Attribute(self.attribute_name(place)?)))
    }

    /// Whether a list comes next that belongs to this.
    fn begins_list(&self, suffix: Suffix) -> bool {
        !matches!(suffix, Suffix::Component(_)) && self.sees_sign(Sign::LeftParenthesis)
    }

    /// Reads the component after a point.
    fn component(&mut self) -> Result<Name, Stop> {
        if self.sees(Reserved::All) {
            let place = self.place();
            return Err(self.refuse(
                place,
                "access types aren't in this subset: '.all' has no meaning (3.10)",
            ));
        }
        self.name("a name")
    }

    /// The attribute whose name comes next.
    fn attribute(&self, place: usize) -> Option<Attribute> {
        let Element::Name(number) = self.peek() else {
            return None;
        };
        let name = Name { number, place };
        for (text, attribute) in ATTRIBUTES.iter() {
            if self.is_spelled(name, *text) {
                return Some(*attribute);
            }
        }
        None
    }

    /// Reads the name of an attribute.
    fn attribute_name(&mut self, place: usize) -> Result<Attribute, Stop> {
        if self.takes(Reserved::Range) {
            return Ok(Attribute::Range);
        }
        let Some(attribute) = self.attribute(place) else {
            return Err(self.expected(
                "an attribute of this subset (Count, First, Image, Last, Length, Max, Min, Modulus, Old, Pos, Pred, Range, Succ, Val, Value)",
            ));
        };
        self.step();
        Ok(attribute)
    }
}
