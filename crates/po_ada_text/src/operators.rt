// SPDX-License-Identifier: MIT
//! The operators of expressions, and how tight they bind (4.5).

ghost use Rattle.std.specs.Prelude.{◌≤◌};

use crate::lexer::Element;
use crate::sign::Sign;
use po_ada_tree::reserved::Reserved;
use po_ada_tree::tree::{Attribute, Infix, Prefix};

/// A conditional or quantified expression, after which no operator comes (4.5.7, 4.5.8).
pub const CONDITIONAL: u32 = 0;
/// Operands of `and`, `or`, `xor` with these operators between them (4.5(4)).
pub const LOGICAL: u32 = 1;
/// Relations and membership tests.
pub const RELATION: u32 = 2;
/// `+`, `-`, `&`, also before an operand.
pub const SUM: u32 = 3;
/// `*`, `/`, `mod`, `rem`.
pub const PRODUCT: u32 = 4;
/// `**`; `abs` and `not` before an operand bind as tight.
pub const POWER: u32 = 5;
/// A primary, with no operator.
pub const PRIMARY: u32 = 6;

/// Each attribute of the subset and its name, but for `Range`, which is a reserved word.
pub const ATTRIBUTES: [(&str, Attribute); 14] = [
    ("count", Attribute::Count),
    ("first", Attribute::First),
    ("image", Attribute::Image),
    ("last", Attribute::Last),
    ("length", Attribute::Length),
    ("max", Attribute::Max),
    ("min", Attribute::Min),
    ("modulus", Attribute::Modulus),
    ("old", Attribute::Old),
    ("pos", Attribute::Pos),
    ("pred", Attribute::Pred),
    ("succ", Attribute::Succ),
    ("val", Attribute::Val),
    ("value", Attribute::Value),
];

/// An operator after an operand, or the words of a membership test.
#[derive(Clone, Copy, Debug, PartialEq, Eq)]
pub enum Operator {
    Infix(Infix),
    In,
    NotIn,
}

/// How tight an operator between two operands binds.
fn infix_precedence(infix: Infix) -> u32
    ensures { result ≤ 5 }
{
    match infix {
        Infix::And | Infix::AndThen | Infix::Or | Infix::OrElse | Infix::Xor => LOGICAL,
        Infix::Equal
        | Infix::Unequal
        | Infix::Less
        | Infix::AtMost
        | Infix::Greater
        | Infix::AtLeast => RELATION,
        Infix::Plus | Infix::Minus | Infix::Concatenate => SUM,
        Infix::Times | Infix::Divide | Infix::Mod | Infix::Rem => PRODUCT,
        Infix::Power => POWER,
    }
}

impl Operator {
    /// How tight the operator binds.
    pub fn precedence(self) -> u32
        ensures { result ≤ 5 }
    {
        match self {
            Operator::Infix(infix) => infix_precedence(infix),
            Operator::In | Operator::NotIn => RELATION,
        }
    }

    /// Whether the operator is two words.
    pub fn is_two_words(self) -> bool {
        matches!(
            self,
            Operator::Infix(Infix::AndThen) | Operator::Infix(Infix::OrElse) | Operator::NotIn
        )
    }
}

/// The operator that this sign is.
fn sign_operator(sign: Sign) -> Option<Infix> {
    match sign {
        Sign::Equal => Some(Infix::Equal),
        Sign::Unequal => Some(Infix::Unequal),
        Sign::Less => Some(Infix::Less),
        Sign::AtMost => Some(Infix::AtMost),
        Sign::Greater => Some(Infix::Greater),
        Sign::AtLeast => Some(Infix::AtLeast),
        Sign::Plus => Some(Infix::Plus),
        Sign::Minus => Some(Infix::Minus),
        Sign::Ampersand => Some(Infix::Concatenate),
        Sign::Star => Some(Infix::Times),
        Sign::Slash => Some(Infix::Divide),
        Sign::DoubleStar => Some(Infix::Power),
        _ => None,
    }
}

/// The operator that this word begins, before the element that comes after it.
fn word_operator(word: Reserved, after: Element) -> Option<Operator> {
    match (word, after) {
        (Reserved::And, Element::Reserved(Reserved::Then)) => Some(Operator::Infix(Infix::AndThen)),
        (Reserved::And, _) => Some(Operator::Infix(Infix::And)),
        (Reserved::Or, Element::Reserved(Reserved::Else)) => Some(Operator::Infix(Infix::OrElse)),
        (Reserved::Or, _) => Some(Operator::Infix(Infix::Or)),
        (Reserved::Xor, _) => Some(Operator::Infix(Infix::Xor)),
        (Reserved::Mod, _) => Some(Operator::Infix(Infix::Mod)),
        (Reserved::Rem, _) => Some(Operator::Infix(Infix::Rem)),
        (Reserved::In, _) => Some(Operator::In),
        (Reserved::Not, Element::Reserved(Reserved::In)) => Some(Operator::NotIn),
        _ => None,
    }
}

/// The operator that begins with this element, before the one that comes after it.
pub fn operator_at(element: Element, after: Element) -> Option<Operator> {
    match element {
        Element::Sign(sign) => sign_operator(sign).map(Operator::Infix),
        Element::Reserved(word) => word_operator(word, after),
        _ => None,
    }
}

/// The operator before an operand that this element is.
pub fn prefix_at(element: Element) -> Option<Prefix> {
    match element {
        Element::Sign(Sign::Minus) => Some(Prefix::Minus),
        Element::Sign(Sign::Plus) => Some(Prefix::Plus),
        Element::Reserved(Reserved::Abs) => Some(Prefix::Abs),
        Element::Reserved(Reserved::Not) => Some(Prefix::Not),
        _ => None,
    }
}

/// How tight the operators in the operand of a prefix bind at least.
pub fn operand_precedence(prefix: Prefix) -> u32
    ensures { result ≤ 6 }
{
    match prefix {
        Prefix::Plus | Prefix::Minus => PRODUCT,
        Prefix::Abs | Prefix::Not => PRIMARY,
    }
}

/// How tight an operator may bind that comes after the operand that begins with this element (4.4).
pub fn most_after(element: Element) -> u32 {
    match element {
        Element::Sign(Sign::Minus) | Element::Sign(Sign::Plus) => SUM,
        Element::Reserved(Reserved::Abs) | Element::Reserved(Reserved::Not) => PRODUCT,
        Element::Reserved(Reserved::Raise) => LOGICAL,
        Element::Reserved(Reserved::If)
        | Element::Reserved(Reserved::Case)
        | Element::Reserved(Reserved::For) => CONDITIONAL,
        _ => POWER,
    }
}

/// Why two operators, with an operand between them, can't stand in one expression without parentheses (4.4).
pub fn clash(before: Operator, operator: Operator) -> Option<&'static str> {
    if before.precedence() != operator.precedence() {
        return None;
    }
    match operator.precedence() {
        LOGICAL if before != operator => Some("different logical operators need parentheses (4.4)"),
        RELATION => Some("a relation can't be compared further: write parentheses, or 'and' (4.4)"),
        POWER => Some("a power of a power needs parentheses (4.4)"),
        _ => None,
    }
}
