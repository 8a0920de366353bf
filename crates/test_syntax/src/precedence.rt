// SPDX-License-Identifier: MIT
//! How tight operators bind (4.5), and how operators and attributes are written.

use po_ada_tree::tree::{Attribute, Form, Infix, Prefix};

/// A conditional or quantified expression, which needs parentheses beside any operator.
pub const CONDITIONAL: u32 = 0;
/// `and`, `or`, `xor`.
pub const LOGICAL: u32 = 1;
/// Relations, membership tests and raise expressions.
pub const RELATION: u32 = 2;
/// `+`, `-`, `&`, also before an operand.
pub const SUM: u32 = 3;
/// `*`, `/`, `mod`, `rem`.
pub const PRODUCT: u32 = 4;
/// `**`; `abs` and `not` before an operand.
pub const POWER: u32 = 5;
/// A primary.
pub const PRIMARY: u32 = 6;

/// How an operator between two operands is written, and how tight it binds.
pub fn infix_text(infix: Infix) -> (&'static str, u32) {
    match infix {
        Infix::And => (" and ", LOGICAL),
        Infix::AndThen => (" and then ", LOGICAL),
        Infix::Or => (" or ", LOGICAL),
        Infix::OrElse => (" or else ", LOGICAL),
        Infix::Xor => (" xor ", LOGICAL),
        Infix::Equal => (" = ", RELATION),
        Infix::Unequal => (" /= ", RELATION),
        Infix::Less => (" < ", RELATION),
        Infix::AtMost => (" <= ", RELATION),
        Infix::Greater => (" > ", RELATION),
        Infix::AtLeast => (" >= ", RELATION),
        Infix::Plus => (" + ", SUM),
        Infix::Minus => (" - ", SUM),
        Infix::Concatenate => (" & ", SUM),
        Infix::Times => (" * ", PRODUCT),
        Infix::Divide => (" / ", PRODUCT),
        Infix::Mod => (" mod ", PRODUCT),
        Infix::Rem => (" rem ", PRODUCT),
        Infix::Power => (" ** ", POWER),
    }
}

/// How an operator before an operand is written, and how tight it binds.
pub fn prefix_text(prefix: Prefix) -> (&'static str, u32) {
    match prefix {
        Prefix::Plus => ("+ ", SUM),
        Prefix::Minus => ("- ", SUM),
        Prefix::Abs => ("abs ", POWER),
        Prefix::Not => ("not ", POWER),
    }
}

/// How the name of an attribute is written.
pub fn attribute_text(attribute: Attribute) -> &'static str {
    match attribute {
        Attribute::Count => "'Count",
        Attribute::First => "'First",
        Attribute::Image => "'Image",
        Attribute::Last => "'Last",
        Attribute::Length => "'Length",
        Attribute::Max => "'Max",
        Attribute::Min => "'Min",
        Attribute::Modulus => "'Modulus",
        Attribute::Old => "'Old",
        Attribute::Pos => "'Pos",
        Attribute::Pred => "'Pred",
        Attribute::Range => "'Range",
        Attribute::Succ => "'Succ",
        Attribute::Val => "'Val",
        Attribute::Value => "'Value",
    }
}

/// How tight an expression of this form binds.
pub fn precedence(form: &Form) -> u32 {
    match form {
        Form::If(_, _) | Form::Case(_, _) | Form::Quantified(_, _, _, _) => CONDITIONAL,
        Form::Raise(_, _) | Form::Member(_, _) => RELATION,
        Form::Infix(infix, _, _) => infix_text(*infix).1,
        Form::Prefix(Prefix::Not, operand) if is_member(&operand.form) => RELATION,
        Form::Prefix(prefix, _) => prefix_text(*prefix).1,
        _ => PRIMARY,
    }
}

/// Whether this is a membership test.
pub fn is_member(form: &Form) -> bool {
    matches!(form, Form::Member(_, _))
}

/// How tight the left operand of this operator has to bind (4.4).
pub fn left_precedence(infix: Infix, left: &Form) -> u32 {
    let precedence = infix_text(infix).1;
    let is_same = match left {
        Form::Infix(other, _, _) => *other == infix,
        _ => false,
    };
    match precedence {
        LOGICAL if is_same => LOGICAL,
        LOGICAL | RELATION | POWER => precedence + 1,
        _ => precedence,
    }
}
