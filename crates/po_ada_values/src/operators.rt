// SPDX-License-Identifier: MIT
//! Operators at values (4.5), checks of ranges (4.6).

ghost use Rattle.std.specs.Prelude.{◌≤ℤ◌, IfSome, OnOk};

use crate::conditionals::Branching;
use crate::lowering::Lowering;
use crate::values::{Lowered, Value, computed, fixed_value, range_of};
use po_ada_tree::Stop;
use po_ada_tree::tree::{Infix, Prefix};
use po_ada_types::{BOOLEAN, Sub, UNIVERSAL, folded, folded_prefix, within};
use po_program::{Base, Binary, Expr, Unary};

/// Whether the result is a truth value, for any operands.
fn is_relation(operator: Infix) -> bool {
    matches!(
        operator,
        Infix::Equal
            | Infix::Unequal
            | Infix::Less
            | Infix::AtMost
            | Infix::Greater
            | Infix::AtLeast
    )
}

fn is_logical(operator: Infix) -> bool {
    matches!(
        operator,
        Infix::And | Infix::Or | Infix::Xor | Infix::AndThen | Infix::OrElse
    )
}

impl<'a> Lowering<'a> {
    /// The operator at expressions, with the base of their type.
    pub fn operation(
        &mut self,
        place: usize,
        operator: Infix,
        base: Base,
        left: Expr,
        right: Expr,
    ) -> Result<Expr, Stop> {
        let code = match operator {
            Infix::And => self.binary(Binary::And(base), left, right)?,
            Infix::Or => self.binary(Binary::Or(base), left, right)?,
            Infix::Xor => self.binary(Binary::Xor(base), left, right)?,
            Infix::AndThen => Expr::AndThen(self.boxed(left)?, self.boxed(right)?),
            Infix::OrElse => Expr::OrElse(self.boxed(left)?, self.boxed(right)?),
            Infix::Equal => self.binary(Binary::Equal, left, right)?,
            Infix::Unequal => self.not(self.binary(Binary::Equal, left, right)?)?,
            Infix::Less => self.binary(Binary::Less, left, right)?,
            Infix::AtMost => self.binary(Binary::AtMost, left, right)?,
            Infix::Greater => self.not(self.binary(Binary::AtMost, left, right)?)?,
            Infix::AtLeast => self.not(self.binary(Binary::Less, left, right)?)?,
            Infix::Plus => self.binary(Binary::Add(base), left, right)?,
            Infix::Minus => self.binary(Binary::Subtract(base), left, right)?,
            Infix::Times => self.binary(Binary::Multiply(base), left, right)?,
            Infix::Divide => self.binary(Binary::Divide(base), left, right)?,
            Infix::Mod => self.binary(Binary::Mod(base), left, right)?,
            Infix::Rem => self.binary(Binary::Rem(base), left, right)?,
            Infix::Power => return self.power(place, base, left, right),
            Infix::Concatenate => return Err(
                self.known.refuse(
                    place,
                    "'&' isn't in this subset: there are no strings (4.5.3)",
                ),
            ),
        };
        Ok(code)
    }

    pub fn power(
        &mut self,
        place: usize,
        base: Base,
        left: Expr,
        right: Expr,
    ) -> Result<Expr, Stop> {
        match base {
            Base::Signed(range) => Ok(self.binary(Binary::Power(range), left, right)?),
            Base::Modular(_) => {
                Err(
                    self.known.refuse(
                        place,
                        "'**' of a modular type isn't in this subset, unless it is static: multiply in a loop (4.5.6)",
                    ),
                )
            }
        }
    }

    /// The base of the type of operands; a fault if it has no operators.
    fn operand_base(&mut self, place: usize, kind: usize) -> Result<Base, Stop> {
        match self.known.base(kind) {
            Some(base) => Ok(base),
            None => Err(
                self.known.refuse(
                    place,
                    "operators of arrays and records aren't in this subset: compare their components (4.5.2)",
                ),
            ),
        }
    }

    /// Refuses operators that a type doesn't have.
    fn admit(
        &mut self,
        place: usize,
        operator: Infix,
        kind: usize,
        base: Base,
    ) -> Result<(), Stop> {
        if is_relation(operator) {
            return Ok(());
        }
        if is_logical(operator) {
            let is_modular = matches!(base, Base::Modular(_))
                && !matches!(operator, Infix::AndThen | Infix::OrElse);
            if kind == BOOLEAN || is_modular {
                return Ok(());
            }
            return Err(
                self.known.refuse(
                    place,
                    "a logical operator has Boolean or modular operands (4.5.1)",
                ),
            );
        }
        if self.known.is_integer(kind) {
            return Ok(());
        }
        Err(
            self.known.refuse(
                place,
                "an arithmetic operator has operands of an integer type (4.5.3)",
            ),
        )
    }

    /// Two values with an operator between them.
    fn combined(
        &mut self,
        place: usize,
        operator: Infix,
        left: Value,
        right: Value,
    ) -> Result<Value, Stop> {
        let kind = if operator == Infix::Power {
            left.kind
        } else {
            self.known.unify(place, left.kind, right.kind)?
        };
        let base = self.operand_base(place, kind)?;
        self.admit(place, operator, kind, base)?;
        if operator != Infix::Power {
            self.admit_literal(place, &left, kind)?;
            self.admit_literal(place, &right, kind)?;
        }
        let result = if is_relation(operator) { BOOLEAN } else { kind };
        if let (Some(a), Some(b)) = (left.fixed, right.fixed) {
            if let Some(number) = self.folded(operator, kind, base, a, b) {
                return Ok(fixed_value(result, number));
            }
        }
        let code = self.operation(place, operator, base, left.code, right.code)?;
        Ok(computed(result, code))
    }

    /// A static number without a type has to be a value of the other operand's type (4.2, 4.9).
    fn admit_literal(&mut self, place: usize, value: &Value, kind: usize) -> Result<(), Stop> {
        if value.kind != UNIVERSAL || kind == UNIVERSAL {
            return Ok(());
        }
        let whole = self.known.whole(kind);
        match value.fixed {
            Some(number) if number < whole.low || number > whole.high => Err(
                self.known.out_of_range(place, number, whole),
            ),
            _ => Ok(()),
        }
    }

    /// The value of an operator at static operands of a type.
    pub fn folded(
        &self,
        operator: Infix,
        kind: usize,
        base: Base,
        left: i128,
        right: i128,
    ) -> Option<i128> {
        let number = folded(operator, left, right)?;
        if kind == UNIVERSAL || is_relation(operator) {
            Some(number)
        } else {
            within(base, number)
        }
    }

    /// A value of a subtype, with a check if one is needed (4.6).
    pub fn fit(&mut self, place: usize, value: Value, sub: Sub) -> Result<Expr, Stop> {
        if value.raises {
            return Ok(value.code);
        }
        self.known.unify(place, sub.kind, value.kind)?;
        self.checked(place, value, sub)
    }

    /// A value that has to be in the range of a subtype.
    pub fn checked(&mut self, place: usize, value: Value, sub: Sub) -> Result<Expr, Stop>
        ensures within { OnOk result (IfSome value.fixed (λ number. (sub.low ≤ℤ number) × (number ≤ℤ sub.high))) }
    {
        if let Some(number) = value.fixed {
            if sub.low <= number && number <= sub.high {
                return Ok(value.code);
            }
            return Err(self.known.out_of_range(place, number, sub));
        }
        Ok(Expr::Check(range_of(sub), self.boxed(value.code)?))
    }

    /// An operator between operands that were evaluated; `and then` and `or else` evaluate the second one only if they need it.
    pub fn infixed(
        &mut self,
        place: usize,
        operator: Infix,
        values: Vec<Lowered>,
    ) -> Result<Value, Stop> {
        let mut values = values;
        let (Some(second), Some(first)) = (values.pop(), values.pop()) else {
            return Err(
                self.known
                    .refuse(place, "an operator stands between two operands (4.5)"),
            );
        };
        self.emit_all(first.code)?;
        let is_short = matches!(operator, Infix::AndThen | Infix::OrElse);
        if is_short && !second.code.is_empty() {
            return self.short_circuit(place, operator, first.value, second);
        }
        self.emit_all(second.code)?;
        self.combined(place, operator, first.value, second.value)
    }

    /// A short circuit whose second operand has statements before it (4.5.1).
    fn short_circuit(
        &mut self,
        place: usize,
        operator: Infix,
        first: Value,
        second: Lowered,
    ) -> Result<Value, Stop> {
        self.known.unify(place, first.kind, second.value.kind)?;
        self.known.unify(place, first.kind, BOOLEAN)?;
        let (test, otherwise) = match operator {
            Infix::AndThen => (first.code, Expr::Number(0)),
            _ => (self.not(first.code)?, Expr::Number(1)),
        };
        let mut list = Vec::new(self.known.alloc);
        list.push(Branching {
            test_code: Vec::new(self.known.alloc),
            test,
            code: second.code,
            value: second.value.code,
        })?;
        let code = self.branches(place, list, Vec::new(self.known.alloc), otherwise)?;
        Ok(computed(BOOLEAN, code))
    }

    /// A sign, `abs` or `not` before an operand (4.5.4, 4.5.6).
    pub fn prefixed(
        &mut self,
        place: usize,
        operator: Prefix,
        value: Value,
    ) -> Result<Value, Stop> {
        let base = self.operand_base(place, value.kind)?;
        if operator == Prefix::Not {
            return self.negated(place, value, base);
        }
        if !self.known.is_integer(value.kind) {
            return Err(
                self.known.refuse(
                    place,
                    "a sign or 'abs' has an operand of an integer type (4.5.4)",
                ),
            );
        }
        if let Some(number) = signed(operator, &value, base) {
            return Ok(fixed_value(value.kind, number));
        }
        let code = match operator {
            Prefix::Minus => Expr::Unary(Unary::Minus(base), self.boxed(value.code)?),
            Prefix::Abs => Expr::Unary(Unary::Abs(base), self.boxed(value.code)?),
            _ => value.code,
        };
        Ok(computed(value.kind, code))
    }

    /// `not` of a truth value or of a modular value (4.5.6).
    fn negated(&mut self, place: usize, value: Value, base: Base) -> Result<Value, Stop> {
        if value.kind == BOOLEAN {
            return match value.fixed {
                Some(number) => Ok(fixed_value(BOOLEAN, if number == 0 { 1 } else { 0 })),
                None => Ok(computed(BOOLEAN, self.not(value.code)?)),
            };
        }
        let Base::Modular(modulus) = base else {
            return Err(
                self.known.refuse(
                    place,
                    "'not' has an operand of type Boolean or of a modular type (4.5.6)",
                ),
            );
        };
        let last = i128::try_from(modulus).unwrap_or(1).saturating_sub(1);
        let code = self.binary(Binary::Subtract(base), Expr::Number(last), value.code)?;
        Ok(computed(value.kind, code))
    }

    /// `T'(A)` (4.7).
    pub fn qualified(&mut self, place: usize, value: Value, sub: Sub) -> Result<Value, Stop> {
        let fixed = value.fixed;
        let code = self.fit(place, value, sub)?;
        Ok(Value {
            code,
            kind: sub.kind,
            fixed,
            raises: false,
        })
    }
}

/// The value of a sign or `abs` at a static value; none if it isn't in the base.
fn signed(operator: Prefix, value: &Value, base: Base) -> Option<i128> {
    let number = folded_prefix(operator, value.fixed?)?;
    if value.kind == UNIVERSAL {
        Some(number)
    } else {
        within(base, number)
    }
}
