// SPDX-License-Identifier: MIT
//! What operators give. An error is the number of the exception that is raised.

ghost use Rattle.std.specs.Prelude.{◌≡◌, ◌≢◌, ◌<◌, ◌^◌, ◌*◌, bit_and, bit_or, bit_xor, ℤ, pos, ◌+ℤ◌, ◌-ℤ◌, ◌*ℤ◌, ◌<ℤ◌, neg_ℤ, int_div, int_rem, FitsSigned};
ghost use Rattle.std.specs.Int.{int_rem_euclid, w64};
ghost use Rattle.po_program.specs.Operators.{absolute, binary, bitwise, checked, difference, divided, is_modulus, modular, modulo, modulus_of, negation, product, quotient, raised_to, remainder, residue, sum_of, truth, unary, widest};

use crate::exceptions::CONSTRAINT_ERROR;
use crate::tree::{Base, Binary, Range, Unary};

/// The greatest modulus.
const GREATEST_MODULUS: u128 = 18_446_744_073_709_551_616;

/// Returns the number, if it is in the range, or else Constraint_Error.
pub(crate) fn check(range: Range, n: i128) -> Result<i128, u32>
    ensures { result ≡ checked range n }
{
    if n < range.low || n > range.high {
        return Err(CONSTRAINT_ERROR);
    }
    Ok(n)
}

/// Returns an operand of a signed type.
fn narrow(n: i128) -> Result<i64, u32>
    ensures { result ≡ checked widest n }
{
    if n < -9_223_372_036_854_775_808 || n > 9_223_372_036_854_775_807 {
        return Err(CONSTRAINT_ERROR);
    }
    Ok(n as i64)
}

fn can_be_modulus(modulus: u128) -> bool
    ensures { result ≡ is_modulus modulus }
{
    0 < modulus && modulus <= GREATEST_MODULUS
}

/// Returns an operand of a modular type.
fn reduce(modulus: u128, n: i128) -> u128
    ensures value { result ≡ residue modulus n }
    ensures bound { result < 2 ^ 64 }
{
    if !can_be_modulus(modulus) {
        return 0;
    }
    n.rem_euclid(modulus as i128).unsigned_abs()
}

/// Returns the result of an operator of a modular type.
fn wrap(modulus: u128, n: u128) -> Result<i128, u32>
    ensures { result ≡ modular modulus n }
{
    if !can_be_modulus(modulus) {
        return Err(CONSTRAINT_ERROR);
    }
    Ok((n % modulus) as i128)
}

/// Returns the truth value as a number.
pub(crate) fn truth_of(b: bool) -> i128
    ensures { result ≡ truth b }
{
    if b { 1 } else { 0 }
}

fn signed_negation(range: Range, a: i64) -> Result<i128, u32>
    ensures { result ≡ checked range (neg_ℤ a) }
{
    check(range, -i128::from(a))
}

fn exact_sum(a: i64, b: i64) -> i128
    ensures { result ≡ a +ℤ b }
{
    i128::from(a) + i128::from(b)
}

fn exact_difference(a: i64, b: i64) -> i128
    ensures { result ≡ a -ℤ b }
{
    i128::from(a) - i128::from(b)
}

fn signed_sum(range: Range, a: i64, b: i64) -> Result<i128, u32>
    ensures { result ≡ checked range (a +ℤ b) }
{
    check(range, exact_sum(a, b))
}

fn signed_difference(range: Range, a: i64, b: i64) -> Result<i128, u32>
    ensures { result ≡ checked range (a -ℤ b) }
{
    check(range, exact_difference(a, b))
}

fn negate(base: Base, a: i128) -> Result<i128, u32>
    ensures { result ≡ negation base a }
{
    match base {
        Base::Signed(range) => {
            let a = narrow(a)?;
            signed_negation(range, a)
        }
        Base::Modular(modulus) => wrap(modulus, modulus.saturating_sub(reduce(modulus, a))),
    }
}

fn magnitude(base: Base, a: i128) -> Result<i128, u32>
    ensures { result ≡ absolute base a }
{
    match base {
        Base::Signed(range) => {
            let a = narrow(a)?;
            check(range, i128::from(a.unsigned_abs()))
        }
        Base::Modular(modulus) => wrap(modulus, reduce(modulus, a)),
    }
}

fn add(base: Base, a: i128, b: i128) -> Result<i128, u32>
    ensures { result ≡ sum_of base a b }
{
    match base {
        Base::Signed(range) => {
            let a = narrow(a)?;
            let b = narrow(b)?;
            signed_sum(range, a, b)
        }
        Base::Modular(modulus) => wrap(modulus, reduce(modulus, a) + reduce(modulus, b)),
    }
}

fn subtract(base: Base, a: i128, b: i128) -> Result<i128, u32>
    ensures { result ≡ difference base a b }
{
    match base {
        Base::Signed(range) => {
            let a = narrow(a)?;
            let b = narrow(b)?;
            signed_difference(range, a, b)
        }
        Base::Modular(modulus) => subtract_modular(modulus, a, b),
    }
}

fn subtract_modular(modulus: u128, a: i128, b: i128) -> Result<i128, u32>
    ensures { result ≡ difference (Base.Modular modulus) a b }
{
    if !can_be_modulus(modulus) {
        return Err(CONSTRAINT_ERROR);
    }
    wrap(
        modulus,
        reduce(modulus, a) + modulus.saturating_sub(reduce(modulus, b)),
    )
}

fn exact_product(a: i64, b: i64) -> i128
    ensures { result ≡ a *ℤ b }
{
    i128::from(a) * i128::from(b)
}

fn multiply_modular(modulus: u128, a: u64, b: u64) -> Result<i128, u32>
    ensures { result ≡ modular modulus (a * b) }
{
    wrap(modulus, u128::from(a) * u128::from(b))
}

fn multiply(base: Base, a: i128, b: i128) -> Result<i128, u32>
    ensures { result ≡ product base a b }
{
    match base {
        Base::Signed(range) => {
            let a = narrow(a)?;
            let b = narrow(b)?;
            check(range, exact_product(a, b))
        }
        Base::Modular(modulus) => multiply_modular(
            modulus,
            reduce(modulus, a) as u64,
            reduce(modulus, b) as u64,
        ),
    }
}

fn exact_quotient(a: i64, b: i64) -> i128
    requires { b ≢ pos 0 }
    ensures { result ≡ int_div a b }
{
    i128::from(a) / i128::from(b)
}

fn exact_remainder(a: i64, b: i64) -> i128
    requires { b ≢ pos 0 }
    ensures { result ≡ int_rem a b }
{
    i128::from(a) % i128::from(b)
}

/// Returns a mod b for a divisor below 0.
fn modulo_below(a: i128, b: i128) -> i128
    requires divisor { b <ℤ pos 0 }
    requires least { FitsSigned w64 b }
    requires dividend { FitsSigned w64 a }
    ensures { result ≡ neg_ℤ (int_rem_euclid (neg_ℤ a) (neg_ℤ b)) }
{
    let opposite = (-a).rem_euclid(-b);
    -opposite
}

/// Returns a mod b.
fn modulo_of(a: i64, b: i64) -> i128
    requires { b ≢ pos 0 }
    ensures { result ≡ modulo a b }
{
    if b < 0 {
        return modulo_below(i128::from(a), i128::from(b));
    }
    i128::from(a).rem_euclid(i128::from(b))
}

fn divide(base: Base, a: i128, b: i128) -> Result<i128, u32>
    ensures { result ≡ quotient base a b }
{
    match base {
        Base::Signed(range) => {
            let a = narrow(a)?;
            let b = narrow(b)?;
            signed_quotient(range, a, b)
        }
        Base::Modular(modulus) => {
            let divisor = reduce(modulus, b);
            if divisor == 0 {
                return Err(CONSTRAINT_ERROR);
            }
            wrap(modulus, reduce(modulus, a) / divisor)
        }
    }
}

fn take_modulus(base: Base, a: i128, b: i128) -> Result<i128, u32>
    ensures { result ≡ modulus_of base a b }
{
    match base {
        Base::Signed(range) => {
            let a = narrow(a)?;
            let b = narrow(b)?;
            signed_modulo(range, a, b)
        }
        Base::Modular(_) => take_remainder(base, a, b),
    }
}

fn signed_quotient(range: Range, a: i64, b: i64) -> Result<i128, u32>
    ensures { result ≡ divided b (checked range (int_div a b)) }
{
    if b == 0 {
        return Err(CONSTRAINT_ERROR);
    }
    check(range, exact_quotient(a, b))
}

fn signed_modulo(range: Range, a: i64, b: i64) -> Result<i128, u32>
    ensures { result ≡ divided b (checked range (modulo a b)) }
{
    if b == 0 {
        return Err(CONSTRAINT_ERROR);
    }
    check(range, modulo_of(a, b))
}

fn signed_remainder(range: Range, a: i64, b: i64) -> Result<i128, u32>
    ensures { result ≡ divided b (checked range (int_rem a b)) }
{
    if b == 0 {
        return Err(CONSTRAINT_ERROR);
    }
    check(range, exact_remainder(a, b))
}

fn take_remainder(base: Base, a: i128, b: i128) -> Result<i128, u32>
    ensures { result ≡ remainder base a b }
{
    match base {
        Base::Signed(range) => {
            let a = narrow(a)?;
            let b = narrow(b)?;
            signed_remainder(range, a, b)
        }
        Base::Modular(modulus) => {
            let divisor = reduce(modulus, b);
            if divisor == 0 {
                return Err(CONSTRAINT_ERROR);
            }
            wrap(modulus, reduce(modulus, a) % divisor)
        }
    }
}

fn power(range: Range, a: i128, b: i128) -> Result<i128, u32>
    ensures { result ≡ raised_to range a b }
{
    if b < 0 || b > 2_147_483_647 {
        return Err(CONSTRAINT_ERROR);
    }
    let a = narrow(a)?;
    match i128::from(a).checked_pow(b as u32) {
        Some(n) => check(range, n),
        None => Err(CONSTRAINT_ERROR),
    }
}

fn and(base: Base, a: i128, b: i128) -> Result<i128, u32>
    ensures { result ≡ bitwise bit_and base a b }
{
    match base {
        Base::Signed(range) => {
            let a = narrow(a)?;
            let b = narrow(b)?;
            check(range, i128::from(a.unsigned_abs() & b.unsigned_abs()))
        }
        Base::Modular(modulus) => wrap(modulus, reduce(modulus, a) & reduce(modulus, b)),
    }
}

fn or(base: Base, a: i128, b: i128) -> Result<i128, u32>
    ensures { result ≡ bitwise bit_or base a b }
{
    match base {
        Base::Signed(range) => {
            let a = narrow(a)?;
            let b = narrow(b)?;
            check(range, i128::from(a.unsigned_abs() | b.unsigned_abs()))
        }
        Base::Modular(modulus) => wrap(modulus, reduce(modulus, a) | reduce(modulus, b)),
    }
}

fn xor(base: Base, a: i128, b: i128) -> Result<i128, u32>
    ensures { result ≡ bitwise bit_xor base a b }
{
    match base {
        Base::Signed(range) => {
            let a = narrow(a)?;
            let b = narrow(b)?;
            check(range, i128::from(a.unsigned_abs() ^ b.unsigned_abs()))
        }
        Base::Modular(modulus) => wrap(modulus, reduce(modulus, a) ^ reduce(modulus, b)),
    }
}

/// Returns what an operator with one operand gives.
pub(crate) fn unary_of(operator: Unary, a: i128) -> Result<i128, u32>
    ensures { result ≡ unary operator a }
{
    match operator {
        Unary::Not => Ok(truth_of(a == 0)),
        Unary::Minus(base) => negate(base, a),
        Unary::Abs(base) => magnitude(base, a),
    }
}

/// Returns what an operator with two operands gives.
pub(crate) fn binary_of(operator: Binary, a: i128, b: i128) -> Result<i128, u32>
    ensures { result ≡ binary operator a b }
{
    match operator {
        Binary::Add(base) => add(base, a, b),
        Binary::Subtract(base) => subtract(base, a, b),
        Binary::Multiply(base) => multiply(base, a, b),
        Binary::Divide(base) => divide(base, a, b),
        Binary::Mod(base) => take_modulus(base, a, b),
        Binary::Rem(base) => take_remainder(base, a, b),
        Binary::Power(range) => power(range, a, b),
        Binary::And(base) => and(base, a, b),
        Binary::Or(base) => or(base, a, b),
        Binary::Xor(base) => xor(base, a, b),
        Binary::Equal => Ok(truth_of(a == b)),
        Binary::Less => Ok(truth_of(a < b)),
        Binary::AtMost => Ok(truth_of(a <= b)),
        Binary::Min => Ok(a.min(b)),
        Binary::Max => Ok(a.max(b)),
    }
}
