//! Operators on numbers of one type.

ghost use Rattle.std.specs.Prelude.{◌≡◌, IfOk, ◌*ℤ◌, not, ◌&&◌, ◌||◌};
ghost use Rattle.mc_value.specs.IntTypes.{InRange};
ghost use Rattle.mc_value.specs.Conversions.{promoted};
ghost use Rattle.mc_value.specs.Digits.{digit, digitwise, value_of_digits};
ghost use Rattle.mc_value.specs.Arithmetic.{binary_of, binary_type, divided, exclusive, fitted, quotient, remainder, truth, unary_of, unary_type};

use crate::conversions::{modulus, wrap};
use crate::int_type::{IntType, is_in, is_signed};
use crate::operators::{BinOp, UnOp};
use crate::trap::Trap;

/// What an operator gives for two values of the promoted type `t`: a number of that type, or 1 or 0
/// of type `int` for the relational and equality operators (C17 6.5.5, 6.5.6, 6.5.8 to 6.5.12).
/// `Division` where the divisor is 0; else `Overflow` where a result of a signed type is out of its
/// range, or the quotient that belongs to a remainder is.
pub fn binary(op: BinOp, t: IntType, a: i128, b: i128) -> Result<i128, Trap>
    requires type_promoted { promoted t ≡ t }
    requires left { InRange t a }
    requires right { InRange t b }
    ensures value { result ≡ binary_of op t a b }
    ensures within { IfOk result (λ v. InRange (binary_type op t) v) }
{
    match op {
        BinOp::Mul => multiply(t, a, b),
        BinOp::Div => divide(t, a, b),
        BinOp::Rem => take_remainder(t, a, b),
        BinOp::Add => fit(t, a + b),
        BinOp::Sub => fit(t, a - b),
        BinOp::Lt => Ok(number(a < b)),
        BinOp::Gt => Ok(number(b < a)),
        BinOp::Le => Ok(number(a <= b)),
        BinOp::Ge => Ok(number(b <= a)),
        BinOp::Eq => Ok(number(a == b)),
        BinOp::Ne => Ok(number(a != b)),
        BinOp::And => Ok(and(t, a, b)),
        BinOp::Xor => Ok(xor(t, a, b)),
        BinOp::Or => Ok(or(t, a, b)),
    }
}

/// What an operator gives for a value of the promoted type `t`: a number of that type, or 1 or 0 of
/// type `int` for `!` (C17 6.5.3.3).
/// `Overflow` where a negation is out of the range of a signed type.
pub fn unary(op: UnOp, t: IntType, a: i128) -> Result<i128, Trap>
    requires type_promoted { promoted t ≡ t }
    requires operand { InRange t a }
    ensures value { result ≡ unary_of op t a }
    ensures within { IfOk result (λ v. InRange (unary_type op t) v) }
{
    match op {
        UnOp::Plus => Ok(a),
        UnOp::Minus => fit(t, -a),
        UnOp::Flip => Ok(flip(t, a)),
        UnOp::Not => Ok(number(a == 0)),
    }
}

/// What a comparison gives.
fn number(holds: bool) -> i128
    ensures value { result ≡ truth holds }
    ensures within { InRange IntType.Int result }
{
    if holds { 1 } else { 0 }
}

/// A mathematical result in the type.
fn fit(t: IntType, v: i128) -> Result<i128, Trap>
    ensures value { result ≡ fitted t v }
    ensures within { IfOk result (λ r. InRange t r) }
{
    if !is_signed(t) {
        Ok(wrap(v, t))
    } else if is_in(t, v) {
        Ok(v)
    } else {
        Err(Trap::Overflow)
    }
}

fn multiply(t: IntType, a: i128, b: i128) -> Result<i128, Trap>
    requires left { InRange t a }
    requires right { InRange t b }
    ensures value { result ≡ fitted t (a *ℤ b) }
    ensures within { IfOk result (λ r. InRange t r) }
{
    if is_signed(t) {
        fit(t, a * b)
    } else {
        // the product of two numbers of 64 bits can pass what an `i128` holds
        let product = (a as u128) * (b as u128);
        Ok((product % (modulus(t) as u128)) as i128)
    }
}

fn divide(t: IntType, a: i128, b: i128) -> Result<i128, Trap>
    requires left { InRange t a }
    requires right { InRange t b }
    ensures value { result ≡ divided t a b (quotient a b) }
    ensures within { IfOk result (λ r. InRange t r) }
{
    if b == 0 {
        return Err(Trap::Division);
    }
    let quotient = a / b;
    if is_in(t, quotient) {
        Ok(quotient)
    } else {
        Err(Trap::Overflow)
    }
}

fn take_remainder(t: IntType, a: i128, b: i128) -> Result<i128, Trap>
    requires left { InRange t a }
    requires right { InRange t b }
    ensures value { result ≡ divided t a b (remainder a b) }
    ensures within { IfOk result (λ r. InRange t r) }
{
    if b == 0 {
        return Err(Trap::Division);
    }
    if is_in(t, a / b) {
        Ok(a % b)
    } else {
        Err(Trap::Overflow)
    }
}

fn and(t: IntType, a: i128, b: i128) -> i128
    ensures value { result ≡ digitwise ◌&&◌ t a b }
    ensures within { InRange t result }
{
    wrap(a & b, t)
}

fn xor(t: IntType, a: i128, b: i128) -> i128
    ensures value { result ≡ digitwise exclusive t a b }
    ensures within { InRange t result }
{
    wrap(a ^ b, t)
}

fn or(t: IntType, a: i128, b: i128) -> i128
    ensures value { result ≡ digitwise ◌||◌ t a b }
    ensures within { InRange t result }
{
    wrap(a | b, t)
}

fn flip(t: IntType, a: i128) -> i128
    ensures value { result ≡ value_of_digits t (λ k. not (digit t a k)) }
    ensures within { InRange t result }
{
    wrap(!a, t)
}
