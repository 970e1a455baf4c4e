//! Sums, differences, products, quotients and remainders of words of one promoted type.
ghost use Rattle.std.specs.Prelude.{◌≡◌, pos, true, false, ◌+ℤ◌, ◌-ℤ◌, ◌*ℤ◌};
ghost use Rattle.mc_value.specs.IntTypes.{signed_of};
ghost use Rattle.mc_value.specs.Conversions.{promoted, wrapped};
ghost use Rattle.mc_value.specs.Arithmetic.{divided, fitted, quotient, remainder};
ghost use Rattle.interp_words.specs.Words.{number_of, result_of, Holds};

use mc_value::{IntType, Trap, is_signed};

/// The word of a result in a signed type, or `Overflow` (C17 6.5p5).
#[inline]
fn in_type(of: IntType, number: i64) -> Result<u64, Trap>
    requires type_promoted { promoted of ≡ of }
    requires type_signed { signed_of of ≡ true }
    ensures { result_of of result ≡ fitted of number }
{
    match of {
        IntType::Int => {
            if -2147483648 <= number && number <= 2147483647 {
                Ok(number.cast_unsigned())
            } else {
                Err(Trap::Overflow)
            }
        }
        _ => Ok(number.cast_unsigned()),
    }
}

/// The value of an unsigned type that has the low digits of a word (C17 6.2.5p9).
#[inline]
pub(crate) fn wrap(of: IntType, value: u64) -> u64
    requires type_promoted { promoted of ≡ of }
    requires type_unsigned { signed_of of ≡ false }
    ensures { number_of of result ≡ wrapped of (pos value) }
{
    match of {
        IntType::UInt => value & 0xffff_ffff,
        _ => value,
    }
}

/// The sum of two values.
#[inline]
pub(crate) fn add(of: IntType, left: u64, right: u64) -> Result<u64, Trap>
    requires type_promoted { promoted of ≡ of }
    ensures { result_of of result ≡ fitted of (number_of of left +ℤ number_of of right) }
{
    if is_signed(of) {
        match left.cast_signed().checked_add(right.cast_signed()) {
            Some(sum) => in_type(of, sum),
            None => Err(Trap::Overflow),
        }
    } else {
        Ok(wrap(of, left.wrapping_add(right)))
    }
}

/// The difference of two values.
#[inline]
pub(crate) fn subtract(of: IntType, left: u64, right: u64) -> Result<u64, Trap>
    requires type_promoted { promoted of ≡ of }
    ensures { result_of of result ≡ fitted of (number_of of left -ℤ number_of of right) }
{
    if is_signed(of) {
        match left.cast_signed().checked_sub(right.cast_signed()) {
            Some(difference) => in_type(of, difference),
            None => Err(Trap::Overflow),
        }
    } else {
        Ok(wrap(of, left.wrapping_sub(right)))
    }
}

/// The product of two values.
#[inline]
pub(crate) fn multiply(of: IntType, left: u64, right: u64) -> Result<u64, Trap>
    requires type_promoted { promoted of ≡ of }
    ensures { result_of of result ≡ fitted of (number_of of left *ℤ number_of of right) }
{
    if is_signed(of) {
        match left.cast_signed().checked_mul(right.cast_signed()) {
            Some(product) => in_type(of, product),
            None => Err(Trap::Overflow),
        }
    } else {
        Ok(wrap(of, left.wrapping_mul(right)))
    }
}

/// The quotient of two values.
#[inline]
pub(crate) fn divide(of: IntType, left: u64, right: u64) -> Result<u64, Trap>
    requires type_promoted { promoted of ≡ of }
    requires left { Holds of left }
    ensures { result_of of result
        ≡ divided of (number_of of left) (number_of of right)
        (quotient (number_of of left) (number_of of right)) }
{
    if right == 0 {
        return Err(Trap::Division);
    }
    if is_signed(of) {
        match left.cast_signed().checked_div(right.cast_signed()) {
            Some(quotient) => in_type(of, quotient),
            None => Err(Trap::Overflow),
        }
    } else {
        Ok(left / right)
    }
}

/// What is left of a value after its division by another, where that has a quotient.
#[inline]
pub(crate) fn take_remainder(of: IntType, left: u64, right: u64) -> Result<u64, Trap>
    requires type_promoted { promoted of ≡ of }
    requires left { Holds of left }
    ensures { result_of of result
        ≡ divided of (number_of of left) (number_of of right)
        (remainder (number_of of left) (number_of of right)) }
{
    match divide(of, left, right) {
        Ok(_) => {
            if is_signed(of) {
                Ok((left.cast_signed() % right.cast_signed()).cast_unsigned())
            } else {
                Ok(left % right)
            }
        }
        Err(trap) => Err(trap),
    }
}
