//! Shifts of words.
ghost use Rattle.std.specs.Prelude.{◌≡◌, ◌<◌, IfOk};
ghost use Rattle.mc_value.specs.declared.int_type.IntType.{IntType};
ghost use Rattle.mc_value.specs.IntTypes.{width_of};
ghost use Rattle.mc_value.specs.Conversions.{promoted};
ghost use Rattle.mc_value.specs.Shifts.{shift_of, shifted_left, shifted_right};
ghost use Rattle.interp_words.specs.Words.{number_of, result_of, Holds};

use crate::arithmetic::wrap;
use mc_value::{IntType, ShiftOp, Trap, is_signed};

/// What a shift of a value of the promoted type `of` gives, or its trap. The amount may have any
/// type.
#[inline]
pub fn shift(operator: ShiftOp, of: IntType, left: u64, amount: u64) -> Result<u64, Trap>
    requires type_promoted { promoted of ≡ of }
    requires left { Holds of left }
    ensures value { (u : IntType) → result_of of result
        ≡ shift_of operator of (number_of of left) (number_of u amount) }
    ensures within { IfOk result (Holds of) }
{
    // the word of a negative amount is above each width
    if width(of) <= amount {
        return Err(Trap::Shift);
    }
    match operator {
        ShiftOp::Left => shift_left(of, left, amount),
        ShiftOp::Right => Ok(shift_right(of, left, amount)),
    }
}

/// How many bits a value of a promoted type has, the sign bit included.
#[inline]
fn width(of: IntType) -> u64
    requires type_promoted { promoted of ≡ of }
    ensures { result ≡ width_of of }
{
    match of {
        IntType::Int | IntType::UInt => 32,
        _ => 64,
    }
}

/// A value times a power of 2. No bit of a signed value may reach the place of the sign.
#[inline]
fn shift_left(of: IntType, left: u64, amount: u64) -> Result<u64, Trap>
    requires type_promoted { promoted of ≡ of }
    requires amount { amount < width_of of }
    ensures { result_of of result ≡ shifted_left of (number_of of left) amount }
{
    if !is_signed(of) {
        Ok(wrap(of, left << amount))
    } else if left >> (width(of) - 1 - amount) == 0 {
        Ok(left << amount)
    } else {
        Err(Trap::Shift)
    }
}

/// A value over a power of 2, rounded down.
#[inline]
fn shift_right(of: IntType, left: u64, amount: u64) -> u64
    requires { amount < 64 }
    ensures { number_of of result ≡ shifted_right (number_of of left) amount }
{
    if is_signed(of) {
        (left.cast_signed() >> amount).cast_unsigned()
    } else {
        left >> amount
    }
}
