//! The operators on the digits of words of one promoted type.
ghost use Rattle.std.specs.Prelude.{◌≡◌, not, ◌&&◌, ◌||◌};
ghost use Rattle.mc_value.specs.Conversions.{promoted};
ghost use Rattle.mc_value.specs.Digits.{digit, digitwise, value_of_digits};
ghost use Rattle.mc_value.specs.Arithmetic.{exclusive};
ghost use Rattle.interp_words.specs.Words.{number_of, Holds};

use crate::conversions::convert;
use mc_value::IntType;

/// The digits that both values have. The digits above the type's own repeat its sign in both words,
/// and so in the result.
#[inline]
pub(crate) fn and(of: IntType, left: u64, right: u64) -> u64
    requires type_promoted { promoted of ≡ of }
    requires left { Holds of left }
    requires right { Holds of right }
    ensures { number_of of result ≡ digitwise ◌&&◌ of (number_of of left) (number_of of right) }
{
    left & right
}

/// The digits that one of the values has.
#[inline]
pub(crate) fn xor(of: IntType, left: u64, right: u64) -> u64
    requires type_promoted { promoted of ≡ of }
    requires left { Holds of left }
    requires right { Holds of right }
    ensures { number_of of result
        ≡ digitwise exclusive of (number_of of left) (number_of of right) }
{
    left ^ right
}

/// The digits that one of the values has, or both.
#[inline]
pub(crate) fn or(of: IntType, left: u64, right: u64) -> u64
    requires type_promoted { promoted of ≡ of }
    requires left { Holds of left }
    requires right { Holds of right }
    ensures { number_of of result ≡ digitwise ◌||◌ of (number_of of left) (number_of of right) }
{
    left | right
}

/// The digits that a value does not have.
#[inline]
pub(crate) fn flip(of: IntType, operand: u64) -> u64
    requires type_promoted { promoted of ≡ of }
    ensures { number_of of result
        ≡ value_of_digits of (λ k. not (digit of (number_of of operand) k)) }
{
    convert(of, !operand)
}
