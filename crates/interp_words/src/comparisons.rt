//! Comparisons of words.
ghost use Rattle.std.specs.Prelude.{◌≡◌, true, int_lt, Ok};
ghost use Rattle.mc_value.specs.Arithmetic.{binary_of, truth};
ghost use Rattle.mc_typed.specs.Sound.{compares};
ghost use Rattle.interp_words.specs.Words.{number_of};

use mc_value::{BinOp, IntType, is_signed};

/// Whether a comparison of two values of a type holds.
#[inline(always)]
pub fn compare(operator: BinOp, of: IntType, left: u64, right: u64) -> bool
    requires { compares operator ≡ true }
    ensures { binary_of operator of (number_of of left) (number_of of right) ≡ Ok (truth result) }
{
    match operator {
        BinOp::Eq => left == right,
        BinOp::Ne => left != right,
        BinOp::Lt => is_less(of, left, right),
        BinOp::Gt => is_less(of, right, left),
        BinOp::Le => !is_less(of, right, left),
        _ => !is_less(of, left, right),
    }
}

/// Whether the first value is less than the second.
#[inline]
fn is_less(of: IntType, left: u64, right: u64) -> bool
    ensures { result ≡ int_lt (number_of of left) (number_of of right) }
{
    if is_signed(of) {
        left.cast_signed() < right.cast_signed()
    } else {
        left < right
    }
}
