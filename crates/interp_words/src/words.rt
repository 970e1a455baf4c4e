//! Numbers and words.
ghost use Rattle.std.specs.Prelude.{◌≡◌};
ghost use Rattle.mc_value.specs.IntTypes.{InRange};
ghost use Rattle.interp_words.specs.Words.{number_of};

use mc_value::{IntType, is_signed};

/// The number that a word stands for in a type.
pub fn number(of: IntType, word: u64) -> i128
    ensures { result ≡ number_of of word }
{
    if is_signed(of) {
        i128::from(word.cast_signed())
    } else {
        i128::from(word)
    }
}

/// The word of a value of the type.
pub fn word(of: IntType, number: i128) -> u64
    requires { InRange of number }
    ensures { number_of of result ≡ number }
{
    if is_signed(of) {
        (number as i64).cast_unsigned()
    } else {
        number as u64
    }
}
