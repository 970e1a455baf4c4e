//! Conversions of words.
ghost use Rattle.std.specs.Prelude.{◌≡◌, ◌%◌, ◌^◌};
ghost use Rattle.std.specs.Int.{cast_signed, w16, w32, w64, w8};
ghost use Rattle.mc_value.specs.declared.int_type.IntType.{IntType};
ghost use Rattle.mc_value.specs.Conversions.{converted};
ghost use Rattle.interp_words.specs.Words.{number_of, Holds};

use mc_value::IntType;

/// What becomes of a value in a type, whatever type it had.
#[inline]
pub fn convert(to: IntType, value: u64) -> u64
    ensures value { (u : IntType) → number_of to result ≡ converted to (number_of u value) }
    ensures within { Holds to result }
{
    match to {
        IntType::Bool => u64::from(value != 0),
        IntType::Char | IntType::SChar => signed_byte(value),
        IntType::UChar => value & 0xff,
        IntType::Short => signed_short(value),
        IntType::UShort => value & 0xffff,
        IntType::Int => signed_int(value),
        IntType::UInt => value & 0xffff_ffff,
        IntType::Long | IntType::ULong | IntType::LLong | IntType::ULLong => value,
    }
}

/// The word of the number that the low 8 bits stand for in two's complement.
#[inline]
fn signed_byte(value: u64) -> u64
    ensures { cast_signed w64 result ≡ cast_signed w8 (value % 2 ^ 8) }
{
    i64::from(((value & 0xff) as u8).cast_signed()).cast_unsigned()
}

/// The word of the number that the low 16 bits stand for in two's complement.
#[inline]
fn signed_short(value: u64) -> u64
    ensures { cast_signed w64 result ≡ cast_signed w16 (value % 2 ^ 16) }
{
    i64::from(((value & 0xffff) as u16).cast_signed()).cast_unsigned()
}

/// The word of the number that the low 32 bits stand for in two's complement.
#[inline]
fn signed_int(value: u64) -> u64
    ensures { cast_signed w64 result ≡ cast_signed w32 (value % 2 ^ 32) }
{
    i64::from(((value & 0xffff_ffff) as u32).cast_signed()).cast_unsigned()
}
