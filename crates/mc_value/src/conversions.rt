//! Conversions of numbers and of types.

ghost use Rattle.std.specs.Prelude.{◌≡◌, pos, ◌^◌, IsTrue};
ghost use Rattle.mc_value.specs.IntTypes.{InRange, width_of};
ghost use Rattle.mc_value.specs.Conversions.{promoted, is_promoted, common_of, converted, wrapped};

use crate::int_type::{IntType, range, width};

/// The integer promotion of a type (C17 6.3.1.1p2).
pub fn promote(t: IntType) -> IntType
    ensures value { result ≡ promoted t }
    ensures stays { promoted result ≡ result }
{
    match t {
        IntType::Bool
        | IntType::Char
        | IntType::SChar
        | IntType::UChar
        | IntType::Short
        | IntType::UShort => IntType::Int,
        IntType::Int
        | IntType::UInt
        | IntType::Long
        | IntType::ULong
        | IntType::LLong
        | IntType::ULLong => t,
    }
}

/// Whether the integer promotions leave the type as it is (C17 6.3.1.1p2).
pub fn is_promoted(t: IntType) -> bool
    ensures value { result ≡ is_promoted t }
    ensures stays { IsTrue result → promoted t ≡ t }
{
    match t {
        IntType::Bool
        | IntType::Char
        | IntType::SChar
        | IntType::UChar
        | IntType::Short
        | IntType::UShort => false,
        IntType::Int
        | IntType::UInt
        | IntType::Long
        | IntType::ULong
        | IntType::LLong
        | IntType::ULLong => true,
    }
}

/// The type to which the usual arithmetic conversions bring two operands (C17 6.3.1.8p1).
pub fn common(a: IntType, b: IntType) -> IntType
    ensures value { result ≡ common_of a b }
    ensures stays { promoted result ≡ result }
{
    match (promote(a), promote(b)) {
        (IntType::ULLong, _) | (_, IntType::ULLong) => IntType::ULLong,
        // a `long long` cannot hold each `unsigned long`
        (IntType::ULong, IntType::LLong) | (IntType::LLong, IntType::ULong) => IntType::ULLong,
        (IntType::LLong, _) | (_, IntType::LLong) => IntType::LLong,
        (IntType::ULong, _) | (_, IntType::ULong) => IntType::ULong,
        (IntType::Long, _) | (_, IntType::Long) => IntType::Long,
        (IntType::UInt, _) | (_, IntType::UInt) => IntType::UInt,
        _ => IntType::Int,
    }
}

/// The value of a type that a number is converted to (C17 6.3.1.2 and 6.3.1.3).
pub fn convert(v: i128, to: IntType) -> i128
    ensures value { result ≡ converted to v }
    ensures within { InRange to result }
{
    match to {
        IntType::Bool => { if v == 0 { 0 } else { 1 } }
        _ => wrap(v, to),
    }
}

/// How many numbers the digits of the type can tell apart.
pub(crate) fn modulus(t: IntType) -> i128
    ensures { result ≡ pos (2 ^ width_of t) }
{
    1 << width(t)
}

/// The value of the type that differs from `v` by a multiple of the modulus.
pub(crate) fn wrap(v: i128, t: IntType) -> i128
    ensures value { result ≡ wrapped t v }
    ensures within { InRange t result }
{
    let modulus = modulus(t);
    let residue = v.rem_euclid(modulus);
    let (_, greatest) = range(t);
    if greatest < residue {
        residue - modulus
    } else {
        residue
    }
}
