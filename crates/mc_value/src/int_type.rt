//! The integer types of C, their widths and ranges.

ghost use Rattle.std.specs.Prelude.{◌≡◌, IsTrue};
ghost use Rattle.mc_value.specs.IntTypes.{InRange, in_range, width_of, signed_of, least_of, greatest_of};

/// An integer type of C (C17 6.2.5): `char` is signed and has 8 bits, `short` has 16, `int` 32,
/// `long` and `long long` have 64, all in two's complement. An enumerated type is `Int`.
#[derive(Clone, Copy, Debug, PartialEq, Eq)]
pub enum IntType {
    /// `_Bool`.
    Bool,
    /// `char`, a type apart from `signed char` with the same values.
    Char,
    /// `signed char`.
    SChar,
    /// `unsigned char`.
    UChar,
    /// `short`.
    Short,
    /// `unsigned short`.
    UShort,
    /// `int`.
    Int,
    /// `unsigned int`.
    UInt,
    /// `long`.
    Long,
    /// `unsigned long`.
    ULong,
    /// `long long`.
    LLong,
    /// `unsigned long long`.
    ULLong,
}

/// How many bits a value of the type has, the sign bit included (C17 6.2.6.2p6).
pub fn width(t: IntType) -> u32
    ensures { result ≡ width_of t }
{
    match t {
        IntType::Bool => 1,
        IntType::Char | IntType::SChar | IntType::UChar => 8,
        IntType::Short | IntType::UShort => 16,
        IntType::Int | IntType::UInt => 32,
        IntType::Long | IntType::ULong | IntType::LLong | IntType::ULLong => 64,
    }
}

/// Whether the type has negative values.
pub fn is_signed(t: IntType) -> bool
    ensures { result ≡ signed_of t }
{
    match t {
        IntType::Bool
        | IntType::UChar
        | IntType::UShort
        | IntType::UInt
        | IntType::ULong
        | IntType::ULLong => false,
        IntType::Char
        | IntType::SChar
        | IntType::Short
        | IntType::Int
        | IntType::Long
        | IntType::LLong => true,
    }
}

/// The least and the greatest value of a type (C17 5.2.4.2.1).
pub fn range(t: IntType) -> (i128, i128)
    ensures least { result.0 ≡ least_of t }
    ensures greatest { result.1 ≡ greatest_of t }
{
    match t {
        IntType::Bool => (0, 1),
        IntType::Char | IntType::SChar => (-128, 127),
        IntType::UChar => (0, 255),
        IntType::Short => (-32768, 32767),
        IntType::UShort => (0, 65535),
        IntType::Int => (-2147483648, 2147483647),
        IntType::UInt => (0, 4294967295),
        IntType::Long | IntType::LLong => (-9223372036854775808, 9223372036854775807),
        IntType::ULong | IntType::ULLong => (0, 18446744073709551615),
    }
}

/// Whether a number is a value of the type.
pub fn is_in(t: IntType, v: i128) -> bool
    ensures value { result ≡ in_range t v }
    ensures inside { IsTrue result → InRange t v }
{
    let (least, greatest) = range(t);
    least <= v && v <= greatest
}
