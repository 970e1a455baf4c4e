//! Suffixes of integer constants.
ghost use Rattle.std.specs.Prelude.{◌≡◌};
ghost use Rattle.mc_lex.specs.Numbers as numbers;
ghost use Rattle.mc_lex.specs.steps.Scanner as spec;

use crate::table::is_one_of;

/// The suffix of an integer constant (C17 6.4.4.1), with letters of either case
/// and its two parts in either order.
#[derive(Clone, Copy, Debug, PartialEq, Eq)]
pub enum Suffix {
    None,
    U,
    L,
    Ul,
    Ll,
    Ull,
}

const U: [&[u8]; 2] = [b"u", b"U"];

const L: [&[u8]; 2] = [b"l", b"L"];

const UL: [&[u8]; 8] = [b"ul", b"uL", b"Ul", b"UL", b"lu", b"lU", b"Lu", b"LU"];

const LL: [&[u8]; 2] = [b"ll", b"LL"];

const ULL: [&[u8]; 8] = [
    b"ull", b"uLL", b"Ull", b"ULL", b"llu", b"llU", b"LLu", b"LLU",
];

impl Suffix {
    /// The suffix that the text is.
    pub fn of(text: &[u8]) -> Option<Suffix>
        ensures { result ≡ spec.suffix_of text.now }
    {
        if text.is_empty() {
            Some(Suffix::None)
        } else if is_one_of(&U, text) {
            Some(Suffix::U)
        } else if is_one_of(&L, text) {
            Some(Suffix::L)
        } else if is_one_of(&UL, text) {
            Some(Suffix::Ul)
        } else if is_one_of(&LL, text) {
            Some(Suffix::Ll)
        } else if is_one_of(&ULL, text) {
            Some(Suffix::Ull)
        } else {
            None
        }
    }

    /// Whether it has a `u` or `U`.
    pub fn has_u(self) -> bool
        ensures { result ≡ numbers.has_u self }
    {
        match self {
            Suffix::U | Suffix::Ul | Suffix::Ull => true,
            Suffix::None | Suffix::L | Suffix::Ll => false,
        }
    }

    /// How many `l` or `L` it has.
    pub fn longs(self) -> u32
        ensures { result ≡ numbers.longs_of self }
    {
        match self {
            Suffix::None | Suffix::U => 0,
            Suffix::L | Suffix::Ul => 1,
            Suffix::Ll | Suffix::Ull => 2,
        }
    }
}
