//! What calls take and give.
use crate::prepared::Prepared;
use mc_limits::MOST_PARAMETERS;
use mc_value::IntType;

/// Arguments of a call: as many as a function has parameters.
pub(crate) const MOST_PASSED: usize = MOST_PARAMETERS as usize;

/// An array that an array parameter names: its first cell, and its length.
#[derive(Clone, Copy, Default)]
pub(crate) struct Lent {
    pub base: u32,
    pub length: u32,
}

/// What a call gives: nothing, a word of a type, or a structure of so many cells at a place.
#[derive(Clone, Copy)]
pub(crate) enum Given {
    Nothing,
    Number { of: IntType, word: u64 },
    Structure { at: u32, cells: u32 },
}

/// An argument: a word of a type, the place of a structure, or an array.
#[derive(Clone, Copy)]
pub(crate) enum Passed {
    Number { of: IntType, word: u64 },
    Structure { at: u32 },
    Array(Lent),
}

impl Default for Passed {
    /// A value that stands for none.
    fn default() -> Passed {
        Passed::Structure { at: 0 }
    }
}

/// What an activation of a function takes: its levels, where they are fewer than 2^32, and its
/// cells; and the body that it runs.
#[derive(Drop)]
pub(crate) struct Shape<'p> {
    pub levels: u32,
    pub cells: u32,
    pub body: Vec<Prepared<'p>>,
}
