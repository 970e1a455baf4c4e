//! One cell as it is kept.
ghost use Rattle.std.specs.Prelude.{◌≡◌, ◌<◌, ◌^◌, ◌≤ℤ◌, ◌<ℤ◌, pos, neg_ℤ, Some, None, option_map, IfSome};
ghost use Rattle.mc_cells.specs.Rows.{IsSigned, IsUnsigned};
ghost use Rattle.mc_cells.specs.steps.Kept.{number_of};

/// How many numbers a word has.
const WORDS: i128 = 1 << 64;

/// A number is `high * 2^64 + low`, where it is set. A number of 64 bits is read and written in
/// `low`, without a test.
#[derive(Clone, Copy)]
pub struct Cell {
    low: u64,
    high: i64,
    is_set: bool,
}

/// A cell that has no value.
pub const UNSET: Cell = Cell {
    low: 0,
    high: 0,
    is_set: false,
};

impl Cell {
    /// The cell with this number, or without one.
    pub fn of(value: Option<i128>) -> Cell
        ensures { number_of result ≡ value }
    {
        match value {
            Some(number) => Cell::of_number(number),
            None => UNSET,
        }
    }

    fn of_number(number: i128) -> Cell
        ensures { number_of result ≡ Some number }
    {
        let high = number.div_euclid(WORDS);
        let low = number.rem_euclid(WORDS);
        Cell {
            low: low as u64,
            high: high as i64,
            is_set: true,
        }
    }

    pub fn of_signed(number: i64) -> Cell
        ensures { number_of result ≡ Some number }
    {
        Cell {
            low: number.cast_unsigned(),
            high: if number < 0 { -1 } else { 0 },
            is_set: true,
        }
    }

    pub fn of_unsigned(number: u64) -> Cell
        ensures { number_of result ≡ Some (pos number) }
    {
        Cell {
            low: number,
            high: 0,
            is_set: true,
        }
    }

    /// Its number, where it has one.
    pub fn number(self) -> Option<i128>
        ensures { result ≡ number_of self }
    {
        if self.is_set {
            Some(self.high as i128 * WORDS + self.low as i128)
        } else {
            None
        }
    }

    /// The same where the number is one of 64 bits with a sign.
    pub fn signed(self) -> Option<i64>
        requires { IfSome (number_of self) IsSigned }
        ensures { result ≡ number_of self }
    {
        if self.is_set {
            Some(self.low.cast_signed())
        } else {
            None
        }
    }

    /// The same where the number is one of 64 bits without a sign.
    pub fn unsigned(self) -> Option<u64>
        requires { IfSome (number_of self) IsUnsigned }
        ensures { option_map pos result ≡ number_of self }
    {
        if self.is_set { Some(self.low) } else { None }
    }
}
