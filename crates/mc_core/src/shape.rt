//! The size of a matrix.
ghost use Rattle.std.specs.Prelude.{◌≡◌, ◌^◌, ◌≤◌};
ghost use Rattle.mc_core.specs.Shape.{place, rows, word_count};

/// The size of a matrix: so many bits under so many tests.
#[derive(Clone, Copy, Debug, PartialEq, Eq)]
pub struct Shape {
    pub bits: u32,
    pub tests: u32,
}

impl Shape {
    /// The number of words of one bit, 64 tests to a word.
    pub fn rows(self) -> usize
        ensures value { result ≡ rows self }
        ensures small { result ≤ 2 ^ 26 }
    {
        (self.tests as usize).div_ceil(64)
    }

    /// The index of the word in which the bit lies under the test.
    pub fn place(self, bit: u32, test: u32) -> usize
        ensures { result ≡ place self bit test }
    {
        bit as usize * self.rows() + test as usize / 64
    }
}

/// The number of 64-bit words of a matrix of this shape. Each bit begins a word of its own.
pub fn words(shape: Shape) -> u64
    ensures { result ≡ word_count shape }
{
    u64::from(shape.bits) * u64::from(shape.tests).div_ceil(64)
}
