//! The matrix of bits under tests.
ghost use Rattle.std.specs.Prelude.{◌≡◌, ℕ, ◌^◌, ◌<◌, ◌≤◌, ◌⊎◌, ◌↔◌, List, All, vec_len, IsTrue, IsNone, IfSome, IfOk};
ghost use Rattle.mc_limits.specs.Limits.{most_words};
ghost use Rattle.mc_core.specs.Shape.{word_count};
ghost use Rattle.mc_core.specs.Joined.{IsWordOf};
ghost use Rattle.mc_core.specs.Matrix.{Holds, HasNoSpareBit, IsSound, empty_matrix, with_pair};

use crate::shape::{Shape, words};
use std::alloc::{AllocError, Global};
use std::marker::Model;

/// Which bit was recorded under which test. Contracts see its shape and its list of words:
/// bit b under test t is bit t mod 64 of word b * rows + t / 64, and rows is tests / 64 rounded up.
#[derive(Drop)]
pub struct Matrix {
    shape: Shape,
    words: Vec<u64>,
}

impl Model for Matrix {
    ghost use Rattle.mc_core.specs.Matrix.{MatrixView, IsSound};

    ghost Value = { MatrixView };

    ghost view = { λ m. record { shape = m.shape; words = m.words.items } };

    ghost invariant = { λ m. IsSound m.shape m.words.items };
}

impl Matrix {
    /// The matrix in which all bits are clear.
    pub fn zero(alloc: Global, shape: Shape) -> Result<Matrix, AllocError>
        requires small { word_count shape ≤ most_words }
        ensures { IfOk result (λ m. m ≡ empty_matrix shape) }
    {
        let words: Vec<u64> = vec![in alloc; 0; words(shape) as usize]?;
        Ok(Matrix { shape, words })
    }

    /// The matrix that these words are.
    pub fn of_words(shape: Shape, list: Vec<u64>) -> Matrix
        requires whole { vec_len list ≡ word_count shape }
        requires spare { HasNoSpareBit shape list.items }
        ensures { result ≡ record { shape = shape; words = list.items } }
    {
        Matrix { shape, words: list }
    }

    /// How many bits and tests it has.
    pub fn shape(&self) -> Shape
        ensures { result ≡ self.now.shape }
    {
        self.shape
    }

    /// Lends the words, those of bit 0 first.
    pub fn as_words(&self) -> &[u64]
        ensures words { result.now ≡ self.now.words }
        ensures fits { All (λ w. w < 2 ^ 64) self.now.words }
        ensures sound { IsSound self.now.shape self.now.words }
    {
        let words = self.words.as_slice();
        words
    }

    /// Records the bit under the test.
    pub fn set(&mut self, bit: u32, test: u32)
        requires in_range { (bit < self.old.shape.bits) × (test < self.old.shape.tests) }
        ensures words { self.new ≡ with_pair self.old bit test }
        ensures pairs { (b t : ℕ) →
            Holds self.new b t ↔ (Holds self.old b t ⊎ ((b ≡ bit) × (t ≡ test))) }
    {
        let place = self.shape.place(bit, test);
        self.words[place] |= 1 << (test % 64);
    }

    /// Whether the bit is recorded under the test. A pair out of range is not.
    pub fn holds(&self, bit: u32, test: u32) -> bool
        ensures { IsTrue result ↔ Holds self.now bit test }
    {
        if bit >= self.shape.bits || test >= self.shape.tests {
            return false;
        }
        self.words[self.shape.place(bit, test)] >> (test % 64) & 1 == 1
    }

    /// The word of 64 tests of a bit, from test 64 * `row` on; 0 out of range.
    pub(crate) fn word(&self, bit: u32, row: usize) -> u64
        ensures { IsWordOf (Holds self.now bit) result row }
    {
        if bit >= self.shape.bits || row >= self.shape.rows() {
            return 0;
        }
        self.words[self.shape.place(bit, 0) + row]
    }

    /// The least test under which the bit is recorded.
    pub fn least_test(&self, bit: u32) -> Option<u32>
        ensures some { IfSome result (λ t.
            Holds self.now bit t × ((u : ℕ) → u < t → ¬ Holds self.now bit u)) }
        ensures none { IsNone result ↔ ((t : ℕ) → ¬ Holds self.now bit t) }
    {
        if bit >= self.shape.bits {
            return None;
        }
        let first = self.shape.place(bit, 0);
        for row in 0..self.shape.rows() {
            let word = self.words[first + row];
            if word != 0 {
                return Some(row as u32 * 64 + word.trailing_zeros());
            }
        }
        None
    }
}
