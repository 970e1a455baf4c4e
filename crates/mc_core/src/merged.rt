//! Two matrices of the same bits, one after the other.
ghost use Rattle.std.specs.Prelude.{◌≡◌, ℕ, ◌+◌, ◌-◌, ◌<◌, ◌≤◌, ◌↔◌, Err, IfOk, IfErr};
ghost use Rattle.std.specs.Int.{bit_at};
ghost use Rattle.mc_limits.specs.Limits.{most_tests, most_words};
ghost use Rattle.mc_core.specs.Shape.{rows, word_count};
ghost use Rattle.mc_core.specs.Matrix.{Holds};
ghost use Rattle.mc_core.specs.Joined.{IsWordOf, AreJoined};
ghost use Rattle.mc_core.specs.Merged.{both_shapes, words_of_both, HoldsEither};

use crate::matrix::Matrix;
use crate::shape::{Shape, words};
use mc_limits::MOST_WORDS;
use std::alloc::{AllocError, Global};
use thiserror::Error;

/// Why two matrices have no common one.
#[derive(Clone, Copy, Debug, PartialEq, Eq, Error)]
pub enum MergeFault {
    /// The matrix would need more than 1,048,576 words; this many.
    #[error("matrix needs {words} words")]
    TooLarge { words: u64 },
    /// Memory has run out.
    #[error("out of memory")]
    OutOfMemory,
}

impl From<AllocError> for MergeFault {
    ghost use Rattle.std.specs.Prelude.{◌≡◌};
    ghost use Rattle.mc_core.specs.declared.merged.MergeFault.TheVariants.{OutOfMemory};

    ghost from_gives = { λ _ e. e ≡ OutOfMemory };

    fn from(_error: AllocError) -> MergeFault {
        MergeFault::OutOfMemory
    }
}

/// The tests of `left`, followed by those of `right`.
pub fn merge(alloc: Global, left: &Matrix, right: &Matrix) -> Result<Matrix, MergeFault>
    requires bits { left.now.shape.bits ≡ right.now.shape.bits }
    requires tests { left.now.shape.tests + right.now.shape.tests ≤ most_tests }
    ensures shape { IfOk result (λ m. m.shape ≡ both_shapes left.now.shape right.now.shape) }
    ensures pairs { IfOk result (λ m. (b t : ℕ) →
        Holds m b t ↔ HoldsEither left.now right.now b t) }
    ensures too_large { most_words < words_of_both left.now right.now
        → result ≡ Err (MergeFault.TooLarge (words_of_both left.now right.now)) }
    ensures fits { words_of_both left.now right.now ≤ most_words
        → IfErr result (λ e. e ≡ MergeFault.OutOfMemory) }
{
    let first = left.shape();
    let shape = Shape {
        bits: first.bits,
        tests: first.tests + right.shape().tests,
    };
    let count = words(shape);
    if count > MOST_WORDS {
        return Err(MergeFault::TooLarge { words: count });
    }
    let list = joined_words(alloc, left, right, shape)?;
    Ok(Matrix::of_words(shape, list))
}

// The words of both, those of bit 0 first.
#[tactic(auto, using(crate::proofs::Merging::none_joined, crate::proofs::Merging::one_joined))]
fn joined_words(
    alloc: Global,
    left: &Matrix,
    right: &Matrix,
    shape: Shape,
) -> Result<Vec<u64>, AllocError>
    requires small { word_count shape ≤ most_words }
    ensures { IfOk result (λ list.
        AreJoined left.now right.now (rows shape) (word_count shape) list.items) }
{
    let rows = shape.rows() as u64;
    let mut list = Vec::new(alloc);
    for place in 0..words(shape) {
        let bit = (place / rows) as u32;
        let row = (place % rows) as usize;
        list.push(joined_word(left, right, bit, row))?;
    }
    Ok(list)
}

// The word of a row of tests.
fn joined_word(left: &Matrix, right: &Matrix, bit: u32, row: usize) -> u64
    requires { row ≤ most_words }
    ensures { IsWordOf (HoldsEither left.now right.now bit) result row }
{
    left.word(bit, row) | later_word(right, bit, row, left.shape().tests)
}

// The word of a row of tests, where the matrix's own tests are counted from `offset` on.
fn later_word(matrix: &Matrix, bit: u32, row: usize, offset: u32) -> u64
    requires { row ≤ most_words }
    ensures { IsWordOf (λ t. (offset ≤ t) × Holds matrix.now bit (t - offset)) result row }
{
    let passed = (offset / 64) as usize;
    let shift = offset % 64;
    if row < passed {
        return 0;
    }
    let own = raised(matrix.word(bit, row - passed), shift);
    if shift == 0 || row == passed {
        return own;
    }
    own | lowered(matrix.word(bit, row - passed - 1), 64 - shift)
}

fn raised(word: u64, shift: u32) -> u64
    requires { shift < 64 }
    ensures low { (j : ℕ) → j < shift → bit_at result j ≡ 0 }
    ensures high { (j : ℕ) → shift ≤ j → j < 64 → bit_at result j ≡ bit_at word (j - shift) }
{
    word << shift
}

fn lowered(word: u64, shift: u32) -> u64
    requires { shift < 64 }
    ensures low { (j : ℕ) → bit_at result j ≡ bit_at word (j + shift) }
    ensures high { (j : ℕ) → 64 ≤ j + shift → bit_at result j ≡ 0 }
{
    word >> shift
}
