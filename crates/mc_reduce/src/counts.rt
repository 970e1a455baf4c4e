//! How many of the tests have a bit.
ghost use Rattle.std.specs.Prelude.{◌≡◌, ◌+◌, ◌≤◌, ℕ, ◌<◌, ◌%◌, [], length, slice_index, IfOk, IfSome, IfNone, IsTrue, ◌↔◌};
ghost use Rattle.std.specs.Int.{bit_at};
ghost use Rattle.mc_reduce.specs.steps.Counts.{AreCounts, HasCounts, IsSingle, count_below};

use crate::columns::held;
use mc_core::Matrix;
use std::alloc::{AllocError, Global};

/// The number of tests that have the bit, for each bit.
pub(crate) fn counts(alloc: Global, matrix: &Matrix) -> Result<Vec<u32>, AllocError>
    ensures { IfOk result (λ v. AreCounts matrix.now matrix.now.shape.tests [] v.items) }
{
    let mut found = Vec::new(alloc);
    for bit in 0..matrix.shape().bits {
        found.push(count_of(matrix, bit))?;
    }
    Ok(found)
}

/// How many of the tests have the bit.
fn count_of(matrix: &Matrix, bit: u32) -> u32
    requires { bit < matrix.now.shape.bits }
    ensures { result ≡ count_below matrix.now bit matrix.now.shape.tests }
{
    let shape = matrix.shape();
    let words = matrix.as_words();
    let first = bit as usize * shape.rows();
    let mut count = 0;
    for test in 0..shape.tests {
        count += held(words[first + test as usize / 64], test);
    }
    count
}

/// Takes a test away from the counts of its bits.
pub(crate) fn lower(counts: &mut [u32], words: &[u64], test: u32)
    requires { HasCounts test counts.old words.now }
    ensures { (b : ℕ) → b < length counts.old → slice_index counts.new b
        + bit_at (slice_index words.now b) (test % 64) ≡ slice_index counts.old b }
{
    for bit in 0..counts.len() {
        counts[bit] -= held(words[bit], test);
    }
}

/// The first bit of these that the test has, and no other.
pub(crate) fn first_single(
    counts: &[u32],
    words: &[u64],
    first: u32,
    end: u32,
    test: u32,
) -> Option<u32>
    requires end { end ≤ length counts.now }
    requires counts { HasCounts test counts.now words.now }
    ensures some { IfSome result (λ b. IsSingle test counts.now words.now b) }
    ensures within { IfSome result (λ b. (first ≤ b) × (b < end)) }
    ensures first { IfSome result (λ b. (c : ℕ) → first ≤ c → c < b
        → ¬ IsSingle test counts.now words.now c) }
    ensures none { IfNone result ((c : ℕ) → first ≤ c → c < end
        → ¬ IsSingle test counts.now words.now c) }
{
    for bit in first..end {
        if is_single(counts[bit as usize], words[bit as usize], test) {
            return Some(bit);
        }
    }
    None
}

/// Whether only this test has the bit.
pub(crate) fn is_single(count: u32, word: u64, test: u32) -> bool
    ensures { IsTrue result ↔ ((count ≡ 1) × (bit_at word (test % 64) ≡ 1)) }
{
    count == 1 && held(word, test) == 1
}
