//! The bits of one test after the other.
ghost use Rattle.std.specs.Prelude.{◌≡◌, ℕ, ◌<◌, ◌/◌, ◌%◌, IfOk, OnOk};
ghost use Rattle.mc_core.specs.Shape.{rows};
ghost use Rattle.std.specs.Int.{bit_at};
ghost use Rattle.mc_reduce.specs.steps.Counts.{AreWordsAt};

use mc_core::Matrix;
use std::alloc::{AllocError, Global};

/// The words of 64 tests that stand side by side in a matrix: word b has those of bit b.
#[derive(Drop)]
pub(crate) struct Columns {
    alloc: Global,
    row: usize,
    words: Vec<u64>,
}

impl Columns {
    /// Those of the tests from 64 * `row` on.
    pub(crate) fn new(alloc: Global, matrix: &Matrix, row: usize) -> Result<Columns, AllocError>
        requires { row < rows matrix.now.shape }
        ensures { IfOk result (λ c. AreWordsAt matrix.now c.row c.words.items) }
    {
        let words = words_at(alloc, matrix, row)?;
        Ok(Columns { alloc, row, words })
    }

    /// Goes to those of this test.
    pub(crate) fn turn_to(&mut self, matrix: &Matrix, test: u32) -> Result<(), AllocError>
        requires test { test < matrix.now.shape.tests }
        requires words { AreWordsAt matrix.now self.old.row self.old.words.items }
        ensures words { OnOk result (AreWordsAt matrix.now self.new.row self.new.words.items) }
        ensures row { OnOk result (self.new.row ≡ test / 64) }
    {
        let row = test as usize / 64;
        if row == self.row {
            return Ok(());
        }
        self.words = words_at(self.alloc, matrix, row)?;
        self.row = row;
        Ok(())
    }

    /// The words of the bits.
    pub(crate) fn words(&self) -> &[u64]
        ensures { result.now ≡ self.now.words.items }
    {
        &self.words
    }
}

fn words_at(alloc: Global, matrix: &Matrix, row: usize) -> Result<Vec<u64>, AllocError>
    requires { row < rows matrix.now.shape }
    ensures { IfOk result (λ v. AreWordsAt matrix.now row v.items) }
{
    let shape = matrix.shape();
    let rows = shape.rows();
    let all = matrix.as_words();
    let mut found = Vec::new(alloc);
    for bit in 0..shape.bits {
        found.push(all[bit as usize * rows + row])?;
    }
    Ok(found)
}

/// The bit of a test in the word of its 64 tests: 0 or 1.
pub(crate) fn held(word: u64, test: u32) -> u32
    ensures { result ≡ bit_at word (test % 64) }
{
    (word >> (test % 64) & 1) as u32
}
