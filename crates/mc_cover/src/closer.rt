//! Closers make the matrix of a cover, and may leave out tests.
ghost use Rattle.std.specs.Prelude.{◌≡◌, ℕ, ◌*◌, ◌<◌, ◌↔◌, List, [], ◌∷◌, length, Contains};
ghost use Rattle.mc_core.specs.Shape.{word_count, rows};
ghost use Rattle.mc_core.specs.Matrix.{Holds, HasNoSpareBit, bit_of};
ghost use Rattle.mc_cover.specs.Closed.{left_of};

use crate::calls::{close, closing_words};
use crate::cover::Cover;
use crate::pass::Pass;
use crate::view::Role;
use mc_core::{Matrix, Shape};

/// What makes the matrix of a cover. It takes no memory.
pub trait Closer {
    // The tests whose hits it leaves out. No call tells them.
    ghost skipped: { Self → List ℕ };

    fn close(&self, cover: Cover, pass: Pass) -> Matrix
        requires own { pass.cover ≡ cover.cover }
        requires opener { pass.view.role ≡ Role.Opener }
        requires joined { pass.view.forks ≡ pass.view.joined }
        ensures shape { result.shape ≡ cover.shape }
        ensures pairs { (b t : ℕ) → Holds result b t
            ↔ (Contains pass.view.hits (b, t) × ¬ Contains (skipped self.now) t) };
}

/// The closer of the program. It skips no test.
pub struct PlainCloser;

impl Closer for PlainCloser {
    ghost use Rattle.std.specs.Prelude.{[]};

    ghost skipped = { λ _. [] };

    fn close(&self, cover: Cover, pass: Pass) -> Matrix {
        close(cover, pass)
    }
}

/// Leaves out the tests of its list. It serves tests alone.
#[derive(Drop)]
pub struct SkippingCloser {
    pub skipped: Vec<u32>,
}

impl Closer for SkippingCloser {
    ghost skipped = { λ c. c.skipped.items };

    fn close(&self, cover: Cover, pass: Pass) -> Matrix {
        let shape = cover.shape;
        let mut words = closing_words(cover, pass);
        clear_tests(words.as_mut_slice(), shape, self.skipped.as_slice());
        Matrix::of_words(shape, words)
    }
}

// No bit has one of the tests any more.
fn clear_tests(words: &mut [u64], shape: Shape, tests: &[u32])
    requires whole { length words.old ≡ word_count shape }
    requires spare { HasNoSpareBit shape words.old }
    ensures whole { length words.new ≡ word_count shape }
    ensures bits { (b t : ℕ) → b < shape.bits → t < 64 * rows shape
        → bit_of shape words.new b t ≡ left_of tests.now t (bit_of shape words.old b t) }
{
    for test in tests {
        clear_test(words, shape, *test);
    }
}

// No bit has the test any more.
fn clear_test(words: &mut [u64], shape: Shape, test: u32)
    requires whole { length words.old ≡ word_count shape }
    requires spare { HasNoSpareBit shape words.old }
    ensures whole { length words.new ≡ word_count shape }
    ensures bits { (b t : ℕ) → b < shape.bits → t < 64 * rows shape
        → bit_of shape words.new b t ≡ left_of (test ∷ []) t (bit_of shape words.old b t) }
{
    if test >= shape.tests {
        return;
    }
    for bit in 0..shape.bits {
        words[shape.place(bit, test)] &= !(1 << (test % 64));
    }
}
