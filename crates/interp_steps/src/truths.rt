//! The truth of words.
ghost use Rattle.std.specs.Prelude.{◌≡◌, ◌==◌, not};

/// A word is true where it differs from 0, in the type that it has.
#[inline(always)]
pub fn is_true(word: u64) -> bool
    ensures { result ≡ not (word == 0) }
{
    word != 0
}
