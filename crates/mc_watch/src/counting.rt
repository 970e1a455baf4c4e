//! How much a matrix holds.
ghost use Rattle.std.specs.Prelude.{◌≤◌};
ghost use Rattle.mc_limits.specs.Limits.{most_words};
ghost use Rattle.mc_core.specs.Shape.{word_count};
ghost use Rattle.mc_core.specs.Matrix.{Holds};
ghost use Rattle.mc_watch.specs.Watched.{AreSoMany};

use mc_core::Matrix;

/// How many pairs of a bit and a test the matrix holds.
pub fn pairs(matrix: &Matrix) -> u32
    requires small { word_count matrix.now.shape ≤ most_words }
    ensures { AreSoMany (Holds matrix.now) result }
{
    let mut count = 0;
    for word in matrix.as_words() {
        count += word.count_ones();
    }
    count
}
