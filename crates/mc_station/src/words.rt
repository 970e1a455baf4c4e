//! The words of matrices.
ghost use Rattle.mc_core.specs.Laws.{AreWords};

use mc_core::Matrix;

/// A matrix has words of its shape. The function does nothing: its contract says so.
pub fn words_fit(matrix: &Matrix)
    ensures { AreWords matrix.now.shape matrix.now.words }
{
    let _words = matrix.as_words();
}
