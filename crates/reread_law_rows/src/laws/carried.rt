//! Laws of rows and the text in which they stand. The functions do nothing: each has a law as its
//! contract.
ghost use Rattle.reread_law_rows.specs.carried.Laws.{RowsFit};

use laws_types::programs_have_their_source;

/// The rows of a body of an instrumented program stand at parts of the text of its source as `Fits`
/// asks it, where these parts stand as rows ask it.
pub fn rows_fit()
    ensures { RowsFit }
{
    programs_have_their_source();
}
