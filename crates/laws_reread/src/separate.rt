//! Laws of rows side by side: the functions do nothing.
ghost use Rattle.laws_reread.specs.Separate.{RowsAreSeparate};

use laws_types::programs_have_their_source;
use reread_law_printed::laws::ordered::blocks_are_nested;

/// Of the rows of a text of the profile each may stand directly after the one before it.
pub fn rows_are_separate()
    ensures { RowsAreSeparate }
{
    programs_have_their_source();
    blocks_are_nested();
}
