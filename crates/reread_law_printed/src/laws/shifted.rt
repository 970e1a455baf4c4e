//! Laws of the rows of a program at other places. The functions do nothing: each has a law as its
//! contract.
ghost use Rattle.reread_law_printed.specs.shifted.Laws.{RowsAreMoved};

use laws_types::programs_have_their_source;
use reread_law_places::laws::natural::units_move;

/// A program at other places of the same tokens has the same rows, at those places, and the same
/// tree with probes, places left out.
pub fn rows_are_moved()
    ensures { RowsAreMoved }
{
    programs_have_their_source();
    units_move();
}
