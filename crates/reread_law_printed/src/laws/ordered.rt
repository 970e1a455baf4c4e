//! Laws of the order of rows. The functions do nothing: each has a law as its contract.
ghost use Rattle.reread_law_printed.specs.ordered.Laws.{BlocksAreNested, RowsAreInOrder};

/// The rows of a body stand in the order of the text.
pub fn rows_are_in_order()
    ensures { RowsAreInOrder }
{}

/// In a text the parts of a block stand one after the other.
pub fn blocks_are_nested()
    ensures { BlocksAreNested }
{}
