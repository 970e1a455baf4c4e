//! Laws of the text of a program with probes, as parts: the tokens of its source, and what the
//! table inserts. The functions do nothing: each has a law as its contract.
ghost use Rattle.reread_law_printed.specs.parts.Laws.{
  OwnTokensAreAlike,
  OwnTokensStay,
  PartsClose,
  PartsMove,
  PiecesOfParts,
  PlacedPartsAreShaped,
  PlainIsPoured,
  ProbesAreThere,
  RowsOfParts,
  ShapedPartsArePieces,
  WordsOfParts,
};

/// The parts of the text of a program with probes, one after the other, are that text.
pub fn words_of_parts()
    ensures { WordsOfParts }
{}

/// The parts that are rows of the table are the rows of the program, in the order of the text.
pub fn rows_of_parts()
    ensures { RowsOfParts }
{}

/// The other parts are the tokens of the source, in their order. The word `return` before a value
/// and the `;` after it stand in rows that are put in place of them.
pub fn own_tokens_stay()
    ensures { OwnTokensStay }
{}

/// Where the brackets of the source belong together, what the parts open is closed, the innermost
/// first: the brackets of the source and what rows open stand one inside the other.
pub fn parts_close()
    ensures { PartsClose }
{}

/// The same program at other places of the same tokens has the same parts.
pub fn parts_move()
    ensures { PartsMove }
{}

/// Among the pieces of the printed text, the tokens of the source have the kinds and texts that
/// they have in the source, in their order.
pub fn own_tokens_are_alike()
    ensures { OwnTokensAreAlike }
{}

/// Where the tokens have the places at which they are printed, the probes of the printed text stand
/// at the rows of the program.
pub fn probes_are_there()
    ensures { ProbesAreThere }
{}

/// There the text without its probes is the source with a bracket for each row that encloses
/// something, and for each end of such a row.
pub fn plain_is_poured()
    ensures { PlainIsPoured }
{}

/// Where what is opened is closed, a part may stand where it does if what stands directly before it
/// and what follows it allow it.
pub fn placed_parts_are_shaped()
    ensures { PlacedPartsAreShaped }
{}

/// Parts of which each may stand where it does are read as the pieces that they are: tokens of the
/// source as such tokens, and rows as rows.
pub fn shaped_parts_are_pieces()
    ensures { ShapedPartsArePieces }
{}

/// The printed text of a program is read as its parts, where what stands directly before each of
/// them and what follows it allow it.
pub fn pieces_of_parts()
    ensures { PiecesOfParts }
{}
