//! Laws of the pieces of a text.
ghost use Rattle.adapt_tokens.specs.Laws as laws;

/// Each text, whatever bytes it has, has pieces.
pub fn each_text_has_pieces()
    ensures { laws.EachTextHasPieces }
{}

/// A text has only one list of pieces.
pub fn one_piece_list()
    ensures { laws.OnePieceList }
{}
