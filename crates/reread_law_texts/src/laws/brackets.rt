//! Laws of brackets that are put into a text by their places. The functions do nothing: each has a
//! law as its contract.
ghost use Rattle.reread_law_texts.specs.brackets.Laws.{PouredTextsHaveBracketedTrees};

/// Brackets that are put into the tokens of a text by their places alone give its tree these
/// brackets.
pub fn poured_texts_have_bracketed_trees()
    ensures { PouredTextsHaveBracketedTrees }
{}
