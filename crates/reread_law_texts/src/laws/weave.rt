//! Laws of texts with brackets put into them: their trees differ in these brackets alone. The
//! functions do nothing: each has a law as its contract.
ghost use Rattle.reread_law_texts.specs.weave.Laws.{HeightIsWithin, WovenTextsHaveBracketedTrees};

/// The tree of the tokens with brackets is the tree with these brackets: each stands where what it
/// encloses begins or ends, and nothing else changes.
pub fn woven_texts_have_bracketed_trees()
    ensures { WovenTextsHaveBracketedTrees }
{}

/// A tree with at most `m` parentheses round each expression is at most `m + 1` times as high.
pub fn height_is_within()
    ensures { HeightIsWithin }
{}
