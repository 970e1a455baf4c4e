//! Laws of where the rows of the table may stand in a text. The functions do nothing: each has a
//! law as its contract.
ghost use Rattle.reread_law_rows.specs.fitting.Laws.{ScannedTokensMeanTheirKinds, TextsFit};

/// The tokens of a source are what their texts mean.
pub fn scanned_tokens_mean_their_kinds()
    ensures { ScannedTokensMeanTheirKinds }
{}

/// In a text of the profile each part stands as a row of the table asks it.
pub fn texts_fit()
    ensures { TextsFit }
{}
