//! Laws of printed texts: their bytes are read again as the tokens that were printed. The functions
//! do nothing: each has a law as its contract.
ghost use Rattle.std.specs.Prelude.{◌≡◌, All, None, []};
ghost use Rattle.mc_lex.specs.declared.token.Dialect.TheVariants.{Instrumented};
ghost use Rattle.mc_lex.specs.Scans.{Scans};
ghost use Rattle.mc_print.specs.Pens.{spaced, texts_of};
ghost use Rattle.reread_law_printed.specs.spelled.Words.{IsToken, laid, tokens_in};
ghost use Rattle.reread_law_printed.specs.spelled.Laws.{InsertionsMean, KindsAreKept, OneMeaning, PlainTokensAreKept, PrintedTextScans, SpacedTokensScan, TokensMean};
ghost use Rattle.reread_law_printed.specs.spelled.Worked as worked;

/// A text by itself means at most one thing, and each token of a source is one by itself.
pub fn words_have_one_meaning()
    ensures one { OneMeaning }
    ensures each { TokensMean }
{}

/// A text is a token of the plain dialect exactly where it is one of the instrumented dialect, of
/// the same kind, and no name of a probe.
pub fn plain_tokens_are_kept()
    ensures { PlainTokensAreKept }
{}

/// What the table inserts are tokens of the instrumented dialect: words and punctuators of C, names
/// of probes, and numbers in decimal. Among the words of a printed text they have these kinds, and
/// the words of the source have the kinds of its tokens.
pub fn kinds_are_kept()
    ensures mean { InsertionsMean }
    ensures kinds { KindsAreKept }
{}

/// Tokens that are written with a blank or a line feed after each are read again: the same tokens,
/// at their places, and no fault. A character constant may hold a blank.
pub fn spaced_tokens_scan()
    ensures { SpacedTokensScan }
{}

/// The printed text of a tree over the tokens of a source, where its numbers have 32 bits at most,
/// is read as the words that were printed, each at its place, and no fault.
pub fn printed_text_scans()
    ensures { PrintedTextScans }
{}

/// A worked text.
pub fn worked_text()
    ensures words { All (IsToken Instrumented) worked.words }
    ensures kinds { tokens_in worked.source (texts_of worked.words) ≡ worked.words }
    ensures text { spaced (texts_of worked.words) ≡ worked.text }
    ensures tokens { laid 0 worked.words ≡ worked.tokens }
    ensures scan { Scans Instrumented [] worked.text worked.tokens None }
{}
