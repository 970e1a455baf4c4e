//! Laws of a program among the tokens of its source: the functions do nothing.
ghost use Rattle.laws_reread.specs.Among.{SourcesStand, TextsStand};

use laws_types::programs_have_their_source;
use reread_law_printed::laws::ordered::{blocks_are_nested, rows_are_in_order};
use reread_law_rows::laws::carried::rows_fit;
use reread_law_rows::laws::fitting::{scanned_tokens_mean_their_kinds, texts_fit};
use reread_law_texts::laws::alike::tokens_follow;

/// The functions and rows of a program stand among the tokens of its text, each where the table
/// puts it and after the one before it.
pub fn texts_stand()
    ensures { TextsStand }
{
    programs_have_their_source();
    rows_fit();
    texts_fit();
    rows_are_in_order();
    blocks_are_nested();
}

/// So do those of each source.
pub fn sources_stand()
    ensures { SourcesStand }
{
    tokens_follow();
    scanned_tokens_mean_their_kinds();
    texts_stand();
}
