//! Laws of printed texts that are read again: the functions do nothing.
ghost use Rattle.laws_reread.specs.Laws.{
  CallsGiveWhatWasPrinted,
  OwnTokensEnd,
  OwnTokensFollow,
  PiecesAreRead,
  PrintedPartsArePieces,
  PrintedTextsAreReadAgain,
  PrintedTextsAreReadOnlySo,
};

use crate::among::{sources_stand, texts_stand};
use crate::headed::{
    sources_have_numerals, sources_keep_kinds, texts_are_balanced, texts_have_heads,
};
use crate::separate::rows_are_separate;
use laws_simulation::instrumented_programs_erase;
use laws_soundness::laws::units_are_sound;
use mc_grammar::laws::tree_is_no_longer_than_text;
use reread_law_places::laws::natural::units_move;
use reread_law_printed::laws::parts::{
    own_tokens_are_alike, parts_move, pieces_of_parts, plain_is_poured, probes_are_there,
    words_of_parts,
};
use reread_law_printed::laws::placed::{
    functions_have_entries, parts_are_followed, parts_are_inside, parts_are_placed,
    parts_come_after, sources_have_own_words, values_are_typed,
};
use reread_law_printed::laws::shifted::rows_are_moved;
use reread_law_printed::laws::spelled::printed_text_scans;
use reread_law_probes::laws::converted::implied_conversions_stand;
use reread_law_probes::laws::counted::instrumented_units_are_counted;
use reread_law_probes::laws::put::tables_are_put_back;
use reread_law_probes::laws::short::instrumented_numbers_are_short;
use reread_law_probes::laws::stood::{programs_stand_apart, stands_are_apart};
use reread_law_rows::laws::fitting::scanned_tokens_mean_their_kinds;
use reread_law_rows::laws::signed::{brackets_have_places, signs_are_those_of_the_tree};
use reread_law_rows::laws::taken::{locals_are_apart, probes_are_taken};
use reread_law_texts::laws::alike::{
    alike_texts_have_moved_trees, forms_are_kept, height_is_kept, trees_move,
};
use reread_law_texts::laws::apart::{brackets_start_before, places_are_apart, places_have_bytes};
use reread_law_texts::laws::brackets::poured_texts_have_bracketed_trees;
use reread_law_texts::laws::unwoven::trees_come_back;
use reread_law_texts::laws::weave::height_is_within;
use reread_program::laws::reads_as_one;

/// The tokens of the source among the pieces of a printed text follow each other, and end in the
/// text.
pub fn own_tokens_are_placed()
    ensures follow { OwnTokensFollow }
    ensures ends { OwnTokensEnd }
{
    words_of_parts();
}

/// Pieces whose probes stand at the rows of a program, and that are its text with brackets at these
/// rows where the probes are left out, are read as the program with its probes.
pub fn pieces_are_read()
    ensures { PiecesAreRead }
{
    places_are_apart();
    brackets_start_before();
    places_have_bytes();
    locals_are_apart();
    probes_are_taken();
    signs_are_those_of_the_tree();
    brackets_have_places();
    poured_texts_have_bracketed_trees();
    height_is_within();
    trees_come_back();
    tree_is_no_longer_than_text();
    units_are_sound();
    implied_conversions_stand();
    stands_are_apart();
    programs_stand_apart();
    instrumented_units_are_counted();
    tables_are_put_back();
}

/// The printed text of an accepted source's program with its probes is read as the pieces that are
/// its parts.
pub fn printed_parts_are_pieces()
    ensures { PrintedPartsArePieces }
{
    scanned_tokens_mean_their_kinds();
    sources_stand();
    sources_have_own_words();
    functions_have_entries();
    instrumented_numbers_are_short();
    sources_have_numerals();
    sources_keep_kinds();
    texts_are_balanced();
    texts_have_heads();
    rows_are_separate();
    parts_come_after();
    parts_are_followed();
    parts_are_inside();
    values_are_typed();
    parts_are_placed();
    pieces_of_parts();
}

/// The text that is printed of an accepted source's program with its probes is read, and gives this
/// program with these probes, places left out.
pub fn printed_texts_are_read_again()
    ensures { PrintedTextsAreReadAgain }
{
    scanned_tokens_mean_their_kinds();
    sources_stand();
    texts_stand();
    own_tokens_are_alike();
    own_tokens_are_placed();
    alike_texts_have_moved_trees();
    trees_move();
    height_is_kept();
    forms_are_kept();
    units_move();
    instrumented_programs_erase();
    rows_are_moved();
    parts_move();
    instrumented_numbers_are_short();
    printed_text_scans();
    printed_parts_are_pieces();
    probes_are_there();
    plain_is_poured();
    pieces_are_read();
}

/// It is read as no other tree, and not refused. So each call that gives what a text is read as
/// gives this tree of it, but for want of memory.
pub fn printed_texts_are_read_only_so()
    ensures only { PrintedTextsAreReadOnlySo }
    ensures calls { CallsGiveWhatWasPrinted }
{
    reads_as_one();
    printed_texts_are_read_again();
}
