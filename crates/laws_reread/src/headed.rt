//! Laws of the heads of functions and of the words of a source: the functions do nothing.
ghost use Rattle.laws_reread.specs.Headed.{
  SourcesHaveNumerals,
  SourcesKeepKinds,
  TextsAreBalanced,
  TextsHaveHeads,
};

use laws_types::programs_have_their_source;

/// Among the words of a source each number that the table puts is a constant with its value.
pub fn sources_have_numerals()
    ensures { SourcesHaveNumerals }
{}

/// Each token has the kind that the source gives its text, wherever it stands.
pub fn sources_keep_kinds()
    ensures { SourcesKeepKinds }
{}

/// In a text of the profile the brackets belong together before each function, among its
/// parameters, in its body, and after the last function.
pub fn texts_are_balanced()
    ensures { TextsAreBalanced }
{
    programs_have_their_source();
}

/// In a text of the profile external declarations, each through its `;`, stand before the
/// specifiers of each function, and its parameters stand in one pair of parentheses after its name.
pub fn texts_have_heads()
    ensures { TextsHaveHeads }
{
    programs_have_their_source();
}
