//! Laws of what `adapt` gives.
ghost use Rattle.mc_adapt.specs.Laws as laws;
ghost use Rattle.mc_adapt.specs.Left as left;

/// Each source has something that `adapt` gives.
pub fn each_source_adapts()
    ensures { laws.EachSourceAdapts }
{}

/// It has only one.
pub fn one_thing_is_given()
    ensures { laws.OneThingIsGiven }
{}

/// The pieces, one after the other, are the source.
pub fn pieces_are_the_source()
    ensures { laws.PiecesAreTheSource }
{}

/// The text has as many lines as the source.
pub fn as_many_lines()
    ensures { laws.AsManyLines }
{}

/// What is written of a piece stands on the line of the piece.
pub fn pieces_stay_on_their_lines()
    ensures { laws.PiecesStayOnTheirLines }
{}

/// Where no rule applies the text is the source, byte for byte.
pub fn untouched_is_the_source()
    ensures { laws.UntouchedIsTheSource }
{}

/// A line marker stays as it is.
pub fn markers_stay()
    ensures { laws.MarkersStay }
{}

/// Where nothing is outside the language, no rule applies again to the tokens that are left.
pub fn nothing_is_left_to_do()
    ensures { left.NothingIsLeftToDo }
{}
