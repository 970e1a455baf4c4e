//! What follows from the definitions. The functions do nothing: each has a law as its contract.
ghost use Rattle.mc_list.specs.Laws.{TextHasLines, LinesAreOne, ListingHasSource, PlacesAreOnLines, MarksAreWorst};

/// The lines of a text are lines, and joined they are the text.
pub fn text_has_lines()
    ensures { TextHasLines }
{}

/// A text has no other lines.
pub fn lines_are_one()
    ensures { LinesAreOne }
{}

/// Without its margins a listing is the source.
pub fn listing_has_source()
    ensures { ListingHasSource }
{}

/// A byte of the source stands on the line whose number is that of its place.
pub fn places_are_on_lines()
    ensures { PlacesAreOnLines }
{}

/// A line has the mark of the worst verdict on what starts there.
pub fn marks_are_worst()
    ensures { MarksAreWorst }
{}
