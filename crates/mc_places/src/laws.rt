//! What follows from the definitions. The functions do nothing: each has a law as its contract.
ghost use Rattle.mc_places.specs.Laws.{BytesStandOnLines, LinesGoUp, MarkersGiveLines, MarkersAreLexers, NoMarkerNoPlace};

/// Each byte stands on one of the lines that have a file and line, or none.
pub fn bytes_stand_on_lines()
    ensures { BytesStandOnLines }
{}

/// After a line that is no marker the number of the line goes up by one.
pub fn lines_go_up()
    ensures { LinesGoUp }
{}

/// The line after a marker has the number and the file that the marker gives.
pub fn markers_give_lines()
    ensures { MarkersGiveLines }
{}

/// A text without a marker has no file.
pub fn no_marker_no_place()
    ensures { NoMarkerNoPlace }
{}

/// What is a marker here is one for the tokens of a source too.
pub fn markers_are_lexers()
    ensures { MarkersAreLexers }
{}
