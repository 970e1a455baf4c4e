//! Worked listings. The functions do nothing: each has laws as its contract.
ghost use Rattle.tests_list.specs.Rows.{OneLine, Marked, LineEnds};
ghost use Rattle.tests_list.specs.Flap.{Flap};

/// A line without a last LF, all of whose obligations are met, or one is missing.
pub fn one_line()
    ensures { OneLine }
{}

/// The worst verdict marks its line.
pub fn marked()
    ensures { Marked }
{}

/// LF alone ends a line, and each byte stays.
pub fn line_ends()
    ensures { LineEnds }
{}

/// The flap controller.
pub fn flap()
    ensures { Flap }
{}
