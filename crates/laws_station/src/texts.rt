//! What a reply with status 0 or 1 says. The functions do nothing: each has a law as its contract.
ghost use Rattle.laws_station.specs.Ends.{EndsAreTold};
ghost use Rattle.laws_station.specs.Reports.{ReportsAreOfTheirSource};
ghost use Rattle.laws_station.specs.Texts.{TextsAreCalled, TextsAreOfFiles, TextsHaveFiles};

/// A report is of its source: with 0 or 1 of `report` there are tokens, a tree, a typed program and
/// its decisions of these bytes, and the text is the report on them, by the plain runs of the
/// tests.
pub fn reports_are_of_their_source()
    ensures { ReportsAreOfTheirSource }
{}

/// A reply with 0 or 1 comes exactly where all files of a command are accepted, and is what the
/// command tells of them.
pub fn texts_are_of_files()
    ensures leads { TextsAreOfFiles }
    ensures calls { TextsAreCalled }
    ensures accepted { TextsHaveFiles }
{}

/// Which of 0 and 1 it is: 0 where all tests passed and nothing that the command tells of is
/// missing or stale or survives, and always for a text of the source alone, for a record of two,
/// and for a source that the program makes itself.
pub fn ends_are_told()
    ensures { EndsAreTold }
{}
