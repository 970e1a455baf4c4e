//! Reports of short functions, by the definition. The functions do nothing: each has a law as its
//! contract. The lines were written out by hand.
ghost use Rattle.tests_report.specs.Bodies.{AreRight};
ghost use Rattle.tests_report.specs.Exits.{exits_asked, loops, plain, switches};
ghost use Rattle.tests_report.specs.Flap.{Reasoned, Unreasoned};
ghost use Rattle.tests_report.specs.Forms.{AllMetCsv, AllMetJson, Fields, LongName, ReasonsCsv, ReasonsJson, TestsJson};
ghost use Rattle.tests_report.specs.Places.{TwoFunctions, counted_bodies, labelled_bodies, labels_asked, statements_asked};
ghost use Rattle.tests_report.specs.Rows.{AllMet, Escaped, Failed, Ids, Limits, Negated, NoneRun, Reasons, Settled, States, SummedUp, TestLines, TwoAnds, TwoOrs};
ghost use Rattle.tests_report.specs.Whole.{InCsv, InJson, InText, InTextOfRecord, Vectors};

/// A whole report where all is met, by either kind of independence.
pub fn all_met()
    ensures { AllMet }
{}

/// The summary of a report where all is met, and of tests of which one passed.
pub fn summed_up()
    ensures { SummedUp }
{}

/// A whole report where no test is run.
pub fn none_run()
    ensures { NoneRun }
{}

/// Two whole reports on a program of 25 lines: with reasons for what is missing, and without.
pub fn flap_controller()
    ensures reasoned { Reasoned }
    ensures unreasoned { Unreasoned }
{}

/// Reasons of justifications.
pub fn reasons()
    ensures { Reasons }
{}

/// A reason with characters that are escaped, on a condition that has a pair too.
pub fn escaped()
    ensures { Escaped }
{}

/// Justified obligations leave the status 0; stale and missing ones do not.
pub fn settled()
    ensures { Settled }
{}

/// A test that did not pass makes the status 1, whichever way it ended.
pub fn failed()
    ensures { Failed }
{}

/// Pairs of a decision with a NOT.
pub fn negated()
    ensures { Negated }
{}

/// A condition that only the second kind of independence shows.
pub fn two_ands()
    ensures { TwoAnds }
{}

/// A condition that only the second kind shows, while the others are missing by either.
pub fn two_ors()
    ensures { TwoOrs }
{}

/// The states of tests that returned or trapped.
pub fn states()
    ensures { States }
{}

/// The states of tests that came to a limit.
pub fn limits()
    ensures { Limits }
{}

/// The names of obligations.
pub fn ids()
    ensures { Ids }
{}

/// Test lines, of a run and of a record.
pub fn test_lines()
    ensures { TestLines }
{}

/// The exits of bodies with `return`, `if` and blocks.
pub fn exits_of_plain_bodies()
    ensures { AreRight exits_asked plain }
{}

/// The exits of bodies that are loops.
pub fn exits_of_loops()
    ensures { AreRight exits_asked loops }
{}

/// The exits of bodies that are `switch`es.
pub fn exits_of_switches()
    ensures { AreRight exits_asked switches }
{}

/// The labels of a `switch`, and absent `default`s.
pub fn labels_in_order()
    ensures { AreRight labels_asked labelled_bodies }
{}

/// The statements that count, and declarations that do not.
pub fn statements_that_count()
    ensures { AreRight statements_asked counted_bodies }
{}

/// Two functions: each kind of obligation is numbered over the whole text.
pub fn two_functions()
    ensures { TwoFunctions }
{}

/// A whole report where all is met, as rows of comma-separated fields and as JSON.
pub fn all_met_in_forms()
    ensures csv { AllMetCsv }
    ensures json { AllMetJson }
{}

/// Stale and justified obligations, as rows of comma-separated fields and as JSON.
pub fn reasons_in_forms()
    ensures csv { ReasonsCsv }
    ensures json { ReasonsJson }
{}

/// Fields with commas, quotes and line ends, one with bytes that are not text, and a name of 64.
pub fn fields()
    ensures fields { Fields }
    ensures name { LongName }
{}

/// Tests as JSON, of a run and of a record.
pub fn tests_as_json()
    ensures { TestsJson }
{}

/// A whole report with each verdict, on a source of two lines: as text, from a run and from a
/// record, as rows of comma-separated fields, and as JSON.
pub fn not_all_met()
    ensures text { InText }
    ensures record_text { InTextOfRecord }
    ensures csv { InCsv }
    ensures json { InJson }
{}

/// The lines of the vectors that tests evaluate, of two decisions.
pub fn vectors()
    ensures { Vectors }
{}
