//! What follows from the definitions. The functions do nothing: each has a law as its contract.
ghost use Rattle.laws_results.specs.Laws.{CountsAreLoads, TestLinesAreReports, TracesArePlain};

/// For a sound program, its instrumented tree and tests that fit it: what is told of the tests'
/// runs, call by call, is what is to be told of their plain runs, and so is where each stopped.
pub fn traces_are_plain()
    ensures { TracesArePlain }
{}

/// The line of a test is the one that a report has of it, and the lines of its calls follow.
pub fn test_lines_are_reports()
    ensures { TestLinesAreReports }
{}

/// The line that counts the tests is the one that `selfload` writes.
pub fn counts_are_loads()
    ensures { CountsAreLoads }
{}
