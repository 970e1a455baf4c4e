//! What follows from the definitions. The functions do nothing: each has a law as its contract.
ghost use Rattle.mc_report.specs.Laws.{VectorIsOfPath, VerdictsAreReported, EvaluatedArePresent, ReportsHaveNoFloat};

/// The vector that is written for a path is the one with its number.
pub fn vector_is_of_path()
    ensures { VectorIsOfPath }
{}

/// The verdicts on a map's obligations can be reported.
pub fn verdicts_are_reported()
    ensures { VerdictsAreReported }
{}

/// The evaluated paths of a matrix can be written with the tests of the matrix.
pub fn evaluated_are_present()
    ensures { EvaluatedArePresent }
{}

/// The JSON value of a report holds no float.
pub fn reports_have_no_float()
    ensures { ReportsHaveNoFloat }
{}
