//! The functions do nothing: each has a law as its contract.
ghost use Rattle.laws_functions.specs.Reports.{FunctionsAreReports, StatusIsReports};

/// The counts of a kind over all functions are those of the report.
pub fn functions_are_reports()
    ensures { FunctionsAreReports }
{}

/// The status of the counts of all obligations is that of the report.
pub fn status_is_reports()
    ensures { StatusIsReports }
{}
