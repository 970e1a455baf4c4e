//! The functions do nothing: each has a law as its contract.
ghost use Rattle.laws_station.specs.Laws as laws;

/// A file of justifications is asked for only where the matrix fits: once it was asked for, status
/// 9 does not come, and with 9 only the files before it were asked for.
pub fn justifications_after_matrix()
    ensures fits { laws.ReasonsAfterMatrix }
    ensures too_large { laws.TooLargeBeforeReasons }
{}

/// Where all files of a command are accepted and its matrix fits, the status is 0 or 1, unless the
/// store, a sink or memory fails.
pub fn accepted_files_give_texts()
    ensures reply { laws.AcceptedFilesGiveTexts }
    ensures status { laws.AcceptedFilesEndWell }
{}
