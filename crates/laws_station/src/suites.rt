//! What several calls on the tests of one source say. The functions do nothing: each has a law as
//! its contract.
ghost use Rattle.laws_station.specs.Analysed.{AnalysisIsReport};
ghost use Rattle.laws_station.specs.Joined.{MergeIsRecord};
ghost use Rattle.laws_station.specs.Reduced.{KeptShowAll};

use mc_core::words_follow_from_pairs;
use mc_grammar::laws::tree_is_no_longer_than_text;

/// `analyse` writes of a record what `report` writes of its tests, with the same verdicts, counts,
/// reasons and status, but for the values and outputs of the tests.
pub fn analysis_is_report()
    ensures { AnalysisIsReport }
{
    tree_is_no_longer_than_text();
}

/// `merge` writes of the records of two parts of a tests file the record of the whole, byte for
/// byte.
pub fn merge_is_record()
    ensures { MergeIsRecord }
{
    tree_is_no_longer_than_text();
    words_follow_from_pairs();
}

/// A report on the tests that `reduce` keeps says of each obligation what the report on all says.
pub fn kept_show_all()
    ensures { KeptShowAll }
{}
