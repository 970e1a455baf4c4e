//! Laws of what calls lead to.
ghost use Rattle.mc_station.specs.Laws as laws;

use mc_core::words_follow_from_pairs;

/// Words and files call for at most one reply, but for the place of a fault of the syntax, and for
/// what the looks of `watch` count.
pub fn one_reply()
    ensures { laws.OneReply }
{
    words_follow_from_pairs();
}

/// Status 2 comes exactly where the words are not a command, unless something fails.
pub fn no_command_alone()
    ensures { laws.NoCommandAlone }
{}

/// With status 3 the source was asked for, and nothing else, where a file is asked for at all.
pub fn source_alone()
    ensures { laws.SourceAlone }
{}

/// Nothing goes to the output but with a text that is written whole.
pub fn refusals_are_silent()
    ensures { laws.RefusalsAreSilent }
{}

/// Files are asked for in the order of their command; with status 6 the last one is named.
pub fn asked_in_order()
    ensures order { laws.AskedInOrder }
    ensures last { laws.LastIsNamed }
{}

/// A record that `merge` writes of two records of a source is the one that `record` would write of
/// the tests of both, if the closer skips none.
pub fn merged_is_of_both()
    ensures { laws.MergedIsOfBoth }
{}
