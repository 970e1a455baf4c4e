//! The number of workers. The functions do nothing: each has a law as its contract.
ghost use Rattle.std.specs.Prelude.{◌≡◌, [], Some};
ghost use Rattle.mc_command.specs.Command.{command_of};
ghost use Rattle.laws_station.specs.Workers as laws;

use mc_core::words_follow_from_pairs;

/// Two calls whose words differ in the number of workers alone lead to the same replies, with the
/// same files asked for; of two replies that they call for each is the other, but for the place of
/// a fault of the syntax, and for what the looks of `watch` count.
pub fn workers_change_nothing()
    ensures leads { laws.WorkersLeadAlike }
    ensures calls { laws.WorkersCallAlike }
    ensures replies { laws.WorkersReplyAlike }
{
    words_follow_from_pairs();
}

/// Two lines of words, without and with `--workers`.
#[tactic(auto, unfolding(mc_command::specs::Command::command_of, clap::proofs::OnLiterals::clap_on_literals))]
fn reports_by_workers()
    ensures first { command_of (laws.report_words []) ≡ Some laws.plain_report }
    ensures second { command_of (laws.report_words laws.by_most)
        ≡ Some (laws.shared 64 laws.plain_report) }
{}

/// `--workers` is what such words differ in.
pub fn workers_are_an_option()
    ensures { laws.WorkersAreAnOption }
{
    reports_by_workers();
}
