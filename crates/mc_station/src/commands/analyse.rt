//! The command `analyse`.
ghost use Rattle.std.specs.Prelude.{IfOk};
ghost use Rattle.mc_command.specs.Seen.{seen_judging};
ghost use Rattle.mc_record.specs.Seen.{kept_of};
ghost use Rattle.mc_station.specs.Replied.{seen_reply};
ghost use Rattle.mc_station.specs.Seen.{AreReasons, HasItsTree, IsRecordIn, seen_accepted};
ghost use Rattle.mc_station.specs.commands.Analyse.{Analyses};

use crate::accepted::Accepted;
use crate::commands::judge::judge;
use crate::reply::Reply;
use crate::tested::Tested;
use mc_command::Judging;
use mc_oblige::Justification;
use mc_record::Record;
use std::alloc::{AllocError, Global};

/// The reply of `analyse`: the obligations judged by the events that a record of the source has.
pub fn analyse<'a>(
    alloc: Global,
    asked: Judging<'_>,
    accepted: Accepted<'a>,
    kept: Record,
    justifications: &[Justification],
) -> Result<Reply<'a>, AllocError>
    requires instrumented { HasItsTree accepted }
    requires of_source { IsRecordIn accepted kept }
    requires reasons { AreReasons accepted justifications.now }
    ensures { IfOk result (λ reply. Analyses (seen_judging asked.entry)
        (seen_accepted accepted.entry) (kept_of kept) justifications.now (seen_reply reply)) }
{
    let Record {
        digest: _,
        names,
        states,
        matrix,
    } = kept;
    let tests = Tested {
        names,
        states,
        results: None,
    };
    judge(alloc, asked, accepted, &matrix, tests, justifications)
}
