//! What is told of the matrix of the tests.
ghost use Rattle.std.specs.Prelude.{ℕ, IfOk, List};
ghost use Rattle.mc_command.specs.Seen.{seen_judging, seen_matrix_task};
ghost use Rattle.mc_oblige.specs.Shown.{HasEvent};
ghost use Rattle.mc_tests.specs.Seen.{seen_plans};
ghost use Rattle.mc_record.specs.Kept.{IsKept};
ghost use Rattle.mc_station.specs.Replied.{seen_reply};
ghost use Rattle.mc_station.specs.Ran.{AreTold, IsRun, kept_in, seen_ran};
ghost use Rattle.mc_station.specs.Seen.{AreReasons, HasItsTree, seen_accepted};
ghost use Rattle.mc_station.specs.Stages.{TellsOnMatrix};
ghost use Rattle.mc_station.specs.commands.Report.{JudgesOn};

use crate::accepted::Accepted;
use crate::commands::judge::judge;
use crate::commands::record::record;
use crate::commands::reduce::reduce;
use crate::commands::vectors::vectors;
use crate::ran::Ran;
use crate::reply::Reply;
use mc_command::{Judging, MatrixTask};
use mc_oblige::Justification;
use mc_typed::TestPlan;
use std::alloc::{AllocError, Global};

// What is told of the obligations, judged by a run of the tests.
fn judged<'a>(
    alloc: Global,
    asked: Judging<'_>,
    accepted: Accepted<'a>,
    ran: Ran,
    justifications: &[Justification],
) -> Result<Reply<'a>, AllocError>
    requires instrumented { HasItsTree accepted }
    requires told { AreTold (seen_accepted accepted) ran.matrix (seen_ran ran) }
    requires reasons { AreReasons accepted justifications.now }
    ensures { IfOk result (λ reply. let a = seen_accepted accepted.entry in
        JudgesOn (HasEvent a.map ran.matrix) (seen_judging asked.entry) a
        (seen_ran ran) justifications.now (seen_reply reply)) }
{
    let (matrix, tests) = ran.into_parts();
    judge(alloc, asked, accepted, &matrix, tests, justifications)
}

/// The reply of a task on the matrix of the tests that were run. `plans` are the tests.
pub fn tell<'a>(
    alloc: Global,
    task: MatrixTask<'_>,
    accepted: Accepted<'a>,
    plans: &[TestPlan],
    ran: Ran,
    justifications: &[Justification],
) -> Result<Reply<'a>, AllocError>
    requires instrumented { HasItsTree accepted }
    requires told { AreTold (seen_accepted accepted) ran.matrix (seen_ran ran) }
    requires kept { IsKept (kept_in accepted.source.now ran) }
    requires reasons { AreReasons accepted justifications.now }
    ensures { (skipped : List ℕ)
        → IsRun skipped (seen_accepted accepted.entry) (seen_plans plans.now) ran
        → IfOk result (λ reply. TellsOnMatrix skipped (seen_matrix_task task.entry)
        (seen_accepted accepted.entry) (seen_plans plans.now) justifications.now
        (seen_reply reply)) }
{
    match task {
        MatrixTask::Judge(asked) => judged(alloc, asked, accepted, ran, justifications),
        MatrixTask::Vectors => vectors(alloc, accepted, &ran),
        MatrixTask::Reduce { mode } => reduce(alloc, mode, accepted, &ran),
        MatrixTask::Record => {
            let reply = record(alloc, accepted.source, ran);
            accepted.leak();
            Ok(reply)
        }
    }
}
