//! The one function that sees the store.
ghost use Rattle.std.specs.Prelude.{◌≡◌, ◌≢◌, ◌≤◌, IfOk, length};
ghost use Rattle.mc_port.specs.Causes.{Rose};
ghost use Rattle.mc_station.specs.Replied.{outcome_of};
ghost use Rattle.station_replies.specs.declared.status.Status.TheVariants.{CannotRead, OutOfMemory};
ghost use Rattle.mc_station.specs.Calls.{Leads};
ghost use Rattle.mc_station.specs.Seen.{IsReady, seen_stage};
ghost use Rattle.mc_station.specs.Stages.{requests_left};

use crate::judge::accept;
use crate::means::Means;
use crate::reply::Reply;
use crate::stage::Stage;
use mc_cover::Closer;
use mc_port::{Gate, LoadFault, Store};
use station_replies::Refusal;
use std::alloc::{AllocError, Global};
use std::thread::Threads;

/// Goes from a stage to the reply: asks for one file after the other, each after the one before it
/// was accepted, and keeps their bytes in the slots.
#[tactic(auto, using(crate::proofs::Order::fewer))]
pub fn run<'a, S: Store, R: Threads + Sync, G: Gate, C: Closer>(
    alloc: Global,
    means: Means<'_, R, G, C>,
    store: &mut S,
    stage: Stage<'a>,
    slots: &'a mut [Vec<u8>],
) -> Result<Reply<'a>, AllocError>
    requires room { length (requests_left (seen_stage stage)) ≤ length slots.old }
    requires ready { IsReady stage }
    ensures leads { Leads (C.skipped means.entry.closer.now) (S.state store.old).contents
        (seen_stage stage.entry) (S.state store.old).asked
        (outcome_of result) (S.state store.new).asked }
    ensures unreadable { (outcome_of result).status ≡ CannotRead
        → Rose (S.state store.old).faults (S.state store.new).faults }
    ensures texts { IfOk result (λ reply. reply.status ≢ OutOfMemory) }
    ensures contents { (S.state store.new).contents ≡ (S.state store.old).contents }
    ensures later { (S.state store.old).faults ≤ (S.state store.new).faults }
{
    let Some(file) = stage.file() else {
        return stage.end(alloc, means);
    };
    let [slot, later @ ..] = slots else {
        unreachable!();
    };
    match store.load(alloc, file.name, file.kind.limit()) {
        Ok(bytes) => match accept(alloc, stage, bytes, slot) {
            Ok(stage) => run(alloc, means, store, stage, later),
            Err(stop) => Reply::of_stop(alloc, &stop),
        },
        Err(LoadFault::TooLong { .. }) => {
            drop(stage);
            Reply::of_refusal(alloc, &Refusal::TooLong(file))
        }
        Err(LoadFault::Failed) => {
            drop(stage);
            Reply::of_unreadable(alloc, file)
        }
        Err(LoadFault::OutOfMemory) => {
            drop(stage);
            Err(AllocError)
        }
    }
}
