//! How the stages of records judge the bytes of their files.
ghost use Rattle.std.specs.Prelude.{◌≡◌, ◌↔◌, IfOk, IsTrue, Result, Err};
ghost use Rattle.mc_command.specs.Seen.{seen_judging};
ghost use Rattle.mc_record.specs.Kept.{IsKept, Kept};
ghost use Rattle.mc_record.specs.Merged.{pair_fault};
ghost use Rattle.mc_record.specs.Seen.{kept_of};
ghost use Rattle.mc_record.specs.declared.fault.RecordFault.{RecordFault as Fault};
ghost use Rattle.station_replies.specs.Phases.{Reads};
ghost use Rattle.station_replies.specs.Reply.{refusal};
ghost use Rattle.station_replies.specs.Seen.{Gives};
ghost use Rattle.station_replies.specs.declared.refusal.Refusal.TheVariants as why;
ghost use Rattle.station_replies.specs.declared.status.Status.TheVariants.{TestsRefused};
ghost use Rattle.station_replies.specs.declared.stop.Stop.TheVariants as stop;
ghost use Rattle.mc_station.specs.Records.{GivesFault, GivesPair, HasOldBits, JudgesRecord, record_fault_line};
ghost use Rattle.mc_station.specs.Seen.{HasItsTree, IsReady, IsRecordIn, seen_accepted, seen_stage};
ghost use Rattle.mc_station.specs.Stages.{Judges, kept, left, right};
ghost use Rattle.mc_station.specs.commands.Merge.{Joins};

use crate::accepted::Accepted;
use crate::basis::Basis;
use crate::digest::digest_of;
use crate::stage::{Stage, with_basis};
use crate::words::words_fit;
use mc_command::Judging;
use mc_cond::is_short;
use mc_record::{PairFault, Record, RecordFault, merge_records, read_record};
use station_replies::{Refusal, Stop};
use std::alloc::Global;

// That the record with this name is refused, by the kind of its fault and the line.
fn refused<'a>(name: &'a str, line: u32, word: &'static str) -> Stop<'a>
    ensures { result ≡ stop.Refused (why.Record name.entry line word.entry) }
{
    Stop::Refused(Refusal::Record { name, line, word })
}

// Why the record with this name is refused.
fn stop_of<'a>(name: &'a str, fault: RecordFault) -> Stop<'a>
    ensures { (given : Result Kept Fault) → GivesFault given fault
        → Gives (λ k. k) (Reads given (λ f. refusal TestsRefused (record_fault_line name.now f)))
        (Err result) }
{
    match fault {
        RecordFault::Header { line } => refused(name, line, "header"),
        RecordFault::Source { line, .. } => refused(name, line, "source"),
        RecordFault::Shape { line } => refused(name, line, "shape"),
        RecordFault::Word { line } => refused(name, line, "word"),
        RecordFault::NameAgain { line } => refused(name, line, "name again"),
        RecordFault::SpareBit { line } => refused(name, line, "spare bit"),
        RecordFault::Ending { line } => refused(name, line, "ending"),
        RecordFault::OldRules { line } => refused(name, line, "old rules"),
        RecordFault::OutOfMemory => Stop::OutOfMemory,
    }
}

// Why two records are not joined.
fn pair_stop<'a>(fault: PairFault) -> Stop<'a>
    ensures { (left right : Kept) → GivesPair (pair_fault left right) fault
        → Gives (λ k. k) (Joins left right) (Err result) }
{
    match fault {
        PairFault::SameTest { left, right } => Stop::Refused(Refusal::SameTest { left, right }),
        PairFault::Limit { tests } => Stop::Refused(Refusal::TooManyTests { count: tests }),
        PairFault::TooLarge { words } => Stop::Refused(Refusal::TooLarge { words }),
        PairFault::OutOfMemory => Stop::OutOfMemory,
    }
}

// Whether no decision of the source has an operator that is evaluated in full.
fn has_old_bits(accepted: &Accepted<'_>) -> bool
    ensures { IsTrue result ↔ HasOldBits (seen_accepted accepted.now) }
{
    for mapped in &accepted.map.decisions {
        if !is_short(&mapped.decision.tree) {
            return false;
        }
    }
    true
}

// The record of the source that the bytes are.
fn judge_record<'a>(
    alloc: Global,
    accepted: &Accepted<'_>,
    name: &'a str,
    bytes: &[u8],
) -> Result<Record, Stop<'a>>
    requires { HasItsTree accepted.now }
    ensures judges { Gives kept_of
        (JudgesRecord (seen_accepted accepted.now) name.now bytes.now) result }
    ensures of_source { IfOk result (IsRecordIn accepted.now) }
{
    let digest = digest_of(accepted.source);
    let old_rules = has_old_bits(accepted);
    match read_record(alloc, bytes, &digest, accepted.map.bits, old_rules) {
        Ok(record) => Ok(record),
        Err(fault) => Err(stop_of(name, fault)),
    }
}

// The record of both.
fn join<'a>(alloc: Global, left: &Record, right: &Record) -> Result<Record, Stop<'a>>
    requires digests { left.now.digest ≡ right.now.digest }
    requires bits { left.now.matrix.shape.bits ≡ right.now.matrix.shape.bits }
    requires left { IsKept (kept_of left.now) }
    requires right { IsKept (kept_of right.now) }
    ensures judges { Gives kept_of (Joins (kept_of left.now) (kept_of right.now)) result }
    ensures kept { IfOk result (λ both. IsKept (kept_of both)) }
{
    match merge_records(alloc, left, right) {
        Ok(both) => {
            words_fit(&both.matrix);
            Ok(both)
        }
        Err(fault) => Err(pair_stop(fault)),
    }
}

/// The stage after the first of two records, which has the name `name`.
pub fn after_left<'a>(
    alloc: Global,
    name: &'a str,
    other: &'a str,
    accepted: Accepted<'a>,
    bytes: &[u8],
) -> Result<Stage<'a>, Stop<'a>>
    requires { HasItsTree accepted }
    ensures judges { Gives seen_stage (Judges (left name.now other.now
        (seen_accepted accepted.entry)) bytes.now) result }
    ensures ready { IfOk result IsReady }
{
    match judge_record(alloc, &accepted, name, bytes) {
        Ok(first) => Ok(Stage::Right(other, accepted, first)),
        Err(stop) => {
            drop(accepted);
            Err(stop)
        }
    }
}

/// The stage after the second one.
pub fn after_right<'a>(
    alloc: Global,
    name: &'a str,
    accepted: Accepted<'a>,
    first: Record,
    bytes: &[u8],
) -> Result<Stage<'a>, Stop<'a>>
    requires instrumented { HasItsTree accepted }
    requires first { IsRecordIn accepted first }
    ensures judges { Gives seen_stage (Judges (right name.now
        (seen_accepted accepted.entry) (kept_of first)) bytes.now) result }
    ensures ready { IfOk result IsReady }
{
    let second = judge_record(alloc, &accepted, name, bytes);
    accepted.leak();
    let both = join(alloc, &first, &second?)?;
    Ok(Stage::Merged(both))
}

/// The stage after a record by which the obligations are judged.
pub fn after_kept<'a>(
    alloc: Global,
    name: &'a str,
    judging: Judging<'a>,
    accepted: Accepted<'a>,
    bytes: &[u8],
) -> Result<Stage<'a>, Stop<'a>>
    requires { HasItsTree accepted }
    ensures judges { Gives seen_stage (Judges (kept name.now (seen_judging judging.entry)
        (seen_accepted accepted.entry)) bytes.now) result }
    ensures ready { IfOk result IsReady }
{
    match judge_record(alloc, &accepted, name, bytes) {
        Ok(found) => {
            let basis = Basis::Recorded(judging, found);
            Ok(with_basis(alloc, judging.justify, accepted, basis))
        }
        Err(stop) => {
            drop(accepted);
            Err(stop)
        }
    }
}
