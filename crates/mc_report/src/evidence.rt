//! What shows an obligation, and why it need not be met.
ghost use Rattle.std.specs.Prelude.{◌≡◌, ◌++◌, ◌<◌, length, map, slice_get, OnOk};
ghost use Rattle.mc_probe.specs.Mapped.{mapped_of};
ghost use Rattle.mc_report.specs.Lines.{decision_in, name_text, path_text, reason_text, shown_text};
ghost use Rattle.mc_report.specs.Report.{HasPath, IsOfKind, IsReason};
ghost use Rattle.mc_report.specs.steps.Kinds.{IsCondition, IsIn};

use crate::quoted::quoted_bytes;
use evidence_texts::{push_name, push_path};
use mc_oblige::{Evidence, ObligationId, Reason};
use mc_probe::MappedDecision;
use mc_typed::Name;
use std::alloc::{AllocError, Global};

/// The vectors and the tests of a pair of paths of a condition's decision.
#[derive(Clone, Copy)]
pub(crate) struct Pair {
    pub(crate) d: u32,
    pub(crate) first: u32,
    pub(crate) first_test: u32,
    pub(crate) second: u32,
    pub(crate) second_test: u32,
}

fn push_pair(
    line: &mut Vec<u8>,
    names: &[Name],
    decisions: &[MappedDecision],
    pair: Pair,
) -> Result<(), AllocError>
    requires first { HasPath (slice_get (map mapped_of decisions.now) pair.d) pair.first }
    requires second { HasPath (slice_get (map mapped_of decisions.now) pair.d) pair.second }
    requires first_test { pair.first_test < length names.now }
    requires second_test { pair.second_test < length names.now }
    ensures { OnOk result (line.new.items ≡ line.old.items
        ++ shown_text names.now (slice_get (map mapped_of decisions.now) pair.d)
        (Evidence.Pair pair.first pair.first_test pair.second pair.second_test)) }
{
    push_path(line, decisions, pair.d, pair.first)?;
    push_name(line, names, pair.first_test)?;
    push_path(line, decisions, pair.d, pair.second)?;
    push_name(line, names, pair.second_test)
}

/// Adds the least test, or for a condition each vector of the pair with its least test.
pub(crate) fn push_evidence(
    line: &mut Vec<u8>,
    names: &[Name],
    decisions: &[MappedDecision],
    id: ObligationId,
    evidence: Evidence,
) -> Result<(), AllocError>
    requires { IsOfKind (length names.now) (map mapped_of decisions.now) id evidence }
    ensures { OnOk result (line.new.items ≡ line.old.items
        ++ shown_text names.now (decision_in (map mapped_of decisions.now) id) evidence) }
{
    match evidence {
        Evidence::Absent => Ok(()),
        Evidence::One { test } => push_name(line, names, test),
        Evidence::Pair {
            first,
            first_test,
            second,
            second_test,
        } => {
            let pair = Pair {
                d: decision_of(id),
                first,
                first_test,
                second,
                second_test,
            };
            push_pair(line, names, decisions, pair)
        }
    }
}

/// The decision of a condition.
pub(crate) fn decision_of(id: ObligationId) -> u32
    requires { IsCondition id }
    ensures { IsIn result id }
{
    match id {
        ObligationId::Condition(d, _) => d,
        _ => unreachable!(),
    }
}

/// Adds the reason of a justification, where there is one.
pub(crate) fn push_reason(
    alloc: Global,
    line: &mut Vec<u8>,
    reason: &Option<Reason>,
) -> Result<(), AllocError>
    requires { IsReason reason.now }
    ensures { OnOk result (line.new.items ≡ line.old.items ++ reason_text reason.now) }
{
    let Some(reason) = reason else {
        return Ok(());
    };
    let text = quoted_bytes(alloc, reason.bytes())?;
    line.extend_from_slice(b" ")?;
    line.extend_from_slice(&text)
}
