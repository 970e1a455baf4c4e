//! Two records, joined.
ghost use Rattle.std.specs.Prelude.{◌≡◌, ◌≢◌, ◌≤◌, ◌++◌, ◌↔◌, ℕ, Some, None, IfOk, IfErr, OnOk};
ghost use Rattle.mc_limits.specs.Limits.{most_tests};
ghost use Rattle.mc_core.specs.Matrix.{Holds};
ghost use Rattle.mc_core.specs.Merged.{HoldsEither, both_shapes, words_of_both};
ghost use Rattle.mc_record.specs.Kept.{IsKept};
ghost use Rattle.mc_record.specs.Merged.{IsMerged, pair_fault, size_fault};
ghost use Rattle.mc_record.specs.Seen.{kept_of};
ghost use Rattle.mc_record.specs.declared.pair_fault.PairFault.TheVariants.{OutOfMemory};

use crate::kept::Record;
use crate::pair_fault::PairFault;
use crate::same::same_test;
use mc_core::{Matrix, MergeFault, merge};
use mc_limits::MOST_TESTS;
use mc_typed::{Name, TestState};
use std::alloc::{AllocError, Global};

fn push_names(alloc: Global, all: &mut Vec<Name>, names: &[Name]) -> Result<(), AllocError>
    ensures { OnOk result (all.new.items ≡ all.old.items ++ names.now) }
{
    let mut left = names;
    while let [name, later @ ..] = left {
        all.push(Name::new(name.bytes().to_vec(alloc)?))?;
        left = later;
    }
    Ok(())
}

fn joined_names(alloc: Global, left: &[Name], right: &[Name]) -> Result<Vec<Name>, AllocError>
    ensures { IfOk result (λ names. names.items ≡ left.now ++ right.now) }
{
    let mut names = Vec::new(alloc);
    push_names(alloc, &mut names, left)?;
    push_names(alloc, &mut names, right)?;
    Ok(names)
}

fn joined_states(
    alloc: Global,
    left: &[TestState],
    right: &[TestState],
) -> Result<Vec<TestState>, AllocError>
    ensures { IfOk result (λ states. states.items ≡ left.now ++ right.now) }
{
    let mut states = left.to_vec(alloc)?;
    states.extend_from_slice(right)?;
    Ok(states)
}

// The matrix of both, where it keeps the limits.
fn joined_matrix(alloc: Global, left: &Record, right: &Record) -> Result<Matrix, PairFault>
    requires bits { left.now.matrix.shape.bits ≡ right.now.matrix.shape.bits }
    requires few_left { left.now.matrix.shape.tests ≤ most_tests }
    requires few_right { right.now.matrix.shape.tests ≤ most_tests }
    ensures shape { IfOk result (λ m.
        m.shape ≡ both_shapes left.now.matrix.shape right.now.matrix.shape) }
    ensures pairs { IfOk result (λ m. (b t : ℕ) →
        Holds m b t ↔ HoldsEither left.now.matrix right.now.matrix b t) }
    ensures fits { IfOk result (λ m. size_fault (kept_of left.now) (kept_of right.now) ≡ None) }
    ensures fault { IfErr result (λ e. e ≢ OutOfMemory
        → size_fault (kept_of left.now) (kept_of right.now) ≡ Some e) }
{
    let tests = left.matrix.shape().tests + right.matrix.shape().tests;
    if tests > MOST_TESTS {
        return Err(PairFault::Limit { tests });
    }
    match merge(alloc, &left.matrix, &right.matrix) {
        Ok(matrix) => Ok(matrix),
        Err(MergeFault::TooLarge { words }) => Err(PairFault::TooLarge { words }),
        Err(MergeFault::OutOfMemory) => Err(PairFault::OutOfMemory),
    }
}

/// The tests of `left`, followed by those of `right`, of one source; or why they have no common
/// record. What comes of it can be written and merged again.
pub fn merge_records(alloc: Global, left: &Record, right: &Record) -> Result<Record, PairFault>
    requires digests { left.now.digest ≡ right.now.digest }
    requires bits { left.now.matrix.shape.bits ≡ right.now.matrix.shape.bits }
    requires left { IsKept (kept_of left.now) }
    requires right { IsKept (kept_of right.now) }
    ensures merged { IfOk result (λ both.
        IsMerged (kept_of left.now) (kept_of right.now) (kept_of both)) }
    ensures kept { IfOk result (λ both. IsKept (kept_of both)) }
    ensures fits { IfOk result (λ both. pair_fault (kept_of left.now) (kept_of right.now) ≡ None) }
    ensures fault { IfErr result (λ e. e ≢ OutOfMemory
        → pair_fault (kept_of left.now) (kept_of right.now) ≡ Some e) }
{
    if let Some((left, right)) = same_test(alloc, &left.names, &right.names)? {
        return Err(PairFault::SameTest { left, right });
    }
    let matrix = joined_matrix(alloc, left, right)?;
    let names = joined_names(alloc, &left.names, &right.names)?;
    let states = joined_states(alloc, &left.states, &right.states)?;
    let digest = left.digest;
    Ok(Record {
        digest,
        names,
        states,
        matrix,
    })
}
