//! Pairs of small decisions, made by hand from the definitions, and of a long one.

ghost use Rattle.std.specs.Prelude.{◌≡◌};
ghost use Rattle.mc_cond.specs.Tree.{tree_of, IsNumbered};

use crate::trees::{
    are_paths, many_ands, negated_and, one_and, one_full_and, two_ands, two_ors, xor_then_and,
};
use mc_cond::{CondTree, conditions};
use mc_masking::masking_pair;
use mc_paths::{Numbering, number};
use mc_unique::unique_pair;
use std::alloc::Global;
use std::process::Abort;
use std::test::Fail;

/// Some paths, and the pair that they have for each condition.
struct Row<'a> {
    seen: &'a [u32],
    unique: &'a [Option<(u32, u32)>],
    masking: &'a [Option<(u32, u32)>],
}

fn check_row(rt: &impl Abort, tree: &CondTree, numbering: &Numbering, row: &Row)
    requires tree { IsNumbered (tree_of tree.now) }
    requires numbering { tree_of numbering.now ≡ tree_of tree.now }
{
    assert!(rt; are_paths(row.seen, numbering.count()));
    assert_eq!(rt; row.unique.len(), conditions(tree) as usize);
    assert_eq!(rt; row.masking.len(), conditions(tree) as usize);
    for k in 0..conditions(tree) {
        let unique = unique_pair(tree, numbering, row.seen, k);
        assert_eq!(rt; unique, row.unique[k as usize], "condition {k}");
        let masking = masking_pair(tree, numbering, row.seen, k);
        assert_eq!(rt; masking, row.masking[k as usize], "condition {k}");
    }
}

fn check_rows(rt: &impl Abort, alloc: Global, tree: &CondTree, rows: &[Row]) -> Result<(), Fail>
    requires { IsNumbered (tree_of tree.now) }
{
    let numbering = number(alloc, tree)?;
    for row in rows {
        check_row(rt, tree, &numbering, row);
    }
    Ok(())
}

static ONE_AND: [Row<'static>; 3] = [
    Row {
        seen: &[0, 1, 2],
        unique: &[Some((0, 2)), Some((0, 1))],
        masking: &[Some((0, 2)), Some((0, 1))],
    },
    Row {
        seen: &[0, 2],
        unique: &[Some((0, 2)), None],
        masking: &[Some((0, 2)), None],
    },
    Row {
        seen: &[],
        unique: &[None, None],
        masking: &[None, None],
    },
];

static NEGATED_AND: [Row<'static>; 2] = [
    Row {
        seen: &[0, 1, 2, 3],
        unique: &[Some((1, 3)), Some((1, 2)), Some((0, 1))],
        masking: &[Some((1, 3)), Some((1, 2)), Some((0, 1))],
    },
    Row {
        seen: &[0, 2, 3],
        unique: &[None, None, None],
        masking: &[None, None, None],
    },
];

static TWO_ANDS: [Row<'static>; 1] = [Row {
    seen: &[0, 1, 2, 6],
    unique: &[Some((0, 6)), Some((0, 2)), None, Some((1, 2))],
    masking: &[Some((0, 6)), Some((0, 2)), Some((1, 6)), Some((1, 2))],
}];

static TWO_ORS: [Row<'static>; 1] = [Row {
    seen: &[0, 5],
    unique: &[None, None, None, None],
    masking: &[None, None, Some((0, 5)), None],
}];

/// The numbers are 0 `TT=T`, 1 `TF=F`, 2 `FT=F`, 3 `FF=F`.
static FULL_AND: [Row<'static>; 3] = [
    Row {
        seen: &[0, 1, 2, 3],
        unique: &[Some((0, 2)), Some((0, 1))],
        masking: &[Some((0, 2)), Some((0, 1))],
    },
    Row {
        seen: &[0, 3],
        unique: &[None, None],
        masking: &[None, None],
    },
    Row {
        seen: &[1, 2, 3],
        unique: &[None, None],
        masking: &[None, None],
    },
];

/// The numbers are 0 `TT-=F`, 2 `TFT=T`, 3 `TFF=F`, 4 `FTT=T`, 5 `FTF=F`, 6 `FF-=F`, and 1 is idle.
static XOR_THEN_AND: [Row<'static>; 4] = [
    Row {
        seen: &[0, 2, 5, 6],
        unique: &[Some((2, 6)), Some((0, 2)), None],
        masking: &[Some((2, 6)), Some((0, 2)), Some((2, 5))],
    },
    Row {
        seen: &[0, 1, 2, 3, 4, 5, 6],
        unique: &[Some((0, 4)), Some((0, 2)), Some((2, 3))],
        masking: &[Some((0, 4)), Some((0, 2)), Some((2, 3))],
    },
    Row {
        seen: &[0, 1, 5, 6],
        unique: &[None, None, None],
        masking: &[None, None, None],
    },
    Row {
        seen: &[1],
        unique: &[None, None, None],
        masking: &[None, None, None],
    },
];

#[test]
fn small_decisions_have_pairs(rt: HostRuntime) -> Result<(), Fail> {
    let alloc = rt.alloc();
    check_rows(&rt, alloc, &one_and(alloc)?, &ONE_AND)?;
    check_rows(&rt, alloc, &negated_and(alloc)?, &NEGATED_AND)?;
    check_rows(&rt, alloc, &two_ands(alloc)?, &TWO_ANDS)?;
    check_rows(&rt, alloc, &two_ors(alloc)?, &TWO_ORS)?;
    check_rows(&rt, alloc, &one_full_and(alloc)?, &FULL_AND)?;
    check_rows(&rt, alloc, &xor_then_and(alloc)?, &XOR_THEN_AND)
}

/// 64 conditions joined by `&&`: condition k is shown by the path on which all are true, and that
/// which ends at k.
#[test]
fn long_chain_has_pairs(rt: HostRuntime) -> Result<(), Fail> {
    let tree = many_ands(rt.alloc(), 64)?;
    let numbering = number(rt.alloc(), &tree)?;
    let seen: Vec<u32> = (0..65).collect(rt.alloc())?;
    assert!(rt; are_paths(&seen, numbering.count()));
    for k in 0..conditions(&tree) {
        let ended: u32 = 64 - k;
        assert_eq!(rt; unique_pair(&tree, &numbering, &seen, k), Some((0, ended)));
        assert_eq!(rt; masking_pair(&tree, &numbering, &seen, k), Some((0, ended)));
    }
    Ok(())
}
