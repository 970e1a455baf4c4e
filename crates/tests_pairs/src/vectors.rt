//! The truth, the vectors and the path numbers of small decisions, against what C gives for them,
//! and the counts of large ones.

ghost use Rattle.mc_cond.specs.Tree.{tree_of, IsNumbered};

use crate::trees::{
    and_then_xors, is_written, many_ands, many_ors, many_xors, negated_and, one_full_and, two_ands,
    xor_then_and,
};
use mc_cond::{CondTree, conditions, truth, walk};
use mc_paths::{NumberFault, Numbering, number};
use std::alloc::Global;
use std::process::Abort;
use std::test::Fail;

/// Checks the outcome on each row of the truth table, condition 0 least.
fn check_truth(rt: &impl Abort, tree: &CondTree, outcomes: &str)
    requires { IsNumbered (tree_of tree.now) }
{
    for (row, outcome) in outcomes.as_bytes().iter().enumerate() {
        assert_eq!(rt; truth(tree, row as u64), *outcome == b'T', "row {row}");
    }
}

/// Checks the vectors on some answers.
fn check_walks(rt: &impl Abort, tree: &CondTree, rows: &[(&[bool], &str)])
    requires { IsNumbered (tree_of tree.now) }
{
    for (answers, text) in rows {
        assert_eq!(rt; answers.len(), conditions(tree) as usize);
        assert!(rt; is_written(&walk(tree, answers), text), "{text}");
    }
}

/// Checks the vector of each path, also as masks, and what the false edge of each condition adds.
fn check_paths(
    rt: &impl Abort,
    alloc: Global,
    tree: &CondTree,
    texts: &[&str],
    masks: &[(u64, u64)],
    edges: &[u32],
) -> Result<(), Fail>
    requires { IsNumbered (tree_of tree.now) }
{
    let numbering = number(alloc, tree)?;
    assert_eq!(rt; texts.len(), numbering.count() as usize);
    assert_eq!(rt; masks.len(), numbering.count() as usize);
    for path in 0..numbering.count() {
        assert!(rt; numbering.in_use(path));
        let vector = numbering.vector_of(path);
        assert!(rt; is_written(&vector, texts[path as usize]), "path {path}");
        assert_eq!(rt; vector.outcome(), numbering.outcome_of(path));
        assert_eq!(rt;
            (numbering.evaluated(path), numbering.value(path)),
            masks[path as usize]
        );
    }
    assert_eq!(rt; edges.len(), numbering.conditions() as usize);
    for k in 0..numbering.conditions() {
        assert_eq!(rt;
            (numbering.on_true(k), numbering.on_false(k)),
            (0, edges[k as usize])
        );
    }
    Ok(())
}

/// Checks which numbers are in use, the vector of each, and what each false edge adds.
fn check_numbers(
    rt: &impl Abort,
    alloc: Global,
    tree: &CondTree,
    texts: &[Option<&str>],
    edges: &[u32],
) -> Result<(), Fail>
    requires { IsNumbered (tree_of tree.now) }
{
    let numbering = number(alloc, tree)?;
    assert_eq!(rt; texts.len(), numbering.count() as usize);
    for path in 0..numbering.count() {
        check_number(rt, &numbering, path, texts[path as usize]);
    }
    assert_eq!(rt; edges.len(), numbering.conditions() as usize);
    for k in 0..numbering.conditions() {
        assert_eq!(rt; numbering.on_false(k), edges[k as usize]);
    }
    Ok(())
}

/// Checks that a number has this vector, or none.
fn check_number(rt: &impl Abort, numbering: &Numbering, path: u32, text: Option<&str>) {
    assert_eq!(rt; numbering.in_use(path), text.is_some(), "number {path}");
    if let Some(text) = text {
        if numbering.in_use(path) {
            assert!(rt; is_written(&numbering.vector_of(path), text), "{text}");
        }
    }
}

/// The count of a decision, also where it is too great; 0 where memory has run out.
fn count_of_paths(alloc: Global, tree: &CondTree) -> u128
    requires { IsNumbered (tree_of tree.now) }
{
    match number(alloc, tree) {
        Ok(numbering) => numbering.count() as u128,
        Err(NumberFault::TooManyPaths { count }) => count,
        Err(NumberFault::OutOfMemory) => 0,
    }
}

/// What C gives for `!(a && b) || c` on some answers.
static NEGATED_AND: [(&[bool], &str); 4] = [
    (&[true, true, true], "TTT=T"),
    (&[true, true, false], "TTF=F"),
    (&[true, false, true], "TF-=T"),
    (&[false, true, false], "F--=T"),
];

/// What C gives for `(a && b) || (a && c)` on some answers.
static TWO_ANDS: [(&[bool], &str); 4] = [
    (&[true, true, true, false], "TT--=T"),
    (&[true, false, true, true], "TFTT=T"),
    (&[true, false, true, false], "TFTF=F"),
    (&[false, true, false, true], "F-F-=F"),
];

/// The vectors of each, in order.
static NEGATED_AND_PATHS: [&str; 4] = ["TTT=T", "TTF=F", "TF-=T", "F--=T"];

static TWO_ANDS_PATHS: [&str; 7] = [
    "TT--=T", "TFTT=T", "TFTF=F", "TFF-=F", "F-TT=T", "F-TF=F", "F-F-=F",
];

/// Which conditions each evaluates, and which of these are true: condition 0 is the lowest bit.
static NEGATED_AND_MASKS: [(u64, u64); 4] = [(7, 7), (7, 3), (3, 1), (1, 0)];

static TWO_ANDS_MASKS: [(u64, u64); 7] = [
    (3, 3),
    (15, 13),
    (15, 5),
    (7, 1),
    (13, 12),
    (13, 4),
    (5, 0),
];

#[test]
fn small_decisions_are_evaluated(rt: HostRuntime) -> Result<(), Fail> {
    let alloc = rt.alloc();
    let tree = negated_and(alloc)?;
    check_truth(&rt, &tree, "TTTFTTTT");
    check_walks(&rt, &tree, &NEGATED_AND);
    check_paths(
        &rt,
        alloc,
        &tree,
        &NEGATED_AND_PATHS,
        &NEGATED_AND_MASKS,
        &[3, 2, 1],
    )?;
    let tree = two_ands(alloc)?;
    check_truth(&rt, &tree, "FFFTFFFTFFFTTTTT");
    check_walks(&rt, &tree, &TWO_ANDS);
    check_paths(
        &rt,
        alloc,
        &tree,
        &TWO_ANDS_PATHS,
        &TWO_ANDS_MASKS,
        &[4, 1, 2, 1],
    )
}

/// What C gives for `(a ^ b) && c` on some answers.
static XOR_THEN_AND: [(&[bool], &str); 4] = [
    (&[true, true, true], "TT-=F"),
    (&[true, false, true], "TFT=T"),
    (&[false, true, false], "FTF=F"),
    (&[false, false, true], "FF-=F"),
];

static XOR_THEN_AND_NUMBERS: [Option<&str>; 7] = [
    Some("TT-=F"),
    None,
    Some("TFT=T"),
    Some("TFF=F"),
    Some("FTT=T"),
    Some("FTF=F"),
    Some("FF-=F"),
];

/// What C gives for `a & b`.
static FULL_AND: [(&[bool], &str); 4] = [
    (&[true, true], "TT=T"),
    (&[true, false], "TF=F"),
    (&[false, true], "FT=F"),
    (&[false, false], "FF=F"),
];

static FULL_AND_NUMBERS: [Option<&str>; 4] = [
    Some("TT=T"),
    Some("TF=F"),
    Some("FT=F"),
    Some("FF=F"),
];

#[test]
fn full_operators_are_evaluated(rt: HostRuntime) -> Result<(), Fail> {
    let alloc = rt.alloc();
    let tree = xor_then_and(alloc)?;
    check_truth(&rt, &tree, "FFFFFTTF");
    check_walks(&rt, &tree, &XOR_THEN_AND);
    check_numbers(&rt, alloc, &tree, &XOR_THEN_AND_NUMBERS, &[4, 2, 1])?;
    let tree = one_full_and(alloc)?;
    check_truth(&rt, &tree, "FFFT");
    check_walks(&rt, &tree, &FULL_AND);
    check_numbers(&rt, alloc, &tree, &FULL_AND_NUMBERS, &[2, 1])
}

#[test]
fn paths_are_counted(rt: HostRuntime) -> Result<(), Fail> {
    let alloc = rt.alloc();
    for (count, paths) in [(11, 4_095), (12, 8_191), (32, 8_589_934_591)] {
        let tree = many_ors(alloc, count)?;
        assert_eq!(rt; count_of_paths(alloc, &tree), paths);
        assert_eq!(rt; number(alloc, &tree).is_ok(), paths <= 4_096);
    }
    assert_eq!(rt; count_of_paths(alloc, &many_ands(alloc, 64)?), 65);
    Ok(())
}

#[test]
fn paths_of_full_operators_are_counted(rt: HostRuntime) -> Result<(), Fail> {
    let alloc = rt.alloc();
    for (count, paths) in [
        (1, 2),
        (12, 4_096),
        (13, 8_192),
        (64, 18_446_744_073_709_551_616),
    ] {
        let tree = many_xors(alloc, count)?;
        assert_eq!(rt; count_of_paths(alloc, &tree), paths);
        assert_eq!(rt; number(alloc, &tree).is_ok(), paths <= 4_096);
    }
    for (count, paths) in [(11, 2_049), (12, 4_097)] {
        let tree = and_then_xors(alloc, count)?;
        assert_eq!(rt; count_of_paths(alloc, &tree), paths);
        assert_eq!(rt; number(alloc, &tree).is_ok(), paths <= 4_096);
    }
    Ok(())
}
