//! Verdicts on small programs, made by hand from the definitions.
ghost use Rattle.std.specs.Prelude.{◌≡◌};

use crate::make::{many_ors, map, matrix, one_and, two_ands, xor_before_and};
use mc_core::Matrix;
use mc_oblige::{
    EvaluatedPath, Evidence, Justification, Mode, ObligationId, Reason, Verdict, VerdictState,
    evaluated_paths, judge, obligations,
};
use mc_probe::BitMap;
use std::alloc::Global;
use std::process::Abort;
use std::test::Fail;

/// The bits that each test sets, the position that a justification names, and the verdicts: each
/// with its test, or with the paths and tests of its pair, or with nothing.
struct Row<'a> {
    tests: &'a [&'a [u32]],
    named: Option<u32>,
    verdicts: &'a [(VerdictState, &'a [u32])],
}

const MET: VerdictState = VerdictState::Met;

const MISSING: VerdictState = VerdictState::Missing;

/// The decision `a && b`, whose paths have the bits 4 (both true), 5 (the second false) and 6 (the
/// first false). Bit 3 is that of a label. In the first row all is met, in the fourth nothing is.
/// In the fifth the entry, the statement, the label and the exit stand each under a test of its
/// own. In the last row the arguments count (0, 0), (1, 0), (0, 1), (1, 1), twice.
static ONE_AND: [Row<'static>; 6] = [
    Row {
        tests: &[&[0, 2, 4, 1], &[0, 2, 3, 5, 1], &[0, 2, 3, 6, 1]],
        named: None,
        verdicts: &[
            (MET, &[0]),
            (MET, &[0]),
            (MET, &[0]),
            (MET, &[1]),
            (MET, &[0]),
            (MET, &[1]),
            (MET, &[0, 0, 2, 2]),
            (MET, &[0, 0, 1, 1]),
        ],
    },
    Row {
        tests: &[&[0, 2, 4, 1], &[0, 2, 6, 1]],
        named: Some(7),
        verdicts: &[
            (MET, &[0]),
            (MET, &[0]),
            (MET, &[0]),
            (MISSING, &[]),
            (MET, &[0]),
            (MET, &[1]),
            (MET, &[0, 0, 2, 1]),
            (VerdictState::Justified, &[]),
        ],
    },
    Row {
        tests: &[&[0, 2, 4, 1]],
        named: Some(2),
        verdicts: &[
            (MET, &[0]),
            (MET, &[0]),
            (VerdictState::Stale, &[0]),
            (MISSING, &[]),
            (MET, &[0]),
            (MISSING, &[]),
            (MISSING, &[]),
            (MISSING, &[]),
        ],
    },
    Row {
        tests: &[],
        named: Some(3),
        verdicts: &[
            (MISSING, &[]),
            (MISSING, &[]),
            (MISSING, &[]),
            (VerdictState::Justified, &[]),
            (MISSING, &[]),
            (MISSING, &[]),
            (MISSING, &[]),
            (MISSING, &[]),
        ],
    },
    Row {
        tests: &[&[0], &[2], &[3], &[1]],
        named: None,
        verdicts: &[
            (MET, &[0]),
            (MET, &[3]),
            (MET, &[1]),
            (MET, &[2]),
            (MISSING, &[]),
            (MISSING, &[]),
            (MISSING, &[]),
            (MISSING, &[]),
        ],
    },
    Row {
        tests: &[
            &[0, 2, 6, 1],
            &[0, 2, 5, 1],
            &[0, 2, 6, 1],
            &[0, 2, 4, 1],
            &[0, 2, 6, 1],
            &[0, 2, 5, 1],
            &[0, 2, 6, 1],
            &[0, 2, 4, 1],
        ],
        named: None,
        verdicts: &[
            (MET, &[0]),
            (MET, &[0]),
            (MET, &[0]),
            (MISSING, &[]),
            (MET, &[3]),
            (MET, &[0]),
            (MET, &[0, 3, 2, 0]),
            (MET, &[0, 3, 1, 1]),
        ],
    },
];

/// The decision `(a && b) || (a && c)`, under the eight rows of its truth table: the two kinds of
/// independence differ in its third condition.
const TWO_ANDS_UNIQUE: Row<'static> = Row {
    tests: &[&[10], &[10], &[10], &[10], &[6], &[5], &[4], &[4]],
    named: None,
    verdicts: &[
        (MISSING, &[]),
        (MISSING, &[]),
        (MISSING, &[]),
        (MISSING, &[]),
        (MET, &[5]),
        (MET, &[0]),
        (MET, &[0, 6, 6, 0]),
        (MET, &[0, 6, 2, 4]),
        (MISSING, &[]),
        (MET, &[1, 5, 2, 4]),
    ],
};

const TWO_ANDS_MASKING: Row<'static> = Row {
    tests: &[&[10], &[10], &[10], &[10], &[6], &[5], &[4], &[4]],
    named: None,
    verdicts: &[
        (MISSING, &[]),
        (MISSING, &[]),
        (MISSING, &[]),
        (MISSING, &[]),
        (MET, &[5]),
        (MET, &[0]),
        (MET, &[0, 6, 6, 0]),
        (MET, &[0, 6, 2, 4]),
        (MET, &[1, 5, 6, 0]),
        (MET, &[1, 5, 2, 4]),
    ],
};

/// The decision `(a ^ b) && c`, under (1, 0, 1), (1, 1, 1), (0, 1, 0) and (0, 0, 1): paths 2, 0, 5
/// and 6. Number 1 is idle. Its bit, which is 5, is set in the first test, and passed over. The two
/// kinds of independence differ in the third condition.
const XOR_TESTS: [&[u32]; 4] = [
    &[0, 2, 5, 6, 1],
    &[0, 2, 4, 1],
    &[0, 2, 9, 1],
    &[0, 2, 10, 1],
];

const XOR_UNIQUE: Row<'static> = Row {
    tests: &XOR_TESTS,
    named: None,
    verdicts: &[
        (MET, &[0]),
        (MET, &[0]),
        (MET, &[0]),
        (MISSING, &[]),
        (MET, &[0]),
        (MET, &[1]),
        (MET, &[2, 0, 6, 3]),
        (MET, &[0, 1, 2, 0]),
        (MISSING, &[]),
    ],
};

const XOR_MASKING: Row<'static> = Row {
    tests: &XOR_TESTS,
    named: None,
    verdicts: &[
        (MET, &[0]),
        (MET, &[0]),
        (MET, &[0]),
        (MISSING, &[]),
        (MET, &[0]),
        (MET, &[1]),
        (MET, &[2, 0, 6, 3]),
        (MET, &[0, 1, 2, 0]),
        (MET, &[2, 0, 5, 2]),
    ],
};

/// Where the idle number's bit alone is set, nothing is shown.
static XOR_IDLE: [Row<'static>; 1] = [Row {
    tests: &[&[5]],
    named: None,
    verdicts: &[
        (MISSING, &[]),
        (MISSING, &[]),
        (MISSING, &[]),
        (MISSING, &[]),
        (MISSING, &[]),
        (MISSING, &[]),
        (MISSING, &[]),
        (MISSING, &[]),
        (MISSING, &[]),
    ],
}];

/// The paths that the four tests evaluate, each with its test.
static XOR_PATHS: [(u32, u32); 4] = [(0, 1), (2, 0), (5, 2), (6, 3)];

/// Eleven times `a || b`, joined by `&&`: 22 conditions and 4,095 paths. The arguments are (0, 0),
/// (1, 0), (0, 1) and (1, 1). Only the first two conditions have a pair, the same by both kinds:
/// where the outcome is false no other one is evaluated.
static MANY_ORS: [Row<'static>; 1] = [Row {
    tests: &[&[4098], &[4], &[4087], &[4]],
    named: None,
    verdicts: &[
        (MISSING, &[]),
        (MISSING, &[]),
        (MISSING, &[]),
        (MISSING, &[]),
        (MET, &[1]),
        (MET, &[0]),
        (MET, &[0, 1, 4094, 0]),
        (MET, &[4083, 2, 4094, 0]),
        (MISSING, &[]),
        (MISSING, &[]),
        (MISSING, &[]),
        (MISSING, &[]),
        (MISSING, &[]),
        (MISSING, &[]),
        (MISSING, &[]),
        (MISSING, &[]),
        (MISSING, &[]),
        (MISSING, &[]),
        (MISSING, &[]),
        (MISSING, &[]),
        (MISSING, &[]),
        (MISSING, &[]),
        (MISSING, &[]),
        (MISSING, &[]),
        (MISSING, &[]),
        (MISSING, &[]),
        (MISSING, &[]),
        (MISSING, &[]),
    ],
}];

fn is_written(evidence: Evidence, parts: &[u32]) -> bool {
    match evidence {
        Evidence::Absent => parts.is_empty(),
        Evidence::One { test } => parts == [test].as_slice(),
        Evidence::Pair {
            first,
            first_test,
            second,
            second_test,
        } => parts == [first, first_test, second, second_test].as_slice(),
    }
}

fn judged(
    rt: &impl Abort,
    alloc: Global,
    map: &BitMap,
    matrix: &Matrix,
    mode: Mode,
    named: Option<u32>,
) -> Result<Vec<Verdict>, Fail>
    requires { matrix.now.shape.bits ≡ map.now.bits }
{
    let Some(obligation) = named else {
        return Ok(judge(alloc, map, matrix, mode, &[])?);
    };
    let listed = obligations(alloc, map)?;
    assert!(rt; (obligation as usize) < listed.len());
    let reason = Reason::new(b"why".to_vec(alloc)?);
    let justified = vec![in alloc; Justification { obligation, reason }]?;
    Ok(judge(alloc, map, matrix, mode, &justified)?)
}

fn check(rt: &impl Abort, alloc: Global, map: &BitMap, mode: Mode, row: &Row) -> Result<(), Fail> {
    assert!(rt; map.bits <= 65536);
    let matrix = matrix(rt, alloc, map.bits, row.tests)?;
    assert_eq!(rt; matrix.shape().bits, map.bits);
    let verdicts = judged(rt, alloc, map, &matrix, mode, row.named)?;
    assert_eq!(rt; verdicts.len(), row.verdicts.len());
    for (verdict, (state, parts)) in verdicts.iter().zip(row.verdicts) {
        assert_eq!(rt; verdict.state, *state);
        assert!(rt; is_written(verdict.evidence, parts));
        let named = matches!(state, VerdictState::Justified | VerdictState::Stale);
        assert_eq!(rt; verdict.reason.is_some(), named);
    }
    Ok(())
}

fn check_by_both(rt: &impl Abort, alloc: Global, map: &BitMap, rows: &[Row]) -> Result<(), Fail> {
    for row in rows {
        check(rt, alloc, map, Mode::Unique, row)?;
        check(rt, alloc, map, Mode::Masking, row)?;
    }
    Ok(())
}

#[test]
fn verdicts_of_rows(rt: HostRuntime) -> Result<(), Fail> {
    let alloc = rt.alloc();
    let map = map(alloc, one_and(alloc)?)?;
    let checked = check_by_both(&rt, alloc, &map, &ONE_AND);
    drop(map);
    checked
}

fn check_two_ands(rt: &impl Abort, alloc: Global, map: &BitMap) -> Result<(), Fail> {
    check(rt, alloc, map, Mode::Unique, &TWO_ANDS_UNIQUE)?;
    check(rt, alloc, map, Mode::Masking, &TWO_ANDS_MASKING)
}

#[test]
fn verdicts_that_differ(rt: HostRuntime) -> Result<(), Fail> {
    let alloc = rt.alloc();
    let map = map(alloc, two_ands(alloc)?)?;
    let checked = check_two_ands(&rt, alloc, &map);
    drop(map);
    checked
}

fn check_evaluated(rt: &impl Abort, alloc: Global, map: &BitMap) -> Result<(), Fail> {
    assert!(rt; map.bits <= 65536);
    let matrix = matrix(rt, alloc, map.bits, &XOR_TESTS)?;
    assert_eq!(rt; matrix.shape().bits, map.bits);
    let evaluated = evaluated_paths(alloc, map, &matrix)?;
    assert_eq!(rt; evaluated.len(), XOR_PATHS.len());
    for (found, (path, test)) in evaluated.iter().zip(&XOR_PATHS) {
        let wanted = EvaluatedPath {
            decision: 0,
            path: *path,
            test: *test,
        };
        assert_eq!(rt; *found, wanted);
    }
    Ok(())
}

fn check_idle(rt: &impl Abort, alloc: Global, map: &BitMap) -> Result<(), Fail> {
    check(rt, alloc, map, Mode::Unique, &XOR_UNIQUE)?;
    check(rt, alloc, map, Mode::Masking, &XOR_MASKING)?;
    check_by_both(rt, alloc, map, &XOR_IDLE)?;
    check_evaluated(rt, alloc, map)
}

#[test]
fn idle_number_is_passed_over(rt: HostRuntime) -> Result<(), Fail> {
    let alloc = rt.alloc();
    let map = map(alloc, xor_before_and(alloc)?)?;
    let checked = check_idle(&rt, alloc, &map);
    drop(map);
    checked
}

#[test]
fn verdicts_on_many_conditions(rt: HostRuntime) -> Result<(), Fail> {
    let alloc = rt.alloc();
    let map = map(alloc, many_ors(alloc, 11)?)?;
    let checked = check_by_both(&rt, alloc, &map, &MANY_ORS);
    drop(map);
    checked
}

/// Each kind of obligation, in order and with its place.
static LISTED: [(ObligationId, u32); 8] = [
    (ObligationId::Entry(0), 0),
    (ObligationId::Exit(0), 10),
    (ObligationId::Statement(0), 15),
    (ObligationId::Label(0), 20),
    (ObligationId::Outcome(0, true), 30),
    (ObligationId::Outcome(0, false), 30),
    (ObligationId::Condition(0, 0), 30),
    (ObligationId::Condition(0, 1), 31),
];

fn check_listed(rt: &impl Abort, alloc: Global, map: &BitMap) -> Result<(), Fail> {
    let listed = obligations(alloc, map)?;
    assert_eq!(rt; listed.len(), LISTED.len());
    for (obligation, (id, start)) in listed.iter().zip(&LISTED) {
        assert_eq!(rt; obligation.id, *id);
        assert_eq!(rt; obligation.span.start, *start);
    }
    Ok(())
}

#[test]
fn obligations_in_order(rt: HostRuntime) -> Result<(), Fail> {
    let alloc = rt.alloc();
    let map = map(alloc, one_and(alloc)?)?;
    let checked = check_listed(&rt, alloc, &map);
    drop(map);
    checked
}
