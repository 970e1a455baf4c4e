//! Suites of small programs. What is kept, and for what, was found from the definitions by a script
//! that is not a part of the repository, over truth tables.
ghost use Rattle.std.specs.Prelude.{◌≡◌};

use crate::make::{map, matrix, one_and, two_ands, xor_before_and};
use mc_oblige::Mode;
use mc_probe::BitMap;
use mc_reduce::reduce;
use std::alloc::Global;
use std::process::Abort;
use std::test::Fail;

/// The bits that each test sets, the tests that are kept, and what each of them is kept for.
struct Row<'a> {
    tests: &'a [&'a [u32]],
    kept: &'a [u32],
    lost: &'a [u32],
}

/// The decision `a && b`, whose paths have the bits 3 (both true), 4 (the second false) and 5 (the
/// first false). In the first row the arguments are (1, 1), (1, 0), (0, 1) and (0, 0). Without the
/// first test the true outcome is lost, without the second one the second condition, without the
/// third one the first condition. In the second row no path is evaluated twice by the tests that
/// are kept, and the last one, which evaluates two, goes. In the third row one test hits all that
/// any does, and the last row has no test.
static ONE_AND: [Row<'static>; 4] = [
    Row {
        tests: &[&[0, 1, 2, 3], &[0, 1, 2, 4], &[0, 1, 2, 5], &[0, 1, 2, 5]],
        kept: &[0, 1, 2],
        lost: &[3, 6, 5],
    },
    Row {
        tests: &[
            &[0, 1, 2, 5],
            &[0, 1, 2, 3],
            &[0, 1, 2, 4],
            &[0, 1, 2, 3, 4],
        ],
        kept: &[0, 1, 2],
        lost: &[5, 3, 6],
    },
    Row {
        tests: &[&[0, 2], &[0, 1, 2], &[0, 2]],
        kept: &[1],
        lost: &[0],
    },
    Row {
        tests: &[],
        kept: &[],
        lost: &[],
    },
];

/// The decision `(a && b) || (a && c)`: under the eight rows of its truth table, under a test for
/// each of its paths, and under three tests, of which another one goes by each kind.
static TWO_ANDS_UNIQUE: [Row<'static>; 3] = [
    Row {
        tests: &[&[9], &[9], &[9], &[9], &[5], &[4], &[3], &[3]],
        kept: &[0, 4, 5, 6],
        lost: &[5, 6, 8, 5],
    },
    Row {
        tests: &[&[3], &[4], &[5], &[6], &[7], &[8], &[9]],
        kept: &[0, 1, 2, 3, 5],
        lost: &[5, 7, 8, 7, 5],
    },
    Row {
        tests: &[&[3, 4], &[5, 9], &[6, 7, 8]],
        kept: &[0, 2],
        lost: &[5, 4],
    },
];

static TWO_ANDS_MASKING: [Row<'static>; 3] = [
    Row {
        tests: &[&[9], &[9], &[9], &[9], &[5], &[4], &[3], &[3]],
        kept: &[0, 4, 5, 6],
        lost: &[5, 6, 7, 5],
    },
    Row {
        tests: &[&[3], &[4], &[5], &[6], &[7], &[8], &[9]],
        kept: &[0, 1, 3, 5],
        lost: &[5, 7, 6, 5],
    },
    Row {
        tests: &[&[3, 4], &[5, 9], &[6, 7, 8]],
        kept: &[0, 1],
        lost: &[3, 4],
    },
];

/// The decision `(a ^ b) && c`. Number 1 is idle, and its bit is 4. The test that has it alone
/// shows no outcome, so the last test is kept for the false one. This row was worked out by hand.
static XOR_BEFORE_AND: [Row<'static>; 1] = [Row {
    tests: &[&[0, 1, 2, 5], &[4], &[0, 1, 2, 3]],
    kept: &[0, 2],
    lost: &[3, 4],
}];

fn check(rt: &impl Abort, alloc: Global, map: &BitMap, mode: Mode, row: &Row) -> Result<(), Fail> {
    assert!(rt; map.bits <= 65536);
    let matrix = matrix(rt, alloc, map.bits, row.tests)?;
    assert_eq!(rt; matrix.shape().bits, map.bits);
    let reduced = reduce(alloc, map, &matrix, mode)?;
    assert!(rt; reduced.kept.as_slice() == row.kept);
    assert!(rt; reduced.lost.as_slice() == row.lost);
    Ok(())
}

fn check_all(
    rt: &impl Abort,
    alloc: Global,
    map: &BitMap,
    mode: Mode,
    rows: &[Row],
) -> Result<(), Fail> {
    for row in rows {
        check(rt, alloc, map, mode, row)?;
    }
    Ok(())
}

#[test]
fn suites_of_one_and(rt: HostRuntime) -> Result<(), Fail> {
    let alloc = rt.alloc();
    let map = map(alloc, one_and(alloc)?)?;
    check_all(&rt, alloc, &map, Mode::Unique, &ONE_AND)?;
    check_all(&rt, alloc, &map, Mode::Masking, &ONE_AND)
}

#[test]
fn suites_of_two_ands(rt: HostRuntime) -> Result<(), Fail> {
    let alloc = rt.alloc();
    let map = map(alloc, two_ands(alloc)?)?;
    check_all(&rt, alloc, &map, Mode::Unique, &TWO_ANDS_UNIQUE)?;
    check_all(&rt, alloc, &map, Mode::Masking, &TWO_ANDS_MASKING)
}

#[test]
fn suite_with_an_idle_number(rt: HostRuntime) -> Result<(), Fail> {
    let alloc = rt.alloc();
    let map = map(alloc, xor_before_and(alloc)?)?;
    check_all(&rt, alloc, &map, Mode::Unique, &XOR_BEFORE_AND)?;
    check_all(&rt, alloc, &map, Mode::Masking, &XOR_BEFORE_AND)
}
