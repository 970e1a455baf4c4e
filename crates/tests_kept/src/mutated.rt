//! Which mutants `mutate` says that the tests kill. Each text that is expected was worked out by
//! hand.

use crate::run::{gives, gives_by, of_tests};
use crate::text::{HEADER, SOURCE, TESTS};
use mc_cover::SkippingCloser;
use std::alloc::Global;
use std::thread::Threads;
use tests_memory::Fail;

const ALL_KILLED: &str = "\
M1 1:27 exchanged killed by t2
M2 1:27 negated killed by t1
M3 1:27 true killed by t3
M4 1:27 false killed by t1
M5 1:30 negated killed by t1
M6 1:30 true killed by t2
M7 1:30 false killed by t1
mutants killed 7 survived 0 of 7
";

/// Neither value of one operand is tried beside the other.
const TWO_TESTS: &str = "\
test,call,arguments,inputs,expect,output
t1,f,1 1,,,
t2,f,0 0,,,
";

const FOUR_KILLED: &str = "\
M1 1:27 exchanged survived
M2 1:27 negated killed by t1
M3 1:27 true survived
M4 1:27 false killed by t1
M5 1:30 negated killed by t1
M6 1:30 true survived
M7 1:30 false killed by t1
mutants killed 4 survived 3 of 7
";

const NONE_KILLED: &str = "\
M1 1:27 exchanged survived
M2 1:27 negated survived
M3 1:27 true survived
M4 1:27 false survived
M5 1:30 negated survived
M6 1:30 true survived
M7 1:30 false survived
mutants killed 0 survived 7 of 7
";

/// The first test does not pass.
const FAILED: &str = "\
test,call,arguments,inputs,expect,output
t1,f,1 1,,0,
t2,f,1 0,,,
t3,f,0 1,,,
";

/// A mutant that divides by 0 traps, which alone kills it.
const GUARDED: &str = "int f(int a,int b){if(a!=0&&b/a>0)return 1;return 0;}";

const GUARDED_TESTS: &str = "\
test,call,arguments,inputs,expect,output
t1,f,0 1,,,
t2,f,1 1,,,
t3,f,1 0,,,
";

const GUARDED_TOLD: &str = "\
M1 1:23 exchanged killed by t1
M2 1:23 negated killed by t1
M3 1:23 true killed by t1
M4 1:23 false killed by t2
M5 1:23 shifted killed by t1
M6 1:29 negated killed by t2
M7 1:29 true killed by t3
M8 1:29 false killed by t2
M9 1:29 shifted killed by t3
mutants killed 9 survived 0 of 9
";

/// The value is the same whatever the decision is, and the output is not.
const OUTPUT: &str = "void mcdc_out(int);\nint f(int a){\nif(a)\nmcdc_out(1);\nreturn 0;}";

const OUTPUT_TESTS: &str = "\
test,call,arguments,inputs,expect,output
t1,f,1,,,
t2,f,0,,,
";

const OUTPUT_TOLD: &str = "\
M1 3:4 negated killed by t1
M2 3:4 true killed by t2
M3 3:4 false killed by t1
mutants killed 3 survived 0 of 3
";

/// No decision.
const SUM: &str = "int f(int a,int b){return a+b;}";

const NO_MUTANTS: &str = "mutants killed 0 survived 0 of 0\n";

/// The words, the source, its tests, the status and what is written.
static ROWS: [(&str, &str, &str, u8, &str); 13] = [
    ("mutate|s.c|t.csv", SOURCE, TESTS, 0, ALL_KILLED),
    ("mutate|s.c|t.csv|--workers|1", SOURCE, TESTS, 0, ALL_KILLED),
    (
        "mutate|s.c|t.csv|--workers|64",
        SOURCE,
        TESTS,
        0,
        ALL_KILLED,
    ),
    (
        "mutate|s.c|t.csv|--workers|1",
        SOURCE,
        TWO_TESTS,
        1,
        FOUR_KILLED,
    ),
    (
        "mutate|s.c|t.csv|--workers|64",
        SOURCE,
        TWO_TESTS,
        1,
        FOUR_KILLED,
    ),
    ("mutate|s.c|t.csv", SOURCE, HEADER, 1, NONE_KILLED),
    ("mutate|s.c|t.csv", SOURCE, FAILED, 1, ALL_KILLED),
    // No test gets beyond its first step, in the program as in its mutants.
    ("mutate|s.c|t.csv|--fuel|1", SOURCE, TESTS, 1, NONE_KILLED),
    (
        "mutate|s.c|t.csv|--workers|1",
        GUARDED,
        GUARDED_TESTS,
        0,
        GUARDED_TOLD,
    ),
    (
        "mutate|s.c|t.csv|--workers|64",
        GUARDED,
        GUARDED_TESTS,
        0,
        GUARDED_TOLD,
    ),
    ("mutate|s.c|t.csv", OUTPUT, OUTPUT_TESTS, 0, OUTPUT_TOLD),
    ("mutate|s.c|t.csv", SUM, TESTS, 0, NO_MUTANTS),
    ("mutate|s.c|t.csv", SUM, FAILED, 1, NO_MUTANTS),
];

// Whether these words write this, and nothing on the errors' sink.
fn is_written<R: Threads + Sync>(
    rt: &R,
    alloc: Global,
    row: &(&str, &str, &str, u8, &str),
) -> Result<bool, Fail> {
    let (words, source, tests, status, out) = *row;
    let setting = of_tests(words, source.as_bytes(), tests.as_bytes());
    gives(rt, alloc, &setting, (status, out.as_bytes(), b""))
}

#[test]
fn mutated(rt: HostRuntime) -> Result<(), Fail> {
    for row in &ROWS {
        let (words, _, _, _, out) = *row;
        assert!(rt; is_written(&rt, rt.alloc(), row)?, "{words} {out}");
    }
    Ok(())
}

// Nothing is left out of what the tests kill, whatever a closer leaves out of coverage.
#[test]
fn mutated_with_all(rt: HostRuntime) -> Result<(), Fail> {
    let closer = SkippingCloser {
        skipped: [0_u32].to_vec(rt.alloc())?,
    };
    let setting = of_tests("mutate|s.c|t.csv", SOURCE.as_bytes(), TESTS.as_bytes());
    let is_wanted = gives_by(
        &rt,
        rt.alloc(),
        &setting,
        &closer,
        (0, ALL_KILLED.as_bytes(), b""),
    );
    drop(closer);
    assert!(rt; is_wanted?);
    Ok(())
}
