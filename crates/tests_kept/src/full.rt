//! Records, lists, reduced suites and mutants of decisions with operators that are evaluated in
//! full. Each text that is expected was worked out by hand.

use crate::run::{Setting, gives};
use std::alloc::Global;
use std::thread::Threads;
use tests_memory::Fail;

/// One of the decision's seven numbers is idle.
const XOR: &str = "int f(int a,int b,int c){return (a<1^b<1)&&c;}";

const XOR_TESTS: &str = "\
test,call,arguments,inputs,expect,output
t1,f,0 1 1,,,
t2,f,0 0 1,,,
t3,f,1 0 0,,,
t4,f,1 1 1,,,
";

/// The number of bit 4 is idle.
const XOR_RECORD: &str = "\
mcdc-record 2
source 5aed618d57018e6e265e126aa4ff20a2413bdbf18ec0b5c6837470844bcd23c6
bits 10
tests 4
test t1 pass
test t2 pass
test t3 pass
test t4 pass
bit 0 000000000000000f
bit 1 000000000000000f
bit 2 000000000000000f
bit 3 0000000000000002
bit 4 0000000000000000
bit 5 0000000000000001
bit 6 0000000000000000
bit 7 0000000000000000
bit 8 0000000000000004
bit 9 0000000000000008
end
";

/// The idle number stands under each test.
const XOR_IDLE: &str = "\
mcdc-record 2
source 5aed618d57018e6e265e126aa4ff20a2413bdbf18ec0b5c6837470844bcd23c6
bits 10
tests 4
test t1 pass
test t2 pass
test t3 pass
test t4 pass
bit 0 000000000000000f
bit 1 000000000000000f
bit 2 000000000000000f
bit 3 0000000000000002
bit 4 000000000000000f
bit 5 0000000000000001
bit 6 0000000000000000
bit 7 0000000000000000
bit 8 0000000000000004
bit 9 0000000000000008
end
";

const XOR_REPORT: &str = "\
mcdc report masking
source sha256 5aed618d57018e6e265e126aa4ff20a2413bdbf18ec0b5c6837470844bcd23c6
test t1 pass
test t2 pass
test t3 pass
test t4 pass
E1 1:5 met by t1
X1 1:26 met by t1
S1 1:26 met by t1
D1T 1:33 met by t1
D1F 1:33 met by t2
D1C1 1:34 met TFT=T by t1 FF-=F by t4
D1C2 1:38 met TT-=F by t2 TFT=T by t1
D1C3 1:44 met TFT=T by t1 FTF=F by t3
entries met 1 justified 0 stale 0 missing 0 of 1
exits met 1 justified 0 stale 0 missing 0 of 1
statements met 1 justified 0 stale 0 missing 0 of 1
labels met 0 justified 0 stale 0 missing 0 of 0
outcomes met 2 justified 0 stale 0 missing 0 of 2
conditions met 3 justified 0 stale 0 missing 0 of 3
status 0
";

/// Nothing stands but the idle number.
const IDLE_ALONE: &str = "\
mcdc-record 2
source 5aed618d57018e6e265e126aa4ff20a2413bdbf18ec0b5c6837470844bcd23c6
bits 10
tests 1
test t1 pass
bit 0 0000000000000000
bit 1 0000000000000000
bit 2 0000000000000000
bit 3 0000000000000000
bit 4 0000000000000001
bit 5 0000000000000000
bit 6 0000000000000000
bit 7 0000000000000000
bit 8 0000000000000000
bit 9 0000000000000000
end
";

const IDLE_REPORT: &str = "\
mcdc report masking
source sha256 5aed618d57018e6e265e126aa4ff20a2413bdbf18ec0b5c6837470844bcd23c6
test t1 pass
E1 1:5 missing
X1 1:26 missing
S1 1:26 missing
D1T 1:33 missing
D1F 1:33 missing
D1C1 1:34 missing
D1C2 1:38 missing
D1C3 1:44 missing
entries met 0 justified 0 stale 0 missing 1 of 1
exits met 0 justified 0 stale 0 missing 1 of 1
statements met 0 justified 0 stale 0 missing 1 of 1
labels met 0 justified 0 stale 0 missing 0 of 0
outcomes met 0 justified 0 stale 0 missing 2 of 2
conditions met 0 justified 0 stale 0 missing 3 of 3
status 1
";

const AND: &str = "int f(int a,int b){return (a<1)&(b<1);}";

const AND_TESTS: &str = "\
test,call,arguments,inputs,expect,output
t1,f,0 0,,,
t2,f,0 1,,,
t3,f,1 0,,,
";

const AND_RECORD: &str = "\
mcdc-record 2
source 44ed485aa9e8997f071916c36e12c6aa5f123479b71a5466cf63a2b452299c88
bits 7
tests 1
test t1 pass
bit 0 0000000000000001
bit 1 0000000000000001
bit 2 0000000000000001
bit 3 0000000000000001
bit 4 0000000000000000
bit 5 0000000000000000
bit 6 0000000000000000
end
";

/// The first line of an earlier version, whose other lines are the same.
const AND_EARLIER: &str = "\
mcdc-record 1
source 44ed485aa9e8997f071916c36e12c6aa5f123479b71a5466cf63a2b452299c88
bits 7
tests 1
test t1 pass
bit 0 0000000000000001
bit 1 0000000000000001
bit 2 0000000000000001
bit 3 0000000000000001
bit 4 0000000000000000
bit 5 0000000000000000
bit 6 0000000000000000
end
";

/// Two numbers have no decision, so a record of an earlier version has the bits of this source.
const NUMBERS: &str = "int f(int a,int b){return a&b;}";

const NUMBERS_EARLIER: &str = "\
mcdc-record 1
source bd6c40cb78aead032ca59242b0d503faba87fe49e9e5edfd08314494ae470794
bits 3
tests 1
test t1 pass
bit 0 0000000000000001
bit 1 0000000000000001
bit 2 0000000000000001
end
";

const NUMBERS_REPORT: &str = "\
mcdc report unique
source sha256 bd6c40cb78aead032ca59242b0d503faba87fe49e9e5edfd08314494ae470794
test t1 pass
E1 1:5 met by t1
X1 1:20 met by t1
S1 1:20 met by t1
entries met 1 justified 0 stale 0 missing 0 of 1
exits met 1 justified 0 stale 0 missing 0 of 1
statements met 1 justified 0 stale 0 missing 0 of 1
labels met 0 justified 0 stale 0 missing 0 of 0
outcomes met 0 justified 0 stale 0 missing 0 of 0
conditions met 0 justified 0 stale 0 missing 0 of 0
status 0
";

const LEFT_OLD: &str = "mcdc: record LEFT line 1: old rules\n";

const RIGHT_OLD: &str = "mcdc: record RIGHT line 1: old rules\n";

const ANALYSE: &str = "analyse|s.c|LEFT";

const MASKING: &str = "analyse|s.c|LEFT|--mode|masking";

const MERGE: &str = "merge|s.c|LEFT|RIGHT";

/// Of one more function, none of whose decisions is evaluated in full.
const MIXED: &str = "int g(int a){return !a;}int f(int a,int b){return (a<1)&(b<1);}";

const MIXED_EARLIER: &str = "\
mcdc-record 1
source 0000000000000000000000000000000000000000000000000000000000000000
";

/// A run: its words, the source, its tests, the records left and right, and the status and what it
/// writes on both sinks.
struct Run {
    words: &'static str,
    source: &'static str,
    tests: &'static str,
    records: (&'static str, &'static str),
    want: (u8, &'static str, &'static str),
}

static RECORDS: [Run; 12] = [
    Run {
        words: "record|s.c|t.csv",
        source: XOR,
        tests: XOR_TESTS,
        records: ("", ""),
        want: (0, XOR_RECORD, ""),
    },
    Run {
        words: MASKING,
        source: XOR,
        tests: "",
        records: (XOR_RECORD, ""),
        want: (0, XOR_REPORT, ""),
    },
    Run {
        words: MASKING,
        source: XOR,
        tests: "",
        records: (XOR_IDLE, ""),
        want: (0, XOR_REPORT, ""),
    },
    Run {
        words: MASKING,
        source: XOR,
        tests: "",
        records: (IDLE_ALONE, ""),
        want: (1, IDLE_REPORT, ""),
    },
    Run {
        words: ANALYSE,
        source: AND,
        tests: "",
        records: (AND_EARLIER, ""),
        want: (4, "", LEFT_OLD),
    },
    Run {
        words: MERGE,
        source: AND,
        tests: "",
        records: (AND_EARLIER, AND_RECORD),
        want: (4, "", LEFT_OLD),
    },
    Run {
        words: MERGE,
        source: AND,
        tests: "",
        records: (AND_RECORD, AND_EARLIER),
        want: (4, "", RIGHT_OLD),
    },
    Run {
        words: MERGE,
        source: AND,
        tests: "",
        records: (AND_RECORD, AND_RECORD),
        want: (4, "", "mcdc: records: same test 1 and 1\n"),
    },
    Run {
        words: ANALYSE,
        source: AND,
        tests: "",
        records: ("mcdc-record 1\n", ""),
        want: (4, "", LEFT_OLD),
    },
    // Line 1 is judged before line 2, which has the digest of no source.
    Run {
        words: ANALYSE,
        source: MIXED,
        tests: "",
        records: (MIXED_EARLIER, ""),
        want: (4, "", LEFT_OLD),
    },
    Run {
        words: ANALYSE,
        source: NUMBERS,
        tests: "",
        records: (NUMBERS_EARLIER, ""),
        want: (0, NUMBERS_REPORT, ""),
    },
    Run {
        words: "record|s.c|t.csv",
        source: AND,
        tests: "test,call,arguments,inputs,expect,output\nt1,f,0 0,,,\n",
        records: ("", ""),
        want: (0, AND_RECORD, ""),
    },
];

/// The exclusive or becomes an or, and the conjunction over it too.
const XOR_KILLED: &str = "\
M1 1:33 exchanged killed by t2
M2 1:34 exchanged killed by t2
M3 1:34 negated killed by t1
M4 1:34 true killed by t4
M5 1:34 false killed by t1
M6 1:34 shifted killed by t4
M7 1:38 negated killed by t1
M8 1:38 true killed by t1
M9 1:38 false killed by t2
M10 1:38 shifted killed by t1
M11 1:44 negated killed by t1
M12 1:44 true killed by t3
M13 1:44 false killed by t1
mutants killed 13 survived 0 of 13
";

const AND_KILLED: &str = "\
M1 1:27 exchanged killed by t2
M2 1:28 negated killed by t1
M3 1:28 true killed by t3
M4 1:28 false killed by t1
M5 1:28 shifted killed by t3
M6 1:34 negated killed by t1
M7 1:34 true killed by t2
M8 1:34 false killed by t1
M9 1:34 shifted killed by t2
mutants killed 9 survived 0 of 9
";

const OR: &str = "int f(int a,int b){return (a<1)|(b<1);}";

const OR_TESTS: &str = "\
test,call,arguments,inputs,expect,output
t1,f,1 1,,,
t2,f,0 1,,,
t3,f,1 0,,,
";

const OR_KILLED: &str = "\
M1 1:27 exchanged killed by t2
M2 1:28 negated killed by t1
M3 1:28 true killed by t1
M4 1:28 false killed by t2
M5 1:28 shifted killed by t1
M6 1:34 negated killed by t1
M7 1:34 true killed by t1
M8 1:34 false killed by t3
M9 1:34 shifted killed by t1
mutants killed 9 survived 0 of 9
";

/// The operands have no relation.
const OBJECTS: &str = "int f(_Bool a,_Bool b){return a^b;}";

const OBJECTS_TESTS: &str = "\
test,call,arguments,inputs,expect,output
t1,f,1 1,,,
t2,f,1 0,,,
t3,f,0 1,,,
";

const OBJECTS_KILLED: &str = "\
M1 1:31 exchanged killed by t1
M2 1:31 negated killed by t1
M3 1:31 true killed by t3
M4 1:31 false killed by t1
M5 1:33 negated killed by t1
M6 1:33 true killed by t2
M7 1:33 false killed by t1
mutants killed 7 survived 0 of 7
";

/// Whatever the left operand is, the right one is evaluated, and traps.
const TRAP: &str = "int f(int a,int b){return (a<1)&(1/b<1);}";

const TRAP_TESTS: &str = "\
test,call,arguments,inputs,expect,output
t1,f,0 0,,,
t2,f,1 0,,,
";

const TRAP_SURVIVED: &str = "\
M1 1:27 exchanged survived
M2 1:28 negated survived
M3 1:28 true survived
M4 1:28 false survived
M5 1:28 shifted survived
M6 1:34 negated survived
M7 1:34 true survived
M8 1:34 false survived
M9 1:34 shifted survived
mutants killed 0 survived 9 of 9
";

const MUTATE: &str = "mutate|s.c|t.csv";

const XOR_MISSING: &str = "      1 ! | int f(int a,int b,int c){return (a<1^b<1)&&c;}";

const XOR_MET: &str = "      1 + | int f(int a,int b,int c){return (a<1^b<1)&&c;}";

/// Nothing shows the third condition by unique cause, so t3 goes.
const XOR_UNIQUE: &str = "\
keep t1 for D1T
keep t2 for D1C2
keep t4 for D1C1
kept 3 of 4
";

const XOR_MASKING: &str = "\
keep t1 for D1T
keep t2 for D1C2
keep t3 for D1C3
keep t4 for D1C1
kept 4 of 4
";

static OTHERS: [Run; 9] = [
    Run {
        words: "list|s.c|t.csv",
        source: XOR,
        tests: XOR_TESTS,
        records: ("", ""),
        want: (1, XOR_MISSING, ""),
    },
    Run {
        words: "list|s.c|t.csv|--mode|masking",
        source: XOR,
        tests: XOR_TESTS,
        records: ("", ""),
        want: (0, XOR_MET, ""),
    },
    Run {
        words: "reduce|s.c|t.csv",
        source: XOR,
        tests: XOR_TESTS,
        records: ("", ""),
        want: (0, XOR_UNIQUE, ""),
    },
    Run {
        words: "reduce|s.c|t.csv|--mode|masking",
        source: XOR,
        tests: XOR_TESTS,
        records: ("", ""),
        want: (0, XOR_MASKING, ""),
    },
    Run {
        words: MUTATE,
        source: XOR,
        tests: XOR_TESTS,
        records: ("", ""),
        want: (0, XOR_KILLED, ""),
    },
    Run {
        words: MUTATE,
        source: AND,
        tests: AND_TESTS,
        records: ("", ""),
        want: (0, AND_KILLED, ""),
    },
    Run {
        words: MUTATE,
        source: OR,
        tests: OR_TESTS,
        records: ("", ""),
        want: (0, OR_KILLED, ""),
    },
    Run {
        words: MUTATE,
        source: OBJECTS,
        tests: OBJECTS_TESTS,
        records: ("", ""),
        want: (0, OBJECTS_KILLED, ""),
    },
    Run {
        words: MUTATE,
        source: TRAP,
        tests: TRAP_TESTS,
        records: ("", ""),
        want: (1, TRAP_SURVIVED, ""),
    },
];

// Whether a run gives what it says.
fn is_given<R: Threads + Sync>(rt: &R, alloc: Global, run: &Run) -> Result<bool, Fail> {
    let (left, right) = run.records;
    let setting = Setting {
        words: run.words,
        source: run.source.as_bytes(),
        tests: run.tests.as_bytes(),
        left: left.as_bytes(),
        right: right.as_bytes(),
    };
    let (status, out, diag) = run.want;
    gives(
        rt,
        alloc,
        &setting,
        (status, out.as_bytes(), diag.as_bytes()),
    )
}

#[test]
fn records_of_both_versions(rt: HostRuntime) -> Result<(), Fail> {
    for run in &RECORDS {
        let (words, source) = (run.words, run.source);
        assert!(rt; is_given(&rt, rt.alloc(), run)?, "{words} {source}");
    }
    Ok(())
}

#[test]
fn lists_suites_and_mutants(rt: HostRuntime) -> Result<(), Fail> {
    for run in &OTHERS {
        let (words, source) = (run.words, run.source);
        assert!(rt; is_given(&rt, rt.alloc(), run)?, "{words} {source}");
    }
    Ok(())
}
