//! Words that are not a command, and faults of the outside.

use crate::run::{SOURCE, TESTS, gives, plain};
use station_replies::usage_text;
use std::alloc::Global;
use std::thread::Threads;
use tests_memory::Fail;

/// Words with `|` between each two; the first line has none.
const NOT_A_COMMAND: &str = "\n\
vectors
vectors|s.c
vectors|s.c|t.csv|more
vectors|s.c|t.csv|--fuel
vectors|s.c|t.csv|--fuel|0
vectors|s.c|t.csv|--fuel|08
vectors|s.c|t.csv|--fuel|100000001
vectors|s.c|t.csv|--fuel|8|--fuel|8
vectors|s.c|t.csv|--fuel=
vectors|s.c|t.csv|--mode|unique
vectors|s.c|t.csv|--justify|j.json
vectors|s.c|t.csv|--format|text
vectors|s.c|t.csv|--workers
vectors|s.c|t.csv|--workers|0
vectors|s.c|t.csv|--workers|01
vectors|s.c|t.csv|--workers|65
vectors|s.c|t.csv|--workers|4294967297
vectors|s.c|t.csv|--workers|2|--workers|2
vectors|s.c|t.csv|--workers=
report|s.c
report|s.c|t.csv|--mode|both
report|s.c|t.csv|--mode=
report|s.c|t.csv|--fuel|0
report|s.c|t.csv|--workers|0
report|s.c|t.csv|--workers|01
report|s.c|t.csv|--workers|65
report|s.c|t.csv|--workers|four
report|s.c|t.csv|--format|xml
report|s.c|t.csv|--format|JSON
report|s.c|t.csv|--justify
report|s.c|t.csv|j.json
--fuel|8|vectors|s.c|t.csv
|s.c|t.csv
Vectors|s.c|t.csv
vectors |s.c|t.csv
-vectors|s.c|t.csv
-|s.c|t.csv
vectors|-s.c|t.csv
vectors|s.c|-t.csv
vectors|s.c|--
vectors|--|s.c|t.csv|--fuel|8
functions|s.c
functions|s.c|t.csv|--of
functions|s.c|t.csv|--format|text
needs|s.c|t.csv|--of
results|s.c|t.csv|--mode|unique
vectors|s.c|t.csv|--of|s.c
watch|s.c|t.csv|--looks|0
watch|s.c|t.csv|--looks|101
watch|s.c|t.csv|--looks|01
watch|s.c|t.csv|--workers|64
watch|s.c
instrument
instrument|s.c|t.csv
instrument|s.c|--fuel|8
instrument|--workers=4|s.c
instrument|-s.c
Instrument|s.c
adapt
adapt|s.c|t.csv
adapt|s.c|--fuel|8
--help
-h
help
help|report
--version
report|--help
vectors|s.c|t.csv|--help
";

#[test]
fn words_that_are_not_a_command(rt: HostRuntime) -> Result<(), Fail> {
    let usage = usage_text(rt.alloc())?;
    for words in NOT_A_COMMAND.lines() {
        let mut setting = plain(SOURCE.as_bytes(), TESTS.as_bytes());
        setting.words = words;
        assert!(rt;
            gives(&rt, rt.alloc(), &setting, (2, b"", &usage))?,
            "{words}"
        );
    }
    drop(usage);
    Ok(())
}

/// A row is words with `|` between each two, the status, and what goes to the errors' sink.
const COMMANDS: &str = "\
vectors|s.c|t.csv|--fuel=8@0@
vectors|s.c|t.csv|--fuel|8@0@
vectors|--fuel|8|s.c|t.csv@0@
vectors|--fuel=8|s.c|t.csv@0@
vectors|s.c|--fuel|8|t.csv@0@
vectors|s.c|--fuel=8|t.csv@0@
vectors|--|s.c|t.csv@0@
vectors|s.c|--|t.csv@0@
vectors|s.c|t.csv|--@0@
vectors|--fuel|100000000|--|s.c|t.csv@0@
vectors|s.c|t.csv|--workers|1@0@
vectors|s.c|t.csv|--workers|64@0@
vectors|--workers=64|s.c|t.csv@0@
vectors|s.c|--workers|2|t.csv|--fuel=8@0@
vectors|-|t.csv@6@mcdc: cannot read -
vectors||t.csv@6@mcdc: cannot read\x20
vectors|s.c|-@6@mcdc: cannot read -
vectors|s.c|@6@mcdc: cannot read\x20
vectors|help|t.csv@6@mcdc: cannot read help
vectors|--|-s.c|t.csv@6@mcdc: cannot read -s.c
";

/// The lines of `vectors` with three tests of `a&&b`.
const VECTORS: &str = "\
test t1 pass values 1 output
test t2 pass values 0 output
test t3 pass values 0 output
D1 TT=T by t1
D1 TF=F by t2
D1 F-=F by t3
";

fn is_read<R: Threads + Sync>(rt: &R, alloc: Global, row: &str) -> Result<bool, Fail> {
    let Some((words, rest)) = row.split_once('@') else {
        return Err(Fail);
    };
    let Some((status, line)) = rest.split_once('@') else {
        return Err(Fail);
    };
    let mut setting = plain(SOURCE.as_bytes(), TESTS.as_bytes());
    setting.words = words;
    if status == "0" {
        return gives(rt, alloc, &setting, (0, VECTORS.as_bytes(), b""));
    }
    let diag = format!(in alloc; "{line}\n")?;
    let is_wanted = gives(rt, alloc, &setting, (6, b"", diag.as_bytes()));
    drop(diag);
    is_wanted
}

#[test]
fn words_that_are_a_command(rt: HostRuntime) -> Result<(), Fail> {
    for row in COMMANDS.lines() {
        assert!(rt; is_read(&rt, rt.alloc(), row)?, "{row}");
    }
    Ok(())
}

const FIRST_LINE: &str = "test t1 pass values 1 output\n";

const FIRST_LINE_AND_MORE: &str = "test t1 pass values 1 output\ntest ";

const ABSENT: &str = "vectors|u.c|t.csv";

const ABSENT_TESTS: &str = "vectors|s.c|u.csv";

const COMMAND: &str = "vectors|s.c|t.csv";

const REPORT: &str = "report|s.c|t.csv";

const OTHER: &str = "instrument|s.c|t.csv";

/// A case, its words, the load that fails, the puts that fail on both sinks, and what the run
/// gives.
static FAULTS: [(&str, &str, u32, (u32, u32), (u32, u32), (u8, &str, &str)); 10] = [
    (
        "no source",
        ABSENT,
        0,
        (0, 0),
        (0, 0),
        (6, "", "mcdc: cannot read u.c\n"),
    ),
    (
        "no tests",
        ABSENT_TESTS,
        0,
        (0, 0),
        (0, 0),
        (6, "", "mcdc: cannot read u.csv\n"),
    ),
    (
        "first load",
        COMMAND,
        1,
        (0, 0),
        (0, 0),
        (6, "", "mcdc: cannot read s.c\n"),
    ),
    (
        "second load",
        COMMAND,
        2,
        (0, 0),
        (0, 0),
        (6, "", "mcdc: cannot read t.csv\n"),
    ),
    (
        "load without diag",
        COMMAND,
        2,
        (0, 0),
        (1, 7),
        (7, "", "mcdc: c"),
    ),
    ("first put", COMMAND, 0, (1, 3), (0, 0), (7, "tes", "")),
    (
        "second put",
        COMMAND,
        0,
        (2, 0),
        (0, 0),
        (7, FIRST_LINE, ""),
    ),
    (
        "part of the second put",
        COMMAND,
        0,
        (2, 5),
        (0, 0),
        (7, FIRST_LINE_AND_MORE, ""),
    ),
    (
        "second put of a report",
        REPORT,
        0,
        (2, 0),
        (0, 0),
        (7, "mcdc report unique\n", ""),
    ),
    ("usage", OTHER, 0, (0, 0), (1, 0), (7, "", "")),
];

#[test]
fn faults_outside(rt: HostRuntime) -> Result<(), Fail> {
    for (case, words, load, out, diag, (status, written, told)) in &FAULTS {
        let mut setting = plain(SOURCE.as_bytes(), TESTS.as_bytes());
        setting.words = words;
        setting.failing_load = *load;
        setting.failing_out = *out;
        setting.failing_diag = *diag;
        let want = (*status, written.as_bytes(), told.as_bytes());
        assert!(rt; gives(&rt, rt.alloc(), &setting, want)?, "{case}");
    }
    Ok(())
}

#[test]
fn usage_asks_for_no_file(rt: HostRuntime) -> Result<(), Fail> {
    let usage = usage_text(rt.alloc())?;
    let mut setting = plain(SOURCE.as_bytes(), TESTS.as_bytes());
    setting.words = OTHER;
    setting.failing_load = 1;
    setting.failing_out = (1, 0);
    assert!(rt; gives(&rt, rt.alloc(), &setting, (2, b"", &usage))?);
    drop(usage);
    Ok(())
}
