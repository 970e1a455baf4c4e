//! The order in which the files of these commands are asked for and judged. Only `s.c`, `t.csv`,
//! `LEFT` and `RIGHT` are there.

use crate::run::{Setting, gives};
use crate::text::{BODY, HEAD, SOURCE, TESTS};
use std::alloc::Global;
use std::thread::Threads;
use tests_memory::Fail;

const UNDECLARED: &str = "int f(int a,int b){return c;}";

const UNDECLARED_LINE: &str = "mcdc: source 1:27: undeclared\n";

/// The words, the source, the record in `LEFT`, the text in `RIGHT`, and what the run gives.
static ASKED: [(&str, &str, (&str, &str), &str, (u8, &str)); 19] = [
    (
        "record|NONE|t.csv",
        SOURCE,
        (HEAD, BODY),
        "",
        (6, "mcdc: cannot read NONE\n"),
    ),
    (
        "record|s.c|NONE",
        SOURCE,
        (HEAD, BODY),
        "",
        (6, "mcdc: cannot read NONE\n"),
    ),
    (
        "record|s.c|NONE",
        UNDECLARED,
        (HEAD, BODY),
        "",
        (3, UNDECLARED_LINE),
    ),
    (
        "record|s.c|RIGHT",
        SOURCE,
        (HEAD, BODY),
        "",
        (4, "mcdc: tests record 1: header\n"),
    ),
    (
        "merge|NONE|LEFT|RIGHT",
        SOURCE,
        (HEAD, BODY),
        "",
        (6, "mcdc: cannot read NONE\n"),
    ),
    (
        "merge|s.c|NONE|ALSO",
        UNDECLARED,
        ("", ""),
        "",
        (3, UNDECLARED_LINE),
    ),
    (
        "merge|s.c|NONE|ALSO",
        SOURCE,
        (HEAD, BODY),
        "",
        (6, "mcdc: cannot read NONE\n"),
    ),
    (
        "merge|s.c|LEFT|NONE",
        SOURCE,
        (HEAD, BODY),
        "",
        (6, "mcdc: cannot read NONE\n"),
    ),
    (
        "merge|s.c|LEFT|NONE",
        SOURCE,
        (HEAD, ""),
        "",
        (4, "mcdc: record LEFT line 4: shape\n"),
    ),
    (
        "merge|s.c|LEFT|RIGHT",
        SOURCE,
        (HEAD, BODY),
        "",
        (4, "mcdc: record RIGHT line 1: header\n"),
    ),
    (
        "merge|s.c|LEFT|LEFT",
        SOURCE,
        (HEAD, BODY),
        "",
        (4, "mcdc: records: same test 1 and 1\n"),
    ),
    (
        "analyse|NONE|LEFT",
        SOURCE,
        (HEAD, BODY),
        "",
        (6, "mcdc: cannot read NONE\n"),
    ),
    (
        "analyse|s.c|NONE",
        SOURCE,
        (HEAD, BODY),
        "",
        (6, "mcdc: cannot read NONE\n"),
    ),
    (
        "analyse|s.c|NONE|--justify|ALSO",
        UNDECLARED,
        (HEAD, BODY),
        "",
        (3, UNDECLARED_LINE),
    ),
    (
        "analyse|s.c|LEFT|--justify|NONE",
        SOURCE,
        (HEAD, ""),
        "",
        (4, "mcdc: record LEFT line 4: shape\n"),
    ),
    (
        "analyse|--justify|NONE|s.c|LEFT",
        SOURCE,
        (HEAD, BODY),
        "",
        (6, "mcdc: cannot read NONE\n"),
    ),
    (
        "analyse|s.c|LEFT|--justify|RIGHT",
        SOURCE,
        (HEAD, BODY),
        "[",
        (5, "mcdc: justification: json\n"),
    ),
    (
        "analyse|s.c|LEFT|--justify|RIGHT|--format|csv",
        SOURCE,
        (HEAD, BODY),
        "{}",
        (5, "mcdc: justification entry 0: shape\n"),
    ),
    (
        "analyse|s.c|LEFT|--justify|RIGHT|--format|json",
        SOURCE,
        (HEAD, BODY),
        r#"[{"id":"S9","quote":"b","reason":"x"}]"#,
        (5, "mcdc: justification entry 1: unknown\n"),
    ),
];

fn is_refused<R: Threads + Sync>(
    rt: &R,
    alloc: Global,
    words: &str,
    source: &str,
    left: (&str, &str),
    right: &str,
    want: (u8, &str),
) -> Result<bool, Fail> {
    let (head, body) = left;
    let (status, diag) = want;
    let left = format!(in alloc; "{head}{body}")?;
    let setting = Setting {
        words,
        source: source.as_bytes(),
        tests: TESTS.as_bytes(),
        left: left.as_bytes(),
        right: right.as_bytes(),
    };
    let is_wanted = gives(rt, alloc, &setting, (status, b"", diag.as_bytes()));
    drop(left);
    is_wanted
}

#[test]
fn files_in_order(rt: HostRuntime) -> Result<(), Fail> {
    for (words, source, left, right, want) in &ASKED {
        assert!(rt;
            is_refused(&rt, rt.alloc(), words, source, *left, right, *want)?,
            "{words}"
        );
    }
    Ok(())
}
