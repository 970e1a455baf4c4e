//! What `merge` writes of two records. Each text that is expected was written out by hand.

use crate::run::{gives, of_records, record_of};
use crate::text::{BODY, EMPTY, HEAD, SOURCE, many_record, many_tests};
use std::alloc::Global;
use std::thread::Threads;
use tests_memory::Fail;

const FIRST: &str = "\
tests 1
test t1 pass
bit 0 0000000000000001
bit 1 0000000000000001
bit 2 0000000000000001
bit 3 0000000000000001
bit 4 0000000000000000
bit 5 0000000000000000
end
";

const FIRST_FAILS: &str = "\
tests 1
test t1 fail
bit 0 0000000000000001
bit 1 0000000000000001
bit 2 0000000000000001
bit 3 0000000000000001
bit 4 0000000000000000
bit 5 0000000000000000
end
";

const FIRST_TWO: &str = "\
tests 2
test t1 pass
test t2 pass
bit 0 0000000000000003
bit 1 0000000000000003
bit 2 0000000000000003
bit 3 0000000000000001
bit 4 0000000000000002
bit 5 0000000000000000
end
";

const LAST_TWO: &str = "\
tests 2
test t2 pass
test t3 pass
bit 0 0000000000000003
bit 1 0000000000000003
bit 2 0000000000000003
bit 3 0000000000000000
bit 4 0000000000000001
bit 5 0000000000000002
end
";

const LAST: &str = "\
tests 1
test t3 pass
bit 0 0000000000000001
bit 1 0000000000000001
bit 2 0000000000000001
bit 3 0000000000000000
bit 4 0000000000000000
bit 5 0000000000000001
end
";

const LAST_TWO_AND_FIRST: &str = "\
tests 3
test t2 pass
test t3 pass
test t1 pass
bit 0 0000000000000007
bit 1 0000000000000007
bit 2 0000000000000007
bit 3 0000000000000004
bit 4 0000000000000001
bit 5 0000000000000002
end
";

const FAIL_AND_LAST_TWO: &str = "\
tests 3
test t1 fail
test t2 pass
test t3 pass
bit 0 0000000000000007
bit 1 0000000000000007
bit 2 0000000000000007
bit 3 0000000000000001
bit 4 0000000000000002
bit 5 0000000000000004
end
";

/// The first lines of a record of an earlier version, which has the same lines else.
const EARLIER: &str = "\
mcdc-record 1
source 8200d2384991a90c0fb5f6a208a7f0176cae5c6443e46177ef6bfd44c40d4caf
bits 6
";

/// The records left and right, with their first lines, and that of both from the number of tests
/// on.
static ROWS: [((&str, &str), (&str, &str), &str); 10] = [
    ((HEAD, FIRST), (HEAD, LAST_TWO), BODY),
    ((HEAD, FIRST_TWO), (HEAD, LAST), BODY),
    ((HEAD, LAST_TWO), (HEAD, FIRST), LAST_TWO_AND_FIRST),
    ((HEAD, FIRST_FAILS), (HEAD, LAST_TWO), FAIL_AND_LAST_TWO),
    ((HEAD, EMPTY), (HEAD, BODY), BODY),
    ((HEAD, BODY), (HEAD, EMPTY), BODY),
    ((HEAD, EMPTY), (HEAD, EMPTY), EMPTY),
    ((EARLIER, FIRST), (HEAD, LAST_TWO), BODY),
    ((HEAD, FIRST_TWO), (EARLIER, LAST), BODY),
    ((EARLIER, LAST_TWO), (EARLIER, FIRST), LAST_TWO_AND_FIRST),
];

const MERGE: &str = "merge|s.c|LEFT|RIGHT";

// Whether both records, with these first lines, give this.
fn gives_both<R: Threads + Sync>(
    rt: &R,
    alloc: Global,
    left: (&str, &str),
    right: (&str, &str),
    want: (u8, &str, &str),
) -> Result<bool, Fail> {
    let (left_head, left_body) = left;
    let (right_head, right_body) = right;
    let (status, out, diag) = want;
    let left = format!(in alloc; "{left_head}{left_body}")?;
    let right = format!(in alloc; "{right_head}{right_body}")?;
    let setting = of_records(MERGE, SOURCE.as_bytes(), left.as_bytes(), right.as_bytes());
    let want = (status, out.as_bytes(), diag.as_bytes());
    let is_wanted = gives(rt, alloc, &setting, want);
    drop(right);
    drop(left);
    is_wanted
}

fn is_joined<R: Threads + Sync>(
    rt: &R,
    alloc: Global,
    left: (&str, &str),
    right: (&str, &str),
    both: &str,
) -> Result<bool, Fail> {
    let out = format!(in alloc; "{HEAD}{both}")?;
    let want = (0, out.as_str(), "");
    let is_wanted = gives_both(rt, alloc, left, right, want);
    drop(out);
    is_wanted
}

#[test]
fn both_records(rt: HostRuntime) -> Result<(), Fail> {
    for (left, right, both) in &ROWS {
        assert!(rt; is_joined(&rt, rt.alloc(), *left, *right, both)?, "{both}");
    }
    Ok(())
}

/// The first lines of a record of another source, whose digest is by `sha256sum`.
const OTHER: &str = "\
mcdc-record 2
source 5dc9193b78b2e85c049ce64ed00b85b45b97627669d0ac22334e5d8c4934e720
bits 6
";

/// The records left and right, and the line that refuses them.
static REFUSED: [((&str, &str), (&str, &str), &str); 8] = [
    (
        (HEAD, BODY),
        (HEAD, BODY),
        "mcdc: records: same test 1 and 1\n",
    ),
    (
        (HEAD, BODY),
        (HEAD, LAST),
        "mcdc: records: same test 3 and 1\n",
    ),
    (
        (HEAD, LAST_TWO),
        (EARLIER, BODY),
        "mcdc: records: same test 1 and 2\n",
    ),
    (
        (OTHER, FIRST),
        (HEAD, LAST),
        "mcdc: record LEFT line 2: source\n",
    ),
    (
        (HEAD, FIRST),
        (OTHER, LAST),
        "mcdc: record RIGHT line 2: source\n",
    ),
    (
        (OTHER, FIRST),
        (OTHER, FIRST),
        "mcdc: record LEFT line 2: source\n",
    ),
    (
        (HEAD, ""),
        (HEAD, BODY),
        "mcdc: record LEFT line 4: shape\n",
    ),
    (
        (HEAD, BODY),
        ("", ""),
        "mcdc: record RIGHT line 1: header\n",
    ),
];

#[test]
fn records_that_are_not_joined(rt: HostRuntime) -> Result<(), Fail> {
    for (left, right, line) in &REFUSED {
        assert!(rt;
            gives_both(&rt, rt.alloc(), *left, *right, (4, "", line))?,
            "{line}"
        );
    }
    Ok(())
}

// Whether the record of the tests up to a number and a record of the tests after it give this.
fn gives_with_later<R: Threads + Sync>(
    rt: &R,
    alloc: Global,
    left: &[u8],
    later: &str,
    want: (u8, &str, &str),
) -> Result<bool, Fail> {
    let (status, out, diag) = want;
    let right = record_of(rt, alloc, SOURCE.as_bytes(), later.as_bytes())?;
    let setting = of_records(MERGE, SOURCE.as_bytes(), left, right.as_slice());
    let want = (status, out.as_bytes(), diag.as_bytes());
    let is_wanted = gives(rt, alloc, &setting, want);
    drop(right);
    is_wanted
}

// Whether the records of such tests give this.
fn gives_of_tests<R: Threads + Sync>(
    rt: &R,
    alloc: Global,
    tests: &str,
    later: &str,
    want: (u8, &str, &str),
) -> Result<bool, Fail> {
    let left = record_of(rt, alloc, SOURCE.as_bytes(), tests.as_bytes())?;
    let is_wanted = gives_with_later(rt, alloc, left.as_slice(), later, want);
    drop(left);
    is_wanted
}

// Whether the tests up to a number and those after it, up to the last, give this.
fn gives_in_two<R: Threads + Sync>(
    rt: &R,
    alloc: Global,
    first: u32,
    last: u32,
    want: (u8, &str, &str),
) -> Result<bool, Fail> {
    let tests = many_tests(alloc, 0, first)?;
    let later = many_tests(alloc, first, last)?;
    let is_wanted = gives_of_tests(rt, alloc, tests.as_str(), later.as_str(), want);
    drop(later);
    drop(tests);
    is_wanted
}

/// Where the tests are cut in two: within a word, and between two.
static CUTS: [u32; 5] = [0, 1, 64, 70, 130];

#[test]
fn many_tests_in_two_records(rt: HostRuntime) -> Result<(), Fail> {
    let record = many_record(rt.alloc())?;
    for first in &CUTS {
        let want = (0, record.as_str(), "");
        assert!(rt;
            gives_in_two(&rt, rt.alloc(), *first, 130, want)?,
            "{first}"
        );
    }
    Ok(())
}

#[test]
fn too_many_tests_in_two_records(rt: HostRuntime) -> Result<(), Fail> {
    let want = (4, "", "mcdc: records: 4097 tests\n");
    assert!(rt; gives_in_two(&rt, rt.alloc(), 4096, 4097, want)?);
    Ok(())
}
