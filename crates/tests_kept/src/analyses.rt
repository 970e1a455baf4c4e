//! What `analyse` writes of a record: a report without values and output. Each text that is
//! expected was written out by hand.

use crate::run::{gives, of_records};
use crate::text::{BODY, EMPTY, HEAD, SOURCE, WITHOUT_FIRST};
use std::alloc::Global;
use std::thread::Threads;
use tests_memory::Fail;

/// The first lines of a record of an earlier version, which has the same lines else.
const EARLIER: &str = "\
mcdc-record 1
source 8200d2384991a90c0fb5f6a208a7f0176cae5c6443e46177ef6bfd44c40d4caf
bits 6
";

/// The record of two tests, (1,1) and (0,0), and that of three of which none passed.
const TWO: &str = "\
tests 2
test t1 pass
test t2 pass
bit 0 0000000000000003
bit 1 0000000000000003
bit 2 0000000000000003
bit 3 0000000000000001
bit 4 0000000000000000
bit 5 0000000000000002
end
";

const ENDED: &str = "\
tests 3
test t1 trap-overflow
test t2 fuel
test t3 output-full
bit 0 0000000000000007
bit 1 0000000000000007
bit 2 0000000000000007
bit 3 0000000000000001
bit 4 0000000000000002
bit 5 0000000000000004
end
";

/// The lines of the report from its first test on.
const REPORT: &str = "\
test t1 pass
test t2 pass
test t3 pass
E1 1:5 met by t1
X1 1:20 met by t1
S1 1:20 met by t1
D1T 1:27 met by t1
D1F 1:27 met by t2
D1C1 1:27 met TT=T by t1 F-=F by t3
D1C2 1:30 met TT=T by t1 TF=F by t2
entries met 1 justified 0 stale 0 missing 0 of 1
exits met 1 justified 0 stale 0 missing 0 of 1
statements met 1 justified 0 stale 0 missing 0 of 1
labels met 0 justified 0 stale 0 missing 0 of 0
outcomes met 2 justified 0 stale 0 missing 0 of 2
conditions met 2 justified 0 stale 0 missing 0 of 2
status 0
";

const REPORT_OF_ENDED: &str = "\
test t1 trap-overflow
test t2 fuel
test t3 output-full
E1 1:5 met by t1
X1 1:20 met by t1
S1 1:20 met by t1
D1T 1:27 met by t1
D1F 1:27 met by t2
D1C1 1:27 met TT=T by t1 F-=F by t3
D1C2 1:30 met TT=T by t1 TF=F by t2
entries met 1 justified 0 stale 0 missing 0 of 1
exits met 1 justified 0 stale 0 missing 0 of 1
statements met 1 justified 0 stale 0 missing 0 of 1
labels met 0 justified 0 stale 0 missing 0 of 0
outcomes met 2 justified 0 stale 0 missing 0 of 2
conditions met 2 justified 0 stale 0 missing 0 of 2
status 1
";

const REPORT_STALE: &str = "\
test t1 pass
test t2 pass
test t3 pass
E1 1:5 met by t1
X1 1:20 met by t1
S1 1:20 met by t1
D1T 1:27 met by t1
D1F 1:27 met by t2
D1C1 1:27 met TT=T by t1 F-=F by t3
D1C2 1:30 stale TT=T by t1 TF=F by t2 \"b is stuck\"
entries met 1 justified 0 stale 0 missing 0 of 1
exits met 1 justified 0 stale 0 missing 0 of 1
statements met 1 justified 0 stale 0 missing 0 of 1
labels met 0 justified 0 stale 0 missing 0 of 0
outcomes met 2 justified 0 stale 0 missing 0 of 2
conditions met 1 justified 0 stale 1 missing 0 of 2
status 1
";

const REPORT_OF_TWO: &str = "\
test t1 pass
test t2 pass
E1 1:5 met by t1
X1 1:20 met by t1
S1 1:20 met by t1
D1T 1:27 met by t1
D1F 1:27 met by t2
D1C1 1:27 met TT=T by t1 F-=F by t2
D1C2 1:30 justified \"b is stuck\"
entries met 1 justified 0 stale 0 missing 0 of 1
exits met 1 justified 0 stale 0 missing 0 of 1
statements met 1 justified 0 stale 0 missing 0 of 1
labels met 0 justified 0 stale 0 missing 0 of 0
outcomes met 2 justified 0 stale 0 missing 0 of 2
conditions met 1 justified 1 stale 0 missing 0 of 2
status 0
";

const REPORT_WITHOUT_FIRST: &str = "\
test t1 pass
test t2 pass
test t3 pass
E1 1:5 met by t2
X1 1:20 met by t2
S1 1:20 met by t2
D1T 1:27 missing
D1F 1:27 met by t2
D1C1 1:27 missing
D1C2 1:30 missing
entries met 1 justified 0 stale 0 missing 0 of 1
exits met 1 justified 0 stale 0 missing 0 of 1
statements met 1 justified 0 stale 0 missing 0 of 1
labels met 0 justified 0 stale 0 missing 0 of 0
outcomes met 1 justified 0 stale 0 missing 1 of 2
conditions met 0 justified 0 stale 0 missing 2 of 2
status 1
";

const REPORT_OF_NONE: &str = "\
E1 1:5 missing
X1 1:20 missing
S1 1:20 missing
D1T 1:27 missing
D1F 1:27 missing
D1C1 1:27 missing
D1C2 1:30 missing
entries met 0 justified 0 stale 0 missing 1 of 1
exits met 0 justified 0 stale 0 missing 1 of 1
statements met 0 justified 0 stale 0 missing 1 of 1
labels met 0 justified 0 stale 0 missing 0 of 0
outcomes met 0 justified 0 stale 0 missing 2 of 2
conditions met 0 justified 0 stale 0 missing 2 of 2
status 1
";

const PLAIN: &str = "analyse|s.c|LEFT";

const MASKING: &str = "analyse|s.c|LEFT|--mode|masking";

const JUSTIFIED: &str = "analyse|s.c|LEFT|--justify|j.json";

/// Words, the record, the mode, and the report from its first test on.
static ROWS: [(&str, (&str, &str), &str, &str); 11] = [
    (PLAIN, (HEAD, BODY), "unique", REPORT),
    (MASKING, (HEAD, BODY), "masking", REPORT),
    (
        "analyse|s.c|LEFT|--format|text",
        (HEAD, BODY),
        "unique",
        REPORT,
    ),
    (PLAIN, (EARLIER, BODY), "unique", REPORT),
    (PLAIN, (HEAD, ENDED), "unique", REPORT_OF_ENDED),
    (JUSTIFIED, (HEAD, BODY), "unique", REPORT_STALE),
    (JUSTIFIED, (HEAD, TWO), "unique", REPORT_OF_TWO),
    (PLAIN, (HEAD, WITHOUT_FIRST), "unique", REPORT_WITHOUT_FIRST),
    (
        MASKING,
        (HEAD, WITHOUT_FIRST),
        "masking",
        REPORT_WITHOUT_FIRST,
    ),
    (PLAIN, (HEAD, EMPTY), "unique", REPORT_OF_NONE),
    (MASKING, (EARLIER, EMPTY), "masking", REPORT_OF_NONE),
];

const SOURCE_LINE: &str =
    "source sha256 8200d2384991a90c0fb5f6a208a7f0176cae5c6443e46177ef6bfd44c40d4caf";

fn is_written<R: Threads + Sync>(
    rt: &R,
    alloc: Global,
    words: &str,
    record: &[u8],
    out: &str,
) -> Result<bool, Fail> {
    let status = if out.ends_with("status 0\n") { 0 } else { 1 };
    let setting = of_records(words, SOURCE.as_bytes(), record, b"");
    gives(rt, alloc, &setting, (status, out.as_bytes(), b""))
}

// Whether the report of a record in this mode has these lines from its first test on.
fn is_reported<R: Threads + Sync>(
    rt: &R,
    alloc: Global,
    words: &str,
    record: (&str, &str),
    mode: &str,
    lines: &str,
) -> Result<bool, Fail> {
    let (head, body) = record;
    let record = format!(in alloc; "{head}{body}")?;
    let out = format!(in alloc; "mcdc report {mode}\n{SOURCE_LINE}\n{lines}")?;
    let is_wanted = is_written(rt, alloc, words, record.as_bytes(), out.as_str());
    drop(out);
    drop(record);
    is_wanted
}

#[test]
fn reports_of_records(rt: HostRuntime) -> Result<(), Fail> {
    for (words, record, mode, lines) in &ROWS {
        assert!(rt;
            is_reported(&rt, rt.alloc(), words, *record, mode, lines)?,
            "{words} {lines}"
        );
    }
    Ok(())
}

/// The report of the three tests as JSON.
const JSON: &str = "\
{\"counts\":{\
\"conditions\":{\"justified\":0,\"met\":2,\"missing\":0,\"stale\":0,\"total\":2},\
\"entries\":{\"justified\":0,\"met\":1,\"missing\":0,\"stale\":0,\"total\":1},\
\"exits\":{\"justified\":0,\"met\":1,\"missing\":0,\"stale\":0,\"total\":1},\
\"labels\":{\"justified\":0,\"met\":0,\"missing\":0,\"stale\":0,\"total\":0},\
\"outcomes\":{\"justified\":0,\"met\":2,\"missing\":0,\"stale\":0,\"total\":2},\
\"statements\":{\"justified\":0,\"met\":1,\"missing\":0,\"stale\":0,\"total\":1}},\
\"mode\":\"unique\",\"obligations\":[\
{\"by\":[{\"test\":\"t1\",\"vector\":null}],\"column\":5,\"id\":\"E1\",\"line\":1,\
\"reason\":null,\"verdict\":\"met\"},\
{\"by\":[{\"test\":\"t1\",\"vector\":null}],\"column\":20,\"id\":\"X1\",\"line\":1,\
\"reason\":null,\"verdict\":\"met\"},\
{\"by\":[{\"test\":\"t1\",\"vector\":null}],\"column\":20,\"id\":\"S1\",\"line\":1,\
\"reason\":null,\"verdict\":\"met\"},\
{\"by\":[{\"test\":\"t1\",\"vector\":null}],\"column\":27,\"id\":\"D1T\",\"line\":1,\
\"reason\":null,\"verdict\":\"met\"},\
{\"by\":[{\"test\":\"t2\",\"vector\":null}],\"column\":27,\"id\":\"D1F\",\"line\":1,\
\"reason\":null,\"verdict\":\"met\"},\
{\"by\":[{\"test\":\"t1\",\"vector\":\"TT=T\"},{\"test\":\"t3\",\"vector\":\"F-=F\"}],\
\"column\":27,\"id\":\"D1C1\",\"line\":1,\"reason\":null,\"verdict\":\"met\"},\
{\"by\":[{\"test\":\"t1\",\"vector\":\"TT=T\"},{\"test\":\"t2\",\"vector\":\"TF=F\"}],\
\"column\":30,\"id\":\"D1C2\",\"line\":1,\"reason\":null,\"verdict\":\"met\"}],\
\"source\":\"8200d2384991a90c0fb5f6a208a7f0176cae5c6443e46177ef6bfd44c40d4caf\",\
\"status\":0,\"tests\":[\
{\"name\":\"t1\",\"output\":null,\"state\":\"pass\",\"values\":null},\
{\"name\":\"t2\",\"output\":null,\"state\":\"pass\",\"values\":null},\
{\"name\":\"t3\",\"output\":null,\"state\":\"pass\",\"values\":null}]}\n";

/// Words of a report as JSON, and what they give of the record.
fn is_json<R: Threads + Sync>(rt: &R, alloc: Global) -> Result<bool, Fail> {
    let record = format!(in alloc; "{HEAD}{BODY}")?;
    let words = "analyse|s.c|--format|json|LEFT";
    let setting = of_records(words, SOURCE.as_bytes(), record.as_bytes(), b"");
    let is_wanted = gives(rt, alloc, &setting, (0, JSON.as_bytes(), b""));
    drop(record);
    is_wanted
}

#[test]
fn a_record_as_json(rt: HostRuntime) -> Result<(), Fail> {
    assert!(rt; is_json(&rt, rt.alloc())?);
    Ok(())
}
