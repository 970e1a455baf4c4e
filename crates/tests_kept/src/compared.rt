//! What `report` writes of tests, and `analyse` of the record of these tests: the same but for what
//! is told of each test, in each form, by either kind of independence, with a justification and
//! without. Each text that is expected was written out by hand.

use crate::run::{Setting, gives, of_tests};
use std::alloc::Global;
use std::thread::Threads;
use tests_memory::Fail;

/// The first `a` is the same object, so the second one cannot change alone: it has a pair by
/// masking, and none by unique cause.
const SOURCE: &str = "int f(int a,int b,int c){return (a&&b)||(a&&c);}";

const TESTS: &str = "\
test,call,arguments,inputs,expect,output
t1,f,0 0 0,,,
t2,f,0 0 1,,,
t3,f,0 1 0,,,
t4,f,0 1 1,,,
t5,f,1 0 0,,,
t6,f,1 0 1,,,
t7,f,1 1 0,,,
t8,f,1 1 1,,,
";

/// Their record. The digest is by `sha256sum`. The bits from 3 on are those of the vectors `TT--`,
/// `TFTT`, `TFTF`, `TFF-`, `F-TT`, `F-TF` and `F-F-`.
const RECORD: &str = "\
mcdc-record 2
source d69398a353159496f86433f8a497c7e29ad22b2627115549a9beaa30eb2afd3f
bits 10
tests 8
test t1 pass
test t2 pass
test t3 pass
test t4 pass
test t5 pass
test t6 pass
test t7 pass
test t8 pass
bit 0 00000000000000ff
bit 1 00000000000000ff
bit 2 00000000000000ff
bit 3 00000000000000c0
bit 4 0000000000000020
bit 5 0000000000000010
bit 6 0000000000000000
bit 7 0000000000000000
bit 8 0000000000000000
bit 9 000000000000000f
end
";

const JUSTIFICATIONS: &str = r#"[{"id":"D1C3","quote":"a","reason":"a stands twice"}]"#;

/// What a form tells of the tests after a run, and from a record.
type Told = (&'static str, &'static str);

const TEXT: Told = (
    "\
test t1 pass values 0 output
test t2 pass values 0 output
test t3 pass values 0 output
test t4 pass values 0 output
test t5 pass values 0 output
test t6 pass values 1 output
test t7 pass values 1 output
test t8 pass values 1 output
",
    "\
test t1 pass
test t2 pass
test t3 pass
test t4 pass
test t5 pass
test t6 pass
test t7 pass
test t8 pass
",
);

const CSV: Told = ("", "");

const JSON: Told = (
    "\
{\"name\":\"t1\",\"output\":[],\"state\":\"pass\",\"values\":[0]},\
{\"name\":\"t2\",\"output\":[],\"state\":\"pass\",\"values\":[0]},\
{\"name\":\"t3\",\"output\":[],\"state\":\"pass\",\"values\":[0]},\
{\"name\":\"t4\",\"output\":[],\"state\":\"pass\",\"values\":[0]},\
{\"name\":\"t5\",\"output\":[],\"state\":\"pass\",\"values\":[0]},\
{\"name\":\"t6\",\"output\":[],\"state\":\"pass\",\"values\":[1]},\
{\"name\":\"t7\",\"output\":[],\"state\":\"pass\",\"values\":[1]},\
{\"name\":\"t8\",\"output\":[],\"state\":\"pass\",\"values\":[1]}",
    "\
{\"name\":\"t1\",\"output\":null,\"state\":\"pass\",\"values\":null},\
{\"name\":\"t2\",\"output\":null,\"state\":\"pass\",\"values\":null},\
{\"name\":\"t3\",\"output\":null,\"state\":\"pass\",\"values\":null},\
{\"name\":\"t4\",\"output\":null,\"state\":\"pass\",\"values\":null},\
{\"name\":\"t5\",\"output\":null,\"state\":\"pass\",\"values\":null},\
{\"name\":\"t6\",\"output\":null,\"state\":\"pass\",\"values\":null},\
{\"name\":\"t7\",\"output\":null,\"state\":\"pass\",\"values\":null},\
{\"name\":\"t8\",\"output\":null,\"state\":\"pass\",\"values\":null}",
);

/// The lines of a text before those of the tests.
const UNIQUE: &str = "\
mcdc report unique
source sha256 d69398a353159496f86433f8a497c7e29ad22b2627115549a9beaa30eb2afd3f
";

const MASKING: &str = "\
mcdc report masking
source sha256 d69398a353159496f86433f8a497c7e29ad22b2627115549a9beaa30eb2afd3f
";

/// The lines before that of the third condition, and those after it up to the conditions.
const LINES: &str = "\
E1 1:5 met by t1
X1 1:26 met by t1
S1 1:26 met by t1
D1T 1:33 met by t6
D1F 1:33 met by t1
D1C1 1:34 met TT--=T by t7 F-F-=F by t1
D1C2 1:37 met TT--=T by t7 TFTF=F by t5
";

const LATER_LINES: &str = "\
D1C4 1:45 met TFTT=T by t6 TFTF=F by t5
entries met 1 justified 0 stale 0 missing 0 of 1
exits met 1 justified 0 stale 0 missing 0 of 1
statements met 1 justified 0 stale 0 missing 0 of 1
labels met 0 justified 0 stale 0 missing 0 of 0
outcomes met 2 justified 0 stale 0 missing 0 of 2
";

/// The rows before that of the third condition, and the one after it.
const ROWS: &str = "\
id,line,column,verdict,first,first_test,second,second_test,text,reason
E1,1,5,met,,t1,,,f,
X1,1,26,met,,t1,,,return (a&&b)||(a&&c);,
S1,1,26,met,,t1,,,return (a&&b)||(a&&c);,
D1T,1,33,met,,t6,,,(a&&b)||(a&&c),
D1F,1,33,met,,t1,,,(a&&b)||(a&&c),
D1C1,1,34,met,TT--=T,t7,F-F-=F,t1,a,
D1C2,1,37,met,TT--=T,t7,TFTF=F,t5,b,
";

const LATER_ROWS: &str = "D1C4,1,45,met,TFTT=T,t6,TFTF=F,t5,c,\n";

/// The counts after those of the conditions.
const COUNTS: &str = "\
,\"entries\":{\"justified\":0,\"met\":1,\"missing\":0,\"stale\":0,\"total\":1},\
\"exits\":{\"justified\":0,\"met\":1,\"missing\":0,\"stale\":0,\"total\":1},\
\"labels\":{\"justified\":0,\"met\":0,\"missing\":0,\"stale\":0,\"total\":0},\
\"outcomes\":{\"justified\":0,\"met\":2,\"missing\":0,\"stale\":0,\"total\":2},\
\"statements\":{\"justified\":0,\"met\":1,\"missing\":0,\"stale\":0,\"total\":1}}";

/// The objects before that of the third condition, and the one after it up to the tests.
const OBJECTS: &str = "\
,\"obligations\":[\
{\"by\":[{\"test\":\"t1\",\"vector\":null}],\"column\":5,\"id\":\"E1\",\"line\":1,\
\"reason\":null,\"verdict\":\"met\"},\
{\"by\":[{\"test\":\"t1\",\"vector\":null}],\"column\":26,\"id\":\"X1\",\"line\":1,\
\"reason\":null,\"verdict\":\"met\"},\
{\"by\":[{\"test\":\"t1\",\"vector\":null}],\"column\":26,\"id\":\"S1\",\"line\":1,\
\"reason\":null,\"verdict\":\"met\"},\
{\"by\":[{\"test\":\"t6\",\"vector\":null}],\"column\":33,\"id\":\"D1T\",\"line\":1,\
\"reason\":null,\"verdict\":\"met\"},\
{\"by\":[{\"test\":\"t1\",\"vector\":null}],\"column\":33,\"id\":\"D1F\",\"line\":1,\
\"reason\":null,\"verdict\":\"met\"},\
{\"by\":[{\"test\":\"t7\",\"vector\":\"TT--=T\"},{\"test\":\"t1\",\"vector\":\"F-F-=F\"}],\
\"column\":34,\"id\":\"D1C1\",\"line\":1,\"reason\":null,\"verdict\":\"met\"},\
{\"by\":[{\"test\":\"t7\",\"vector\":\"TT--=T\"},{\"test\":\"t5\",\"vector\":\"TFTF=F\"}],\
\"column\":37,\"id\":\"D1C2\",\"line\":1,\"reason\":null,\"verdict\":\"met\"},";

const LATER_OBJECTS: &str = "\
,{\"by\":[{\"test\":\"t6\",\"vector\":\"TFTT=T\"},{\"test\":\"t5\",\"vector\":\"TFTF=F\"}],\
\"column\":45,\"id\":\"D1C4\",\"line\":1,\"reason\":null,\"verdict\":\"met\"}],\
\"source\":\"d69398a353159496f86433f8a497c7e29ad22b2627115549a9beaa30eb2afd3f\",\"status\":";

/// The object of the third condition: missing, justified, met and stale.
const MISSING: &str = "\
{\"by\":[],\"column\":42,\"id\":\"D1C3\",\"line\":1,\"reason\":null,\"verdict\":\"missing\"}";

const JUSTIFIED: &str = "\
{\"by\":[],\"column\":42,\"id\":\"D1C3\",\"line\":1,\"reason\":\"a stands twice\",\
\"verdict\":\"justified\"}";

const MET: &str = "\
{\"by\":[{\"test\":\"t6\",\"vector\":\"TFTT=T\"},{\"test\":\"t1\",\"vector\":\"F-F-=F\"}],\
\"column\":42,\"id\":\"D1C3\",\"line\":1,\"reason\":null,\"verdict\":\"met\"}";

const STALE: &str = "\
{\"by\":[{\"test\":\"t6\",\"vector\":\"TFTT=T\"},{\"test\":\"t1\",\"vector\":\"F-F-=F\"}],\
\"column\":42,\"id\":\"D1C3\",\"line\":1,\"reason\":\"a stands twice\",\"verdict\":\"stale\"}";

/// The counts of the conditions in the same order.
const ONE_MISSING: &str = "\
{\"counts\":{\"conditions\":{\"justified\":0,\"met\":3,\"missing\":1,\"stale\":0,\"total\":4}";

const ONE_JUSTIFIED: &str = "\
{\"counts\":{\"conditions\":{\"justified\":1,\"met\":3,\"missing\":0,\"stale\":0,\"total\":4}";

const ALL_MET: &str = "\
{\"counts\":{\"conditions\":{\"justified\":0,\"met\":4,\"missing\":0,\"stale\":0,\"total\":4}";

const ONE_STALE: &str = "\
{\"counts\":{\"conditions\":{\"justified\":0,\"met\":3,\"missing\":0,\"stale\":1,\"total\":4}";

const BY_UNIQUE: &str = ",\"mode\":\"unique\"";

const BY_MASKING: &str = ",\"mode\":\"masking\"";

/// The options with `|` before each word, the status, and what is written: the parts before what is
/// told of the tests, this, and the parts after it. The file `RIGHT` has the justification.
static WRITTEN: [(&str, u8, &[&str], Told, &[&str]); 13] = [
    (
        "",
        1,
        &[UNIQUE],
        TEXT,
        &[
            LINES,
            "D1C3 1:42 missing\n",
            LATER_LINES,
            "conditions met 3 justified 0 stale 0 missing 1 of 4\nstatus 1\n",
        ],
    ),
    (
        "|--mode|unique|--format|text",
        1,
        &[UNIQUE],
        TEXT,
        &[
            LINES,
            "D1C3 1:42 missing\n",
            LATER_LINES,
            "conditions met 3 justified 0 stale 0 missing 1 of 4\nstatus 1\n",
        ],
    ),
    (
        "|--justify|RIGHT",
        0,
        &[UNIQUE],
        TEXT,
        &[
            LINES,
            "D1C3 1:42 justified \"a stands twice\"\n",
            LATER_LINES,
            "conditions met 3 justified 1 stale 0 missing 0 of 4\nstatus 0\n",
        ],
    ),
    (
        "|--mode|masking",
        0,
        &[MASKING],
        TEXT,
        &[
            LINES,
            "D1C3 1:42 met TFTT=T by t6 F-F-=F by t1\n",
            LATER_LINES,
            "conditions met 4 justified 0 stale 0 missing 0 of 4\nstatus 0\n",
        ],
    ),
    (
        "|--mode|masking|--justify|RIGHT",
        1,
        &[MASKING],
        TEXT,
        &[
            LINES,
            "D1C3 1:42 stale TFTT=T by t6 F-F-=F by t1 \"a stands twice\"\n",
            LATER_LINES,
            "conditions met 3 justified 0 stale 1 missing 0 of 4\nstatus 1\n",
        ],
    ),
    (
        "|--format|csv",
        1,
        &[ROWS, "D1C3,1,42,missing,,,,,a,\n", LATER_ROWS],
        CSV,
        &[],
    ),
    (
        "|--format|csv|--justify|RIGHT",
        0,
        &[
            ROWS,
            "D1C3,1,42,justified,,,,,a,a stands twice\n",
            LATER_ROWS,
        ],
        CSV,
        &[],
    ),
    (
        "|--mode|masking|--format|csv",
        0,
        &[ROWS, "D1C3,1,42,met,TFTT=T,t6,F-F-=F,t1,a,\n", LATER_ROWS],
        CSV,
        &[],
    ),
    (
        "|--justify|RIGHT|--format|csv|--mode|masking",
        1,
        &[
            ROWS,
            "D1C3,1,42,stale,TFTT=T,t6,F-F-=F,t1,a,a stands twice\n",
            LATER_ROWS,
        ],
        CSV,
        &[],
    ),
    (
        "|--format|json",
        1,
        &[
            ONE_MISSING,
            COUNTS,
            BY_UNIQUE,
            OBJECTS,
            MISSING,
            LATER_OBJECTS,
            "1,\"tests\":[",
        ],
        JSON,
        &["]}\n"],
    ),
    (
        "|--justify=RIGHT|--format=json",
        0,
        &[
            ONE_JUSTIFIED,
            COUNTS,
            BY_UNIQUE,
            OBJECTS,
            JUSTIFIED,
            LATER_OBJECTS,
            "0,\"tests\":[",
        ],
        JSON,
        &["]}\n"],
    ),
    (
        "|--format|json|--mode|masking",
        0,
        &[
            ALL_MET,
            COUNTS,
            BY_MASKING,
            OBJECTS,
            MET,
            LATER_OBJECTS,
            "0,\"tests\":[",
        ],
        JSON,
        &["]}\n"],
    ),
    (
        "|--mode|masking|--format|json|--justify|RIGHT",
        1,
        &[
            ONE_STALE,
            COUNTS,
            BY_MASKING,
            OBJECTS,
            STALE,
            LATER_OBJECTS,
            "1,\"tests\":[",
        ],
        JSON,
        &["]}\n"],
    ),
];

fn joined(alloc: Global, front: &[&str], told: &str, back: &[&str]) -> Result<String, Fail> {
    let mut text = String::new(alloc);
    for part in front {
        text.push_str(part)?;
    }
    text.push_str(told)?;
    for part in back {
        text.push_str(part)?;
    }
    Ok(text)
}

// Whether this command with these options writes this.
fn is_written<R: Threads + Sync>(
    rt: &R,
    alloc: Global,
    command: &str,
    options: &str,
    want: (u8, &str),
) -> Result<bool, Fail> {
    let (status, out) = want;
    let words = format!(in alloc; "{command}{options}")?;
    let setting = Setting {
        words: words.as_str(),
        source: SOURCE.as_bytes(),
        tests: TESTS.as_bytes(),
        left: RECORD.as_bytes(),
        right: JUSTIFICATIONS.as_bytes(),
    };
    let is_wanted = gives(rt, alloc, &setting, (status, out.as_bytes(), b""));
    drop(words);
    is_wanted
}

#[test]
fn reports_of_the_tests(rt: HostRuntime) -> Result<(), Fail> {
    for (options, status, front, told, back) in &WRITTEN {
        let out = joined(rt.alloc(), front, told.0, back)?;
        let want = (*status, out.as_str());
        let is_written = is_written(&rt, rt.alloc(), "report|s.c|t.csv", options, want);
        drop(out);
        assert!(rt; is_written?, "{options}");
    }
    Ok(())
}

#[test]
fn the_same_of_their_record(rt: HostRuntime) -> Result<(), Fail> {
    for (options, status, front, told, back) in &WRITTEN {
        let out = joined(rt.alloc(), front, told.1, back)?;
        let want = (*status, out.as_str());
        let is_written = is_written(&rt, rt.alloc(), "analyse|s.c|LEFT", options, want);
        drop(out);
        assert!(rt; is_written?, "{options}");
    }
    Ok(())
}

#[test]
fn their_record(rt: HostRuntime) -> Result<(), Fail> {
    let setting = of_tests("record|s.c|t.csv", SOURCE.as_bytes(), TESTS.as_bytes());
    let want = (0, RECORD.as_bytes(), b"".as_slice());
    assert!(rt; gives(&rt, rt.alloc(), &setting, want)?);
    Ok(())
}
