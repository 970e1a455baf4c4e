//! Counts by function, written out by hand.
ghost use Rattle.std.specs.Prelude.{◌≡◌, ◌<◌, ◌^◌, length, vec_len, IfOk};

use mc_functions::{Measured, function_lines, functions_status};
use mc_oblige::{Evidence, Obligation, ObligationId, Verdict, VerdictState};
use mc_places::Places;
use mc_span::Span;
use mc_typed::TestState;
use std::alloc::{AllocError, Global};
use std::process::Abort;
use std::test::Fail;

const MET: VerdictState = VerdictState::Met;

const MISSING: VerdictState = VerdictState::Missing;

const JUSTIFIED: VerdictState = VerdictState::Justified;

const STALE: VerdictState = VerdictState::Stale;

/// An obligation, the bytes at which it stands, and its verdict.
type Found = (ObligationId, u32, u32, VerdictState);

/// Three functions of two files.
const THREE: &[u8] = b"# 70 \"modes.c\"\n\
int up(void){return 1;}\n\
# 3 \"low.h\"\n\
int low(void){return 2;}\n\
# 80 \"modes.c\"\n\
int off(void){return 3;}\n";

const FOUND: &[Found] = &[
    (ObligationId::Entry(0), 19, 21, MET),
    (ObligationId::Entry(1), 55, 58, MISSING),
    (ObligationId::Entry(2), 95, 98, MET),
    (ObligationId::Exit(0), 28, 37, MET),
    (ObligationId::Exit(1), 65, 74, MISSING),
    (ObligationId::Exit(2), 105, 114, JUSTIFIED),
    (ObligationId::Statement(0), 28, 37, MET),
    (ObligationId::Statement(1), 65, 74, MISSING),
    (ObligationId::Statement(2), 105, 114, STALE),
];

/// A `switch` over eleven values, each of which is tried: the `default` that is not written is not
/// chosen.
const SWITCH: &[u8] = b"int f(int a){switch(a){\
case 0:case 1:case 2:case 3:case 4:case 5:case 6:case 7:case 8:case 9:case 10:return 1;}return 2;}";

const FOUND_IN_SWITCH: &[Found] = &[
    (ObligationId::Entry(0), 4, 5, MET),
    (ObligationId::Exit(0), 101, 110, MET),
    (ObligationId::Exit(1), 111, 120, MISSING),
    (ObligationId::Statement(0), 13, 19, MET),
    (ObligationId::Statement(1), 101, 110, MET),
    (ObligationId::Statement(2), 111, 120, MISSING),
    (ObligationId::Label(0), 23, 30, MET),
    (ObligationId::Label(1), 30, 37, MET),
    (ObligationId::Label(2), 37, 44, MET),
    (ObligationId::Label(3), 44, 51, MET),
    (ObligationId::Label(4), 51, 58, MET),
    (ObligationId::Label(5), 58, 65, MET),
    (ObligationId::Label(6), 65, 72, MET),
    (ObligationId::Label(7), 72, 79, MET),
    (ObligationId::Label(8), 79, 86, MET),
    (ObligationId::Label(9), 86, 93, MET),
    (ObligationId::Label(10), 93, 101, MET),
    (ObligationId::Label(11), 13, 19, MISSING),
];

/// A text with what is found in it, the states of its tests, the file, the lines, and the status.
struct Row<'a> {
    source: &'a [u8],
    found: &'a [Found],
    states: &'a [TestState],
    file: Option<&'a [u8]>,
    lines: &'a [u8],
    status: u8,
}

static ROWS: [Row<'static>; 8] = [
    Row {
        source: THREE,
        found: FOUND,
        states: &[TestState::Pass],
        file: None,
        lines: b"up modes.c:70 (2:5)\n\
\x20 entries     1 of 1  100 %\n\
\x20 exits       1 of 1  100 %\n\
\x20 statements  1 of 1  100 %\n\
low low.h:3 (4:5)\n\
\x20 entries     0 of 1    0 %\n\
\x20 exits       0 of 1    0 %\n\
\x20 statements  0 of 1    0 %\n\
off modes.c:80 (6:5)\n\
\x20 entries     1 of 1  100 %\n\
\x20 exits       0 of 1    0 %   justified 1\n\
\x20 statements  0 of 1    0 %   stale 1\n\
all: 4 of 9 met, 1 justified, 1 stale, 3 missing\n\
status 1\n",
        status: 1,
    },
    Row {
        source: THREE,
        found: FOUND,
        states: &[TestState::Pass],
        file: Some(b"modes.c"),
        lines: b"up modes.c:70 (2:5)\n\
\x20 entries     1 of 1  100 %\n\
\x20 exits       1 of 1  100 %\n\
\x20 statements  1 of 1  100 %\n\
off modes.c:80 (6:5)\n\
\x20 entries     1 of 1  100 %\n\
\x20 exits       0 of 1    0 %   justified 1\n\
\x20 statements  0 of 1    0 %   stale 1\n\
all of modes.c: 4 of 6 met, 1 justified, 1 stale, 0 missing; 3 more in other files\n\
status 1\n",
        status: 1,
    },
    Row {
        source: THREE,
        found: FOUND,
        states: &[TestState::Pass],
        file: Some(b"low.h"),
        lines: b"low low.h:3 (4:5)\n\
\x20 entries     0 of 1    0 %\n\
\x20 exits       0 of 1    0 %\n\
\x20 statements  0 of 1    0 %\n\
all of low.h: 0 of 3 met, 0 justified, 0 stale, 3 missing; 6 more in other files\n\
status 1\n",
        status: 1,
    },
    Row {
        source: THREE,
        found: FOUND,
        states: &[],
        file: Some(b"none.c"),
        lines: b"all of none.c: 0 of 0 met, 0 justified, 0 stale, 0 missing; 9 more in other files\n\
status 0\n",
        status: 0,
    },
    Row {
        source: b"int f(int a,int b){return a&&b;}",
        found: &[
            (ObligationId::Entry(0), 4, 5, MET),
            (ObligationId::Outcome(0, true), 19, 23, JUSTIFIED),
        ],
        states: &[TestState::Pass],
        file: None,
        lines: b"f 1:5\n\
\x20 entries     1 of 1  100 %\n\
\x20 outcomes    0 of 1    0 %   justified 1\n\
all: 1 of 2 met, 1 justified, 0 stale, 0 missing\n\
status 0\n",
        status: 0,
    },
    Row {
        source: b"int f(int a,int b){return a&&b;}",
        found: &[
            (ObligationId::Entry(0), 4, 5, MET),
            (ObligationId::Outcome(0, true), 19, 23, JUSTIFIED),
        ],
        states: &[TestState::Pass, TestState::Fail],
        file: None,
        lines: b"f 1:5\n\
\x20 entries     1 of 1  100 %\n\
\x20 outcomes    0 of 1    0 %   justified 1\n\
all: 1 of 2 met, 1 justified, 0 stale, 0 missing\n\
status 1\n",
        status: 1,
    },
    Row {
        source: SWITCH,
        found: FOUND_IN_SWITCH,
        states: &[TestState::Pass],
        file: None,
        lines: b"f 1:5\n\
\x20 entries      1 of 1   100 %\n\
\x20 exits        1 of 2    50 %\n\
\x20 statements   2 of 3    66 %\n\
\x20 labels      11 of 12   91 %\n\
all: 15 of 18 met, 0 justified, 0 stale, 3 missing\n\
status 1\n",
        status: 1,
    },
    Row {
        source: b"int f(int a,int b){return a&&b;}",
        found: &[
            (ObligationId::Entry(0), 4, 5, MET),
            (ObligationId::Condition(0, 0), 19, 20, MET),
            (ObligationId::Label(0), 9, 10, MET),
        ],
        states: &[TestState::Pass],
        file: None,
        lines: b"f 1:5\n\
\x20 entries     1 of 1  100 %\n\
\x20 labels      1 of 1  100 %\n\
\x20 conditions  1 of 1  100 %\n\
all: 3 of 3 met, 0 justified, 0 stale, 0 missing\n\
status 0\n",
        status: 0,
    },
];

fn obligation(found: &Found) -> Obligation {
    Obligation {
        id: found.0,
        span: Span {
            start: found.1,
            end: found.2,
        },
    }
}

fn verdict(state: VerdictState) -> Verdict {
    Verdict {
        state,
        evidence: Evidence::Absent,
        reason: None,
    }
}

fn obligations(alloc: Global, found: &[Found]) -> Result<Vec<Obligation>, AllocError>
    ensures { IfOk result (λ v. vec_len v ≡ length found.now) }
{
    found.iter().map(|one| obligation(one)).collect(alloc)
}

fn verdicts(alloc: Global, found: &[Found]) -> Result<Vec<Verdict>, AllocError>
    ensures { IfOk result (λ v. vec_len v ≡ length found.now) }
{
    found.iter().map(|one| verdict(one.3)).collect(alloc)
}

/// Whether the lines one after the other are the text.
fn are_lines(lines: &[Vec<u8>], text: &[u8]) -> bool {
    let mut left = text;
    for line in lines {
        if !left.starts_with(line) {
            return false;
        }
        left = &left[line.len().min(left.len())..];
    }
    left.is_empty()
}

/// The lines, and the status.
fn counts_at(
    alloc: Global,
    places: &Places<'_>,
    obligations: &[Obligation],
    verdicts: &[Verdict],
    states: &[TestState],
    file: Option<&[u8]>,
) -> Result<(Vec<Vec<u8>>, u8), AllocError>
    requires { length verdicts.now ≡ length obligations.now }
{
    let measured = Measured {
        places,
        obligations,
        verdicts,
        states,
        file,
    };
    let status = functions_status(&measured);
    let lines = function_lines(alloc, &measured)?;
    Ok((lines, status))
}

fn counts(
    alloc: Global,
    source: &[u8],
    obligations: &[Obligation],
    verdicts: &[Verdict],
    states: &[TestState],
    file: Option<&[u8]>,
) -> Result<(Vec<Vec<u8>>, u8), AllocError>
    requires short { length source.now < 2 ^ 31 }
    requires same { length verdicts.now ≡ length obligations.now }
{
    let places = Places::of(alloc, source)?;
    counts_at(alloc, &places, obligations, verdicts, states, file)
}

fn check(rt: &impl Abort, alloc: Global, row: &Row<'_>) -> Result<(), Fail> {
    assert!(rt; row.source.len() <= 1000);
    let obligations = obligations(alloc, row.found)?;
    let verdicts = verdicts(alloc, row.found)?;
    let (lines, status) = counts(
        alloc,
        row.source,
        &obligations,
        &verdicts,
        row.states,
        row.file,
    )?;
    assert!(rt; are_lines(&lines, row.lines));
    assert_eq!(rt; status, row.status);
    Ok(())
}

#[test]
fn counts_of_rows(rt: HostRuntime) -> Result<(), Fail> {
    let alloc = rt.alloc();
    for row in &ROWS {
        check(&rt, alloc, row)?;
    }
    Ok(())
}

/// A text of two lines for each of a thousand functions.
fn thousand(alloc: Global) -> Result<Vec<u8>, AllocError> {
    let mut source = Vec::new(alloc);
    for _function in 0..1000 {
        source.extend_from_slice(b"# 5 \"m.c\"\nint f(void){return 1;}\n")?;
    }
    Ok(source)
}

/// The entry and the statement of each of them.
fn found_in_thousand(alloc: Global) -> Result<Vec<Found>, AllocError> {
    let mut found: Vec<Found> = Vec::new(alloc);
    for number in 0..1000u32 {
        let start = number * 33;
        found.push((ObligationId::Entry(number), start + 14, start + 15, MET))?;
        found.push((ObligationId::Statement(number), start + 22, start + 31, MET))?;
    }
    Ok(found)
}

fn is_line(lines: &[Vec<u8>], number: usize, text: &[u8]) -> bool {
    match lines.get(number) {
        Some(line) => line.as_slice() == text,
        None => false,
    }
}

#[test]
fn counts_of_a_thousand_functions(rt: HostRuntime) -> Result<(), Fail> {
    let alloc = rt.alloc();
    let source = thousand(alloc)?;
    assert!(rt; source.len() == 33_000);
    let found = found_in_thousand(alloc)?;
    let obligations = obligations(alloc, &found)?;
    let verdicts = verdicts(alloc, &found)?;
    let (lines, status) = counts(alloc, &source, &obligations, &verdicts, &[], Some(b"m.c"))?;
    assert_eq!(rt; status, 0);
    assert_eq!(rt; lines.len(), 3002);
    assert!(rt; is_line(&lines, 0, b"f m.c:5 (2:5)\n"));
    assert!(rt; is_line(&lines, 2997, b"f m.c:5 (2000:5)\n"));
    assert!(rt; is_line(&lines, 2999, b"  statements  1 of 1  100 %\n"));
    let all =
        b"all of m.c: 2000 of 2000 met, 0 justified, 0 stale, 0 missing; 0 more in other files\n";
    assert!(rt; is_line(&lines, 3000, all.as_slice()));
    Ok(())
}
