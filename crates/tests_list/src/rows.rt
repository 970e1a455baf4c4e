//! Listings as bytes, and lines.
ghost use Rattle.std.specs.Prelude.{◌≡◌, ◌≤◌, length, vec_len, IfOk};

use mc_list::{lines, strip, write_listing};
use mc_oblige::{Evidence, Obligation, ObligationId, Verdict, VerdictState};
use mc_port::{MemorySink, PutFault};
use mc_span::Span;
use std::alloc::{AllocError, Global};
use std::process::Abort;
use std::test::Fail;

const MET: VerdictState = VerdictState::Met;

const MISSING: VerdictState = VerdictState::Missing;

const JUSTIFIED: VerdictState = VerdictState::Justified;

/// A source, at which bytes something starts with which verdict, and the listing.
struct Row<'a> {
    source: &'a [u8],
    found: &'a [(u32, VerdictState)],
    listing: &'a [u8],
}

static ROWS: [Row<'static>; 4] = [
    Row {
        source: b"int f(int a,int b){return a&&b;}",
        found: &[(4, MET), (19, MET), (26, MET), (29, MET)],
        listing: b"      1 + | int f(int a,int b){return a&&b;}",
    },
    Row {
        source: b"int f(int a,int b){return a&&b;}",
        found: &[(4, MET), (29, MISSING), (26, MET)],
        listing: b"      1 ! | int f(int a,int b){return a&&b;}",
    },
    Row {
        source: b"a\r\n\n\xc3\xa9\r\n\xff",
        found: &[
            (3, JUSTIFIED),
            (4, VerdictState::Stale),
            (4, MET),
            (99, MISSING),
        ],
        listing: b"      1   | a\r\n      2 j | \n      3 ~ | \xc3\xa9\r\n      4   | \xff",
    },
    Row {
        source: b"",
        found: &[],
        listing: b"",
    },
];

fn obligations(alloc: Global, found: &[(u32, VerdictState)]) -> Result<Vec<Obligation>, AllocError>
    ensures { IfOk result (λ v. vec_len v ≡ length found.now) }
{
    found
        .iter()
        .map(|(start, _)| Obligation {
            id: ObligationId::Entry(0),
            span: Span {
                start: *start,
                end: *start,
            },
        })
        .collect(alloc)
}

fn verdicts(alloc: Global, found: &[(u32, VerdictState)]) -> Result<Vec<Verdict>, AllocError>
    ensures { IfOk result (λ v. vec_len v ≡ length found.now) }
{
    found
        .iter()
        .map(|(_, state)| Verdict {
            state: *state,
            evidence: Evidence::Absent,
            reason: None,
        })
        .collect(alloc)
}

/// What is written, and why no more.
fn put(
    alloc: Global,
    source: &[u8],
    found: &[(u32, VerdictState)],
    out: &mut MemorySink,
) -> Result<Result<(), PutFault>, AllocError>
    requires { length source.now ≤ 1048576 }
{
    let obligations = obligations(alloc, found)?;
    let verdicts = verdicts(alloc, found)?;
    Ok(write_listing(source, &obligations, &verdicts, out))
}

/// Whether the text without its margins is the source.
fn is_stripped(text: &[u8], source: &[u8]) -> bool
    requires { length text.now ≤ 1048576 }
{
    let mut left = source;
    for line in strip(text) {
        if !left.starts_with(line) {
            return false;
        }
        left = &left[line.len().min(left.len())..];
    }
    left.is_empty()
}

/// Whether the lines are numbered from 1, and follow each other up to the end of the source.
fn are_lines(source: &[u8]) -> bool
    requires { length source.now ≤ 1048576 }
{
    let mut number: u32 = 1;
    let mut left = source;
    for line in lines(source) {
        let end = (line.start as usize).saturating_add(left.len());
        if line.number != number || end != source.len() || !left.starts_with(line.bytes) {
            return false;
        }
        left = &left[line.bytes.len().min(left.len())..];
        number = number.saturating_add(1);
    }
    left.is_empty()
}

fn check(rt: &impl Abort, alloc: Global, row: &Row<'_>) -> Result<(), Fail> {
    assert!(rt; row.source.len() <= 1000);
    let mut out = MemorySink::new(alloc, 2000, Vec::new(alloc))?;
    assert_eq!(rt; put(alloc, row.source, row.found, &mut out)?, Ok(()));
    assert!(rt; out.bytes() == row.listing);
    assert!(rt; out.bytes().len() <= 2000);
    assert!(rt; is_stripped(out.bytes(), row.source));
    assert!(rt; are_lines(row.source));
    Ok(())
}

#[test]
fn listings_of_rows(rt: HostRuntime) -> Result<(), Fail> {
    let alloc = rt.alloc();
    for row in &ROWS {
        check(&rt, alloc, row)?;
    }
    Ok(())
}

/// A put that fails after three bytes of the second margin: a first part was written.
#[test]
fn listing_that_stops(rt: HostRuntime) -> Result<(), Fail> {
    let alloc = rt.alloc();
    let mut out = MemorySink::new(alloc, 2000, vec![in alloc; (3, 3)]?)?;
    let source = b"a\nb\nc\n";
    let put = put(alloc, source.as_slice(), &[], &mut out)?;
    assert_eq!(rt; put, Err(PutFault::Failed));
    assert!(rt; out.bytes() == b"      1   | a\n   ".as_slice());
    Ok(())
}

/// So many lines `ab`, and one of 5,000 bytes without LF.
fn long_source(alloc: Global, count: usize) -> Result<Vec<u8>, AllocError> {
    let mut source = Vec::new(alloc);
    for _line in 0..count {
        source.extend_from_slice(b"ab\n")?;
    }
    for _byte in 0..5000 {
        source.push(b'x')?;
    }
    Ok(source)
}

/// Each third line begins an obligation that is met, the last ones first, and at the end of the
/// source one begins that is missing.
fn long_found(alloc: Global, count: u32) -> Result<Vec<(u32, VerdictState)>, AllocError>
    requires { count ≤ 9000 }
{
    let mut found = Vec::new(alloc);
    for at in 0..count {
        if at % 3 == 0 {
            found.push((3 * (count - 1 - at), MET))?;
        }
    }
    found.push((3 * count + 4999, MISSING))?;
    Ok(found)
}

/// Whether the lines are marked as they should.
fn are_marked(text: &[u8], count: u32) -> bool
    requires text { length text.now ≤ 1048576 }
    requires count { count ≤ 9000 }
{
    for line in lines(text) {
        let mark = match line.bytes.get(8) {
            Some(mark) => *mark,
            None => return false,
        };
        let wanted = if line.number > count {
            b'!'
        } else if (count - line.number) % 3 == 0 {
            b'+'
        } else {
            b' '
        };
        if mark != wanted {
            return false;
        }
    }
    true
}

#[test]
fn listing_of_many_lines(rt: HostRuntime) -> Result<(), Fail> {
    let alloc = rt.alloc();
    let source = long_source(alloc, 9000)?;
    assert_eq!(rt; source.len(), 32_000);
    let found = long_found(alloc, 9000)?;
    let mut out = MemorySink::new(alloc, 200_000, Vec::new(alloc))?;
    assert_eq!(rt; put(alloc, &source, &found, &mut out)?, Ok(()));
    assert!(rt; out.bytes().len() == 32_000 + 9001 * 12);
    assert!(rt; out.bytes().len() <= 200_000);
    assert!(rt; is_stripped(out.bytes(), &source));
    assert!(rt; are_marked(out.bytes(), 9000));
    Ok(())
}
