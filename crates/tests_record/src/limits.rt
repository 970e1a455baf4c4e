//! Records with many tests or words.
ghost use Rattle.std.specs.Prelude.{◌≤◌, IfOk, IfSome};
ghost use Rattle.mc_record.specs.Kept.{IsKept};
ghost use Rattle.mc_record.specs.Seen.{kept_of};

use crate::merges::merge_of;
use crate::outcome::{outcome, read};
use crate::text::write_out;
use mc_core::{Matrix, Shape, words};
use mc_record::{PairFault, Record};
use std::alloc::{AllocError, Global};
use std::test::Fail;

const FULL: &str = " ffffffffffffffff";

/// The words of a bit: so many times the first, and what follows these.
#[derive(Clone, Copy)]
struct Row {
    count: u32,
    word: &'static str,
    last: &'static str,
}

/// A row has the number of tests, the words of the one bit as in `Row`, and what comes of the
/// record: the text of the fault, or `ok` where it is written as it was read.
static ROWS: [(u32, u32, &str, &str, &str); 12] = [
    (63, 0, "", " 7fffffffffffffff", "ok"),
    (63, 1, FULL, "", "record line 68: spare bit"),
    (64, 1, FULL, "", "ok"),
    (64, 1, FULL, " *0", "record line 69: word"),
    (65, 1, FULL, " *1", "ok"),
    (65, 1, FULL, " *2", "record line 70: spare bit"),
    (65, 1, FULL, "", "record line 70: word"),
    (65, 1, FULL, " *1 *0", "record line 70: word"),
    (128, 2, FULL, "", "ok"),
    (4095, 63, FULL, FULL, "record line 4100: spare bit"),
    (4096, 64, FULL, "", "ok"),
    (4097, 65, FULL, "", "record line 4: shape"),
];

fn push_bit(alloc: Global, out: &mut Vec<u8>, bit: u32, row: Row) -> Result<(), AllocError> {
    let front = format!(in alloc; "bit {bit}")?;
    write_out(out, front.as_str())?;
    for _word in 0..row.count {
        write_out(out, row.word)?;
    }
    write_out(out, row.last)?;
    write_out(out, "$")
}

fn push_test(alloc: Global, out: &mut Vec<u8>, number: u32) -> Result<(), AllocError> {
    let line = format!(in alloc; "test t{number} pass$")?;
    write_out(out, line.as_str())
}

// The record of so many bits and tests, the tests numbered from `first`.
fn text_of(
    alloc: Global,
    bits: u32,
    tests: u32,
    first: u32,
    row: Row,
) -> Result<Vec<u8>, AllocError> {
    let mut out = Vec::new(alloc);
    let head = format!(in alloc; "mcdc-record 2$source #$bits {bits}$tests {tests}$")?;
    write_out(&mut out, head.as_str())?;
    for test in 0..tests {
        push_test(alloc, &mut out, first.wrapping_add(test))?;
    }
    for bit in 0..bits {
        push_bit(alloc, &mut out, bit, row)?;
    }
    write_out(&mut out, "end$")?;
    Ok(out)
}

fn is_right(alloc: Global, tests: u32, row: Row, want: &str) -> Result<bool, AllocError> {
    let text = text_of(alloc, 1, tests, 0, row)?;
    let found = outcome(alloc, &text, 1, false)?;
    if want == "ok" {
        return Ok(found == text);
    }
    Ok(found.as_slice() == want.as_bytes())
}

#[test]
fn rows_of_words(rt: HostRuntime) -> Result<(), Fail> {
    let alloc = rt.alloc();
    for (tests, count, word, last, want) in &ROWS {
        let row = Row {
            count: *count,
            word,
            last,
        };
        assert!(rt; is_right(alloc, *tests, row, want)?, "{tests} {want}");
    }
    Ok(())
}

// How many bits two records have, how many tests each has, the number of the first test on the
// right, and what comes of both: how many tests, or why they have no common record.
#[derive(Clone, Copy)]
struct Pair {
    bits: u32,
    left: u32,
    right: u32,
    first: u32,
    want: Result<u32, PairFault>,
}

// The same tests over so many bits, of which none is hit; nothing where the words pass their limit.
fn over_bits(alloc: Global, tests: Record, bits: u32) -> Result<Option<Record>, AllocError>
    requires kept { IsKept (kept_of tests) }
    requires bits { bits ≤ 65536 }
    ensures { IfOk result (λ found. IfSome found (λ r. IsKept (kept_of r))) }
{
    let shape = Shape {
        bits,
        tests: tests.matrix.shape().tests,
    };
    if words(shape) > 1_048_576 {
        return Ok(None);
    }
    let matrix = Matrix::zero(alloc, shape)?;
    Ok(Some(Record {
        digest: tests.digest,
        names: tests.names,
        states: tests.states,
        matrix,
    }))
}

// A record of so many tests, of which none hit a bit.
fn idle_record(
    alloc: Global,
    bits: u32,
    tests: u32,
    first: u32,
) -> Result<Option<Record>, AllocError>
    requires { bits ≤ 65536 }
    ensures { IfOk result (λ found. IfSome found (λ r. IsKept (kept_of r))) }
{
    let row = Row {
        count: 0,
        word: "",
        last: "",
    };
    let text = text_of(alloc, 0, tests, first, row)?;
    match read(alloc, &text, 0, false) {
        Ok(record) => over_bits(alloc, record, bits),
        Err(_) => Ok(None),
    }
}

fn tests_of(found: Option<Result<Record, PairFault>>) -> Option<Result<u32, PairFault>> {
    match found {
        Some(Ok(both)) => Some(Ok(both.matrix.shape().tests)),
        Some(Err(fault)) => Some(Err(fault)),
        None => None,
    }
}

fn comes(alloc: Global, pair: Pair) -> Result<bool, AllocError>
    requires { pair.bits ≤ 65536 }
{
    let left = idle_record(alloc, pair.bits, pair.left, 0)?;
    let right = idle_record(alloc, pair.bits, pair.right, pair.first)?;
    match (left, right) {
        (Some(left), Some(right)) => {
            Ok(tests_of(merge_of(alloc, &left, &right)) == Some(pair.want))
        }
        _ => Ok(false),
    }
}

/// A row has the parts of a `Pair`, in order.
static PAIRS: [(u32, u32, u32, u32, Result<u32, PairFault>); 11] = [
    (1, 4095, 1, 4095, Ok(4096)),
    (1, 4096, 0, 0, Ok(4096)),
    (1, 4096, 1, 4096, Err(PairFault::Limit { tests: 4097 })),
    (1, 2048, 2049, 2048, Err(PairFault::Limit { tests: 4097 })),
    (
        1,
        4096,
        4096,
        4095,
        Err(PairFault::SameTest {
            left: 4095,
            right: 0,
        }),
    ),
    (65536, 512, 512, 512, Ok(1024)),
    (
        65536,
        512,
        513,
        512,
        Err(PairFault::TooLarge { words: 1_114_112 }),
    ),
    (
        16385,
        2048,
        2048,
        2048,
        Err(PairFault::TooLarge { words: 1_048_640 }),
    ),
    // The words would be too many in these too, and another fault comes first.
    (
        16385,
        2048,
        2049,
        2048,
        Err(PairFault::Limit { tests: 4097 }),
    ),
    (
        65536,
        512,
        513,
        511,
        Err(PairFault::SameTest {
            left: 511,
            right: 0,
        }),
    ),
    (
        16385,
        2049,
        2049,
        2048,
        Err(PairFault::SameTest {
            left: 2048,
            right: 0,
        }),
    ),
];

#[test]
fn large_pairs(rt: HostRuntime) -> Result<(), Fail> {
    let alloc = rt.alloc();
    for (bits, left, right, first, want) in &PAIRS {
        let pair = Pair {
            bits: (*bits).min(65536),
            left: *left,
            right: *right,
            first: *first,
            want: *want,
        };
        assert!(rt; comes(alloc, pair)?, "{bits} {left} {right}");
    }
    Ok(())
}
