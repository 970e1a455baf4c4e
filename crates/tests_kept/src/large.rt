//! Records and matrices at their limits.

use crate::run::{gives, of_records, of_tests};
use crate::text::{BODY, HEAD, HEADER, SOURCE, push};
use std::alloc::Global;
use std::thread::Threads;
use tests_memory::Fail;

/// How many statements that do nothing a source has, which bits it has with its entry and its exit,
/// and its digest by `sha256sum`.
type Program = (usize, u32, &'static str);

/// The most bits.
const MOST_BITS: Program = (
    65_534,
    65_536,
    "f1028a31825de32e3d5e475da07a753f40417ff0b964a594301220200bb6df08",
);

/// One more than there may be under 4,096 tests.
const WIDE: Program = (
    16_383,
    16_385,
    "207479ee7a7a3e6609fa9d9eeb3c6c2ffd51b158cc6527dd4a35c9ca83287224",
);

fn source_of(alloc: Global, statements: usize) -> Result<String, Fail> {
    let nulls = ";".repeat(alloc, statements)?;
    let source = format!(in alloc; "void f(void){{{nulls}}}");
    drop(nulls);
    Ok(source?)
}

fn push_bits(alloc: Global, record: &mut String, bits: u32, tests: u32) -> Result<(), Fail> {
    let words = tests.saturating_add(63) / 64;
    let zeros = " 0000000000000000".repeat(alloc, words as usize)?;
    for bit in 0..bits {
        push(record, format!(in alloc; "bit {bit}{zeros}\n"))?;
    }
    drop(zeros);
    Ok(())
}

/// The record of this number of tests, numbered from `first` on, that passed and hit nothing.
fn idle_record(alloc: Global, program: Program, tests: u32, first: u32) -> Result<String, Fail> {
    let (_, bits, digest) = program;
    let mut record = String::new(alloc);
    push(
        &mut record,
        format!(in alloc; "mcdc-record 2\nsource {digest}\nbits {bits}\ntests {tests}\n"),
    )?;
    for test in 0..tests {
        let number = first.saturating_add(test);
        push(&mut record, format!(in alloc; "test t{number} pass\n"))?;
    }
    push_bits(alloc, &mut record, bits, tests)?;
    record.push_str("end\n")?;
    Ok(record)
}

/// How many tests two records have, and the number of the first one on the right.
type Pair = (u32, u32, u32);

/// A program, two records of it, and what their merging gives. Together all of these have too many
/// words; that a name stands in both is told first, and then that there are too many tests.
static PAIRS: [(Program, Pair, (u8, &str)); 4] = [
    (
        MOST_BITS,
        (512, 513, 512),
        (9, "mcdc: matrix needs 1114112 words\n"),
    ),
    (
        MOST_BITS,
        (512, 513, 511),
        (4, "mcdc: records: same test 512 and 1\n"),
    ),
    (
        WIDE,
        (2048, 2048, 2048),
        (9, "mcdc: matrix needs 1048640 words\n"),
    ),
    (WIDE, (2048, 2049, 2048), (4, "mcdc: records: 4097 tests\n")),
];

fn is_refused<R: Threads + Sync>(
    rt: &R,
    alloc: Global,
    statements: usize,
    left: &str,
    right: &str,
    want: (u8, &str),
) -> Result<bool, Fail> {
    let (status, diag) = want;
    let source = source_of(alloc, statements)?;
    let words = "merge|s.c|LEFT|RIGHT";
    let setting = of_records(words, source.as_bytes(), left.as_bytes(), right.as_bytes());
    let is_wanted = gives(rt, alloc, &setting, (status, b"", diag.as_bytes()));
    drop(source);
    is_wanted
}

fn are_refused<R: Threads + Sync>(
    rt: &R,
    alloc: Global,
    program: Program,
    pair: Pair,
    want: (u8, &str),
) -> Result<bool, Fail> {
    let (left, right, first) = pair;
    let left = idle_record(alloc, program, left, 0)?;
    let right = idle_record(alloc, program, right, first)?;
    let is_wanted = is_refused(rt, alloc, program.0, left.as_str(), right.as_str(), want);
    drop(right);
    drop(left);
    is_wanted
}

#[test]
fn pairs_with_too_many_words(rt: HostRuntime) -> Result<(), Fail> {
    for (program, pair, (status, line)) in &PAIRS {
        let want = (*status, *line);
        assert!(rt;
            are_refused(&rt, rt.alloc(), *program, *pair, want)?,
            "{line}"
        );
    }
    Ok(())
}

/// This number of tests of `f`.
fn tests_of(alloc: Global, count: u32) -> Result<String, Fail> {
    let mut tests = String::from_str(alloc, HEADER)?;
    for test in 0..count {
        push(&mut tests, format!(in alloc; "t{test},f,,,,\n"))?;
    }
    Ok(tests)
}

fn is_too_wide<R: Threads + Sync>(
    rt: &R,
    alloc: Global,
    words: &str,
    source: &str,
    tests: &str,
) -> Result<bool, Fail> {
    let setting = of_tests(words, source.as_bytes(), tests.as_bytes());
    let line = "mcdc: matrix needs 1048640 words\n";
    gives(rt, alloc, &setting, (9, b"", line.as_bytes()))
}

/// Words by which no record is written of a program with a bit too many.
static TOO_WIDE: [&str; 2] = ["record|s.c|t.csv", "record|s.c|t.csv|--workers|1"];

#[test]
fn a_record_of_too_many_words(rt: HostRuntime) -> Result<(), Fail> {
    let source = source_of(rt.alloc(), WIDE.0)?;
    let tests = tests_of(rt.alloc(), 4096)?;
    for words in &TOO_WIDE {
        let is_wanted = is_too_wide(&rt, rt.alloc(), words, source.as_str(), tests.as_str())?;
        assert!(rt; is_wanted, "{words}");
    }
    Ok(())
}

/// The program, the number of tests, and the fault of a record that has no later line. So no record
/// that is read has too many words.
static HEADS: [(Program, u32, &str); 4] = [
    (MOST_BITS, 1024, "mcdc: record LEFT line 5: word\n"),
    (MOST_BITS, 1025, "mcdc: record LEFT line 4: shape\n"),
    (WIDE, 4032, "mcdc: record LEFT line 5: word\n"),
    (WIDE, 4033, "mcdc: record LEFT line 4: shape\n"),
];

fn is_head_refused<R: Threads + Sync>(
    rt: &R,
    alloc: Global,
    source: &str,
    record: &str,
    line: &str,
) -> Result<bool, Fail> {
    let words = "analyse|s.c|LEFT";
    let setting = of_records(words, source.as_bytes(), record.as_bytes(), b"");
    gives(rt, alloc, &setting, (4, b"", line.as_bytes()))
}

fn is_shaped<R: Threads + Sync>(
    rt: &R,
    alloc: Global,
    program: Program,
    tests: u32,
    line: &str,
) -> Result<bool, Fail> {
    let (statements, bits, digest) = program;
    let source = source_of(alloc, statements)?;
    let record = format!(in alloc; "mcdc-record 2\nsource {digest}\nbits {bits}\ntests {tests}\n")?;
    let is_wanted = is_head_refused(rt, alloc, source.as_str(), record.as_str(), line);
    drop(record);
    drop(source);
    is_wanted
}

#[test]
fn records_of_most_words(rt: HostRuntime) -> Result<(), Fail> {
    for (program, tests, line) in &HEADS {
        assert!(rt;
            is_shaped(&rt, rt.alloc(), *program, *tests, line)?,
            "{line}"
        );
    }
    Ok(())
}

/// The longest file of a record has this number of times 1,024 bytes.
const PIECES: usize = 32_768;

/// A file of that length, and some bytes more.
fn long_file(alloc: Global, more: &str) -> Result<String, Fail> {
    let piece = "x".repeat(alloc, 1024)?;
    let mut file = piece.as_str().repeat(alloc, PIECES)?;
    drop(piece);
    file.push_str(more)?;
    Ok(file)
}

/// The words, what `RIGHT` has beyond the greatest length, and the line that refuses it. `LEFT` is
/// a record of three tests.
static LONG: [(&str, &str, &str); 4] = [
    (
        "analyse|s.c|RIGHT",
        "",
        "mcdc: record RIGHT line 1: header\n",
    ),
    (
        "analyse|s.c|RIGHT",
        "x",
        "mcdc: RIGHT: longer than 33554432 bytes\n",
    ),
    (
        "merge|s.c|RIGHT|LEFT",
        "x",
        "mcdc: RIGHT: longer than 33554432 bytes\n",
    ),
    (
        "merge|s.c|LEFT|RIGHT",
        "x",
        "mcdc: RIGHT: longer than 33554432 bytes\n",
    ),
];

fn is_long<R: Threads + Sync>(
    rt: &R,
    alloc: Global,
    words: &str,
    file: &str,
    line: &str,
) -> Result<bool, Fail> {
    let record = format!(in alloc; "{HEAD}{BODY}")?;
    let setting = of_records(words, SOURCE.as_bytes(), record.as_bytes(), file.as_bytes());
    let is_wanted = gives(rt, alloc, &setting, (4, b"", line.as_bytes()));
    drop(record);
    is_wanted
}

#[test]
fn lengths_of_records(rt: HostRuntime) -> Result<(), Fail> {
    for (words, more, line) in &LONG {
        let file = long_file(rt.alloc(), more)?;
        let is_wanted = is_long(&rt, rt.alloc(), words, file.as_str(), line);
        drop(file);
        assert!(rt; is_wanted?, "{words}");
    }
    Ok(())
}
