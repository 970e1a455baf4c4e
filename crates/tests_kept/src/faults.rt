//! Records that are refused: with one line changed, and cut off.

use crate::run::{gives, of_records};
use crate::text::SOURCE;
use std::alloc::Global;
use std::thread::Threads;
use tests_memory::Fail;

/// The lines of the record of three tests.
static LINES: [&str; 14] = [
    "mcdc-record 2\n",
    "source 8200d2384991a90c0fb5f6a208a7f0176cae5c6443e46177ef6bfd44c40d4caf\n",
    "bits 6\n",
    "tests 3\n",
    "test t1 pass\n",
    "test t2 pass\n",
    "test t3 pass\n",
    "bit 0 0000000000000007\n",
    "bit 1 0000000000000007\n",
    "bit 2 0000000000000007\n",
    "bit 3 0000000000000001\n",
    "bit 4 0000000000000002\n",
    "bit 5 0000000000000004\n",
    "end\n",
];

const OTHER_DIGEST: &str =
    "source 8200d2384991a90c0fb5f6a208a7f0176cae5c6443e46177ef6bfd44c40d4cae\n";

const UPPER_DIGEST: &str =
    "source 8200D2384991a90c0fb5f6a208a7f0176cae5c6443e46177ef6bfd44c40d4caf\n";

const SHORT_DIGEST: &str =
    "source 8200d2384991a90c0fb5f6a208a7f0176cae5c6443e46177ef6bfd44c40d4ca\n";

/// The number of a line, the text in its place, the line of the fault and its word.
static EDITS: [(usize, &str, usize, &str); 43] = [
    (1, "mcdc-record 3\n", 1, "header"),
    (1, "mcdc-record 2\r\n", 1, "header"),
    (1, "mcdc-record 2", 1, "header"),
    (1, "mcdc-record 1\r\n", 1, "header"),
    (1, "", 1, "header"),
    (2, UPPER_DIGEST, 2, "header"),
    (2, SHORT_DIGEST, 2, "header"),
    (2, OTHER_DIGEST, 2, "source"),
    (2, "", 2, "header"),
    (3, "bits 5\n", 3, "shape"),
    (3, "bits 7\n", 3, "shape"),
    (3, "bits 06\n", 3, "shape"),
    (3, "bits 6\r\n", 3, "shape"),
    (3, "", 3, "shape"),
    (4, "tests 03\n", 4, "shape"),
    (4, "tests 4097\n", 4, "shape"),
    (4, "tests 4\n", 8, "word"),
    (4, "tests 2\n", 7, "word"),
    (4, "", 4, "shape"),
    (5, "test t1 passed\n", 5, "word"),
    (5, "test t1 returned\n", 5, "word"),
    (5, "test t/1 pass\n", 5, "word"),
    (5, "", 7, "word"),
    (5, "test t1 pass\r\n", 5, "word"),
    (6, "test t1 pass\n", 6, "name again"),
    (7, "test t1 fail\n", 7, "name again"),
    (8, "bit 0 000000000000000A\n", 8, "word"),
    (8, "bit 0 7\n", 8, "word"),
    (8, "bit 0\n", 8, "word"),
    (8, "bit 0 0000000000000007\r\n", 8, "word"),
    (8, "bit 1 0000000000000007\n", 8, "word"),
    (8, "bit 0 0000000000000008\n", 8, "spare bit"),
    (10, "", 10, "word"),
    (13, "bit 5 0000000000000004 0000000000000000\n", 13, "word"),
    (13, "bit 5 8000000000000004\n", 13, "spare bit"),
    (13, "", 13, "word"),
    (14, "", 14, "ending"),
    (14, "end", 14, "ending"),
    (14, "end\r\n", 14, "ending"),
    (14, "end\n\n", 14, "ending"),
    (14, "end\nend\n", 14, "ending"),
    (14, "END\n", 14, "ending"),
    (14, "bit 6 0000000000000000\nend\n", 14, "ending"),
];

/// The word for the first lines alone, none of them to all but the last. It is on the line after
/// them.
static CUT: [&str; 14] = [
    "header", "header", "shape", "shape", "word", "word", "word", "word", "word", "word", "word",
    "word", "word", "ending",
];

fn write_lines(out: &mut Vec<u8>, lines: &[&str]) -> Result<(), Fail> {
    for line in lines {
        out.extend_from_slice(line.as_bytes())?;
    }
    Ok(())
}

// Adds the lines of the record, with `text` in place of the line of this number, from 1 to 14.
fn write_edited(out: &mut Vec<u8>, number: usize, text: &str) -> Result<(), Fail> {
    let before = number.saturating_sub(1).min(13);
    write_lines(out, &LINES[..before])?;
    out.extend_from_slice(text.as_bytes())?;
    write_lines(out, &LINES[before + 1..])
}

// Adds the first lines of the record.
fn write_first(out: &mut Vec<u8>, count: usize) -> Result<(), Fail> {
    write_lines(out, &LINES[..count.min(14)])
}

// Whether `analyse` refuses this record with this word on this line.
fn is_refused<R: Threads + Sync>(
    rt: &R,
    alloc: Global,
    record: &[u8],
    line: usize,
    word: &str,
) -> Result<bool, Fail> {
    let diag = format!(in alloc; "mcdc: record LEFT line {line}: {word}\n")?;
    let setting = of_records("analyse|s.c|LEFT", SOURCE.as_bytes(), record, b"");
    let is_wanted = gives(rt, alloc, &setting, (4, b"", diag.as_bytes()));
    drop(diag);
    is_wanted
}

fn is_edit_refused<R: Threads + Sync>(
    rt: &R,
    alloc: Global,
    number: usize,
    text: &str,
    want: (usize, &str),
) -> Result<bool, Fail> {
    let (line, word) = want;
    let mut record = Vec::new(alloc);
    write_edited(&mut record, number, text)?;
    let is_wanted = is_refused(rt, alloc, record.as_slice(), line, word);
    drop(record);
    is_wanted
}

fn is_cut_refused<R: Threads + Sync>(
    rt: &R,
    alloc: Global,
    count: usize,
    want: (usize, &str),
) -> Result<bool, Fail> {
    let (line, word) = want;
    let mut record = Vec::new(alloc);
    write_first(&mut record, count)?;
    let is_wanted = is_refused(rt, alloc, record.as_slice(), line, word);
    drop(record);
    is_wanted
}

#[test]
fn records_with_a_line_changed(rt: HostRuntime) -> Result<(), Fail> {
    for (number, text, line, word) in &EDITS {
        let want = (*line, *word);
        assert!(rt;
            is_edit_refused(&rt, rt.alloc(), *number, text, want)?,
            "{number} {text}"
        );
    }
    Ok(())
}

#[test]
fn records_cut_off(rt: HostRuntime) -> Result<(), Fail> {
    for count in 0..14_usize {
        let want = (count + 1, CUT[count]);
        assert!(rt; is_cut_refused(&rt, rt.alloc(), count, want)?, "{count}");
    }
    Ok(())
}
