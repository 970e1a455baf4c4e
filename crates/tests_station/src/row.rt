//! Worked runs as texts.

use crate::run::{gives, plain};
use std::alloc::Global;
use std::thread::Threads;
use tests_memory::Fail;

/// A run: its words, the source, the tests file, the file of justifications, and what it gives.
#[derive(Clone, Copy)]
struct Row<'t> {
    words: &'t str,
    source: &'t str,
    tests: &'t str,
    justifications: &'t str,
    status: &'t str,
    out: &'t str,
    diag: &'t str,
}

/// The row of a text `CASE@WORDS@SOURCE@TESTS@STATUS@OUT@DIAG`.
fn row_of(text: &str) -> Option<Row<'_>> {
    let (_, rest) = text.split_once('@')?;
    let (words, rest) = rest.split_once('@')?;
    let (source, rest) = rest.split_once('@')?;
    let (tests, rest) = rest.split_once('@')?;
    let (status, rest) = rest.split_once('@')?;
    let (out, diag) = rest.split_once('@')?;
    Some(Row {
        words,
        source,
        tests,
        justifications: "[]",
        status,
        out,
        diag,
    })
}

/// The row of a text `JUSTIFICATIONS@CASE@WORDS@SOURCE@TESTS@STATUS@OUT@DIAG`.
fn justified_row_of(text: &str) -> Option<Row<'_>> {
    let (justifications, rest) = text.split_once('@')?;
    let mut row = row_of(rest)?;
    row.justifications = justifications;
    Some(row)
}

/// Whether the run of a row, a text `CASE@WORDS@SOURCE@TESTS@STATUS@OUT@DIAG`, gives what it says.
pub fn is_written<R: Threads + Sync>(rt: &R, alloc: Global, text: &str) -> Result<bool, Fail> {
    is_given(rt, alloc, row_of(text))
}

/// Whether the run of a row, a text `JUSTIFICATIONS@CASE@WORDS@SOURCE@TESTS@STATUS@OUT@DIAG`, gives
/// what it says.
pub fn is_justified<R: Threads + Sync>(rt: &R, alloc: Global, text: &str) -> Result<bool, Fail> {
    is_given(rt, alloc, justified_row_of(text))
}

/// Whether the run of a row, a text `CASE@WORDS@SOURCE@TESTS@STATUS@OUT@DIAG`, gives what it says
/// by this number of workers.
pub fn is_written_by<R: Threads + Sync>(
    rt: &R,
    alloc: Global,
    text: &str,
    workers: u32,
) -> Result<bool, Fail> {
    is_given_by(rt, alloc, row_of(text), workers)
}

/// Whether the run of a row, a text `JUSTIFICATIONS@CASE@WORDS@SOURCE@TESTS@STATUS@OUT@DIAG`, gives
/// what it says by this number of workers.
pub fn is_justified_by<R: Threads + Sync>(
    rt: &R,
    alloc: Global,
    text: &str,
    workers: u32,
) -> Result<bool, Fail> {
    is_given_by(rt, alloc, justified_row_of(text), workers)
}

fn is_given_by<R: Threads + Sync>(
    rt: &R,
    alloc: Global,
    row: Option<Row<'_>>,
    workers: u32,
) -> Result<bool, Fail> {
    let Some(row) = row else {
        return Err(Fail);
    };
    let given_words = row.words;
    let words = format!(in alloc; "{given_words}|--workers|{workers}")?;
    let by_workers = Row {
        words: words.as_str(),
        ..row
    };
    let is_wanted = is_given(rt, alloc, Some(by_workers));
    drop(words);
    is_wanted
}

fn is_given<R: Threads + Sync>(rt: &R, alloc: Global, row: Option<Row<'_>>) -> Result<bool, Fail> {
    let Some(row) = row else {
        return Err(Fail);
    };
    let Ok(status) = row.status.parse::<u8>() else {
        return Err(Fail);
    };
    let mut setting = plain(row.source.as_bytes(), row.tests.as_bytes());
    setting.words = row.words;
    setting.justifications = row.justifications.as_bytes();
    gives(
        rt,
        alloc,
        &setting,
        (status, row.out.as_bytes(), row.diag.as_bytes()),
    )
}
