//! Runs of the top call over a store and sinks in memory.

use crate::text::JUSTIFICATIONS;
use mc_cover::{Closer, PlainCloser};
use mc_port::{MemorySink, MemoryStore, OpenGate, Words};
use mc_station::station;
use std::alloc::Global;
use std::thread::Threads;
use tests_memory::{Fail, push_file, sink_of, words_of};

/// How many bytes the output takes: more than any of these runs writes.
const ROOM: u32 = 131_072;

/// A run: its words, at most twelve, with `|` between each two, and the bytes of `s.c`, `t.csv`,
/// `LEFT` and `RIGHT`. The file `j.json` is the same in every run.
#[derive(Clone, Copy)]
pub struct Setting<'a> {
    pub words: &'a str,
    pub source: &'a [u8],
    pub tests: &'a [u8],
    pub left: &'a [u8],
    pub right: &'a [u8],
}

/// A run over a source and its tests.
pub fn of_tests<'a>(words: &'a str, source: &'a [u8], tests: &'a [u8]) -> Setting<'a> {
    Setting {
        words,
        source,
        tests,
        left: b"",
        right: b"",
    }
}

/// A run over a source and two records of it.
pub fn of_records<'a>(
    words: &'a str,
    source: &'a [u8],
    left: &'a [u8],
    right: &'a [u8],
) -> Setting<'a> {
    Setting {
        words,
        source,
        tests: b"",
        left,
        right,
    }
}

/// A status, and what both sinks have.
pub type Want<'a> = (u8, &'a [u8], &'a [u8]);

fn store_of(alloc: Global, setting: &Setting<'_>) -> Result<MemoryStore, Fail> {
    let mut files = Vec::new(alloc);
    push_file(alloc, &mut files, "s.c", setting.source)?;
    push_file(alloc, &mut files, "t.csv", setting.tests)?;
    push_file(alloc, &mut files, "LEFT", setting.left)?;
    push_file(alloc, &mut files, "RIGHT", setting.right)?;
    push_file(alloc, &mut files, "j.json", JUSTIFICATIONS.as_bytes())?;
    Ok(MemoryStore::new(alloc, files, Vec::new(alloc)))
}

/// What a run gave.
#[derive(Drop)]
struct Given {
    status: u8,
    out: MemorySink,
    diag: MemorySink,
}

// The run over these words and this store.
fn called<R: Threads + Sync, C: Closer>(
    rt: &R,
    alloc: Global,
    words: &Words,
    store: &mut MemoryStore,
    closer: &C,
) -> Result<Given, Fail> {
    let mut out = sink_of(alloc, ROOM)?;
    let mut diag = sink_of(alloc, 4096)?;
    let gate = OpenGate::new();
    let status = station(rt, alloc, words, store, &mut out, &mut diag, &gate, closer);
    Ok(Given { status, out, diag })
}

fn run_by<R: Threads + Sync, C: Closer>(
    rt: &R,
    alloc: Global,
    setting: &Setting<'_>,
    closer: &C,
) -> Result<Given, Fail> {
    let mut store = store_of(alloc, setting)?;
    let words = words_of(alloc, setting.words)?;
    let given = called(rt, alloc, &words, &mut store, closer);
    drop(words);
    drop(store);
    given
}

// Whether this is what a run gave.
fn is_given(given: &Given, want: Want<'_>) -> bool {
    let (status, out, diag) = want;
    given.status == status && given.out.bytes() == out && given.diag.bytes() == diag
}

/// Whether a run by this closer gives this status and exactly these bytes.
pub fn gives_by<R: Threads + Sync, C: Closer>(
    rt: &R,
    alloc: Global,
    setting: &Setting<'_>,
    closer: &C,
    want: Want<'_>,
) -> Result<bool, Fail> {
    let given = run_by(rt, alloc, setting, closer)?;
    let is_wanted = is_given(&given, want);
    drop(given);
    Ok(is_wanted)
}

/// Whether a run gives this status and exactly these bytes.
pub fn gives<R: Threads + Sync>(
    rt: &R,
    alloc: Global,
    setting: &Setting<'_>,
    want: Want<'_>,
) -> Result<bool, Fail> {
    gives_by(rt, alloc, setting, &PlainCloser, want)
}

/// What `record` writes of these tests.
pub fn record_of<R: Threads + Sync>(
    rt: &R,
    alloc: Global,
    source: &[u8],
    tests: &[u8],
) -> Result<Vec<u8>, Fail> {
    let setting = of_tests("record|s.c|t.csv", source, tests);
    let given = run_by(rt, alloc, &setting, &PlainCloser)?;
    let bytes = given.out.bytes().to_vec(alloc);
    drop(given);
    Ok(bytes?)
}
