//! Runs of `mutate` over a store and sinks in memory.

use mc_cover::PlainCloser;
use mc_port::{MemorySink, MemoryStore, OpenGate, Words};
use mc_station::station;
use std::alloc::Global;
use std::thread::Threads;
use tests_memory::{Fail, push_file, sink_of, words_of};

/// How many bytes the output takes: more than any of these runs writes.
const ROOM: u32 = 262_144;

/// A status, and what both sinks have.
pub type Want<'a> = (u8, &'a [u8], &'a [u8]);

fn store_of(alloc: Global, source: &[u8], tests: &[u8]) -> Result<MemoryStore, Fail> {
    let mut files = Vec::new(alloc);
    push_file(alloc, &mut files, "s.c", source)?;
    push_file(alloc, &mut files, "t.csv", tests)?;
    Ok(MemoryStore::new(alloc, files, Vec::new(alloc)))
}

/// What a run gave.
#[derive(Drop)]
struct Given {
    status: u8,
    out: MemorySink,
    diag: MemorySink,
}

// The run over these words and this store.
fn called<R: Threads + Sync>(
    rt: &R,
    alloc: Global,
    words: &Words,
    store: &mut MemoryStore,
) -> Result<Given, Fail> {
    let mut out = sink_of(alloc, ROOM)?;
    let mut diag = sink_of(alloc, 1024)?;
    let gate = OpenGate::new();
    let status = station(
        rt,
        alloc,
        words,
        store,
        &mut out,
        &mut diag,
        &gate,
        &PlainCloser,
    );
    Ok(Given { status, out, diag })
}

fn run_by<R: Threads + Sync>(
    rt: &R,
    alloc: Global,
    source: &[u8],
    tests: &[u8],
) -> Result<Given, Fail> {
    let mut store = store_of(alloc, source, tests)?;
    let words = words_of(alloc, "mutate|s.c|t.csv")?;
    let given = called(rt, alloc, &words, &mut store);
    drop(words);
    drop(store);
    given
}

// Whether this is what a run gave.
fn is_given(given: &Given, want: Want<'_>) -> bool {
    let (status, out, diag) = want;
    given.status == status && given.out.bytes() == out && given.diag.bytes() == diag
}

/// Whether `mutate` on this source and these tests gives this status and exactly these bytes.
pub fn gives<R: Threads + Sync>(
    rt: &R,
    alloc: Global,
    source: &[u8],
    tests: &[u8],
    want: Want<'_>,
) -> Result<bool, Fail> {
    let given = run_by(rt, alloc, source, tests)?;
    let is_wanted = is_given(&given, want);
    drop(given);
    Ok(is_wanted)
}
