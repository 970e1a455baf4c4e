//! Runs of the top call over the files, with faults of the outside.

use crate::files::store;
use crate::noting::NotingSink;
use mc_cover::PlainCloser;
use mc_port::{MemorySink, MemoryStore, OpenGate, Words};
use mc_station::station;
use std::alloc::Global;
use std::thread::Threads;
use tests_memory::{Fail, failing_sink, words_of};

/// What fails: the load of a number, and on each sink the put of a number, which takes a number of
/// bytes before it fails. There is no load and no put of the number 0.
#[derive(Clone, Copy)]
pub struct Faults {
    pub load: u32,
    pub out: (u32, u32),
    pub diag: (u32, u32),
}

/// Nothing fails.
pub const NONE: Faults = Faults {
    load: 0,
    out: (0, 0),
    diag: (0, 0),
};

/// What a run gave.
#[derive(Drop)]
pub struct Given {
    pub status: u8,
    pub out: NotingSink<MemorySink>,
    pub diag: NotingSink<MemorySink>,
}

fn sink(alloc: Global, failing: (u32, u32)) -> Result<NotingSink<MemorySink>, Fail> {
    Ok(NotingSink::over(failing_sink(alloc, 8192, failing)?))
}

fn called<R: Threads + Sync>(
    rt: &R,
    alloc: Global,
    words: &Words,
    store: &mut MemoryStore,
    faults: Faults,
) -> Result<Given, Fail> {
    let mut out = sink(alloc, faults.out)?;
    let mut diag = sink(alloc, faults.diag)?;
    let gate = OpenGate::new();
    let status = station(
        rt,
        alloc,
        words,
        store,
        &mut out,
        &mut diag,
        &gate,
        &PlainCloser,
    );
    Ok(Given { status, out, diag })
}

/// The run of these words, with `|` between each two.
pub fn run<R: Threads + Sync>(
    rt: &R,
    alloc: Global,
    text: &str,
    faults: Faults,
) -> Result<Given, Fail> {
    run_over(rt, alloc, text, b"", faults)
}

/// The run of these words, where the file `x` has these bytes.
pub fn run_over<R: Threads + Sync>(
    rt: &R,
    alloc: Global,
    text: &str,
    other: &[u8],
    faults: Faults,
) -> Result<Given, Fail> {
    let mut store = store(alloc, other, faults.load)?;
    let words = words_of(alloc, text)?;
    let given = called(rt, alloc, &words, &mut store, faults);
    drop(words);
    drop(store);
    given
}
