//! Runs of the top call over a store and sinks in memory.

use mc_cover::{Closer, PlainCloser};
use mc_port::{Gate, MemorySink, MemoryStore, OpenGate, Words};
use mc_station::station;
use serde_json::Value;
use std::alloc::Global;
use std::thread::Threads;
use tests_memory::{Fail, failing_sink, push_file, words_of};

pub const HEADER: &str = "test,call,arguments,inputs,expect,output\n";

pub const SOURCE: &str = "int f(int a,int b){return a&&b;}";

pub const TESTS: &str =
    "test,call,arguments,inputs,expect,output\nt1,f,1 1,,,\nt2,f,1 0,,,\nt3,f,0 1,,,\n";

/// The report of these tests on this source.
pub const REPORT: &str = "\
mcdc report unique
source sha256 8200d2384991a90c0fb5f6a208a7f0176cae5c6443e46177ef6bfd44c40d4caf
test t1 pass values 1 output
test t2 pass values 0 output
test t3 pass values 0 output
E1 1:5 met by t1
X1 1:20 met by t1
S1 1:20 met by t1
D1T 1:27 met by t1
D1F 1:27 met by t2
D1C1 1:27 met TT=T by t1 F-=F by t3
D1C2 1:30 met TT=T by t1 TF=F by t2
entries met 1 justified 0 stale 0 missing 0 of 1
exits met 1 justified 0 stale 0 missing 0 of 1
statements met 1 justified 0 stale 0 missing 0 of 1
labels met 0 justified 0 stale 0 missing 0 of 0
outcomes met 2 justified 0 stale 0 missing 0 of 2
conditions met 2 justified 0 stale 0 missing 0 of 2
status 0
";

/// A run: its words, at most twelve, with `|` between each two, the bytes of `s.c`, `t.csv` and
/// `j.json`, and where the outside fails.
#[derive(Clone, Copy)]
pub struct Setting<'a> {
    pub words: &'a str,
    pub source: &'a [u8],
    pub tests: &'a [u8],
    pub justifications: &'a [u8],
    /// How many bytes the output takes.
    pub room: u32,
    pub failing_load: u32,
    pub failing_out: (u32, u32),
    pub failing_diag: (u32, u32),
}

/// A run of these words over these files in which nothing fails.
pub fn of_files<'a>(
    words: &'a str,
    source: &'a [u8],
    tests: &'a [u8],
    justifications: &'a [u8],
) -> Setting<'a> {
    Setting {
        words,
        source,
        tests,
        justifications,
        room: 4096,
        failing_load: 0,
        failing_out: (0, 0),
        failing_diag: (0, 0),
    }
}

/// A run of `vectors s.c t.csv` in which nothing fails.
pub fn plain<'a>(source: &'a [u8], tests: &'a [u8]) -> Setting<'a> {
    of_files("vectors|s.c|t.csv", source, tests, b"[]")
}

/// A status, and what both sinks have.
pub type Want<'a> = (u8, &'a [u8], &'a [u8]);

fn store_of(alloc: Global, setting: &Setting<'_>) -> Result<MemoryStore, Fail> {
    let mut files = Vec::new(alloc);
    push_file(alloc, &mut files, "s.c", setting.source)?;
    push_file(alloc, &mut files, "t.csv", setting.tests)?;
    push_file(alloc, &mut files, "j.json", setting.justifications)?;
    let mut failing = Vec::new(alloc);
    failing.push(setting.failing_load)?;
    Ok(MemoryStore::new(alloc, files, failing))
}

/// What a run gave.
#[derive(Drop)]
struct Given {
    status: u8,
    out: MemorySink,
    diag: MemorySink,
}

// The run over these words and this store.
fn called<R: Threads + Sync, G: Gate, C: Closer>(
    rt: &R,
    alloc: Global,
    words: &Words,
    store: &mut MemoryStore,
    setting: &Setting<'_>,
    gate: &G,
    closer: &C,
) -> Result<Given, Fail> {
    let mut out = failing_sink(alloc, setting.room, setting.failing_out)?;
    let mut diag = failing_sink(alloc, 4096, setting.failing_diag)?;
    let status = station(rt, alloc, words, store, &mut out, &mut diag, gate, closer);
    Ok(Given { status, out, diag })
}

fn run_by<R: Threads + Sync, G: Gate, C: Closer>(
    rt: &R,
    alloc: Global,
    setting: &Setting<'_>,
    gate: &G,
    closer: &C,
) -> Result<Given, Fail> {
    let mut store = store_of(alloc, setting)?;
    let words = words_of(alloc, setting.words)?;
    let given = called(rt, alloc, &words, &mut store, setting, gate, closer);
    drop(words);
    drop(store);
    given
}

// The run as the program makes it.
fn run<R: Threads + Sync>(rt: &R, alloc: Global, setting: &Setting<'_>) -> Result<Given, Fail> {
    run_by(rt, alloc, setting, &OpenGate::new(), &PlainCloser)
}

// Whether this is what a run gave.
fn is_given(given: &Given, want: Want<'_>) -> bool {
    let (status, out, diag) = want;
    given.status == status && given.out.bytes() == out && given.diag.bytes() == diag
}

/// Whether a run through this gate and by this closer gives this status and exactly these bytes.
pub fn gives_by<R: Threads + Sync, G: Gate, C: Closer>(
    rt: &R,
    alloc: Global,
    setting: &Setting<'_>,
    gate: &G,
    closer: &C,
    want: Want<'_>,
) -> Result<bool, Fail> {
    let given = run_by(rt, alloc, setting, gate, closer)?;
    let is_wanted = is_given(&given, want);
    drop(given);
    Ok(is_wanted)
}

/// Whether a run gives this status and exactly these bytes.
pub fn gives<R: Threads + Sync>(
    rt: &R,
    alloc: Global,
    setting: &Setting<'_>,
    want: Want<'_>,
) -> Result<bool, Fail> {
    gives_by(rt, alloc, setting, &OpenGate::new(), &PlainCloser, want)
}

/// What a run through this gate and by this closer writes, where it gives this status and nothing
/// goes to the errors' sink.
pub fn output_by<R: Threads + Sync, G: Gate, C: Closer>(
    rt: &R,
    alloc: Global,
    setting: &Setting<'_>,
    gate: &G,
    closer: &C,
    status: u8,
) -> Result<Vec<u8>, Fail> {
    let given = run_by(rt, alloc, setting, gate, closer)?;
    let is_wanted = given.status == status && given.diag.bytes().is_empty();
    let out = given.out.bytes().to_vec(alloc);
    drop(given);
    let out = out?;
    if is_wanted { Ok(out) } else { Err(Fail) }
}

/// Whether a run with a tests file of no test refuses this source with a line that ends so.
pub fn is_refused<R: Threads + Sync>(
    rt: &R,
    alloc: Global,
    source: &[u8],
    end: &str,
) -> Result<bool, Fail> {
    let given = run(rt, alloc, &plain(source, HEADER.as_bytes()))?;
    let is_wanted = given.status == 3
        && given.out.bytes().is_empty()
        && given.diag.bytes().ends_with(end.as_bytes());
    drop(given);
    Ok(is_wanted)
}

// The number that a JSON object has at a key.
fn number_at(alloc: Global, text: &[u8], key: &str) -> Result<Option<u64>, Fail> {
    match Value::from_slice(alloc, text) {
        Ok(value) => {
            let number = value.get(key).and_then(Value::as_u64);
            drop(value);
            Ok(number)
        }
        Err(error) => {
            drop(error);
            Err(Fail)
        }
    }
}

/// Whether a run ends with 0 and writes a JSON object that has this number at this key.
pub fn has_number<R: Threads + Sync>(
    rt: &R,
    alloc: Global,
    setting: &Setting<'_>,
    key: &str,
    number: u64,
) -> Result<bool, Fail> {
    let given = run(rt, alloc, setting)?;
    let found = number_at(alloc, given.out.bytes(), key);
    let is_done = given.status == 0 && given.diag.bytes().is_empty();
    drop(given);
    Ok(is_done && found? == Some(number))
}
