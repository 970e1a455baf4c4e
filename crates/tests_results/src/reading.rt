//! From a source and the records of tests to the lines that tell of them.
ghost use Rattle.std.specs.Prelude.{◌<◌, ◌+◌, ◌^◌, length, All};
ghost use Rattle.std.specs.Thread.{IsSync};

use crate::fail::Fail;
use crate::runs::tell_runs;
use mc_lex::{Dialect, Token, lex};
use mc_parse::parse;
use mc_subset::check;
use mc_tests::read_tests;
use mc_tree::Unit;
use mc_typed::Program;
use mc_types::type_unit;
use std::alloc::Global;
use std::thread::Threads;

const HEADER: &str = "test,call,arguments,inputs,expect,output";

/// A source, its tests, the fuel of each, and how many workers run them.
#[derive(Clone, Copy)]
pub(crate) struct Runs<'t> {
    pub source: &'t [u8],
    pub records: &'t str,
    pub fuel: u32,
    pub workers: u32,
}

/// The file of these records, each of which stands after `$`.
fn file_of(alloc: Global, records: &str) -> Result<Vec<u8>, Fail> {
    let mut file = Vec::new(alloc);
    file.extend_from_slice(HEADER.as_bytes())?;
    for byte in records.as_bytes() {
        file.push(if *byte == b'$' { b'\n' } else { *byte })?;
    }
    file.push(b'\n')?;
    Ok(file)
}

/// Reads the tests, runs them, and adds the lines that tell of them.
fn tell_program<R: Threads + Sync>(
    rt: &R,
    alloc: Global,
    text: &mut Vec<u8>,
    program: &Program<'_>,
    runs: Runs<'_>,
) -> Result<(), Fail> {
    if runs.workers == 0 || runs.workers > 64 || runs.fuel == 0 || runs.fuel > 100_000_000 {
        return Err(Fail);
    }
    if runs.source.len() >= 0x8000_0000 {
        return Err(Fail);
    }
    let file = file_of(alloc, runs.records)?;
    match read_tests(alloc, &file, program, runs.fuel) {
        Ok(plans) => {
            let told = tell_runs(rt, alloc, text, program, &plans, runs);
            drop(plans);
            told
        }
        Err(_) => Err(Fail),
    }
}

/// What a source is read as: its tree, and then its typed program.
trait Stage {
    /// Adds the lines that tell of the tests.
    fn tell<R: Threads + Sync>(
        &self,
        rt: &R,
        alloc: Global,
        text: &mut Vec<u8>,
        runs: Runs<'_>,
    ) -> Result<(), Fail>
        requires { IsSync R.row };
}

/// Tells of what was read and lets it go. For any type: a match that takes a whole tree or program
/// out of its result makes a long proof.
fn tell_of<R: Threads + Sync, T: Stage + Drop, E: Drop>(
    rt: &R,
    alloc: Global,
    text: &mut Vec<u8>,
    read: Result<T, E>,
    runs: Runs<'_>,
) -> Result<(), Fail> {
    match read {
        Ok(it) => {
            let told = it.tell(rt, alloc, text, runs);
            drop(it);
            told
        }
        Err(_) => Err(Fail),
    }
}

impl Stage for Program<'_> {
    fn tell<R: Threads + Sync>(
        &self,
        rt: &R,
        alloc: Global,
        text: &mut Vec<u8>,
        runs: Runs<'_>,
    ) -> Result<(), Fail> {
        tell_program(rt, alloc, text, self, runs)
    }
}

impl Stage for Unit<'_> {
    fn tell<R: Threads + Sync>(
        &self,
        rt: &R,
        alloc: Global,
        text: &mut Vec<u8>,
        runs: Runs<'_>,
    ) -> Result<(), Fail> {
        if check(self).is_err() {
            return Err(Fail);
        }
        tell_of(rt, alloc, text, type_unit(alloc, self), runs)
    }
}

fn of_tokens<R: Threads + Sync>(
    rt: &R,
    alloc: Global,
    text: &mut Vec<u8>,
    tokens: &[Token<'_>],
    runs: Runs<'_>,
) -> Result<(), Fail>
    requires short { All (λ token. token.start + length token.text.now < 2 ^ 31) tokens.now }
    requires few { length tokens.now < 2 ^ 31 }
{
    let read = parse(alloc, tokens, Dialect::Plain);
    tell_of(rt, alloc, text, read, runs)
}

/// Adds the lines that tell of the tests.
pub(crate) fn tell_tests<R: Threads + Sync>(
    rt: &R,
    alloc: Global,
    text: &mut Vec<u8>,
    runs: Runs<'_>,
) -> Result<(), Fail> {
    let bytes = runs.source;
    if bytes.len() >= 0x8000_0000 {
        return Err(Fail);
    }
    match lex(alloc, bytes, Dialect::Plain) {
        Ok(tokens) => {
            let told = of_tokens(rt, alloc, text, &tokens, runs);
            drop(tokens);
            told
        }
        Err(_) => Err(Fail),
    }
}
