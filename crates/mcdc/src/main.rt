//! The program: the top call over the machine's files and streams.
#![tactic(auto)]

use mc_cover::PlainCloser;
use mc_port::{HostSink, HostStore, OpenGate, Words};
use mc_station::station;
use std::alloc::{AllocError, Global};
use std::env;
use std::io::ErrorKind;
use std::process::ExitCode;
use std::rt::Env;

/// The most words that are handed on.
const MAX_WORDS: u32 = 1 << 31;

const NO_MEMORY: u8 = 8;

// The words after the program's own name. Where one of them is not text there are none, which is
// not a command.
fn read_words<R: Env + AllocGlobal>(rt: &R, alloc: Global) -> Result<Words, AllocError> {
    let mut words = Words::new(alloc);
    let args = match env::args(rt) {
        Ok(args) => args,
        Err(error) => match error.kind() {
            ErrorKind::OutOfMemory => return Err(AllocError),
            _ => return Ok(words),
        },
    };
    for arg in args.skip(1) {
        if words.count() < MAX_WORDS {
            words.push(arg.as_str())?;
        }
    }
    Ok(words)
}

fn main(rt: HostRuntime) -> ExitCode {
    let alloc = rt.alloc();
    let Ok(words) = read_words(&rt, alloc) else {
        return ExitCode::from(NO_MEMORY);
    };
    let mut out = HostSink::over(rt.stdout());
    let mut diag = HostSink::over(rt.stderr());
    let mut store = HostStore::new(rt);
    let gate = OpenGate::new();
    let status = station(
        &rt,
        alloc,
        &words,
        &mut store,
        &mut out,
        &mut diag,
        &gate,
        &PlainCloser,
    );
    ExitCode::from(status)
}
