//! What comes of a text.
ghost use Rattle.std.specs.Prelude.{◌≤◌, IfOk};
ghost use Rattle.mc_record.specs.Kept.{IsKept};
ghost use Rattle.mc_record.specs.Seen.{kept_of};

use crate::text::DIGEST;
use mc_port::MemorySink;
use mc_record::{Record, RecordFault, read_record, write_record};
use std::alloc::{AllocError, Global};

/// A number of bits that a program can have, or 0.
pub(crate) fn bits_of(text: &str) -> u32
    ensures { result ≤ 65536 }
{
    match text.parse::<u32>() {
        Ok(bits) if bits <= 65536 => bits,
        _ => 0,
    }
}

/// The record that a text is.
pub(crate) fn read(
    alloc: Global,
    text: &[u8],
    bits: u32,
    old_rules: bool,
) -> Result<Record, RecordFault>
    requires { bits ≤ 65536 }
    ensures { IfOk result (λ r. IsKept (kept_of r)) }
{
    read_record(alloc, text, &DIGEST, bits, old_rules)
}

/// What is written of a record, or nothing where the sink has a fault.
pub(crate) fn written(alloc: Global, kept: &Record, room: u32) -> Result<Vec<u8>, AllocError>
    requires { IsKept (kept_of kept.now) }
{
    let mut sink = MemorySink::new(alloc, room, Vec::new(alloc))?;
    match write_record(kept, &mut sink) {
        Ok(()) => sink.bytes().to_vec(alloc),
        Err(_) => Ok(Vec::new(alloc)),
    }
}

fn told(alloc: Global, fault: &RecordFault) -> Result<Vec<u8>, AllocError> {
    let text = format!(in alloc; "{fault}")?;
    text.as_bytes().to_vec(alloc)
}

/// What is written of the record that a text is, or the text of its fault.
pub(crate) fn outcome(
    alloc: Global,
    text: &[u8],
    bits: u32,
    old_rules: bool,
) -> Result<Vec<u8>, AllocError>
    requires { bits ≤ 65536 }
{
    match read(alloc, text, bits, old_rules) {
        Ok(record) => written(alloc, &record, 100_000),
        Err(fault) => told(alloc, &fault),
    }
}
