//! A record from its text.
ghost use Rattle.std.specs.Prelude.{◌≡◌, ◌≢◌, ◌≤◌, [], Ok, Err, IfOk, IfErr};
ghost use Rattle.mc_limits.specs.Limits.{most_bits, most_tests, most_words};
ghost use Rattle.mc_core.specs.Shape.{word_count};
ghost use Rattle.mc_record.specs.Kept.{IsKept};
ghost use Rattle.mc_record.specs.Reading.{body_in, is_end, record_of};
ghost use Rattle.mc_record.specs.Seen.{kept_of};
ghost use Rattle.mc_record.specs.declared.fault.RecordFault.TheVariants.{OutOfMemory};

use crate::bits::read_bits;
use crate::fault::RecordFault;
use crate::head::read_head;
use crate::kept::Record;
use crate::tests::read_tests;
use mc_core::{Matrix, Shape, words};
use std::alloc::Global;

fn is_end(text: &[u8]) -> bool
    ensures { result ≡ is_end text.now }
{
    text == b"end\n".as_slice()
}

// What follows line 4.
fn read_body(
    alloc: Global,
    text: &[u8],
    digest: &[u8; 32],
    shape: Shape,
) -> Result<Record, RecordFault>
    requires bits { shape.bits ≤ most_bits }
    requires tests { shape.tests ≤ most_tests }
    requires words { word_count shape ≤ most_words }
    ensures read { IfOk result (λ r. body_in digest.now shape text.now ≡ Ok (kept_of r)) }
    ensures fault { IfErr result (λ e. e ≢ OutOfMemory
        → body_in digest.now shape text.now ≡ Err e) }
{
    let mut names = Vec::new(alloc);
    let mut states = Vec::new(alloc);
    let bits = read_tests(alloc, &mut names, &mut states, text, shape.tests)?;
    let mut list = Vec::with_capacity(alloc, words(shape) as usize)?;
    let end = read_bits(&mut list, bits, shape)?;
    if !is_end(end) {
        let line = 5 + shape.tests + shape.bits;
        return Err(RecordFault::Ending { line });
    }
    let digest = *digest;
    let matrix = Matrix::of_words(shape, list);
    Ok(Record {
        digest,
        names,
        states,
        matrix,
    })
}

/// The record that the bytes are, of a source with this digest, whose program has so many bits, or
/// the first fault of the bytes. `old_rules` says whether a record of version 1 is of such bits
/// too. What is read can be written and merged.
pub fn read_record(
    alloc: Global,
    bytes: &[u8],
    digest: &[u8; 32],
    bits: u32,
    old_rules: bool,
) -> Result<Record, RecordFault>
    requires { bits ≤ most_bits }
    ensures read { IfOk result (λ r.
        record_of digest.now bits old_rules bytes.now ≡ Ok (kept_of r)) }
    ensures kept { IfOk result (λ r. IsKept (kept_of r)) }
    ensures fault { IfErr result (λ e. e ≢ OutOfMemory
        → record_of digest.now bits old_rules bytes.now ≡ Err e) }
{
    let (tests, text) = read_head(bytes, digest, bits, old_rules)?;
    read_body(alloc, text, digest, Shape { bits, tests })
}
