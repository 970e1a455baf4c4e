//! Sinks that fail while a record is written.
ghost use Rattle.std.specs.Prelude.{◌<◌};
ghost use Rattle.mc_record.specs.Kept.{IsKept};
ghost use Rattle.mc_record.specs.Seen.{kept_of};

use crate::outcome::read;
use crate::text::write_first;
use mc_port::MemorySink;
use mc_record::{Record, write_record};
use std::alloc::{AllocError, Global};
use std::test::Fail;

// Whether the sink that fails at the put of this number, and takes so many bytes of it, has the
// lines before it and these bytes.
fn stops_at(
    alloc: Global,
    kept: &Record,
    whole: &[u8],
    lines: u32,
    takes: u32,
) -> Result<bool, AllocError>
    requires kept { IsKept (kept_of kept.now) }
    requires lines { lines < 14 }
{
    let mut failing = Vec::new(alloc);
    failing.push((lines + 1, takes))?;
    let mut sink = MemorySink::new(alloc, 1000, failing)?;
    let failed = write_record(kept, &mut sink).is_err();
    let mut before = Vec::new(alloc);
    write_first(&mut before, lines as usize)?;
    let end = before.len().saturating_add(takes as usize).min(whole.len());
    Ok(failed && sink.bytes() == &whole[..end])
}

// Whether each line is one put.
fn are_lines(alloc: Global, kept: &Record, whole: &[u8]) -> Result<bool, AllocError>
    requires { IsKept (kept_of kept.now) }
{
    for lines in 0..14 {
        if !stops_at(alloc, kept, whole, lines, 0)? || !stops_at(alloc, kept, whole, lines, 4)? {
            return Ok(false);
        }
    }
    Ok(true)
}

#[test]
fn each_line_is_one_put(rt: HostRuntime) -> Result<(), Fail> {
    let alloc = rt.alloc();
    let mut whole = Vec::new(alloc);
    write_first(&mut whole, 14)?;
    match read(alloc, &whole, 6, false) {
        Ok(record) => assert!(rt; are_lines(alloc, &record, &whole)?),
        Err(fault) => assert!(rt; false, "{fault}"),
    }
    Ok(())
}
