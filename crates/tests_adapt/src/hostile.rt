//! Long texts that nobody means well by.

use mc_adapt::{Adapted, adapt};
use std::alloc::{AllocError, Global};

/// A beginning, and how often a part follows it.
static LONG: [(&[u8], &[u8], bool); 8] = [
    (b"", b"(", true),
    (b"f", b"( ", true),
    (b"", b"f(\n", true),
    (b"__attribute__((", b"(", false),
    (b"", b"__attribute__ ", false),
    (b"/*", b"* ", false),
    (b"\"", b"\\\"", false),
    (b"", b"f() ", true),
];

/// The beginning, and the part 65,536 times.
fn long(alloc: Global, begin: &[u8], part: &[u8]) -> Result<Vec<u8>, AllocError> {
    let mut text = Vec::new(alloc);
    text.extend_from_slice(begin)?;
    for _turn in 0..65_536 {
        text.extend_from_slice(part)?;
    }
    Ok(text)
}

/// Whether a text is written, or all that is outside is named.
fn is_written(alloc: Global, source: &[u8]) -> Result<bool, AllocError> {
    if source.len() > 1_048_576 {
        return Ok(false);
    }
    match adapt(alloc, source)? {
        Adapted::Text(_) => Ok(true),
        Adapted::Refused(_) => Ok(false),
    }
}

fn ends_so(alloc: Global, begin: &[u8], part: &[u8], written: bool) -> Result<bool, AllocError> {
    let source = long(alloc, begin, part)?;
    Ok(is_written(alloc, &source)? == written)
}

#[test]
fn ends(rt: HostRuntime) -> Result<(), AllocError> {
    let mut row = 0u32;
    for (begin, part, written) in &LONG {
        assert!(rt; ends_so(rt.alloc(), *begin, *part, *written)?, "row {row}");
        row = row.wrapping_add(1);
    }
    Ok(())
}
