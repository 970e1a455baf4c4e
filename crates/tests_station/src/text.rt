//! Texts that are put together.

use std::alloc::{AllocError, Global};
use tests_memory::Fail;

/// Adds a text, which is made with `format!`, and lets it go.
pub fn push(text: &mut String, made: Result<String, AllocError>) -> Result<(), Fail> {
    let more = made?;
    let pushed = text.push_str(more.as_str());
    drop(more);
    Ok(pushed?)
}

/// The text, in which each `$` is the end of a line.
pub fn lines_of(alloc: Global, text: &str) -> Result<Vec<u8>, Fail> {
    let mut bytes = Vec::new(alloc);
    for byte in text.as_bytes() {
        bytes.push(if *byte == b'$' { b'\n' } else { *byte })?;
    }
    Ok(bytes)
}

fn byte_of(symbol: u8) -> u8 {
    match symbol {
        b'\'' => b'"',
        b'^' => b'\r',
        b'$' => b'\n',
        b'?' => 200,
        other => other,
    }
}

/// The text, in which each `'` is a quotation mark, `^` a carriage return, `$` the end of a line,
/// and `?` the byte 200, which is no text alone.
pub fn bytes_of(alloc: Global, text: &str) -> Result<Vec<u8>, Fail> {
    let mut bytes = Vec::new(alloc);
    for symbol in text.as_bytes() {
        bytes.push(byte_of(*symbol))?;
    }
    Ok(bytes)
}

/// The text, and a byte of white space up to that length.
pub fn padded(alloc: Global, text: &str, space: u8, length: usize) -> Result<Vec<u8>, Fail> {
    let mut bytes = Vec::new(alloc);
    bytes.extend_from_slice(text.as_bytes())?;
    for _turn in text.len()..length {
        bytes.push(space)?;
    }
    Ok(bytes)
}
