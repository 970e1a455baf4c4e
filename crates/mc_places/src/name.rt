//! Names of files, by the bytes that a line marker has of them.
ghost use Rattle.std.specs.Prelude.{◌≡◌, ◌≤◌, ◌++◌, length, OnOk};
ghost use Rattle.std.specs.Str.{bytes_eq};
ghost use Rattle.mc_lex.specs.Characters.{simple_escape};
ghost use Rattle.mc_places.specs.Names.{decoded, escape_of, octal_byte, octal_or, simple, written_at};
ghost use Rattle.mc_places.specs.Seen.{written_seen};

use crate::byte::is_octal;
use std::alloc::AllocError;

/// A byte of a name, and how many more bytes it takes to write it.
#[derive(Clone, Copy)]
struct Written {
    byte: u8,
    more: usize,
}

/// The byte of a simple escape (C17 6.4.4.4).
fn simple_escape(c: u8) -> Option<u8>
    ensures { result ≡ simple_escape c }
{
    match c {
        b'\'' => Some(b'\''),
        b'"' => Some(b'"'),
        b'?' => Some(b'?'),
        b'\\' => Some(b'\\'),
        b'a' => Some(7),
        b'b' => Some(8),
        b'f' => Some(12),
        b'n' => Some(10),
        b'r' => Some(13),
        b't' => Some(9),
        b'v' => Some(11),
        _ => None,
    }
}

/// The byte that three octal digits write, where they do.
fn octal_byte(c: u8, d: u8, e: u8) -> Option<u8>
    ensures { result ≡ octal_byte c d e }
{
    if !(is_octal(c) && is_octal(d) && is_octal(e)) {
        return None;
    }
    let value = u32::from(c - b'0') * 64 + u32::from(d - b'0') * 8 + u32::from(e - b'0');
    if value <= 255 {
        Some(value as u8)
    } else {
        None
    }
}

/// `\` writes itself, where it begins no escape.
fn simple(byte: Option<u8>) -> Written
    ensures { written_seen result ≡ simple byte }
{
    match byte {
        Some(byte) => Written { byte, more: 1 },
        None => Written {
            byte: b'\\',
            more: 0,
        },
    }
}

fn octal_or(octal: Option<u8>, c: u8) -> Written
    ensures { written_seen result ≡ octal_or octal c }
{
    match octal {
        Some(byte) => Written { byte, more: 3 },
        None => simple(simple_escape(c)),
    }
}

/// What `\` writes with the bytes after it.
fn escape_of(after: &[u8]) -> Written
    ensures { written_seen result ≡ escape_of after.now }
{
    match after {
        [] => simple(None),
        [c] | [c, _] => simple(simple_escape(*c)),
        [c, d, e, ..] => octal_or(octal_byte(*c, *d, *e), *c),
    }
}

/// The byte that the first byte writes with those after it.
fn written_at(first: u8, after: &[u8]) -> Written
    ensures same { written_seen result ≡ written_at first after.now }
    ensures within { result.more ≤ length after.now }
{
    if first == b'\\' {
        escape_of(after)
    } else {
        Written {
            byte: first,
            more: 0,
        }
    }
}

/// Adds the name that is written so.
pub(crate) fn push_name(line: &mut Vec<u8>, written: &[u8]) -> Result<(), AllocError>
    ensures { OnOk result (line.new.items ≡ line.old.items ++ decoded written.now) }
{
    let mut left = written;
    while let [first, later @ ..] = left {
        let one = written_at(*first, later);
        line.push(one.byte)?;
        left = &later[one.more..];
    }
    Ok(())
}

/// Whether this name is written so.
pub(crate) fn is_name(written: &[u8], name: &[u8]) -> bool
    ensures { result ≡ bytes_eq (decoded written.now) name.now }
{
    let mut left = written;
    let mut expected = name;
    while let [first, later @ ..] = left {
        let one = written_at(*first, later);
        let [byte, more @ ..] = expected else {
            return false;
        };
        if one.byte != *byte {
            return false;
        }
        left = &later[one.more..];
        expected = more;
    }
    expected.is_empty()
}
