//! Texts of records.

use std::alloc::AllocError;

/// The SHA-256 of `int f(int a,int b){return a&&b;}`, by `sha256sum`.
pub(crate) const DIGEST: [u8; 32] = [
    0x82, 0x00, 0xd2, 0x38, 0x49, 0x91, 0xa9, 0x0c, 0x0f, 0xb5, 0xf6, 0xa2, 0x08, 0xa7, 0xf0, 0x17,
    0x6c, 0xae, 0x5c, 0x64, 0x43, 0xe4, 0x61, 0x77, 0xef, 0x6b, 0xfd, 0x44, 0xc4, 0x0d, 0x4c, 0xaf,
];

const DIGITS: &str = "8200d2384991a90c0fb5f6a208a7f0176cae5c6443e46177ef6bfd44c40d4caf";

/// The lines of the record of three tests of this source.
pub(crate) static LINES: [&str; 14] = [
    "mcdc-record 2$",
    "source #$",
    "bits 6$",
    "tests 3$",
    "test t1 pass$",
    "test t2 pass$",
    "test t3 pass$",
    "bit 0 *7$",
    "bit 1 *7$",
    "bit 2 *7$",
    "bit 3 *1$",
    "bit 4 *2$",
    "bit 5 *4$",
    "end$",
];

/// Adds what a text stands for. There `$` is a line feed, `^` a carriage return, `#` stands for the
/// digits of the digest, `*` for fifteen zeros, `%` for sixty letters `n`, and `<` takes the last
/// byte away.
pub(crate) fn write_out(out: &mut Vec<u8>, text: &str) -> Result<(), AllocError> {
    for byte in text.bytes() {
        match byte {
            b'$' => out.push(b'\n')?,
            b'^' => out.push(b'\r')?,
            b'#' => out.extend_from_slice(DIGITS.as_bytes())?,
            b'*' => out.extend_from_slice(b"000000000000000")?,
            b'%' => {
                out.extend_from_slice(b"nnnnnnnnnnnnnnnnnnnnnnnnnnnnnn")?;
                out.extend_from_slice(b"nnnnnnnnnnnnnnnnnnnnnnnnnnnnnn")?;
            }
            b'<' => {
                out.pop();
            }
            other => out.push(other)?,
        }
    }
    Ok(())
}

fn write_lines(out: &mut Vec<u8>, lines: &[&str]) -> Result<(), AllocError> {
    for line in lines {
        write_out(out, line)?;
    }
    Ok(())
}

/// Adds the lines of the record, with `text` in place of the line of this number, from 1 to 14.
pub(crate) fn write_edited(out: &mut Vec<u8>, number: usize, text: &str) -> Result<(), AllocError> {
    let before = number.saturating_sub(1).min(13);
    write_lines(out, &LINES[..before])?;
    write_out(out, text)?;
    write_lines(out, &LINES[before + 1..])
}

/// Adds the first lines of the record.
pub(crate) fn write_first(out: &mut Vec<u8>, count: usize) -> Result<(), AllocError> {
    write_lines(out, &LINES[..count.min(14)])
}
