//! Bytes as hexadecimal digits.
ghost use Rattle.std.specs.Prelude.{◌≡◌, ◌<◌, ◌++◌, OnOk};
ghost use Rattle.report_words.specs.Hexadecimal.{byte_text, hexadecimal, hexadecimal_digit};

use std::alloc::AllocError;

fn digit(value: u8) -> u8
    requires { value < 16 }
    ensures { result ≡ hexadecimal_digit value }
{
    if value < 10 {
        b'0' + value
    } else {
        b'a' + (value - 10)
    }
}

/// The two lower-case digits of a byte, the high one first. Takes no memory.
pub fn byte_digits(byte: u8) -> [u8; 2]
    ensures { result ≡ byte_text byte }
{
    [digit(byte / 16), digit(byte % 16)]
}

/// Adds two lower-case digits for each byte, the high one first.
pub fn push_hexadecimal(line: &mut Vec<u8>, bytes: &[u8]) -> Result<(), AllocError>
    ensures { OnOk result (line.new.items ≡ line.old.items ++ hexadecimal bytes.now) }
{
    let mut left = bytes;
    while let [byte, later @ ..] = left {
        line.extend_from_slice(byte_digits(*byte).as_slice())?;
        left = later;
    }
    Ok(())
}
