//! A line that is being made, on the stack.
ghost use Rattle.std.specs.Prelude.{◌≡◌, ◌≤◌, ◌+◌, ◌*◌, ◌++◌, length};
ghost use Rattle.std.specs.Fmt.{decimal};
ghost use Rattle.arrayvec.specs.ArrayVec.{array_vec_len};
ghost use Rattle.report_words.specs.Hexadecimal.{hexadecimal};
ghost use Rattle.mc_record.specs.Lines.{most_line_bytes};

use arrayvec::ArrayVec;
use itoa::Buffer;
use mc_limits::MOST_TESTS;
use report_words::byte_digits;

/// The bytes of the longest line, that of a bit: `bit `, a number of 10 digits, a space and 16
/// digits for each word of 64 tests, and LF.
const MOST_LINE_BYTES: usize = 15 + 17 * (MOST_TESTS as usize / 64);

/// A line.
pub(crate) type Line = ArrayVec<u8, MOST_LINE_BYTES>;

/// Adds bytes, for which there is room.
pub(crate) fn extend(line: &mut Line, bytes: &[u8])
    requires { array_vec_len line.old + length bytes.now ≤ most_line_bytes }
    ensures items { line.new.items ≡ line.old.items ++ bytes.now }
    ensures len { array_vec_len line.new ≡ array_vec_len line.old + length bytes.now }
{
    if line.try_extend_from_slice(bytes).is_err() {
        unreachable!();
    }
}

/// Adds a number, of at most 10 digits.
pub(crate) fn push_number(line: &mut Line, number: u32)
    requires { array_vec_len line.old + 10 ≤ most_line_bytes }
    ensures items { line.new.items ≡ line.old.items ++ decimal number }
    ensures len { array_vec_len line.new ≤ array_vec_len line.old + 10 }
{
    let mut buffer = Buffer::new();
    extend(line, buffer.format(number).as_bytes());
}

/// Adds two digits for each byte.
pub(crate) fn push_digits(line: &mut Line, bytes: &[u8])
    requires { array_vec_len line.old + 2 * length bytes.now ≤ most_line_bytes }
    ensures items { line.new.items ≡ line.old.items ++ hexadecimal bytes.now }
    ensures len { array_vec_len line.new ≡ array_vec_len line.old + 2 * length bytes.now }
{
    let mut left = bytes;
    while let [byte, later @ ..] = left {
        extend(line, byte_digits(*byte).as_slice());
        left = later;
    }
}
