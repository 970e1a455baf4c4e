//! The lines of a record.
ghost use Rattle.std.specs.Prelude.{◌≡◌, ◌≤◌, ◌+◌, ◌*◌, ◌++◌, true, flat_map, length};
ghost use Rattle.arrayvec.specs.ArrayVec.{array_vec_len};
ghost use Rattle.csv_records.specs.Names.{is_name};
ghost use Rattle.mc_record.specs.Lines.{bit_front, bit_line, bits_line, most_line_bytes, most_row_words, source_line, test_line, tests_line, word_text};

use crate::line::{Line, extend, push_digits, push_number};
use mc_typed::{Name, TestState};
use report_words::state_word;

/// The line of the digest.
pub(crate) fn source_line(digest: &[u8; 32]) -> Line
    ensures { result.items ≡ source_line digest.now }
{
    let mut line = Line::new();
    extend(&mut line, b"source ");
    push_digits(&mut line, digest.as_slice());
    extend(&mut line, b"\n");
    line
}

/// The line of the number of bits.
pub(crate) fn bits_line(bits: u32) -> Line
    ensures { result.items ≡ bits_line bits }
{
    let mut line = Line::new();
    extend(&mut line, b"bits ");
    push_number(&mut line, bits);
    extend(&mut line, b"\n");
    line
}

/// The line of the number of tests.
pub(crate) fn tests_line(tests: u32) -> Line
    ensures { result.items ≡ tests_line tests }
{
    let mut line = Line::new();
    extend(&mut line, b"tests ");
    push_number(&mut line, tests);
    extend(&mut line, b"\n");
    line
}

/// The line of a test.
pub(crate) fn test_line(name: &Name, state: TestState) -> Line
    requires { is_name name.now ≡ true }
    ensures { result.items ≡ test_line name.now state }
{
    let mut line = Line::new();
    extend(&mut line, b"test ");
    extend(&mut line, name.bytes());
    extend(&mut line, b" ");
    extend(&mut line, state_word(state).as_bytes());
    extend(&mut line, b"\n");
    line
}

fn push_words(line: &mut Line, words: &[u64])
    requires { array_vec_len line.old + 17 * length words.now ≤ most_line_bytes }
    ensures items { line.new.items ≡ line.old.items ++ flat_map word_text words.now }
    ensures len { array_vec_len line.new ≡ array_vec_len line.old + 17 * length words.now }
{
    let mut left = words;
    while let [word, later @ ..] = left {
        extend(line, b" ");
        push_digits(line, word.to_be_bytes().as_slice());
        left = later;
    }
}

/// What the line of a bit begins with.
pub(crate) fn bit_front(bit: u32) -> Line
    ensures front { result.items ≡ bit_front bit }
    ensures short { array_vec_len result ≤ 14 }
{
    let mut line = Line::new();
    extend(&mut line, b"bit ");
    push_number(&mut line, bit);
    line
}

/// The line of a bit, of at most `MOST_TESTS` tests.
pub(crate) fn bit_line(bit: u32, words: &[u64]) -> Line
    requires { length words.now ≤ most_row_words }
    ensures { result.items ≡ bit_line bit words.now }
{
    let mut line = bit_front(bit);
    push_words(&mut line, words);
    extend(&mut line, b"\n");
    line
}
