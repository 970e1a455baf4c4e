//! The lines of bits.
ghost use Rattle.std.specs.Prelude.{◌≡◌, ◌≢◌, ◌≤◌, ◌<◌, ◌+◌, ◌^◌, [], Some, None, Ok, Err, IfOk, IfErr, nat_lt};
ghost use Rattle.mc_limits.specs.Limits.{most_bits, most_tests};
ghost use Rattle.mc_core.specs.Shape.{rows};
ghost use Rattle.mc_record.specs.Bits.{bits_in, has_no_spare, row_in, with_row};
ghost use Rattle.mc_record.specs.Digits.{words_in};
ghost use Rattle.mc_record.specs.Seen.{onto};
ghost use Rattle.mc_record.specs.declared.fault.RecordFault.TheVariants.{OutOfMemory, Word};

use crate::digits::read_word;
use crate::fault::RecordFault;
use crate::lines::bit_front;
use crate::parts::strip;
use mc_core::Shape;

/// Adds this number of words, and gives what follows them.
fn read_words<'a>(
    words: &mut Vec<u64>,
    text: &'a [u8],
    count: usize,
    line: u32,
) -> Result<&'a [u8], RecordFault>
    ensures read { IfOk result (λ rest.
        onto words.old.items (words_in count text.now) ≡ Some (words.new.items, rest.now)) }
    ensures fault { IfErr result (λ e. e ≢ OutOfMemory
        → (words_in count text.now ≡ None) × (e ≡ Word line)) }
{
    let mut left = text;
    for _place in 0..count {
        let Some((word, rest)) = read_word(left) else {
            return Err(RecordFault::Word { line });
        };
        words.push(word)?;
        left = rest;
    }
    Ok(left)
}

// Whether a word has bits of the tests alone, of which there is this number.
fn fits(word: u64, tests: u32) -> bool
    ensures { result ≡ nat_lt word (2 ^ tests) }
{
    if tests >= 64 {
        return true;
    }
    word >> tests == 0
}

// Whether no bit is set at or above this number of tests.
fn has_no_spare(words: &[u64], tests: u32) -> bool
    ensures { result ≡ has_no_spare tests words.now }
{
    let mut tests_left = tests;
    let mut left = words;
    while let [word, later @ ..] = left {
        if !fits(*word, tests_left) {
            return false;
        }
        tests_left = tests_left.saturating_sub(64);
        left = later;
    }
    true
}

/// Adds the words of a bit, and gives what follows its line.
fn read_row<'a>(
    words: &mut Vec<u64>,
    text: &'a [u8],
    shape: Shape,
    bit: u32,
) -> Result<&'a [u8], RecordFault>
    requires bit { bit < most_bits }
    requires tests { shape.tests ≤ most_tests }
    ensures read { IfOk result (λ rest.
        with_row (5 + shape.tests + bit) shape.tests words.old.items
        (row_in bit (rows shape) text.now)
        ≡ Ok (words.new.items, rest.now)) }
    ensures fault { IfErr result (λ e. e ≢ OutOfMemory
        → with_row (5 + shape.tests + bit) shape.tests words.old.items
        (row_in bit (rows shape) text.now)
        ≡ Err e) }
{
    let line = 5 + shape.tests + bit;
    let Some(digits) = strip(text, bit_front(bit).as_slice()) else {
        return Err(RecordFault::Word { line });
    };
    let first = words.len();
    let end = read_words(words, digits, shape.rows(), line)?;
    let Some(rest) = strip(end, b"\n") else {
        return Err(RecordFault::Word { line });
    };
    if has_no_spare(&words[first..], shape.tests) {
        return Ok(rest);
    }
    Err(RecordFault::SpareBit { line })
}

/// Adds the words of each bit, and gives what follows their lines.
pub(crate) fn read_bits<'a>(
    words: &mut Vec<u64>,
    text: &'a [u8],
    shape: Shape,
) -> Result<&'a [u8], RecordFault>
    requires empty { words.old.items ≡ [] }
    requires bits { shape.bits ≤ most_bits }
    requires tests { shape.tests ≤ most_tests }
    ensures read { IfOk result (λ rest.
        bits_in shape 0 [] shape.bits text.now ≡ Ok (words.new.items, rest.now)) }
    ensures fault { IfErr result (λ e. e ≢ OutOfMemory
        → bits_in shape 0 [] shape.bits text.now ≡ Err e) }
{
    let mut left = text;
    for bit in 0..shape.bits {
        left = read_row(words, left, shape, bit)?;
    }
    Ok(left)
}
