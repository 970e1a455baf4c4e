//! Bytes and words that hexadecimal digits write.
ghost use Rattle.std.specs.Prelude.{◌≡◌, ◌<◌, IfSome, None, Some, MatchOption, length};
ghost use Rattle.mc_record.specs.Digits.{byte_in, byte_of, bytes_in, digit_of, word_in};
ghost use Rattle.mc_record.specs.Seen.{seen_number};

use crate::parts::strip;

fn digit_of(byte: u8) -> Option<u8>
    ensures value { result ≡ digit_of byte }
    ensures small { IfSome result (λ digit. digit < 16) }
{
    match byte {
        b'0'..=b'9' => Some(byte - b'0'),
        b'a'..=b'f' => Some(byte - b'a' + 10),
        _ => None,
    }
}

fn byte_of(high: u8, low: u8) -> Option<u8>
    ensures { result ≡ byte_of high low }
{
    let high = digit_of(high)?;
    let low = digit_of(low)?;
    Some(16 * high + low)
}

fn read_byte(text: &[u8]) -> Option<(u8, &[u8])>
    ensures { seen_number result ≡ byte_in text.now }
{
    match text {
        [high, low, rest @ ..] => {
            let byte = byte_of(*high, *low)?;
            Some((byte, rest))
        }
        _ => None,
    }
}

/// Fills the bytes from the text's first digits, two for each byte, and gives what follows these.
/// Takes no memory.
pub(crate) fn read_bytes<'a>(text: &'a [u8], bytes: &mut [u8]) -> Option<&'a [u8]>
    ensures { MatchOption result (bytes_in (length bytes.old) text.now ≡ None)
        (λ rest. bytes_in (length bytes.old) text.now ≡ Some (bytes.new, rest.now)) }
{
    let mut left = text;
    for byte in bytes.iter_mut() {
        let Some((value, rest)) = read_byte(left) else {
            return None;
        };
        *byte = value;
        left = rest;
    }
    Some(left)
}

/// The word that stands after a space, and what follows it. Takes no memory.
pub(crate) fn read_word(text: &[u8]) -> Option<(u64, &[u8])>
    ensures { seen_number result ≡ word_in text.now }
{
    let digits = strip(text, b" ")?;
    let mut bytes = [0; 8];
    let rest = read_bytes(digits, &mut bytes)?;
    Some((u64::from_be_bytes(bytes), rest))
}
