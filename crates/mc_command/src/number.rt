//! The numbers on a command line.
ghost use Rattle.std.specs.Prelude.{◌≡◌, ◌≤◌, ◌^◌, IfSome, MatchOption, true};
ghost use Rattle.std.specs.Char.{is_ascii_digit};
ghost use Rattle.std.specs.List.{list_all};
ghost use Rattle.std.specs.Str.Parse.{digits_value};
ghost use Rattle.mc_command.specs.Values.{is_numeral, is_within, number_within};

fn has_only_digits(text: &[u8]) -> bool
    ensures { result ≡ list_all is_ascii_digit text.now }
{
    text.iter().all(|b| b.is_ascii_digit())
}

// Whether the text is decimal digits, of which the first is not `0`.
fn is_numeral(text: &[u8]) -> bool
    ensures { result ≡ is_numeral text.now }
{
    match text {
        [] => false,
        [first, ..] => *first != b'0' && has_only_digits(text),
    }
}

fn is_within(least: u32, most: u32, number: u32) -> bool
    ensures { result ≡ is_within least most number }
{
    least <= number && number <= most
}

// The number that a numeral is, where it is below 2^32.
fn number_of(numeral: &str) -> Option<u32>
    requires { is_numeral numeral.now ≡ true }
    ensures { MatchOption result (2 ^ 32 ≤ digits_value 10 numeral.now)
        (λ number. number ≡ digits_value 10 numeral.now) }
{
    match numeral.parse::<u32>() {
        Ok(number) => Some(number),
        Err(_) => None,
    }
}

/// The number that the text is, where it is one from `least` to `most`: decimal digits without
/// sign or leading zero.
#[tactic(auto, using(crate::proofs::Numbers::too_large))]
pub fn read_number(text: &str, least: u32, most: u32) -> Option<u32>
    ensures value { result ≡ number_within least most text.now }
    ensures in_range { IfSome result (λ number. (least ≤ number) × (number ≤ most)) }
{
    if !is_numeral(text.as_bytes()) {
        return None;
    }
    let number = number_of(text)?;
    if is_within(least, most, number) {
        Some(number)
    } else {
        None
    }
}
