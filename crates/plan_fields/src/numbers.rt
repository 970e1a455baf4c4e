//! Numbers in the fields of a tests file.
ghost use Rattle.std.specs.Prelude.{◌≡◌, ℕ, ℤ, List, Option, Some, ◌==◌, ◌<◌, ◌≤◌, ◌∷◌, IfOk, IfSome, option_map, not, length};
ghost use Rattle.std.specs.List.{prefix_len};
ghost use Rattle.csv_records.specs.Numbers.{number_of};
ghost use Rattle.plan_fields.specs.Numbers.{if_int, int_of, pieces_of, numbers_of, all_numbers};
ghost use Rattle.plan_fields.specs.steps.Pieces.{pieces_after};

use csv_records::read_number;
use std::alloc::{AllocError, Global};

fn to_int(number: i128) -> Option<i32>
    ensures { result ≡ if_int (Some number) }
{
    if -2147483648 <= number && number <= 2147483647 {
        Some(number as i32)
    } else {
        None
    }
}

/// The number in the range of `int` that a text writes. Takes no memory.
pub(crate) fn read_int(text: &[u8]) -> Option<i32>
    ensures { result ≡ int_of text.now }
{
    match read_number(text) {
        Some(number) => to_int(number),
        None => None,
    }
}

// How many bytes of a text stand before its first space, or all.
fn piece_len(text: &[u8]) -> usize
    ensures value { result ≡ prefix_len (λ b. not (b == 32)) text.now }
    ensures within { result ≤ length text.now }
{
    text.iter().take_while(|b| **b != b' ').count()
}

// The first piece of a text, and what stands after the space that ends it, where one does.
fn cut(text: &[u8]) -> (&[u8], Option<&[u8]>)
    ensures pieces { pieces_of text.now
        ≡ result.0.now ∷ pieces_after (option_map (λ later. later.now) result.1) }
    ensures shorter { IfSome result.1 (λ later. length later.now < length text.now) }
{
    let at = piece_len(text);
    if at == text.len() {
        (text, None)
    } else {
        (&text[..at], Some(&text[at + 1..]))
    }
}

// A text without a number in it has nothing left to read.
fn if_any(text: &[u8]) -> Option<&[u8]>
    ensures { let left = option_map (λ left. left.now) result in (read : List ℕ → Option ℤ)
        → numbers_of read text.now ≡ all_numbers read (pieces_after left) }
{
    if text.is_empty() { None } else { Some(text) }
}

/// The numbers of a text, which stand in it with one space between each two.
pub(crate) fn read_numbers(alloc: Global, text: &[u8]) -> Result<Option<Vec<i128>>, AllocError>
    ensures { IfOk result (λ found.
        option_map (λ v. v.items) found ≡ numbers_of number_of text.now) }
{
    let mut values = Vec::new(alloc);
    let mut left = if_any(text);
    while let Some(text) = left {
        let (piece, later) = cut(text);
        let Some(value) = read_number(piece) else {
            return Ok(None);
        };
        values.push(value)?;
        left = later;
    }
    Ok(Some(values))
}

/// The same with numbers in the range of `int`.
pub(crate) fn read_ints(alloc: Global, text: &[u8]) -> Result<Option<Vec<i32>>, AllocError>
    ensures { IfOk result (λ found.
        option_map (λ v. v.items) found ≡ numbers_of int_of text.now) }
{
    let mut values = Vec::new(alloc);
    let mut left = if_any(text);
    while let Some(text) = left {
        let (piece, later) = cut(text);
        let Some(value) = read_int(piece) else {
            return Ok(None);
        };
        values.push(value)?;
        left = later;
    }
    Ok(Some(values))
}
