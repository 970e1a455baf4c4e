//! How a text is cut into what is put at once.

/// The pieces of a text.
#[derive(Clone, Copy)]
pub enum Pieces {
    /// Each line with its end.
    Lines,
    /// The whole text.
    Whole,
    /// Each token, and the blank or the end of a line after it.
    Tokens,
    /// Of each line of a listing its margin of 12 bytes, and what follows.
    Listing,
    /// All lines before the last two, and each of these.
    Sums,
}

/// The pieces that a word names.
pub fn pieces_named(word: &str) -> Option<Pieces> {
    match word {
        "lines" => Some(Pieces::Lines),
        "whole" => Some(Pieces::Whole),
        "tokens" => Some(Pieces::Tokens),
        "listing" => Some(Pieces::Listing),
        "sums" => Some(Pieces::Sums),
        _ => None,
    }
}

// The length of the first line with its end.
fn line_length(text: &[u8]) -> usize {
    let mut count = 0_usize;
    for byte in text {
        count = count.saturating_add(1);
        if *byte == b'\n' {
            return count;
        }
    }
    count
}

// The length of what stands before the last two lines.
fn length_before_sums(text: &[u8]) -> usize {
    let mut before = 0_usize;
    let mut last = 0_usize;
    let mut count = 0_usize;
    let mut begun = 0_usize;
    for byte in text {
        count = count.saturating_add(1);
        if *byte == b'\n' {
            before = last;
            last = begun;
            begun = count;
        }
    }
    before
}

// The length of the first token, or of the blank or the end of a line that comes first.
fn token_length(text: &[u8]) -> usize {
    let mut count = 0_usize;
    for byte in text {
        if *byte == b' ' || *byte == b'\n' {
            return count.max(1);
        }
        count = count.saturating_add(1);
    }
    count
}

// The length of the first piece of a text, which is that of this number.
fn piece_length(pieces: Pieces, number: u32, text: &[u8]) -> usize {
    match pieces {
        Pieces::Lines => line_length(text),
        Pieces::Whole => text.len(),
        Pieces::Tokens => token_length(text),
        Pieces::Listing => {
            if number % 2 == 1 {
                12
            } else {
                line_length(text)
            }
        }
        Pieces::Sums => {
            if number == 1 {
                length_before_sums(text)
            } else {
                line_length(text)
            }
        }
    }
}

// The length of the pieces before that of this number.
fn length_before(pieces: Pieces, number: u32, text: &[u8]) -> usize {
    let mut length = 0_usize;
    for earlier in 1..number {
        let Some(left) = text.get(length..) else {
            return length;
        };
        length = length.saturating_add(piece_length(pieces, earlier, left));
    }
    length
}

/// The first part of a text up to the piece of this number, and the first bytes of that piece, if
/// it has them.
pub fn part_of(pieces: Pieces, text: &[u8], number: u32, takes: u32) -> Option<&[u8]> {
    let before = length_before(pieces, number, text);
    let left = text.get(before..)?;
    let more = piece_length(pieces, number, left).min(takes as usize);
    text.get(..before.saturating_add(more))
}
