//! Tables of texts.
ghost use Rattle.std.specs.Prelude.{◌≡◌, ◌≤◌, map, length, nat_eq};
ghost use Rattle.std.specs.List.{starts_with};
ghost use Rattle.mc_lex.specs.Words.{one_of};
ghost use Rattle.mc_lex.specs.steps.Scanner as spec;

/// Whether the text is one of the table.
pub fn is_one_of(table: &[&[u8]], text: &[u8]) -> bool
    ensures { result ≡ one_of (spec.texts table.now) text.now }
{
    let mut left = table;
    while let [entry, later @ ..] = left {
        if text == *entry {
            return true;
        }
        left = later;
    }
    false
}

/// Whether the bytes begin with the text. The first byte decides of most texts, so nothing is
/// called.
fn begins_with(bytes: &[u8], text: &[u8]) -> bool
    ensures { result ≡ starts_with nat_eq bytes.now text.now }
{
    let mut left = bytes;
    let mut wanted = text;
    while let [byte, later @ ..] = wanted {
        let [first, after @ ..] = left else {
            return false;
        };
        if *first != *byte {
            return false;
        }
        left = after;
        wanted = later;
    }
    true
}

/// The length of the first text of the table with which the bytes begin, or 0.
pub fn first_of(table: &[&[u8]], bytes: &[u8]) -> usize
    ensures { result ≡ spec.first_of (spec.texts table.now) bytes.now }
{
    let mut left = table;
    while let [entry, later @ ..] = left {
        if begins_with(bytes, entry) {
            return entry.len();
        }
        left = later;
    }
    0
}
