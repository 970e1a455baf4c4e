//! Where a word stands in a text.

/// At which byte the word stands first; where it does not, the length of the text.
pub(crate) fn place_of_word(text: &[u8], word: &[u8]) -> u32 {
    let mut at: u32 = 0;
    let mut left = text;
    while let [_, later @ ..] = left {
        if left.starts_with(word) {
            return at;
        }
        at = at.saturating_add(1);
        left = later;
    }
    at
}
