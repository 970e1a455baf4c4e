//! Words of a call.

use crate::fail::Fail;
use mc_port::Words;
use std::alloc::Global;

/// The words of a text, at most twelve, with `|` between each two. An empty text has none.
pub fn words_of(alloc: Global, text: &str) -> Result<Words, Fail> {
    let mut words = Words::new(alloc);
    if text.is_empty() {
        return Ok(words);
    }
    for word in text.split('|') {
        if words.count() < 12 {
            words.push(word)?;
        }
    }
    Ok(words)
}
