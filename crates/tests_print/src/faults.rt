//! A sink that fails.
use crate::fail::Fail;
use crate::reading::{Asked, told};
use crate::texts::{FIRST, FIRST_TEXT};
use std::alloc::Global;

/// Whether a put that fails after so many bytes leaves the text before it and these bytes.
fn stops(alloc: Global, number: u32, before: &[u8], takes: u32) -> Result<bool, Fail> {
    told(
        alloc,
        FIRST,
        Asked {
            text: before,
            failing: Some((number, takes)),
        },
    )
}

/// Where the token that starts at a place ends.
fn token_end(text: &[u8], start: usize) -> usize {
    for place in start..text.len() {
        if let Some(b' ' | b'\n') = text.get(place) {
            return place;
        }
    }
    text.len()
}

/// Whether each put of the text fails in turn: that of a token once at once and once after a byte,
/// and that of what stands after it at once. Gives how many puts there are.
fn each_stops(alloc: Global, text: &[u8]) -> Result<Option<u32>, Fail> {
    let mut done = 0;
    let mut puts = 0;
    for _token in 0..text.len() {
        if done >= text.len() || puts > 1000 {
            break;
        }
        let after = token_end(text, done);
        if after >= text.len()
            || !stops(alloc, puts + 1, &text[..done], 0)?
            || !stops(alloc, puts + 1, &text[..done + 1], 1)?
            || !stops(alloc, puts + 2, &text[..after], 0)?
        {
            return Ok(None);
        }
        done = after + 1;
        puts += 2;
    }
    Ok(Some(puts))
}

// A token is one put, and so is the blank or the line feed after it: 71 of each.
#[test]
fn each_put_fails_in_turn(rt: HostRuntime) {
    let puts = each_stops(rt.alloc(), FIRST_TEXT.as_bytes());
    assert!(rt; matches!(puts, Ok(Some(142))));
    // there is no further put
    let asked = Asked {
        text: FIRST_TEXT.as_bytes(),
        failing: Some((143, 0)),
    };
    assert!(rt; matches!(told(rt.alloc(), FIRST, asked), Ok(false)));
}
