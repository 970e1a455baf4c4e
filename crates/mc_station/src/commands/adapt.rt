//! The command `adapt`.
ghost use Rattle.std.specs.Prelude.{◌≡◌, ◌≤◌, ◌<◌, ◌^◌, IfOk, length};
ghost use Rattle.mc_limits.specs.Limits.{most_source_bytes};
ghost use Rattle.station_replies.specs.Seen.{Gives};
ghost use Rattle.mc_station.specs.Replied.{seen_reply};
ghost use Rattle.mc_station.specs.Seen.{seen_accepted};
ghost use Rattle.mc_station.specs.commands.Adapt.{IsShort, Makes, MakesSource, WritesSource};

use crate::accepted::Accepted;
use crate::reply::Reply;
use adapt_lines::refusal_text;
use mc_adapt::{Adapted, adapt};
use mc_limits::MOST_SOURCE_BYTES;
use station_replies::{Refusal, Stop};
use std::alloc::{AllocError, Global};

// The text that is made of a preprocessed one.
fn made<'a>(alloc: Global, bytes: &[u8]) -> Result<Vec<u8>, Stop<'a>>
    requires { length bytes.now < 2 ^ 31 }
    ensures { Gives (λ text. text.items) (Makes bytes.now) result }
{
    match adapt(alloc, bytes)? {
        Adapted::Text(text) => Ok(text),
        Adapted::Refused(faults) => {
            let lines = refusal_text(alloc, bytes, &faults)?;
            Err(Stop::Refused(Refusal::NotAdapted { lines }))
        }
    }
}

// Whether a text is no longer than a source may be.
fn is_short<'a>(text: &[u8]) -> Result<(), Stop<'a>>
    ensures { Gives (λ u. u) (IsShort text.now) result }
{
    if text.len() <= MOST_SOURCE_BYTES as usize {
        Ok(())
    } else {
        Err(Stop::Refused(Refusal::TooManyBytes {
            count: text.len() as u64,
        }))
    }
}

/// The source that is made of a preprocessed text, or why there is none.
pub fn make_source<'a>(alloc: Global, bytes: &[u8]) -> Result<Vec<u8>, Stop<'a>>
    requires { length bytes.now ≤ most_source_bytes }
    ensures makes { Gives (λ text. text.items) (MakesSource bytes.now) result }
    ensures short { IfOk result (λ text. length text.items ≤ most_source_bytes) }
{
    let text = made(alloc, bytes)?;
    match is_short(&text) {
        Ok(()) => Ok(text),
        Err(stop) => {
            drop(text);
            Err(stop)
        }
    }
}

/// The reply of `adapt`: the source that was made, and accepted.
pub fn write_source<'a>(alloc: Global, accepted: Accepted<'a>) -> Reply<'a>
    ensures { WritesSource (seen_accepted accepted.entry) (seen_reply result) }
{
    let source = accepted.source;
    drop(accepted);
    Reply::of_source(alloc, source)
}
