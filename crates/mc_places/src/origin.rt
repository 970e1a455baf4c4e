//! From which file and line a line of a preprocessed text comes.
ghost use Rattle.std.specs.Prelude.{◌≡◌, ◌++◌, OnOk, option_map};
ghost use Rattle.std.specs.Str.{bytes_eq};
ghost use Rattle.mc_places.specs.Origins.{moved_to, next_origin, one_on, said};
ghost use Rattle.mc_places.specs.Seen.{marker_seen, name_of, origin_of};

use crate::marker::{GREATEST_LINE, Marker};
use crate::name::{is_name, push_name};
use std::alloc::AllocError;

/// A line of a file: its number there, and the file's name as a marker writes it, with escapes.
#[derive(Clone, Copy, Debug, PartialEq, Eq)]
pub struct Origin<'a> {
    pub written: &'a [u8],
    pub line: u32,
}

impl<'a> Origin<'a> {
    /// Adds the name of the file.
    pub fn push_file(&self, line: &mut Vec<u8>) -> Result<(), AllocError>
        ensures { OnOk result (line.new.items ≡ line.old.items ++ (origin_of self.now).file) }
    {
        push_name(line, self.written)
    }

    /// Whether it is a line of the file of this name. Takes no memory.
    pub fn is_of(&self, name: &[u8]) -> bool
        ensures { result ≡ bytes_eq (origin_of self.now).file name.now }
    {
        is_name(self.written, name)
    }

    /// The next line of the file, where C has a number for it.
    fn one_on(self) -> Option<Origin<'a>>
        ensures { option_map origin_of result ≡ one_on (Some (origin_of self.entry)) }
    {
        if self.line < GREATEST_LINE {
            Some(Origin {
                written: self.written,
                line: self.line + 1,
            })
        } else {
            None
        }
    }
}

/// The file goes on at another line.
fn moved_to<'a>(number: u32, now: Option<Origin<'a>>) -> Option<Origin<'a>>
    ensures { option_map origin_of result ≡ moved_to number (option_map origin_of now.entry) }
{
    match now {
        Some(origin) => Some(Origin {
            written: origin.written,
            line: number,
        }),
        None => None,
    }
}

/// Of the line after a marker.
fn said<'a>(marker: Marker<'a>, now: Option<Origin<'a>>) -> Option<Origin<'a>>
    ensures { option_map origin_of result
        ≡ said marker.entry.number (name_of marker.entry.name) (option_map origin_of now.entry) }
{
    match (marker.number, marker.name) {
        (None, _) => None,
        (Some(line), Some(written)) => Some(Origin { written, line }),
        (Some(line), None) => moved_to(line, now),
    }
}

/// Of the next line, by that of a line and the marker that this line is.
pub(crate) fn next_origin<'a>(
    now: Option<Origin<'a>>,
    marker: Option<Marker<'a>>,
) -> Option<Origin<'a>>
    ensures { option_map origin_of result
        ≡ next_origin (option_map origin_of now.entry) (option_map marker_seen marker.entry) }
{
    match (marker, now) {
        (Some(marker), _) => said(marker, now),
        (None, Some(origin)) => origin.one_on(),
        (None, None) => None,
    }
}
