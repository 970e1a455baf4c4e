//! The markers of a text, line by line.
ghost use Rattle.std.specs.Prelude.{◌≡◌, option_map, false, [], ◌∷◌};
ghost use Rattle.mc_places.specs.Markers.{marker_on, markers_of, open_after};
ghost use Rattle.mc_places.specs.Seen.{marker_seen, markers_left};

use crate::comment::stays_open;
use crate::line::split_line;
use crate::marker::{Marker, marker_of};

/// The lines that are left of a text, and whether a comment is open where they begin.
#[derive(Clone, Copy)]
pub(crate) struct Markers<'a> {
    left: Option<&'a [u8]>,
    is_open: bool,
}

/// The marker that the line is, where it is one; a line that begins inside a comment is none.
fn marker_on(is_open: bool, line: &[u8]) -> Option<Marker<'_>>
    ensures { option_map marker_seen result ≡ marker_on is_open line.now }
{
    if is_open { None } else { marker_of(line) }
}

/// Whether a comment is open after the line.
fn open_after(marker: Option<Marker<'_>>, is_open: bool, line: &[u8]) -> bool
    ensures { result ≡ open_after (option_map marker_seen marker.entry) is_open line.now }
{
    match marker {
        Some(_) => false,
        None => stays_open(is_open, line),
    }
}

impl<'a> Markers<'a> {
    pub(crate) fn of(text: &'a [u8]) -> Markers<'a>
        ensures { markers_left result ≡ markers_of text.now }
    {
        Markers {
            left: Some(text),
            is_open: false,
        }
    }
}

impl<'a> Iterator for Markers<'a> {
    ghost use Rattle.std.specs.Prelude.{option_map};
    ghost use Rattle.std.specs.Iterator.{YieldsFirstBy, item_count};
    ghost use Rattle.mc_places.specs.Seen.{marker_seen, markers_left};

    type Item = Option<Marker<'a>>;

    ghost next_gives = { YieldsFirstBy (λ m. option_map marker_seen m) markers_left };

    ghost remaining = { item_count markers_left };

    fn next(&mut self) -> Option<Option<Marker<'a>>> {
        let (line, later) = split_line(self.left?);
        let marker = marker_on(self.is_open, line);
        self.left = later;
        self.is_open = open_after(marker, self.is_open, line);
        Some(marker)
    }
}
