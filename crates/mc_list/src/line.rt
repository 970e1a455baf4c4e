//! The lines of a source, lent from it.
ghost use Rattle.std.specs.Prelude.{◌≡◌, ◌<◌, ◌≤◌, ◌+◌, ◌^◌, length};
ghost use Rattle.mc_list.specs.Lines.{placed_lines};

use crate::ends::split_line;

/// A line of a source: its number from 1, the place of its first byte, and its bytes, with LF where
/// it has one.
#[derive(Clone, Copy, Debug, PartialEq, Eq)]
pub struct Line<'a> {
    pub number: u32,
    pub start: u32,
    pub bytes: &'a [u8],
}

/// The lines that are left of a source.
#[derive(Clone, Copy, Debug)]
pub struct Lines<'a> {
    number: u32,
    start: u32,
    left: &'a [u8],
    ghost numbered: { number + length left.now ≤ 2 ^ 31 },
    ghost placed: { start + length left.now < 2 ^ 31 },
}

impl<'a> Lines<'a> {
    ghost use Rattle.mc_list.specs.Seen.{lines_left};

    pub(crate) fn of(source: &'a [u8]) -> Lines<'a>
        requires { length source.now < 2 ^ 31 }
        ensures { lines_left result ≡ placed_lines source.now }
    {
        Lines {
            number: 1,
            start: 0,
            left: source,
        }
    }
}

impl<'a> Iterator for Lines<'a> {
    ghost use Rattle.std.specs.Iterator.{YieldsFirstBy, item_count};
    ghost use Rattle.mc_list.specs.Seen.{placed_of, lines_left};

    type Item = Line<'a>;

    ghost next_gives = { YieldsFirstBy placed_of lines_left };

    ghost remaining = { item_count lines_left };

    fn next(&mut self) -> Option<Line<'a>> {
        if self.left.is_empty() {
            return None;
        }
        let (bytes, later) = split_line(self.left);
        let line = Line {
            number: self.number,
            start: self.start,
            bytes,
        };
        self.left = later;
        self.number += 1;
        self.start += bytes.len() as u32;
        Some(line)
    }
}
