//! A listing without its margins.
ghost use Rattle.std.specs.Prelude.{◌≡◌, ◌<◌, ◌^◌, length, drop};
ghost use Rattle.mc_list.specs.Lines.{stripped};

use crate::ends::split_line;

/// How many bytes a margin has.
const MARGIN: usize = 12;

/// The lines that are left of a listing, each without its margin.
#[derive(Clone, Copy, Debug)]
pub struct Strip<'b> {
    left: &'b [u8],
    ghost short: { length left.now < 2 ^ 31 },
}

impl<'b> Strip<'b> {
    ghost use Rattle.mc_list.specs.Seen.{strips_left};

    pub(crate) fn of(text: &'b [u8]) -> Strip<'b>
        requires { length text.now < 2 ^ 31 }
        ensures { strips_left result ≡ stripped text.now }
    {
        Strip { left: text }
    }
}

impl<'b> Iterator for Strip<'b> {
    ghost use Rattle.std.specs.Iterator.{YieldsFirstBy, item_count};
    ghost use Rattle.mc_list.specs.Seen.{strips_left};

    type Item = &'b [u8];

    ghost next_gives = { YieldsFirstBy (λ piece. piece.now) strips_left };

    ghost remaining = { item_count strips_left };

    fn next(&mut self) -> Option<&'b [u8]> {
        if self.left.is_empty() {
            return None;
        }
        let (line, later) = split_line(self.left);
        self.left = later;
        Some(without_margin(line))
    }
}

fn without_margin(line: &[u8]) -> &[u8]
    ensures { result.now ≡ drop 12 line.now }
{
    &line[MARGIN.min(line.len())..]
}
