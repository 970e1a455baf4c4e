//! The iterators of a source's lines and of a listing's.
ghost use Rattle.std.specs.Prelude.{◌≡◌, ◌<◌, ◌^◌, length};
ghost use Rattle.mc_list.specs.Lines.{placed_lines, stripped};
ghost use Rattle.mc_list.specs.Seen.{lines_left, strips_left};

use crate::line::Lines;
use crate::margins::Strip;

/// The lines of the source in their order. Takes no memory.
pub fn lines<'a>(source: &'a [u8]) -> Lines<'a>
    requires { length source.now < 2 ^ 31 }
    ensures { lines_left result ≡ placed_lines source.now }
{
    Lines::of(source)
}

/// The lines of the text, each without its first 12 bytes: an empty one where it has no more.
/// Takes no memory.
pub fn strip<'b>(text: &'b [u8]) -> Strip<'b>
    requires { length text.now < 2 ^ 31 }
    ensures { strips_left result ≡ stripped text.now }
{
    Strip::of(text)
}
