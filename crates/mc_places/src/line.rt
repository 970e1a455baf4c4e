//! Where the first line of some bytes ends.
ghost use Rattle.std.specs.Prelude.{◌≡◌, ◌≤◌, ◌∷◌, length};
ghost use Rattle.std.specs.List.{prefix_len};
ghost use Rattle.mc_lex.specs.Bytes.{goes_on};
ghost use Rattle.mc_places.specs.Lines.{lines_of};
ghost use Rattle.mc_places.specs.Seen.{lines_in};

use crate::byte::is_line_end;

fn line_len(bytes: &[u8]) -> usize
    ensures value { result ≡ prefix_len goes_on bytes.now }
    ensures within { result ≤ length bytes.now }
{
    bytes.iter().take_while(|b| !is_line_end(**b)).count()
}

/// The first line, and the bytes after its LF, where it has one.
pub(crate) fn split_line(bytes: &[u8]) -> (&[u8], Option<&[u8]>)
    ensures lines { lines_of bytes.now ≡ result.0.now ∷ lines_in result.1 }
{
    let (line, later) = bytes.split_at(line_len(bytes));
    match later {
        [] => (line, None),
        [_, rest @ ..] => (line, Some(rest)),
    }
}
