//! The margin of a line.
ghost use Rattle.std.specs.Prelude.{◌≡◌, ◌≤◌, ◌+◌, ◌++◌, length};
ghost use Rattle.arrayvec.specs.ArrayVec.{array_vec_len};
ghost use Rattle.mc_list.specs.Listing.{margin, in_places};

use crate::mark::Mark;
use arrayvec::ArrayVec;
use itoa::Buffer;

/// A margin, on the stack.
type Text = ArrayVec<u8, 24>;

fn extend(text: &mut Text, bytes: &[u8])
    requires { array_vec_len text.old + length bytes.now ≤ 24 }
    ensures items { text.new.items ≡ text.old.items ++ bytes.now }
    ensures len { array_vec_len text.new ≡ array_vec_len text.old + length bytes.now }
{
    if text.try_extend_from_slice(bytes).is_err() {
        unreachable!();
    }
}

/// The digits right in 7 places.
fn in_places(digits: &[u8]) -> Text
    requires { length digits.now ≤ 10 }
    ensures items { result.items ≡ in_places digits.now }
    ensures len { array_vec_len result ≤ 17 }
{
    let mut text = Text::new();
    extend(&mut text, &b"       "[digits.len().min(7)..]);
    extend(&mut text, digits);
    text
}

/// The number right in 7 places, the mark, and ` | `.
pub(crate) fn margin(number: u32, mark: Mark) -> Text
    ensures { result.items ≡ margin number mark }
{
    let mut buffer = Buffer::new();
    let mut text = in_places(buffer.format(number).as_bytes());
    text.push(b' ');
    text.push(mark.byte());
    extend(&mut text, b" | ");
    text
}
