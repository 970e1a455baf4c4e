//! Texts that are padded to a number of places.
ghost use Rattle.std.specs.Prelude.{◌≡◌, ◌++◌, OnOk, replicate};
ghost use Rattle.mc_functions.specs.Text.{left_in, right_in};

use std::alloc::AllocError;

fn push_spaces(line: &mut Vec<u8>, count: usize) -> Result<(), AllocError>
    ensures { OnOk result (line.new.items ≡ line.old.items ++ replicate count 32) }
{
    let mut left = count;
    while left > 0 {
        line.push(b' ')?;
        left -= 1;
    }
    Ok(())
}

/// Adds the text right in this number of places; a longer one takes more.
pub(crate) fn push_right(line: &mut Vec<u8>, places: usize, text: &str) -> Result<(), AllocError>
    ensures { OnOk result (line.new.items ≡ line.old.items ++ right_in places text.now) }
{
    push_spaces(line, places.saturating_sub(text.len()))?;
    line.extend_from_slice(text.as_bytes())
}

/// Adds the text left in this number of places; a longer one takes more.
pub(crate) fn push_left(line: &mut Vec<u8>, places: usize, text: &str) -> Result<(), AllocError>
    ensures { OnOk result (line.new.items ≡ line.old.items ++ left_in places text.now) }
{
    line.extend_from_slice(text.as_bytes())?;
    push_spaces(line, places.saturating_sub(text.len()))
}
