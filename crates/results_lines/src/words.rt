//! Numbers and values on a line.
ghost use Rattle.std.specs.Prelude.{◌≡◌, ◌++◌, flat_map, OnOk};
ghost use Rattle.results_lines.specs.Words.{number_text, numbers_text};

use std::alloc::{AllocError, Global};
use told_lines::{push_number, push_output};

/// Adds the arguments of a call.
pub(crate) fn push_arguments(
    alloc: Global,
    line: &mut Vec<u8>,
    arguments: &[i128],
) -> Result<(), AllocError>
    ensures { OnOk result (line.new.items ≡ line.old.items ++ flat_map number_text arguments.now) }
{
    let mut left = arguments;
    while let [number, later @ ..] = left {
        push_number(alloc, line, *number)?;
        left = later;
    }
    Ok(())
}

/// Adds the numbers of an output, or that there is none.
pub(crate) fn push_numbers(
    alloc: Global,
    line: &mut Vec<u8>,
    numbers: &[i32],
) -> Result<(), AllocError>
    ensures { OnOk result (line.new.items ≡ line.old.items ++ numbers_text numbers.now) }
{
    if numbers.is_empty() {
        line.extend_from_slice(b" none")
    } else {
        push_output(alloc, line, numbers)
    }
}
