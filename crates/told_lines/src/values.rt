//! Numbers and values on a line.
ghost use Rattle.std.specs.Prelude.{◌≡◌, ◌++◌, flat_map, OnOk};
ghost use Rattle.told_lines.specs.Values.{number_text, value_text};

use std::alloc::{AllocError, Global};

/// Adds a number after a blank.
pub fn push_number(alloc: Global, line: &mut Vec<u8>, number: i128) -> Result<(), AllocError>
    ensures { OnOk result (line.new.items ≡ line.old.items ++ number_text number) }
{
    let text = format!(in alloc; " {number}")?;
    line.extend_from_slice(text.as_bytes())
}

/// Adds what a call returned.
pub fn push_value(alloc: Global, line: &mut Vec<u8>, value: Option<i128>) -> Result<(), AllocError>
    ensures { OnOk result (line.new.items ≡ line.old.items ++ value_text value) }
{
    match value {
        Some(number) => push_number(alloc, line, number),
        None => line.extend_from_slice(b" void"),
    }
}

/// Adds the numbers of an output.
pub fn push_output(alloc: Global, line: &mut Vec<u8>, output: &[i32]) -> Result<(), AllocError>
    ensures { OnOk result (line.new.items ≡ line.old.items ++ flat_map number_text output.now) }
{
    let mut left = output;
    while let [number, later @ ..] = left {
        push_number(alloc, line, i128::from(*number))?;
        left = later;
    }
    Ok(())
}
