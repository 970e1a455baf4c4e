//! Members of JSON objects, and items of JSON lists.
ghost use Rattle.std.specs.Prelude.{◌≡◌, ◌++◌, OnOk};
ghost use Rattle.serde_json.specs.Data.{null, number, string, unsigned};
ghost use Rattle.serde_json.specs.Written.{comma_if, compact_text};
ghost use Rattle.mc_report.specs.Json.{number_data};
ghost use Rattle.mc_report.specs.steps.Members.{key_text, member_text};

use crate::quoted::quoted;
use std::alloc::{AllocError, Global};

/// Adds a comma where something comes before.
pub(crate) fn push_comma(line: &mut Vec<u8>, later: bool) -> Result<(), AllocError>
    ensures { OnOk result (line.new.items ≡ line.old.items ++ comma_if later) }
{
    if later {
        line.push(b',')?;
    }
    Ok(())
}

/// Adds a text as a JSON string.
pub(crate) fn push_text(alloc: Global, line: &mut Vec<u8>, text: &str) -> Result<(), AllocError>
    ensures { OnOk result (line.new.items ≡ line.old.items ++ compact_text (string text.now)) }
{
    let text = quoted(alloc, text)?;
    line.extend_from_slice(&text)
}

/// Adds a number.
#[tactic(auto, using(crate::proofs::Members::integer_text))]
pub(crate) fn push_integer(alloc: Global, line: &mut Vec<u8>, value: i128) -> Result<(), AllocError>
    ensures { OnOk result (line.new.items ≡ line.old.items ++ compact_text (number_data value)) }
{
    let text = format!(in alloc; "{value}")?;
    line.extend_from_slice(text.as_bytes())
}

/// Adds the key of a member.
pub(crate) fn push_key(
    alloc: Global,
    line: &mut Vec<u8>,
    later: bool,
    key: &str,
) -> Result<(), AllocError>
    ensures { OnOk result (line.new.items ≡ line.old.items ++ key_text later key.now) }
{
    push_comma(line, later)?;
    push_text(alloc, line, key)?;
    line.push(b':')?;
    Ok(())
}

/// Adds a member that is a number.
pub(crate) fn push_number(
    alloc: Global,
    line: &mut Vec<u8>,
    later: bool,
    key: &str,
    value: u64,
) -> Result<(), AllocError>
    ensures { OnOk result (line.new.items
        ≡ line.old.items ++ member_text later key.now (number (unsigned value))) }
{
    push_key(alloc, line, later, key)?;
    let text = format!(in alloc; "{value}")?;
    line.extend_from_slice(text.as_bytes())
}

/// Adds a member that is a text.
pub(crate) fn push_string(
    alloc: Global,
    line: &mut Vec<u8>,
    later: bool,
    key: &str,
    text: &str,
) -> Result<(), AllocError>
    ensures { OnOk result (line.new.items
        ≡ line.old.items ++ member_text later key.now (string text.now)) }
{
    push_key(alloc, line, later, key)?;
    push_text(alloc, line, text)
}

/// Adds a member that is absent.
pub(crate) fn push_null(
    alloc: Global,
    line: &mut Vec<u8>,
    later: bool,
    key: &str,
) -> Result<(), AllocError>
    ensures { OnOk result (line.new.items ≡ line.old.items ++ member_text later key.now null) }
{
    push_key(alloc, line, later, key)?;
    line.extend_from_slice(b"null")
}
