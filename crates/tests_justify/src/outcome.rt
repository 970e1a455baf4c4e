//! What comes of a justification file.
ghost use Rattle.std.specs.Prelude.{◌<◌, ◌^◌, length};

use mc_justify::{JustifyFault, read_justifications};
use mc_oblige::{Justification, Obligation};
use std::alloc::{AllocError, Global};

fn push_justifications(
    alloc: Global,
    out: &mut Vec<u8>,
    list: &[Justification],
) -> Result<(), AllocError> {
    for justification in list {
        let position = format!(in alloc; "{} ", justification.obligation)?;
        out.extend_from_slice(position.as_bytes())?;
        out.extend_from_slice(justification.reason.bytes())?;
        out.push(b';')?;
    }
    Ok(())
}

fn push_fault(
    alloc: Global,
    out: &mut Vec<u8>,
    fault: &JustifyFault<'_>,
) -> Result<(), AllocError> {
    let text = format!(in alloc; "{fault}")?;
    out.extend_from_slice(text.as_bytes())?;
    if let JustifyFault::Quote { kept, given, .. } = fault {
        out.extend_from_slice(b" kept <<")?;
        out.extend_from_slice(kept)?;
        out.extend_from_slice(b">> given <<")?;
        out.extend_from_slice(given.bytes())?;
        out.extend_from_slice(b">>")?;
    }
    Ok(())
}

/// For each justification its position, its reason and `;`, or the text of the fault and with a
/// quote that differs the bytes of both.
pub(crate) fn outcome(
    alloc: Global,
    obligations: &[Obligation],
    source: &[u8],
    file: &[u8],
) -> Result<Vec<u8>, AllocError>
    requires { length obligations.now < 2 ^ 31 }
{
    let mut out = Vec::new(alloc);
    match read_justifications(alloc, file, obligations, source) {
        Ok(list) => push_justifications(alloc, &mut out, &list)?,
        Err(fault) => push_fault(alloc, &mut out, &fault)?,
    }
    Ok(out)
}
