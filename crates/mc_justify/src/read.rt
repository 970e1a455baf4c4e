//! The justifications that a file stands for.
ghost use Rattle.std.specs.Prelude.{◌<◌, ◌^◌, IfOk, length};
ghost use Rattle.mc_justify.specs.Justifications.{justifications_of};
ghost use Rattle.mc_justify.specs.Returned.{AreFit, Gives};

use crate::entries::read_entries;
use crate::fault::JustifyFault;
use crate::json::read_json;
use mc_limits::MOST_JUSTIFICATIONS;
use mc_oblige::{Justification, Obligation};
use std::alloc::Global;

const MAX_ENTRIES: usize = MOST_JUSTIFICATIONS as usize;

/// The justifications that the bytes of a justification file stand for, in their order, or the
/// first fault of the file. The obligations are those of the source. Each justification names one
/// of them by its position, no two the same one, and each reason is UTF-8 and not empty.
pub fn read_justifications<'a>(
    alloc: Global,
    bytes: &[u8],
    obligations: &[Obligation],
    source: &'a [u8],
) -> Result<Vec<Justification>, JustifyFault<'a>>
    requires { length obligations.now < 2 ^ 31 }
    ensures justifications { Gives (justifications_of bytes.now obligations.now source.now) result }
    ensures fit { IfOk result (λ v. AreFit (length obligations.now) v.items) }
{
    let Some(value) = read_json(alloc, bytes)? else {
        return Err(JustifyFault::Json);
    };
    let Some(list) = value.as_array() else {
        return Err(JustifyFault::Shape { entry: 0 });
    };
    if list.len() > MAX_ENTRIES {
        return Err(JustifyFault::Limit);
    }
    read_entries(alloc, list, obligations, source)
}
