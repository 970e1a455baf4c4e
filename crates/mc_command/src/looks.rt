//! How often running workers are looked at.
ghost use Rattle.std.specs.Prelude.{◌≡◌, IfSome};
ghost use Rattle.clap.specs.Words.{found_of, rows_of};
ghost use Rattle.mc_command.specs.Seen.{IsWithin};
ghost use Rattle.mc_command.specs.Values.{looks_in};
ghost use Rattle.mc_limits.specs.Limits.{most_looks};

use crate::number::read_number;
use crate::values::text_at;
use clap::ArgMatches;
use mc_limits::MOST_LOOKS;

/// The looks of a run where `--looks` is not given.
const USUAL_LOOKS: u32 = 10;

/// How often the words are looked at while workers run: `[--looks N]`.
pub(crate) fn read_looks(values: &ArgMatches<'_>) -> Option<u32>
    ensures value { result ≡ looks_in (rows_of (found_of values.now)) }
    ensures in_range { IfSome result (IsWithin 1 most_looks) }
{
    match text_at(values, "looks") {
        None => Some(USUAL_LOOKS),
        Some(text) => read_number(text, 1, MOST_LOOKS),
    }
}
