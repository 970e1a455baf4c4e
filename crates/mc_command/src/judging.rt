//! How obligations are judged.
ghost use Rattle.std.specs.Prelude.{◌≡◌, option_map};
ghost use Rattle.clap.specs.Words.{found_of, rows_of};
ghost use Rattle.mc_command.specs.Command.{judged_in, judging_in, report_in};
ghost use Rattle.mc_command.specs.Seen.{seen_judging, seen_telling};

use crate::options::read_mode;
use crate::telling::{Telling, read_form_told, read_telling};
use crate::values::text_at;
use clap::ArgMatches;
use report_options::Mode;

/// How the obligations of a source are judged, and what is told of them then.
#[derive(Clone, Copy)]
pub struct Judging<'w> {
    /// What shows the independence of a condition.
    pub mode: Mode,
    /// The name of the file of justifications, where there is one.
    pub justify: Option<&'w str>,
    /// What is told.
    pub telling: Telling<'w>,
}

/// What is told of obligations that are judged as the options say: `[--mode M] [--justify NAME]`
fn read_judging<'w>(values: &ArgMatches<'w>, telling: Telling<'w>) -> Option<Judging<'w>>
    ensures { option_map seen_judging result
        ≡ judging_in (seen_telling telling.entry) (rows_of (found_of values.now)) }
{
    let mode = read_mode(values)?;
    let justify = text_at(values, "justify");
    Some(Judging {
        mode,
        justify,
        telling,
    })
}

/// The report that the options ask for: `[--mode M] [--justify NAME] [--format F]`
pub fn read_report<'w>(values: &ArgMatches<'w>) -> Option<Judging<'w>>
    ensures { option_map seen_judging result ≡ report_in (rows_of (found_of values.now)) }
{
    let telling = read_form_told(values)?;
    read_judging(values, telling)
}

/// How the command with this name judges the obligations once it has run the tests.
pub fn read_judged<'w>(name: &str, values: &ArgMatches<'w>) -> Option<Judging<'w>>
    ensures { option_map seen_judging result
        ≡ judged_in name.now (rows_of (found_of values.now)) }
{
    let telling = read_telling(name, values)?;
    read_judging(values, telling)
}
