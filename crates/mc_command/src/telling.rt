//! What is told of judged obligations.
ghost use Rattle.std.specs.Prelude.{◌≡◌, option_map};
ghost use Rattle.clap.specs.Words.{found_of, rows_of};
ghost use Rattle.mc_command.specs.Command.{file_told, form_told_in, telling_in};
ghost use Rattle.mc_command.specs.Seen.{seen_telling};

use crate::options::read_form;
use crate::values::text_at;
use clap::ArgMatches;
use report_options::Form;

/// What is told of the obligations of a source once each has its verdict.
#[derive(Clone, Copy)]
pub enum Telling<'w> {
    /// Each verdict with its evidence, in this form: `report`, `analyse`
    Report(Form),
    /// The lines of the source, each with the mark of its worst verdict: `list`
    Listing,
    /// How many are met in each function: `functions`
    Functions {
        /// The file of the source whose obligations alone are counted, where one is named.
        of: Option<&'w str>,
    },
    /// Which vectors would show the missing ones: `needs`
    Needs {
        /// The file of the source whose obligations alone are told, where one is named.
        of: Option<&'w str>,
    },
}

impl<'w> Telling<'w> {
    /// The file of the source of whose obligations alone it is told, where one is named.
    pub fn file(&self) -> Option<&'w str>
        ensures { option_map (λ name. name.now) result ≡ file_told (seen_telling self.now) }
    {
        match self {
            Telling::Functions { of } | Telling::Needs { of } => *of,
            Telling::Report(_) | Telling::Listing => None,
        }
    }
}

/// A report in the form that is asked for: `[--format F]`
pub fn read_form_told<'w>(values: &ArgMatches<'w>) -> Option<Telling<'w>>
    ensures { option_map seen_telling result ≡ form_told_in (rows_of (found_of values.now)) }
{
    let form = read_form(values)?;
    Some(Telling::Report(form))
}

/// What the command with this name tells of judged obligations, once it has run the tests:
/// `report`, `list`, `functions`, `needs`
pub fn read_telling<'w>(name: &str, values: &ArgMatches<'w>) -> Option<Telling<'w>>
    ensures { option_map seen_telling result
        ≡ telling_in name.now (rows_of (found_of values.now)) }
{
    let of = text_at(values, "of");
    match name {
        "report" => read_form_told(values),
        "list" => Some(Telling::Listing),
        "functions" => Some(Telling::Functions { of }),
        "needs" => Some(Telling::Needs { of }),
        _ => None,
    }
}
