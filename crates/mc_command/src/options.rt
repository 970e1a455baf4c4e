//! The options of a report.
ghost use Rattle.std.specs.Prelude.{◌≡◌};
ghost use Rattle.clap.specs.Words.{found_of, rows_of};
ghost use Rattle.mc_command.specs.Values.{form_in, mode_in};

use crate::values::text_at;
use clap::ArgMatches;
use report_options::{Form, Mode};

/// What `--mode` names; unique cause where it is not given.
pub fn read_mode(values: &ArgMatches<'_>) -> Option<Mode>
    ensures { result ≡ mode_in (rows_of (found_of values.now)) }
{
    match text_at(values, "mode") {
        None => Some(Mode::Unique),
        Some("unique") => Some(Mode::Unique),
        Some("masking") => Some(Mode::Masking),
        Some(_) => None,
    }
}

/// The form that `--format` names; text where it is not given.
pub fn read_form(values: &ArgMatches<'_>) -> Option<Form>
    ensures { result ≡ form_in (rows_of (found_of values.now)) }
{
    match text_at(values, "format") {
        None => Some(Form::Text),
        Some("text") => Some(Form::Text),
        Some("csv") => Some(Form::Csv),
        Some("json") => Some(Form::Json),
        Some(_) => None,
    }
}
