//! The lines of a report in each of its forms.
ghost use Rattle.std.specs.Prelude.{◌≡◌, All, IfOk, IsUtf8};
ghost use Rattle.mc_report.specs.Forms.{lines_in_form};
ghost use Rattle.mc_report.specs.Report.{IsReport};
ghost use Rattle.mc_report.specs.Seen.{bytes_of, report_of};

use crate::csv_form::csv_report_lines;
use crate::json_form::json_report_lines;
use crate::report::Report;
use crate::text::report_lines;
use report_options::Form;
use std::alloc::{AllocError, Global};

/// The lines of the report in this form, each of which is to be put as one piece.
#[tactic(auto, unfolding(crate::specs::Forms::lines_in_form))]
pub fn lines_in(alloc: Global, form: Form, report: &Report<'_>) -> Result<Vec<Vec<u8>>, AllocError>
    requires report { IsReport (report_of report.now) }
    requires names { All IsUtf8 (report_of report.now).names }
    ensures { IfOk result (λ lines.
        bytes_of lines.items ≡ lines_in_form form (report_of report.now)) }
{
    match form {
        Form::Text => report_lines(alloc, report),
        Form::Csv => csv_report_lines(alloc, report),
        Form::Json => json_report_lines(alloc, report),
    }
}
