//! The report of a program's tests and coverage, as a verifier or a program reads it, and its
//! status.
#![tactic(auto)]

mod counts;
mod csv_form;
mod evidence;
mod fault;
mod form;
mod json_form;
mod kind;
mod laws;
mod places;
mod quoted;
mod report;
mod row;
mod settled;
mod summary;
mod test_lines;
mod text;
mod vectors;
mod verdicts;
mod words;

pub use csv_form::{csv_report_lines, write_csv};
pub use fault::ReportFault;
pub use form::lines_in;
pub use json_form::{json_report_line, write_json};
pub use kind::Kind;
pub use laws::{
    evaluated_are_present, reports_have_no_float, vector_is_of_path, verdicts_are_reported,
};
pub use mc_port::put_lines;
pub use report::Report;
pub use report_options::Form;
pub use settled::{all_passed, status};
pub use summary::summary_lines;
pub use text::{report_lines, write_text};
pub use vectors::vectors_lines;
