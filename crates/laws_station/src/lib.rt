//! Laws over all commands: what a reply with status 0 or 1 says, what the number of workers
//! changes, when justifications are asked for, what accepted files lead to, and what several calls
//! on the tests of one source say. There is no code in it, but laws.
#![tactic(auto)]

mod cases;
mod laws;
mod suites;
mod texts;
mod workers;

pub use cases::{refusals_are_six, some_ask_for_none, watch_is_alone};
pub use laws::{accepted_files_give_texts, justifications_after_matrix};
pub use suites::{analysis_is_report, kept_show_all, merge_is_record};
pub use texts::{ends_are_told, reports_are_of_their_source, texts_are_of_files};
pub use workers::{workers_are_an_option, workers_change_nothing};
