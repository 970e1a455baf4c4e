//! What the top call answers where it does not write what was asked for: the statuses of the
//! program, the files that commands ask for, why a file is refused, and the texts of refusals.
#![tactic(auto)]

mod file;
mod refusal;
mod status;
mod stop;
mod text;

pub use file::{File, FileKind};
pub use refusal::Refusal;
pub use status::Status;
pub use stop::Stop;
pub use text::{cannot_read_line, refusal_line, usage_text};
