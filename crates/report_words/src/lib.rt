//! The words and digits that reports and records share: of how a test ended, and of bytes.
#![tactic(auto)]

mod hexadecimal;
mod laws;
mod named;
mod words;

pub use hexadecimal::{byte_digits, push_hexadecimal};
pub use laws::{named_states_have_words, words_name_states};
pub use named::state_named;
pub use words::{ending_word, state_word, trap_word};
