//! The records of a text of comma-separated fields (RFC 4180), one after the other, as the crate
//! `csv` reads them, and the names and numbers that fields hold.
#![tactic(auto)]

mod names;
mod numbers;
mod row;
mod rows;

pub use names::is_name;
pub use numbers::read_number;
pub use row::Row;
pub use rows::Rows;
