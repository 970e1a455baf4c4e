//! Records: which tests ran on a source, how each ended, and which bits were hit under it, as a
//! text that is written, read and merged.
#![tactic(auto)]

mod bits;
mod digits;
mod fault;
mod head;
mod joined;
mod kept;
mod laws;
mod line;
mod lines;
mod pair_fault;
mod parts;
mod reading;
mod same;
mod tests;
mod writing;

pub use fault::RecordFault;
pub use joined::merge_records;
pub use kept::Record;
pub use laws::{old_is_read, old_is_refused, written_is_read};
pub use pair_fault::PairFault;
pub use reading::read_record;
pub use writing::write_record;
