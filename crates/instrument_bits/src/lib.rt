//! Maps the bits of a program: tells which bit belongs to which event, and where a part of a
//! program has a bit or a decision.
#![tactic(auto)]

mod choices;
mod completes;
mod constants;
mod counting;
mod fault;
mod loose;
mod mapped;
mod places;
mod whole;

pub use choices::{closing_exit, declaration_bit, mark_unless_default};
pub use counting::count;
pub use fault::InstrumentFault;
pub use loose::{is_root, is_root_as_test};
pub use whole::map_of_bits;
