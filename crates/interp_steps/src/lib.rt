//! Small steps of a run, which the interpreter puts together: units of fuel and the bits that are
//! hit for them, registers of activations, items of arrays, the order of operands, the truth of
//! words, and how the turns of a loop end. None takes memory.
#![tactic(auto)]

mod ends;
mod fuel;
mod hits;
mod items;
mod order;
mod registers;
mod truths;

pub use ends::{Flow, loop_end};
pub use fuel::spend_for;
pub use hits::{hit, hit_after};
pub use items::item;
pub use order::in_order;
pub use registers::{add, hit_path, set, take};
pub use truths::is_true;
