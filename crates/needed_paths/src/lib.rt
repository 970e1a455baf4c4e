//! What the missing obligations of decisions need: vectors, told by the numbers of their paths.
#![tactic(auto)]

mod need;
mod needs;
mod wanted;

pub use need::Need;
pub use needs::Needs;
pub use wanted::Wanted;
