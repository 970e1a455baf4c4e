//! The shared words of a matrix: workers in threads of their own claim tests and record bits, one
//! atomic step each.
//!
//! `open` makes the words and the opener's pass, `fork` a pass for each worker. A worker calls
//! `claim` until it gives no test, and `hit` for each bit of its test. With `look` a pass sees a
//! word meanwhile. `join` brings a worker's pass back, and `close` gives the matrix. No call waits,
//! and none but `open` takes memory.
#![tactic(auto)]

mod calls;
mod closer;
mod cover;
mod laws;
mod opening;
mod pass;
mod rule;
mod view;

pub use calls::{claim, close, fork, hit, join, look};
pub use closer::{Closer, PlainCloser, SkippingCloser};
pub use cover::Cover;
pub use laws::the_rule_is_kept;
pub use opening::{OpenFault, open};
pub use pass::Pass;
pub use rule::Rule;
pub use view::{Role, View};
