//! What is told of the run of a test, call by call, and where it stopped: a probe keeps the open
//! activations of a run, and what began last in each.
#![tactic(auto)]

mod activation;
mod laws;
mod layout;
mod returned_call;
mod stop;
mod test_trace;
mod trail_probe;

pub use laws::trails_are_worked;
pub use layout::Layout;
pub use returned_call::ReturnedCall;
pub use stop::Stop;
pub use test_trace::{TestTrace, test_states};
pub use trail_probe::TrailProbe;
