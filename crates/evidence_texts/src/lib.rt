//! What shows an obligation, as text: the vectors of paths, and the names of tests.
#![tactic(auto)]

mod name;
mod shown;
mod vector;

pub use name::{name_of, push_name};
pub use shown::{path_vector, push_path, vector_of};
pub use vector::answer_byte;
