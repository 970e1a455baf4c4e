//! The laws, a file for each folder of definitions.

pub mod ordered;
pub mod parts;
pub mod placed;
pub mod shifted;
pub mod spelled;
