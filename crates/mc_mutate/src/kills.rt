//! Which tests kill which mutants.
mod original;
mod runs;
mod silent;
mod workers;

pub use workers::run_mutants;
