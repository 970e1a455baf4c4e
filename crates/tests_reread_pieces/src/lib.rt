//! Tests of the crates that read an instrumented text.
#![tactic(auto)]

#[cfg(test)]
mod shapes;
