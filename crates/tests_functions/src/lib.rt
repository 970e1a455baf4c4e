//! Tests of `mc_places` and `mc_functions`.
#![tactic(auto)]

#[cfg(test)]
mod find;
#[cfg(test)]
mod functions;
#[cfg(test)]
mod places;
