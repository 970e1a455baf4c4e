//! Tests of the crates that read a source.
#![tactic(auto)]

#[cfg(test)]
mod dialects;
#[cfg(test)]
mod heights;
#[cfg(test)]
mod nestings;
#[cfg(test)]
mod outside;
#[cfg(test)]
mod productions;
#[cfg(test)]
mod reading;
#[cfg(test)]
mod tokens;
