//! Tests of `adapt`.
#![tactic(auto)]

#[cfg(test)]
mod hostile;
#[cfg(test)]
mod refused;
#[cfg(test)]
mod written;
