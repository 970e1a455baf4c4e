//! Tests of `mc_core`, `mc_cover` and `mc_watch`.
#![tactic(auto)]

#[cfg(test)]
mod looks;
#[cfg(test)]
mod matrices;
#[cfg(test)]
mod schedules;
#[cfg(test)]
mod threads;
mod workers;
