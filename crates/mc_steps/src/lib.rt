//! What each part of a program does, from what its parts do: the same for a program and for the
//! program with probes. There is no code in it, but laws.
#![tactic(auto)]
