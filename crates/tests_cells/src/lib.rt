//! Tests of `mc_cells`: worked rows of cells.
#![tactic(auto)]

#[cfg(test)]
mod cells;
