//! The state of a run.
use crate::values::Given;
use mc_cells::Cells;
use mc_stack::Stack;
use mc_typed::Ending;

/// The cells, the registers, the fuel, the inputs with the number of those that were read, and the
/// output; what the last call gave, and how the run ended where it stopped.
#[derive(Drop)]
pub(crate) struct Store {
    pub cells: Cells,
    pub registers: Stack<u32>,
    pub fuel: u32,
    pub inputs: Stack<i32>,
    pub next: usize,
    pub output: Stack<i32>,
    pub given: Given,
    pub ending: Ending,
}
