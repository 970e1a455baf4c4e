//! Tests: what a test calls, and how it ends.
ghost use Rattle.std.specs.Prelude.{◌≡◌};

use mc_value::Trap;
use std::marker::Model;

/// How the run of a test ends.
#[derive(Clone, Copy, Debug, PartialEq, Eq)]
pub enum Ending {
    /// Each call returned.
    Returned,
    /// An operation whose behaviour C leaves undefined, or a missing input.
    Trap(Trap),
    /// No unit of fuel was left.
    Fuel,
    /// The levels of the open activations would pass 512.
    Levels,
    /// The static cells and the open frames would pass 65,536 cells.
    Cells,
    /// 4,096 numbers stand in the output already.
    OutputFull,
}

/// What a test shows.
#[derive(Clone, Copy, Debug, PartialEq, Eq)]
pub enum TestState {
    /// Each call returned, and each expectation is met.
    Pass,
    /// Each call returned, and an expectation is not met.
    Fail,
    /// A call did not return.
    Ended(Ending),
}

/// The name of a test, seen as its bytes.
#[derive(Drop)]
pub struct Name {
    bytes: Vec<u8>,
}

impl Model for Name {
    ghost use Rattle.std.specs.Prelude.{List, ℕ};

    ghost Value = { List ℕ };

    ghost view = { λ n. n.bytes.items };
}

impl Name {
    /// The name of these bytes.
    pub fn new(bytes: Vec<u8>) -> Name
        ensures { result ≡ bytes.items }
    {
        Name { bytes }
    }

    /// Its bytes. Takes no memory.
    pub fn bytes(&self) -> &[u8]
        ensures { result.now ≡ self.now }
    {
        &self.bytes
    }
}

/// The inputs of a test, seen as numbers.
#[derive(Drop)]
pub struct Inputs {
    numbers: Vec<i32>,
}

impl Model for Inputs {
    ghost use Rattle.std.specs.Prelude.{List, ℤ};

    ghost Value = { List ℤ };

    ghost view = { λ i. i.numbers.items };
}

impl Inputs {
    /// These numbers.
    pub fn new(numbers: Vec<i32>) -> Inputs
        ensures { result ≡ numbers.items }
    {
        Inputs { numbers }
    }

    /// The numbers, in order. Takes no memory.
    pub fn numbers(&self) -> &[i32]
        ensures { result.now ≡ self.now }
    {
        &self.numbers
    }
}

/// A call that a test makes: the function's number, its arguments, the value that it has to return
/// and the numbers that it has to append to the output, where these are expected.
#[derive(Drop)]
pub struct Call {
    pub function: u32,
    pub arguments: Vec<i128>,
    pub expect: Option<i128>,
    pub output: Option<Vec<i32>>,
}

/// A test: its calls in order, its inputs and its units of fuel.
#[derive(Drop)]
pub struct TestPlan {
    pub name: Name,
    pub calls: Vec<Call>,
    pub inputs: Inputs,
    pub fuel: u32,
}
