//! What an instrumented tree adds to a program.

/// A probe round an integer expression. A program has the same meaning with it and without it.
#[derive(Clone, Copy, Debug, PartialEq, Eq)]
pub enum Probe {
    /// Round a decision: its register, and the bit of its first path.
    Decision {
        register: u32,
        base: u32,
    },
    /// Round a condition: its decision's register, and what is added to it where the condition is
    /// true and where it is false.
    Condition {
        register: u32,
        on_true: u32,
        on_false: u32,
    },
    /// Round the expression of a `switch`, with its register.
    Switch {
        register: u32,
    },
}

/// A probe of a label of a `switch`: the register of the `switch`, and the label's bit.
#[derive(Clone, Copy, Debug, PartialEq, Eq)]
pub struct Mark {
    pub register: u32,
    pub bit: u32,
}
