//! Faults of names and types.

/// What a fault is. Of several faults at one place that with the lowest number answers.
#[derive(Clone, Copy, Debug, PartialEq, Eq)]
pub enum FaultKind {
    /// 1: a name, tag or member has no declaration in scope.
    Undeclared,
    /// 2: a name is declared again in its scope and name space, or has a second body.
    Redeclared,
    /// 3: types do not fit, or a rule of C17 6.5 to 6.9 is broken that no other fault names.
    Mismatch,
    /// 4: what has to be an integer constant expression is none, or its value traps.
    NotConstant,
    /// 5: a label of a `switch` stands there twice.
    DuplicateLabel,
    /// 6: a function is called that has no body.
    NoBody,
    /// 7: a function, an object, a structure, a parameter or all static objects together are too
    /// large.
    Limit,
}

/// A fault, and the byte at which it stands.
#[derive(Clone, Copy, Debug, PartialEq, Eq)]
pub struct Fault {
    pub kind: FaultKind,
    pub at: u32,
}
