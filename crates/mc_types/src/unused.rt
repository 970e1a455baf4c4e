//! What is found of a part and not used, since another part ran out of memory. To let such a value
//! go is costly to prove, so it is proved once for each type.
use mc_typed::{Argument, Statement};
use types_scopes::found::{Found, Given, Judged};

pub(crate) fn found(one: Found) {
    drop(one)
}

pub(crate) fn given(one: Given<Vec<Argument>>) {
    drop(one)
}

pub(crate) fn statements(one: Judged<Vec<Statement>>) {
    drop(one)
}
