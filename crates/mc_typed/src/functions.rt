//! Functions (C17 6.9.1).
use crate::objects::Object;
use crate::statements::Statement;
use mc_span::Span;
use mc_value::{IntType, ObjType};

/// The type of a parameter.
pub enum ParameterType {
    Int(IntType),
    Structure(ObjType),
    /// The parameter names an array of the caller, with elements of this type.
    Array(ObjType),
}

impl Drop for ParameterType {
    fn drop(self) {
        match self {
            ParameterType::Int(_) | ParameterType::Structure(_) | ParameterType::Array(_) => {}
        }
    }
}

/// What a function gives.
pub enum ResultType {
    Void,
    Int(IntType),
    Structure(ObjType),
}

impl Drop for ResultType {
    fn drop(self) {
        match self {
            ResultType::Void | ResultType::Int(_) | ResultType::Structure(_) => {}
        }
    }
}

/// A function with a body.
pub struct Function<'a> {
    pub name: &'a [u8],
    /// Where the name stands in the definition.
    pub name_span: Span,
    pub parameters: Vec<ParameterType>,
    pub result: ResultType,
    /// The objects with automatic storage duration: the parameters that are no arrays, in order,
    /// and then those of the body, each declared local and each temporary object of a call, in the
    /// order of the text.
    pub objects: Vec<Object>,
    /// The items of the body.
    pub body: Vec<Statement>,
    /// The `}` of the body.
    pub closing: Span,
    /// Of an instrumented tree: how many registers an activation has, and the bits of the entry and
    /// of the exit at the closing brace.
    pub registers: u32,
    pub entry: Option<u32>,
    pub exit: Option<u32>,
}

impl Drop for Function<'_> {
    fn drop(self) {
        let Self {
            name: _,
            name_span: _,
            parameters: _,
            result: _,
            objects: _,
            body: _,
            closing: _,
            registers: _,
            entry: _,
            exit: _,
        } = self;
    }
}
