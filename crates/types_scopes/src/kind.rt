//! Kinds of types that expressions have.
ghost use Rattle.std.specs.Prelude.{◌≡◌, option_map};
ghost use Rattle.types_rules.specs.Values as values;
ghost use Rattle.types_rules.specs.Expressions as expressions;
ghost use Rattle.types_rules.specs.Initializers as initializers;
ghost use Rattle.types_scopes.specs.Found.{kind_of};

use crate::types::Base;

/// Which kind of type an expression has.
#[derive(Clone, Copy)]
pub enum Kind<'a> {
    Void,
    Assignment,
    Integer,
    /// The structure type with this number.
    Structure(usize),
    /// An array, by the type of its elements.
    Array {
        base: Base,
        is_const: bool,
        lengths: &'a [u32],
    },
    Function,
}

impl Kind<'_> {
    pub fn is_integer(self) -> bool
        ensures { result ≡ values.is_integer (kind_of self.entry) }
    {
        match self {
            Kind::Integer => true,
            Kind::Void
            | Kind::Assignment
            | Kind::Structure(_)
            | Kind::Array { .. }
            | Kind::Function => false,
        }
    }

    pub fn is_array(self) -> bool
        ensures { result ≡ values.is_array (kind_of self.entry) }
    {
        match self {
            Kind::Array { .. } => true,
            Kind::Void | Kind::Assignment | Kind::Integer | Kind::Structure(_) | Kind::Function =>
                false,
        }
    }

    pub fn is_structure(self) -> bool
        ensures { result ≡ values.is_structure (kind_of self.entry) }
    {
        match self {
            Kind::Structure(_) => true,
            Kind::Void | Kind::Assignment | Kind::Integer | Kind::Array { .. } | Kind::Function =>
                false,
        }
    }

    /// Whether it may be a statement of its own (C17 6.3.2.1p3, p4).
    pub fn is_effect(self) -> bool
        ensures { result ≡ values.is_effect (kind_of self.entry) }
    {
        match self {
            Kind::Array { .. } | Kind::Function => false,
            Kind::Void | Kind::Assignment | Kind::Integer | Kind::Structure(_) => true,
        }
    }

    /// Whether it may stand under a cast to void.
    pub fn is_discarded(self) -> bool
        ensures { result ≡ values.is_discarded (kind_of self.entry) }
    {
        match self {
            Kind::Assignment | Kind::Array { .. } | Kind::Function => false,
            Kind::Void | Kind::Integer | Kind::Structure(_) => true,
        }
    }

    /// Whether it may be an arm of `?:` (C17 6.5.15p3).
    pub fn is_arm(self) -> bool
        ensures { result ≡ expressions.is_arm (kind_of self.entry) }
    {
        match self {
            Kind::Void | Kind::Integer => true,
            Kind::Assignment | Kind::Structure(_) | Kind::Array { .. } | Kind::Function => false,
        }
    }

    /// Whether an object of the kind can be assigned to (C17 6.5.16p2).
    pub fn is_assigned(self) -> bool
        ensures { result ≡ expressions.is_assigned (kind_of self.entry) }
    {
        match self {
            Kind::Integer | Kind::Structure(_) => true,
            Kind::Void | Kind::Assignment | Kind::Array { .. } | Kind::Function => false,
        }
    }
}

// ---- an operand whose kind is known, and does not pass the test

/// Whether it is the kind of the structure type with this number.
pub fn is_kind(number: usize, kind: Kind<'_>) -> bool
    ensures { result ≡ initializers.is_kind number (kind_of kind.entry) }
{
    match kind {
        Kind::Structure(other) => other == number,
        Kind::Void | Kind::Assignment | Kind::Integer | Kind::Array { .. } | Kind::Function =>
            false,
    }
}

pub fn fails_integer(kind: Option<Kind<'_>>) -> bool
    ensures { result ≡ values.fails values.is_integer (option_map kind_of kind.entry) }
{
    match kind {
        Some(kind) => !kind.is_integer(),
        None => false,
    }
}

pub fn fails_array(kind: Option<Kind<'_>>) -> bool
    ensures { result ≡ values.fails values.is_array (option_map kind_of kind.entry) }
{
    match kind {
        Some(kind) => !kind.is_array(),
        None => false,
    }
}

pub fn fails_structure(kind: Option<Kind<'_>>) -> bool
    ensures { result ≡ values.fails values.is_structure (option_map kind_of kind.entry) }
{
    match kind {
        Some(kind) => !kind.is_structure(),
        None => false,
    }
}

pub fn fails_effect(kind: Option<Kind<'_>>) -> bool
    ensures { result ≡ values.fails values.is_effect (option_map kind_of kind.entry) }
{
    match kind {
        Some(kind) => !kind.is_effect(),
        None => false,
    }
}

pub fn fails_discarded(kind: Option<Kind<'_>>) -> bool
    ensures { result ≡ values.fails values.is_discarded (option_map kind_of kind.entry) }
{
    match kind {
        Some(kind) => !kind.is_discarded(),
        None => false,
    }
}

pub fn fails_arm(kind: Option<Kind<'_>>) -> bool
    ensures { result ≡ values.fails expressions.is_arm (option_map kind_of kind.entry) }
{
    match kind {
        Some(kind) => !kind.is_arm(),
        None => false,
    }
}

pub fn fails_assigned(kind: Option<Kind<'_>>) -> bool
    ensures { result ≡ values.fails expressions.is_assigned (option_map kind_of kind.entry) }
{
    match kind {
        Some(kind) => !kind.is_assigned(),
        None => false,
    }
}
