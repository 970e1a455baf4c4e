//! Expressions that have a type, to be taken apart.
ghost use Rattle.std.specs.Prelude.{◌≡◌, option_map};
ghost use Rattle.mc_typed.specs.Views.{expression_of, place_of};
ghost use Rattle.types_rules.specs.Values as values;
ghost use Rattle.types_scopes.specs.Types.{base_of};
ghost use Rattle.types_scopes.specs.Found.{parts_of};

use crate::types::{Base, CType};
use mc_typed::{Effect, Expression, FunctionCall, Place, Span};

/// An expression with a type, as `Value`. The drop of a `Value` is written by hand, so that it is
/// one call wherever a value is let go; so a `Value` itself is not taken apart elsewhere.
#[derive(Drop)]
pub enum ValueParts {
    Number(Expression),
    Stored(Place, CType),
    Borrowed {
        array: u32,
        element: CType,
        span: Span,
    },
    Returned(FunctionCall, usize),
    Done(Box<Effect>),
    Assigned(Box<Effect>),
    Designator,
}

impl ValueParts {
    /// The number, where it has an integer type (C17 6.3.2.1p2).
    pub fn into_number(self) -> Option<Expression>
        ensures { option_map expression_of result ≡ values.number_in (parts_of self) }
    {
        match self {
            ValueParts::Number(number) => Some(number),
            ValueParts::Stored(place, of) => {
                let number = number_stored(place, &of);
                drop(of);
                number
            }
            other => {
                drop(other);
                None
            }
        }
    }
}

// The number in an object of a type, where that is an integer type.
fn number_stored(place: Place, of: &CType) -> Option<Expression>
    ensures { option_map expression_of result
        ≡ values.number_stored (place_of place) (base_of of.now.base) of.now.lengths.items }
{
    match of.base {
        Base::Integer(integer) if of.lengths.is_empty() => {
            Some(Expression::Read { place, of: integer })
        }
        _ => {
            drop(place);
            None
        }
    }
}
