//! Expressions that have a type.
ghost use Rattle.std.specs.Prelude.{◌≡◌, IfOk, Some, option_map};
ghost use Rattle.mc_typed.specs.Views.{expression_of, effect_of, structure_of, place_of};
ghost use Rattle.types_rules.specs.Values as values;
ghost use Rattle.types_rules.specs.Expressions as expressions;
ghost use Rattle.types_scopes.specs.Types.{base_of, type_of};
ghost use Rattle.types_scopes.specs.Found.{kind_of, parts_of, value_of};

use crate::kind::Kind;
use crate::lists::on_heap;
use crate::parts::ValueParts;
use crate::types::{Base, CType};
use mc_typed::{Effect, Expression, FunctionCall, Place, Span, Structure};
use std::alloc::{AllocError, Global};

/// An expression with a type. Effects are on the heap, since they are wider than all else together:
/// what is found of an expression is handed on by value, again and again.
pub enum Value {
    /// An integer that is not stored in an object.
    Number(Expression),
    /// An object or a part of one, and its type.
    Stored(Place, CType),
    /// The array that an array parameter names: its number, the type of its elements.
    Borrowed {
        array: u32,
        element: CType,
        span: Span,
    },
    /// A structure that a call returns, and the number of its type.
    Returned(FunctionCall, usize),
    /// A void expression.
    Done(Box<Effect>),
    /// An assignment or a step.
    Assigned(Box<Effect>),
    /// The name of a function.
    Designator,
}

impl Drop for Value {
    fn drop(self) {
        match self {
            Value::Number(_)
            | Value::Stored(_, _)
            | Value::Borrowed {
                array: _,
                element: _,
                span: _,
            }
            | Value::Returned(_, _)
            | Value::Done(_)
            | Value::Assigned(_)
            | Value::Designator => {}
        }
    }
}

impl Value {
    /// The same, to be taken apart.
    pub fn into_parts(self) -> ValueParts
        ensures { parts_of result ≡ value_of self }
    {
        match self {
            Value::Number(number) => ValueParts::Number(number),
            Value::Stored(place, of) => ValueParts::Stored(place, of),
            Value::Borrowed {
                array,
                element,
                span,
            } => ValueParts::Borrowed {
                array,
                element,
                span,
            },
            Value::Returned(call, number) => ValueParts::Returned(call, number),
            Value::Done(effect) => ValueParts::Done(effect),
            Value::Assigned(effect) => ValueParts::Assigned(effect),
            Value::Designator => ValueParts::Designator,
        }
    }

    /// Whether it has an integer type.
    pub fn is_integer(&self) -> bool
        ensures { result ≡ values.is_integer (values.kind_of (value_of self.now)) }
    {
        match self {
            Value::Number(_) => true,
            Value::Stored(_, of) => of.lengths.is_empty() && matches!(of.base, Base::Integer(_)),
            _ => false,
        }
    }

    /// Its number, where it has an integer type (C17 6.3.2.1p2).
    pub fn into_number(self) -> Option<Expression>
        ensures { option_map expression_of result ≡ values.number_in (value_of self) }
    {
        self.into_parts().into_number()
    }

    /// Its kind.
    pub fn kind(&self) -> Kind<'_>
        ensures { kind_of result ≡ values.kind_of (value_of self.now) }
    {
        match self {
            Value::Number(_) => Kind::Integer,
            Value::Stored(_, of) => kind_of_object(of),
            Value::Borrowed { element, .. } => Kind::Array {
                base: element.base,
                is_const: element.is_const,
                lengths: &element.lengths,
            },
            Value::Returned(_, number) => Kind::Structure(*number),
            Value::Done(_) => Kind::Void,
            Value::Assigned(_) => Kind::Assignment,
            Value::Designator => Kind::Function,
        }
    }

    /// The structure, where it has the structure type with this number.
    pub fn into_structure(self, number: usize) -> Option<Structure>
        ensures { option_map structure_of result ≡ values.structure_in number (value_of self) }
    {
        match self {
            Value::Stored(place, of) => {
                let structure = structure_stored(number, place, &of);
                drop(of);
                structure
            }
            Value::Returned(call, other) => {
                if other == number {
                    Some(Structure::Returned { call })
                } else {
                    drop(call);
                    None
                }
            }
            other => {
                drop(other);
                None
            }
        }
    }

    /// The effect that it is where its value is dropped, but for an assignment.
    pub fn into_discarded(self) -> Option<Effect>
        ensures { option_map effect_of result ≡ values.discarded_in (value_of self) }
    {
        match self {
            Value::Number(value) => Some(Effect::Number {
                value,
                whole: false,
            }),
            Value::Stored(place, of) => effect_of_object(place, of),
            Value::Borrowed { .. } => None,
            Value::Returned(call, _) => Some(Effect::Structure {
                value: Structure::Returned { call },
                whole: false,
            }),
            Value::Done(effect) => Some(Box::into_inner(effect)),
            Value::Assigned(effect) => {
                drop(effect);
                None
            }
            Value::Designator => None,
        }
    }

    /// The effect that it is where its value is dropped (C17 6.8.3).
    pub fn into_effect(self) -> Option<Effect>
        ensures { option_map effect_of result ≡ values.effect_in (value_of self) }
    {
        match self {
            Value::Assigned(effect) => Some(Box::into_inner(effect)),
            value => value.into_discarded(),
        }
    }
}

// The structure in an object of a type, where that is the structure type with this number.
fn structure_stored(number: usize, place: Place, of: &CType) -> Option<Structure>
    ensures { option_map structure_of result
        ≡ values.structure_stored number (place_of place) (base_of of.now.base)
        of.now.lengths.items }
{
    match of.base {
        Base::Tagged(other) if of.lengths.is_empty() && other == number => {
            Some(Structure::Stored { place })
        }
        _ => {
            drop(place);
            None
        }
    }
}

// The kind of a type without lengths.
fn kind_of_base(base: Base) -> Kind<'static>
    ensures { kind_of result ≡ values.kind_of_base (base_of base) }
{
    match base {
        Base::Void => Kind::Void,
        Base::Integer(_) => Kind::Integer,
        Base::Tagged(number) => Kind::Structure(number),
    }
}

// The kind of an object of a type.
fn kind_of_object(of: &CType) -> Kind<'_>
    ensures { kind_of result ≡ values.kind_of_object (type_of of.now) of.now.lengths.items }
{
    match of.lengths.as_slice() {
        [_, lengths @ ..] => Kind::Array {
            base: of.base,
            is_const: of.is_const,
            lengths,
        },
        _ => kind_of_base(of.base),
    }
}

// The value of an object, dropped.
fn effect_of_object(place: Place, of: CType) -> Option<Effect>
    ensures { option_map effect_of result
        ≡ values.discarded_in (values.Stored (place_of place) (type_of of)) }
{
    if !of.lengths.is_empty() {
        drop(place);
        return None;
    }
    match of.base {
        Base::Void => {
            drop(place);
            None
        }
        Base::Integer(of) => Some(Effect::Number {
            value: Expression::Read { place, of },
            whole: false,
        }),
        Base::Tagged(_) => Some(Effect::Structure {
            value: Structure::Stored { place },
            whole: false,
        }),
    }
}

/// Whether it is an object that is `const`.
pub fn is_const(value: &Option<Value>) -> bool
    ensures { result ≡ expressions.is_const_value (option_map value_of value.now) }
{
    match value {
        Some(value) => match value {
            Value::Stored(_, of) => of.is_const,
            Value::Number(_)
            | Value::Borrowed { .. }
            | Value::Returned(_, _)
            | Value::Done(_)
            | Value::Assigned(_)
            | Value::Designator => false,
        },
        None => false,
    }
}

/// A void expression that has this effect.
pub fn done(alloc: Global, effect: Effect) -> Result<Option<Value>, AllocError>
    ensures { IfOk result (λ r. option_map value_of r ≡ Some (values.Done (effect_of effect))) }
{
    match on_heap(alloc, effect) {
        Ok(effect) => Ok(Some(Value::Done(effect))),
        Err(error) => Err(error),
    }
}

/// An assignment or a step that has this effect.
pub fn assigned(alloc: Global, effect: Effect) -> Result<Option<Value>, AllocError>
    ensures { IfOk result (λ r. option_map value_of r ≡ Some (values.Assigned (effect_of effect))) }
{
    match on_heap(alloc, effect) {
        Ok(effect) => Ok(Some(Value::Assigned(effect))),
        Err(error) => Err(error),
    }
}
