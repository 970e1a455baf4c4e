//! Integer and character constants (C17 6.4.4).
ghost use Rattle.std.specs.Prelude.{◌≡◌, if◌then◌else◌, pos, Some, None, [], ◌∷◌, false, true, is_none, option_map};
ghost use Rattle.mc_value.specs.declared.int_type.IntType.TheVariants as IntType;
ghost use Rattle.mc_value.specs.IntTypes.{in_range};
ghost use Rattle.mc_typed.specs.Tree as typed;
ghost use Rattle.types_faults.specs.declared.fault.FaultKind.TheVariants.{Mismatch};
ghost use Rattle.types_faults.specs.Faults.{fault_if, least_of};
ghost use Rattle.types_rules.specs.Scopes as scopes;
ghost use Rattle.types_rules.specs.Values as values;
ghost use Rattle.types_rules.specs.Constants as constants;
ghost use Rattle.types_rules.specs.Expressions as expressions;
ghost use Rattle.types_scopes.specs.Found.{found_of, value_of};
ghost use Rattle.types_scopes.specs.steps.Squeezed.{squeezed};

use mc_typed::{Expression, Span};
use mc_value::{IntType, is_in};
use types_faults::{FaultKind, fault_where};
use types_scopes::found::{Found, number_found};

// The type where it holds the value, else that of the types after it.
fn this_or(value: i128, of: IntType, later: Option<IntType>) -> Option<IntType>
    ensures { result ≡ (if in_range of value then Some of else later) }
{
    if is_in(of, value) { Some(of) } else { later }
}

// `unsigned long long`, and the types before it.
fn unsigned_long_long(value: i128) -> Option<IntType>
    ensures { result ≡ constants.first_holding value (IntType.ULLong ∷ []) }
{
    this_or(value, IntType::ULLong, None)
}

fn unsigned_long(value: i128) -> Option<IntType>
    ensures { result ≡ constants.first_holding value (IntType.ULong ∷ IntType.ULLong ∷ []) }
{
    this_or(value, IntType::ULong, unsigned_long_long(value))
}

fn long_long(value: i128, decimal: bool) -> Option<IntType>
    ensures { result ≡ constants.first_holding value (constants.types_of_constant decimal false 2) }
{
    let later = if decimal {
        None
    } else {
        unsigned_long_long(value)
    };
    this_or(value, IntType::LLong, later)
}

fn unsigned_or_longer(value: i128, longs: u32) -> Option<IntType>
    ensures { result ≡ constants.first_holding value
        (constants.types_of_constant false true longs) }
{
    match longs {
        0 => this_or(value, IntType::UInt, unsigned_long(value)),
        1 => unsigned_long(value),
        _ => unsigned_long_long(value),
    }
}

// `long` and the types after it.
fn long(value: i128, decimal: bool) -> Option<IntType>
    ensures { result ≡ constants.first_holding value (constants.types_of_constant decimal false 1) }
{
    let longest = long_long(value, decimal);
    let later = if decimal {
        longest
    } else {
        this_or(value, IntType::ULong, longest)
    };
    this_or(value, IntType::Long, later)
}

// `int` and the types after it.
fn int(value: i128, decimal: bool) -> Option<IntType>
    ensures { result ≡ constants.first_holding value (constants.types_of_constant decimal false 0) }
{
    let longer = long(value, decimal);
    let later = if decimal {
        longer
    } else {
        this_or(value, IntType::UInt, longer)
    };
    this_or(value, IntType::Int, later)
}

fn signed_or_longer(value: i128, decimal: bool, longs: u32) -> Option<IntType>
    ensures { result ≡ constants.first_holding value
        (constants.types_of_constant decimal false longs) }
{
    match longs {
        0 => int(value, decimal),
        1 => long(value, decimal),
        _ => long_long(value, decimal),
    }
}

/// The type of an integer constant: the first of its list that holds the value (C17 6.4.4.1p5).
/// `longs` is the number of `l` in its suffix.
pub fn type_of_constant(value: u64, decimal: bool, unsigned: bool, longs: u32) -> Option<IntType>
    ensures { result ≡ constants.type_of_constant value decimal unsigned longs }
{
    if unsigned {
        unsigned_or_longer(value as i128, longs)
    } else {
        signed_or_longer(value as i128, decimal, longs)
    }
}

// A constant of this type, where it has one.
fn literal(value: i128, of: Option<IntType>, span: Span) -> Found
    ensures fault { result.fault ≡ least_of (fault_if (is_none of) Mismatch span.start) }
    ensures value { option_map value_of result.value
        ≡ option_map (λ b. values.Number (typed.Constant value b span)) of }
    ensures place { result.place ≡ false }
    ensures constant { result.constant ≡ true }
{
    let fault = fault_where(of.is_none(), FaultKind::Mismatch, span.start);
    let number = match of {
        Some(of) => Some(Expression::Constant { value, of, span }),
        None => None,
    };
    number_found(fault, number, true)
}

/// An integer constant.
pub fn constant(value: u64, decimal: bool, unsigned: bool, longs: u32, span: Span) -> Found
    ensures { (s : scopes.Scope) → found_of result s
        ≡ squeezed (expressions.constant_literal value decimal unsigned longs span s) }
{
    literal(
        value as i128,
        type_of_constant(value, decimal, unsigned, longs),
        span,
    )
}

/// A character constant, whose type is `int` (C17 6.4.4.4p10).
pub fn character(value: i32, span: Span) -> Found
    ensures { (s : scopes.Scope) → found_of result s
        ≡ squeezed (expressions.character_literal value span s) }
{
    let value = value as i128;
    let of = this_or(value, IntType::Int, None);
    literal(value, of, span)
}

/// The 1 that a step adds or subtracts, which stands where the operator stands.
pub fn one(at: Span) -> Found
    ensures fault { result.fault ≡ None }
    ensures value { option_map value_of result.value
        ≡ Some (values.Number (typed.Constant (pos 1) IntType.Int at)) }
    ensures place { result.place ≡ false }
    ensures constant { result.constant ≡ true }
{
    literal(1, Some(IntType::Int), at)
}
