//! Types of functions (C17 6.7.6.3).
ghost use Rattle.std.specs.Prelude.{◌≡◌, ◌||◌, ◌&&◌, IfOk, Some, map, option_map};
ghost use Rattle.mc_tree.specs.Views.{name_of};
ghost use Rattle.types_rules.specs.Declarations as declarations;
ghost use Rattle.types_faults.specs.Faults.{least_of};
ghost use Rattle.types_rules.specs.Scopes as scopes;
ghost use Rattle.types_rules.specs.Types as type_rules;
ghost use Rattle.mc_value.specs.declared.int_type.IntType.TheVariants as int;
ghost use Rattle.types_scopes.specs.Types.{base_of, kind_of, type_of};
ghost use Rattle.types_scopes.specs.Types as types;
ghost use Rattle.types_declarations.specs.Declarations.{kind_found, kinds_of, meaning_of_earlier, signature_in};

use crate::earlier::Earlier;
use crate::external::{is_input, is_output};
use mc_limits::MOST_PARAMETERS;
use mc_tree::Identifier;
use mc_value::IntType;
use std::alloc::{AllocError, Global};
use std::sync::Arc;
use types_faults::{Fault, FaultKind, fault_where, lesser};
use types_scopes::{Base, CType, ParameterKind, Signature, same_base};

/// What a function gives, where its type is no array.
pub fn result_of(gives: &Option<CType>) -> Option<Base>
    ensures { option_map base_of result ≡ declarations.result_of (option_map type_of gives.now) }
{
    match gives {
        Some(of) => {
            if of.lengths.is_empty() {
                Some(of.base)
            } else {
                None
            }
        }
        None => None,
    }
}

fn is_array_type(of: &Option<CType>) -> bool
    ensures { result ≡ declarations.is_array_type (option_map type_of of.now) }
{
    match of {
        Some(of) => !of.lengths.is_empty(),
        None => false,
    }
}

// What all parameters take, where it can be told of each.
fn all_of(
    alloc: Global,
    kinds: &[Option<ParameterKind>],
) -> Result<Option<Vec<ParameterKind>>, AllocError>
    ensures { IfOk result (λ r. option_map kinds_of r
        ≡ declarations.all_of (map kind_found kinds.now)) }
{
    let mut all = Vec::new(alloc);
    let mut left = kinds;
    while let [kind, later @ ..] = left {
        let Some(kind) = kind else {
            return Ok(None);
        };
        all.push(kind.try_clone()?)?;
        left = later;
    }
    Ok(Some(all))
}

fn shared(alloc: Global, of: Signature) -> Result<Option<Arc<Signature>>, AllocError>
    ensures { IfOk result (λ r. signature_in r ≡ Some (types.signature_of of)) }
{
    match Arc::new(alloc, of) {
        Ok(of) => Ok(Some(of)),
        Err(failed) => {
            drop(failed);
            Err(AllocError)
        }
    }
}

fn signature_of(
    alloc: Global,
    gives: Option<Base>,
    parameters: Option<Vec<ParameterKind>>,
) -> Result<Option<Arc<Signature>>, AllocError>
    ensures { IfOk result (λ r. signature_in r
        ≡ declarations.signature_of (option_map base_of gives) (option_map kinds_of parameters)) }
{
    match gives {
        Some(gives) => match parameters {
            Some(parameters) => shared(
                alloc,
                Signature {
                    result: gives,
                    parameters,
                },
            ),
            None => Ok(None),
        },
        None => {
            drop(parameters);
            Ok(None)
        }
    }
}

/// The type of a function, by the type of its specifiers and what its parameters take, where it has
/// one.
pub(crate) fn signature(
    alloc: Global,
    gives: &Option<CType>,
    kinds: &[Option<ParameterKind>],
) -> Result<Option<Arc<Signature>>, AllocError>
    ensures { IfOk result (λ r. signature_in r
        ≡ declarations.signature_of (declarations.result_of (option_map type_of gives.now))
        (declarations.all_of (map kind_found kinds.now))) }
{
    match all_of(alloc, kinds) {
        Ok(parameters) => signature_of(alloc, result_of(gives), parameters),
        Err(error) => Err(error),
    }
}

// ---- faults

fn differs(one: &Signature, other: &Option<Arc<Signature>>) -> bool
    ensures { result ≡ declarations.differs (Some (types.signature_of one.now))
        (signature_in other.now) }
{
    match other {
        Some(other) => !one.same_signature(other),
        None => false,
    }
}

fn differs_from(one: &Option<Arc<Signature>>, other: &Option<Arc<Signature>>) -> bool
    ensures { result ≡ declarations.differs (signature_in one.now) (signature_in other.now) }
{
    match one {
        Some(one) => differs(one, other),
        None => false,
    }
}

/// The fault of a declaration that is repeated with another type, or of what was no function.
pub(crate) fn repeated_fault(
    earlier: &Earlier,
    signature: &Option<Arc<Signature>>,
    at: u32,
) -> Option<Fault>
    ensures { result ≡ least_of (declarations.repeated_faults (meaning_of_earlier earlier.now)
        (signature_in signature.now) at) }
{
    match earlier {
        Earlier::Missing => None,
        Earlier::Function {
            signature: before,
            ..
        } => fault_where(differs_from(before, signature), FaultKind::Mismatch, at),
        Earlier::Other => Some(Fault {
            kind: FaultKind::Redeclared,
            at,
        }),
    }
}

// ---- int mcdc_in(void); void mcdc_out(int);

fn takes_int(kind: &ParameterKind) -> bool
    ensures { result ≡ type_rules.same_parameter (type_rules.ByValue (type_rules.Integer int.Int))
        (kind_of kind.now) }
{
    match kind {
        ParameterKind::Value(base) => same_base(Base::Integer(IntType::Int), *base),
        ParameterKind::Array(_) => false,
    }
}

fn take_one_int(parameters: &[ParameterKind]) -> bool
    ensures { result
        ≡ type_rules.same_parameters declarations.output_signature.parameters
        (map kind_of parameters.now) }
{
    match parameters {
        [one, later @ ..] => {
            let int = takes_int(one);
            let only = later.is_empty();
            int && only
        }
        [] => false,
    }
}

fn is_of_input(of: &Signature) -> bool
    ensures { result ≡ type_rules.same_signature declarations.input_signature
        (types.signature_of of.now) }
{
    let gives = same_base(Base::Integer(IntType::Int), of.result);
    let takes = of.parameters.is_empty();
    gives && takes
}

fn is_of_output(of: &Signature) -> bool
    ensures { result ≡ type_rules.same_signature declarations.output_signature
        (types.signature_of of.now) }
{
    let gives = same_base(Base::Void, of.result);
    let takes = take_one_int(&of.parameters);
    gives && takes
}

fn differs_from_input(signature: &Option<Arc<Signature>>) -> bool
    ensures { result ≡ declarations.differs (Some declarations.input_signature)
        (signature_in signature.now) }
{
    match signature {
        Some(of) => !is_of_input(of),
        None => false,
    }
}

fn differs_from_output(signature: &Option<Arc<Signature>>) -> bool
    ensures { result ≡ declarations.differs (Some declarations.output_signature)
        (signature_in signature.now) }
{
    match signature {
        Some(of) => !is_of_output(of),
        None => false,
    }
}

// Whether an external function has another type than its own.
fn is_mistyped(name: &Identifier<'_>, signature: &Option<Arc<Signature>>) -> bool
    ensures { result ≡ ((scopes.is_input (name_of name.now)
        && declarations.differs (Some declarations.input_signature) (signature_in signature.now))
        || (scopes.is_output (name_of name.now)
        && declarations.differs (Some declarations.output_signature)
        (signature_in signature.now))) }
{
    let input = is_input(name);
    let other_input = differs_from_input(signature);
    let output = is_output(name);
    let other_output = differs_from_output(signature);
    (input && other_input) || (output && other_output)
}

fn external_fault(name: &Identifier<'_>, signature: &Option<Arc<Signature>>) -> Option<Fault>
    ensures { result
        ≡ least_of (declarations.external_faults (name_of name.now) (signature_in signature.now)) }
{
    fault_where(
        is_mistyped(name, signature),
        FaultKind::Mismatch,
        name.span.start,
    )
}

/// The fault of a function's declarator, which has so many parameters.
#[tactic(auto, using(types_scopes::proofs::Squeezed::joined_listed, types_scopes::proofs::Squeezed::joined_leasts))]
pub(crate) fn function_fault(
    name: &Identifier<'_>,
    gives: &Option<CType>,
    count: usize,
    signature: &Option<Arc<Signature>>,
) -> Option<Fault>
    ensures { result ≡ least_of (declarations.function_faults (name_of name.now)
        (option_map type_of gives.now) count (signature_in signature.now)) }
{
    let at = name.span.start;
    let many = fault_where(count > MOST_PARAMETERS as usize, FaultKind::Limit, at);
    let array = fault_where(is_array_type(gives), FaultKind::Mismatch, at);
    let external = external_fault(name, signature);
    lesser(external, lesser(array, many))
}
