//! Lengths of arrays (C17 6.7.6.2).
ghost use Rattle.std.specs.Prelude.{◌≡◌, [], Some, IfOk, List, option_map, option_and_then};
ghost use Rattle.types_rules.specs.Constants as constants;
ghost use Rattle.types_rules.specs.Declarators as declarators;
ghost use Rattle.types_faults.specs.Faults.{least_of};
ghost use Rattle.types_rules.specs.Scopes as scopes;
ghost use Rattle.types_rules.specs.Values as typing_values;
ghost use Rattle.types_rules.specs.Values.{judged};
ghost use Rattle.types_declarations.specs.Declarations.{lengths_in, length_then, with_length};
ghost use Rattle.types_scopes.specs.Found.{found_of, judged_of};
ghost use Rattle.types_scopes.specs.steps.Squeezed.{squeezed_part};

use mc_value::MOST_CELLS;
use std::alloc::{AllocError, Global};
use types_faults::{Fault, FaultKind, after_two, fault_where, lesser};
use types_scopes::found::{Found, Judged};
use types_scopes::lists::with_last;
use types_scopes::values::{constant_found, fault_of_constant};

/// The greatest length that is kept: longer arrays are too long as well.
pub(crate) const MOST_KEPT: u32 = MOST_CELLS + 1;

/// No lengths. Takes no memory.
pub fn no_lengths(alloc: Global) -> Judged<Vec<u32>>
    ensures { (s : scopes.Scope) → judged_of lengths_in result s ≡ judged [] (Some []) s }
{
    Judged {
        fault: None,
        value: Some(Vec::new(alloc)),
    }
}

// The length of this value, where it is one.
fn length_of(value: i128) -> Option<u32>
    ensures { result ≡ declarators.length_of value }
{
    if value < 1 {
        None
    } else {
        Some(value.min(i128::from(MOST_KEPT)) as u32)
    }
}

fn length_in(value: Option<i128>) -> Option<u32>
    ensures { result ≡ option_and_then declarators.length_of value }
{
    match value {
        Some(value) => length_of(value),
        None => None,
    }
}

// Whether the value is known, and is no length.
fn is_no_length(value: Option<i128>) -> bool
    ensures { result ≡ declarators.is_no_length value }
{
    match value {
        Some(value) => length_of(value).is_none(),
        None => false,
    }
}

// The fault of an expression that has to be a length.
#[tactic(auto, using(types_scopes::proofs::Squeezed::joined_leasts))]
fn length_fault(at: u32, found: &Found) -> Option<Fault>
    ensures { (s : scopes.Scope) → result ≡ least_of
        (declarators.length_faults at found.now.constant
        (typing_values.number_found (found_of found.now s))) }
{
    let constant = fault_of_constant(at, found);
    let value = constant_found(found);
    let misfit = is_no_length(value);
    let own = fault_where(misfit, FaultKind::Mismatch, at);
    lesser(constant, own)
}

fn lengths_with(list: Option<Vec<u32>>, one: Option<u32>) -> Result<Option<Vec<u32>>, AllocError>
    ensures { IfOk result (λ r. option_map lengths_in r
        ≡ typing_values.lift2 with_length (option_map lengths_in list) one) }
{
    match list {
        Some(list) => match one {
            Some(one) => match with_last(list, one) {
                Ok(list) => Ok(Some(list)),
                Err(error) => Err(error),
            },
            None => {
                drop(list);
                Ok(None)
            }
        },
        None => Ok(None),
    }
}

/// Lengths, and one more after them, whose expression starts here.
pub fn more_lengths(
    list: Judged<Vec<u32>>,
    at: u32,
    found: &Found,
) -> Result<Judged<Vec<u32>>, AllocError>
    ensures { IfOk result (λ r. (s u : scopes.Scope) → judged_of lengths_in r u ≡ squeezed_part
        (length_then (judged_of lengths_in list s) at (found_of found.now u))) }
{
    let own = length_fault(at, found);
    let fault = after_two(list.fault, found.fault, own);
    let one = length_in(constant_found(found));
    let value = lengths_with(list.value, one)?;
    Ok(Judged { fault, value })
}
