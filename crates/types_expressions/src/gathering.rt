//! Arguments, gathered one after another.
ghost use Rattle.std.specs.Prelude.{◌≡◌, ◌++◌, [], map, Some, None, IsTrue, IsFalse, IfOk, Ok, option_map, option_copied};
ghost use Rattle.mc_typed.specs.Tree.{no_arguments};
ghost use Rattle.mc_typed.specs.Views.{argument_of};
ghost use Rattle.types_rules.specs.Calls.{judged_given};
ghost use Rattle.types_rules.specs.Calls as calls;
ghost use Rattle.types_faults.specs.Faults.{least_of};
ghost use Rattle.types_rules.specs.Scopes as scopes;
ghost use Rattle.types_rules.specs.Values as values;
ghost use Rattle.types_scopes.specs.Types.{kind_of};
ghost use Rattle.types_scopes.specs.Given.{arguments_of, given_of, items_of};
ghost use Rattle.types_faults.specs.Kept.{listed};
ghost use Rattle.types_expressions.specs.steps.Gathered.{before, extended, gathered, squeezed_given, with_last};

use mc_typed::Argument;
use std::alloc::{AllocError, Global};
use types_faults::{Fault, lesser};
use types_scopes::ParameterKind;
use types_scopes::found::Given;
use types_scopes::lists::{unused, with_last};
use types_scopes::sums::sum_of;

/// No arguments so far. Takes no memory.
pub fn none_given(alloc: Global) -> Given<Vec<Argument>>
    ensures { (s : scopes.Scope) → given_of items_of result s ≡ judged_given [] (Some []) 0 s }
{
    Given {
        fault: None,
        value: Some(Vec::new(alloc)),
        copied: 0,
    }
}

fn push_argument(
    given: Option<Vec<Argument>>,
    one: Option<Argument>,
) -> Result<Option<Vec<Argument>>, AllocError>
    ensures { IfOk result (λ r. option_map items_of r
        ≡ values.lift2 with_last (option_map items_of given) (option_map argument_of one)) }
{
    match given {
        Some(given) => match one {
            Some(one) => match with_last(given, one) {
                Ok(given) => Ok(Some(given)),
                Err(error) => Err(error),
            },
            None => {
                drop(given);
                Ok(None)
            }
        },
        None => {
            unused(one);
            Ok(None)
        }
    }
}

// Arguments, where they could be made.
fn with_cells(
    fault: Option<Fault>,
    value: Result<Option<Vec<Argument>>, AllocError>,
    copied: u64,
) -> Result<Given<Vec<Argument>>, AllocError>
    ensures fault { IfOk result (λ r. r.fault ≡ fault) }
    ensures value { IfOk result (λ r. value ≡ Ok r.value) }
    ensures copied { IfOk result (λ r. r.copied ≡ copied) }
{
    match value {
        Ok(value) => Ok(Given {
            fault,
            value,
            copied,
        }),
        Err(error) => Err(error),
    }
}

/// One more argument after those so far.
pub fn gather(
    given: Given<Vec<Argument>>,
    one: Given<Argument>,
) -> Result<Given<Vec<Argument>>, AllocError>
    ensures { IfOk result (λ r. (s u : scopes.Scope) → given_of items_of r u
        ≡ squeezed_given (extended (given_of items_of given s) (given_of argument_of one u))) }
{
    let fault = join(given.fault, one.fault);
    let copied = sum_of(given.copied, one.copied);
    let value = push_argument(given.value, one.value);
    with_cells(fault, value, copied)
}

// The first fault of two lists.
#[tactic(auto, using(types_scopes::proofs::Squeezed::joined_least))]
fn join(one: Option<Fault>, other: Option<Fault>) -> Option<Fault>
    ensures { result ≡ least_of (listed one ++ listed other) }
{
    lesser(one, other)
}

// Whether no parameters are left.
fn none_left(left: &[ParameterKind]) -> bool
    ensures none { IsTrue result → calls.no_more (map kind_of left.now) ≡ Some no_arguments }
    ensures more { IsFalse result → calls.no_more (map kind_of left.now) ≡ None }
{
    match left {
        [] => true,
        [_, ..] => false,
    }
}

// The arguments, unless parameters are left.
#[tactic(auto, using(crate::proofs::Gathered::before_none))]
fn only_complete(given: Option<Vec<Argument>>, left: &[ParameterKind]) -> Option<Vec<Argument>>
    ensures { option_map arguments_of result
        ≡ values.lift2 before (option_map items_of given) (calls.no_more (map kind_of left.now)) }
{
    let complete = none_left(left);
    match given {
        Some(given) => {
            if complete {
                Some(given)
            } else {
                drop(given);
                None
            }
        }
        None => None,
    }
}

/// All arguments, where these parameters are left: a call has as many as there are parameters.
/// Takes no memory.
#[tactic(auto, using(types_scopes::proofs::Squeezed::least_alone))]
pub fn given_for(given: Given<Vec<Argument>>, left: &[ParameterKind]) -> Given<Vec<Argument>>
    ensures { (s : scopes.Scope) → given_of arguments_of result s
        ≡ squeezed_given (gathered (given_of items_of given s)
        (judged_given [] (calls.no_more (map kind_of left.now)) 0 s)) }
{
    Given {
        fault: given.fault,
        value: only_complete(given.value, left),
        copied: given.copied,
    }
}

/// The parameter that the next argument is for, where there is one. Takes no memory.
pub fn first_of(left: &[ParameterKind]) -> Option<&ParameterKind>
    ensures { option_map kind_of (option_copied result) ≡ calls.first_of (map kind_of left.now) }
{
    match left {
        [first, ..] => Some(first),
        [] => None,
    }
}

/// The parameters that the arguments after the next one are for. Takes no memory.
pub fn rest_of(left: &[ParameterKind]) -> &[ParameterKind]
    ensures { map kind_of result.now ≡ calls.rest_of (map kind_of left.now) }
{
    match left {
        [_, rest @ ..] => rest,
        [] => left,
    }
}
