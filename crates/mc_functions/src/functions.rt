//! Functions, by the places of their names.
ghost use Rattle.std.specs.Prelude.{◌≡◌, IfOk};
ghost use Rattle.mc_functions.specs.Standing.{function_of, is_entry, name_places};

use mc_oblige::{Obligation, ObligationId};
use std::alloc::{AllocError, Global};

pub(crate) fn is_entry(id: ObligationId) -> bool
    ensures { result ≡ is_entry id }
{
    match id {
        ObligationId::Entry(_) => true,
        _ => false,
    }
}

/// The places of the functions' names.
pub(crate) fn name_places(alloc: Global, obligations: &[Obligation]) -> Result<Vec<u32>, AllocError>
    ensures { IfOk result (λ names. names.items ≡ name_places obligations.now) }
{
    let mut names = Vec::new(alloc);
    let mut left = obligations;
    while let [obligation, later @ ..] = left {
        if is_entry(obligation.id) {
            names.push(obligation.span.start)?;
        }
        left = later;
    }
    Ok(names)
}

/// The number of the function in which a place stands: the last one whose name does not stand
/// after it.
pub(crate) fn function_of(names: &[u32], at: u32) -> usize
    ensures { result ≡ function_of names.now at }
{
    let mut found = 0;
    let mut number = 0;
    let mut left = names;
    while let [name, later @ ..] = left {
        if *name <= at {
            found = number;
        }
        number += 1;
        left = later;
    }
    found
}
