//! The names of obligations.
ghost use Rattle.std.specs.Prelude.{◌≡◌, ◌+◌, ◌++◌, decimal, IfOk, string_bytes};
ghost use Rattle.mc_oblige.specs.Ids.{id_text};

use crate::obligation::ObligationId;
use std::alloc::{AllocError, Global};

/// The name of an obligation: a letter for its kind, and numbers from 1. No two have the same.
pub fn id_text(alloc: Global, id: ObligationId) -> Result<String, AllocError>
    ensures { IfOk result (λ text. string_bytes text ≡ id_text id) }
{
    match id {
        ObligationId::Entry(k) => numbered(alloc, "E", k),
        ObligationId::Exit(k) => numbered(alloc, "X", k),
        ObligationId::Statement(k) => numbered(alloc, "S", k),
        ObligationId::Label(k) => numbered(alloc, "L", k),
        ObligationId::Outcome(d, outcome) => outcome_text(alloc, d, outcome),
        ObligationId::Condition(d, k) => condition_text(alloc, d, k),
    }
}

/// A letter, and the number that follows `k`.
fn numbered(alloc: Global, letter: &str, k: u32) -> Result<String, AllocError>
    ensures { IfOk result (λ text. string_bytes text ≡ letter.now ++ decimal (k + 1)) }
{
    let number = u64::from(k) + 1;
    format!(in alloc; "{letter}{number}")
}

fn outcome_text(alloc: Global, d: u32, outcome: bool) -> Result<String, AllocError>
    ensures { IfOk result (λ text. string_bytes text ≡ id_text (ObligationId.Outcome d outcome)) }
{
    let decision = u64::from(d) + 1;
    if outcome {
        format!(in alloc; "D{decision}T")
    } else {
        format!(in alloc; "D{decision}F")
    }
}

fn condition_text(alloc: Global, d: u32, k: u32) -> Result<String, AllocError>
    ensures { IfOk result (λ text. string_bytes text ≡ id_text (ObligationId.Condition d k)) }
{
    let decision = u64::from(d) + 1;
    let condition = u64::from(k) + 1;
    format!(in alloc; "D{decision}C{condition}")
}
