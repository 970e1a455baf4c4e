//! Outcomes that are asked, and that no wanted vector has.
ghost use Rattle.std.specs.Prelude.{◌≡◌, ℕ, ◌<◌, Bool, Some, length, slice_get, IfOk};
ghost use Rattle.mc_oblige.specs.declared.obligation.ObligationId.TheVariants.{Outcome};
ghost use Rattle.mc_oblige.specs.declared.obligation.Obligation.{Obligation};
ghost use Rattle.mc_needs.specs.steps.Due as spec;

use mc_oblige::{Obligation, ObligationId};
use std::alloc::{AllocError, Global};

/// Which outcomes of a decision are asked, and no wanted vector has.
#[derive(Clone, Copy)]
pub(crate) struct Due {
    on_true: bool,
    on_false: bool,
}

impl Due {
    /// Neither of them.
    fn none() -> Due
        ensures { result ≡ spec.none_due }
    {
        Due {
            on_true: false,
            on_false: false,
        }
    }

    /// Whether the outcome is one of them.
    pub(crate) fn has(self, outcome: bool) -> bool
        ensures { result ≡ spec.is_due self outcome }
    {
        if outcome { self.on_true } else { self.on_false }
    }

    /// The outcome, where it is one of them.
    pub(crate) fn first(self, outcome: bool) -> Option<bool>
        ensures { result ≡ spec.first_of self outcome }
    {
        if self.has(outcome) {
            Some(outcome)
        } else {
            None
        }
    }

    /// The same, where the outcome is one of them or is not.
    pub(crate) fn with(self, outcome: bool, is_due: bool) -> Due
        ensures { result ≡ spec.with_due self outcome is_due }
    {
        if outcome {
            Due {
                on_true: is_due,
                on_false: self.on_false,
            }
        } else {
            Due {
                on_true: self.on_true,
                on_false: is_due,
            }
        }
    }
}

/// The outcomes of each decision that are asked.
pub(crate) fn asked_outcomes(
    alloc: Global,
    decisions: usize,
    obligations: &[Obligation],
    asked: &[bool],
) -> Result<Vec<Due>, AllocError>
    requires count { length asked.now ≡ length obligations.now }
    requires known { (at d : ℕ) (o : Obligation) (outcome : Bool) →
        slice_get obligations.now at ≡ Some o → o.id ≡ Outcome d outcome → d < decisions }
    ensures { IfOk result (λ v. spec.AreDue decisions (length obligations.now)
        obligations.now asked.now v.items) }
{
    let mut due = vec![in alloc; Due::none(); decisions]?;
    for (at, obligation) in obligations.iter().enumerate() {
        mark_if(&mut due, obligation.id, asked[at]);
    }
    Ok(due)
}

/// Opens the outcome, if it is one and is asked.
fn mark_if(due: &mut Vec<Due>, id: ObligationId, is_asked: bool)
    requires { (d : ℕ) (outcome : Bool) → id ≡ Outcome d outcome → d < length due.old.items }
    ensures { due.new.items ≡ spec.due_if is_asked id due.old.items }
{
    if !is_asked {
        return;
    }
    if let ObligationId::Outcome(d, outcome) = id {
        let own = due[d as usize];
        due[d as usize] = own.with(outcome, true);
    }
}
