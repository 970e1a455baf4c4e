//! The justifications of the entries so far.
ghost use Rattle.std.specs.Prelude.{◌≡◌, ◌≢◌, ◌<◌, ◌++◌, ◌∷◌, [], ℕ, Ok, IfOk, IfErr, OnOk, length, vec_len};
ghost use Rattle.mc_justify.specs.Justifications.{unless_named};
ghost use Rattle.mc_justify.specs.Returned.{GivesFault};
ghost use Rattle.mc_justify.specs.Seen.{IsDraft, added};

use crate::fault::JustifyFault;
use mc_oblige::{Justification, Reason};
use std::alloc::{AllocError, Global};

/// The justifications of the entries so far, and for each obligation whether one of them names it.
#[derive(Drop)]
pub(crate) struct Draft {
    pub justifications: Vec<Justification>,
    pub named: Vec<bool>,
}

/// No justifications of so many obligations.
pub(crate) fn no_justifications(alloc: Global, count: usize) -> Result<Draft, AllocError>
    ensures draft { IfOk result (λ d. IsDraft d) }
    ensures count { IfOk result (λ d. length d.named.items ≡ count) }
    ensures none { IfOk result (λ d. d.justifications.items ≡ []) }
{
    let named = vec![in alloc; false; count]?;
    let justifications = Vec::new(alloc);
    Ok(Draft {
        justifications,
        named,
    })
}

/// Adds the justification that entry `number` is, unless an earlier one names the obligation.
pub(crate) fn add(
    alloc: Global,
    draft: &mut Draft,
    number: u32,
    position: u32,
    reason: &str,
) -> Result<(), JustifyFault<'static>>
    requires draft { IsDraft draft.old }
    requires inside { position < length draft.old.named.items }
    requires some { reason.now ≢ [] }
    ensures draft { OnOk result (IsDraft draft.new) }
    ensures count { OnOk result (length draft.new.named.items ≡ length draft.old.named.items) }
    ensures added { OnOk result (draft.new.justifications.items
        ≡ draft.old.justifications.items ++ added position reason.now ∷ []) }
    ensures free { OnOk result (
        unless_named number draft.old.justifications.items reason.now position
        ≡ Ok (added position reason.now)) }
    ensures fault { IfErr result (λ e. GivesFault
        (unless_named number draft.old.justifications.items reason.now position) e) }
{
    if draft.named[position as usize] {
        return Err(JustifyFault::Repeated { entry: number });
    }
    draft.named[position as usize] = true;
    let reason = Reason::new(reason.as_bytes().to_vec(alloc)?);
    draft.justifications.push(Justification {
        obligation: position,
        reason,
    })?;
    Ok(())
}
