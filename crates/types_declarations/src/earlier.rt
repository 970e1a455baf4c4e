//! What a function's name was declared to be before.
ghost use Rattle.std.specs.Prelude.{◌≡◌, ℕ, IfOk, Option, Some, option_map, option_copied};
ghost use Rattle.types_rules.specs.Declarations as declarations;
ghost use Rattle.types_rules.specs.Types as types;
ghost use Rattle.types_scopes.specs.Views.{meaning_of};
ghost use Rattle.types_declarations.specs.Declarations.{meaning_of_earlier, signature_in};

use std::alloc::AllocError;
use std::sync::Arc;
use types_scopes::{Meaning, Signature};

/// What a function's name was declared to be before, in its block: nothing, a function, whose type
/// may be missing, and whether its body has been seen, or another thing.
#[derive(Drop)]
pub enum Earlier {
    Missing,
    Function {
        signature: Option<Arc<Signature>>,
        has_body: bool,
    },
    Other,
}

/// The same type, shared, where there is one.
pub(crate) fn share_signature(
    signature: &Option<Arc<Signature>>,
) -> Result<Option<Arc<Signature>>, AllocError>
    ensures { IfOk result (λ r. signature_in r ≡ signature_in signature.now) }
{
    match signature {
        Some(signature) => match Arc::try_clone(signature) {
            Ok(signature) => Ok(Some(signature)),
            Err(error) => Err(error),
        },
        None => Ok(None),
    }
}

fn by_meaning(meaning: &Meaning) -> Result<Earlier, AllocError>
    ensures repeated { IfOk result (λ r. (f : Option types.Signature) (at : ℕ)
        → declarations.repeated_faults (meaning_of_earlier r) f at
        ≡ declarations.repeated_faults (Some (meaning_of meaning.now)) f at) }
    ensures body { IfOk result (λ r. declarations.has_body (meaning_of_earlier r)
        ≡ declarations.has_body (Some (meaning_of meaning.now))) }
{
    match meaning {
        Meaning::Function {
            signature,
            has_body,
        } => match share_signature(signature) {
            Ok(signature) => Ok(Earlier::Function {
                signature,
                has_body: *has_body,
            }),
            Err(error) => Err(error),
        },
        Meaning::Automatic { .. } => Ok(Earlier::Other),
        Meaning::Static { .. } => Ok(Earlier::Other),
        Meaning::Borrowed { .. } => Ok(Earlier::Other),
        Meaning::Constant { .. } => Ok(Earlier::Other),
        Meaning::Typedef { .. } => Ok(Earlier::Other),
    }
}

/// By what the name means in its block.
pub(crate) fn declared_before(meaning: Option<&Meaning>) -> Result<Earlier, AllocError>
    ensures repeated { IfOk result (λ r. (f : Option types.Signature) (at : ℕ)
        → declarations.repeated_faults (meaning_of_earlier r) f at
        ≡ declarations.repeated_faults (option_map meaning_of (option_copied meaning.entry)) f at) }
    ensures body { IfOk result (λ r. declarations.has_body (meaning_of_earlier r)
        ≡ declarations.has_body (option_map meaning_of (option_copied meaning.entry))) }
{
    match meaning {
        Some(meaning) => by_meaning(meaning),
        None => Ok(Earlier::Missing),
    }
}

impl Earlier {
    /// Whether it is a function with a body.
    pub(crate) fn has_body(&self) -> bool
        ensures { result ≡ declarations.has_body (meaning_of_earlier self.now) }
    {
        match self {
            Earlier::Function { has_body, .. } => *has_body,
            Earlier::Missing => false,
            Earlier::Other => false,
        }
    }
}
