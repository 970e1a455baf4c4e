//! What a call names (C17 6.5.2.2p1).
ghost use Rattle.std.specs.Prelude.{◌≡◌, ℕ, map, IfOk, Some, option_map, option_copied};
ghost use Rattle.mc_span.specs.declared.span.Span.{Span};
ghost use Rattle.mc_tree.specs.Tree.{Name};
ghost use Rattle.mc_typed.specs.Tree.{Arguments};
ghost use Rattle.types_rules.specs.Calls as calls;
ghost use Rattle.types_scopes.specs.Types.{kind_of};
ghost use Rattle.types_scopes.specs.Views.{meaning_of};
ghost use Rattle.types_expressions.specs.steps.Callees.{meaning_of_callee};

use std::alloc::AllocError;
use std::sync::Arc;
use types_scopes::{Meaning, ParameterKind, Signature};

/// What a call names: nothing that is declared, a function, whose type may be missing, or another
/// thing.
#[derive(Drop)]
pub enum Callee {
    Missing,
    Function(Option<Arc<Signature>>),
    Other,
}

impl Callee {
    /// What its parameters take, where that is known. Takes no memory.
    pub fn parameters(&self) -> &[ParameterKind]
        ensures { map kind_of result.now ≡ calls.parameters_of (meaning_of_callee self.now) }
    {
        match self {
            Callee::Function(signature) => match signature {
                Some(signature) => &signature.parameters,
                None => &[],
            },
            Callee::Missing => &[],
            Callee::Other => &[],
        }
    }
}

fn callee_of(meaning: &Meaning) -> Result<Callee, AllocError>
    ensures parameters { IfOk result (λ r. calls.parameters_of (meaning_of_callee r)
        ≡ calls.parameters_of (Some (meaning_of meaning.now))) }
    ensures found { IfOk result (λ r. (name : Name) (count : ℕ) (span : Span)
        (x : calls.Given Arguments) → calls.call_found name count span (meaning_of_callee r) x
        ≡ calls.call_found name count span (Some (meaning_of meaning.now)) x) }
{
    match meaning {
        Meaning::Function { signature, .. } => match signature {
            Some(signature) => Ok(Callee::Function(Some(Arc::try_clone(signature)?))),
            None => Ok(Callee::Function(None)),
        },
        Meaning::Automatic { .. } => Ok(Callee::Other),
        Meaning::Static { .. } => Ok(Callee::Other),
        Meaning::Borrowed { .. } => Ok(Callee::Other),
        Meaning::Constant { .. } => Ok(Callee::Other),
        Meaning::Typedef { .. } => Ok(Callee::Other),
    }
}

/// What is called, by what its name means.
pub fn callee_named(meaning: Option<&Meaning>) -> Result<Callee, AllocError>
    ensures parameters { IfOk result (λ r. calls.parameters_of (meaning_of_callee r)
        ≡ calls.parameters_of (option_map meaning_of (option_copied meaning.entry))) }
    ensures found { IfOk result (λ r. (name : Name) (count : ℕ) (span : Span)
        (x : calls.Given Arguments) → calls.call_found name count span (meaning_of_callee r) x
        ≡ calls.call_found name count span (option_map meaning_of (option_copied meaning.entry))
        x) }
{
    match meaning {
        Some(meaning) => callee_of(meaning),
        None => Ok(Callee::Missing),
    }
}
