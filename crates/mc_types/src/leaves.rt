//! Nodes without parts.
ghost use Rattle.std.specs.Prelude.{◌≡◌, ℕ, IfOk};
ghost use Rattle.mc_span.specs.declared.span.Span.{Span};
ghost use Rattle.mc_tree.specs.Tree.{Name};
ghost use Rattle.mc_tree.specs.Views.{name_of};
ghost use Rattle.mc_typed.specs.Tree.{Arguments};
ghost use Rattle.types_rules.specs.Scopes as scopes;
ghost use Rattle.types_rules.specs.Expressions as expressions;
ghost use Rattle.types_rules.specs.Calls as calls;
ghost use Rattle.types_scopes.specs.Views.{scope_of};
ghost use Rattle.types_scopes.specs.Found.{found_of};
ghost use Rattle.types_scopes.specs.steps.Squeezed.{squeezed};
ghost use Rattle.types_expressions.specs.steps.Callees.{meaning_of_callee};

use mc_tree::Identifier;
use mc_typed::Span;
use std::alloc::AllocError;
use types_expressions::Callee;
use types_scopes::Scope;
use types_scopes::found::Found;

/// A name, by what it means here (C17 6.5.1).
pub(crate) fn named(scope: &Scope<'_>, name: &Identifier<'_>) -> Result<Found, AllocError>
    ensures { IfOk result (λ r. found_of r (scope_of scope.now)
        ≡ squeezed (expressions.name_found (name_of name.now) (scope_of scope.now))) }
{
    types_expressions::name(name.span, scope.meaning(name))
}

/// What a call names (C17 6.5.2.2p1).
pub(crate) fn callee(scope: &Scope<'_>, name: &Identifier<'_>) -> Result<Callee, AllocError>
    ensures parameters { IfOk result (λ r. calls.parameters_of (meaning_of_callee r)
        ≡ calls.parameters_of (scopes.meaning_of (name_of name.now) (scope_of scope.now))) }
    ensures found { IfOk result (λ r. (n : Name) (count : ℕ) (span : Span)
        (x : calls.Given Arguments) → calls.call_found n count span (meaning_of_callee r) x
        ≡ calls.call_found n count span
        (scopes.meaning_of (name_of name.now) (scope_of scope.now)) x) }
{
    types_expressions::callee_named(scope.meaning(name))
}

/// A character constant (C17 6.4.4.4). Takes no memory.
pub(crate) fn character(value: &i32, span: Span) -> Found
    ensures { (s : scopes.Scope) → found_of result s
        ≡ squeezed (expressions.character_literal value.now span s) }
{
    types_expressions::character(*value, span)
}
