//! Compound statements, local declarations and expression statements (C17 6.8.2, 6.8.3).
ghost use Rattle.std.specs.Prelude.{◌≡◌, [], ◌∷◌, ◌++◌, None, Some, IfOk, option_map};
ghost use Rattle.mc_typed.specs.Tree as typed;
ghost use Rattle.mc_typed.specs.Views.{effect_of, statement_of};
ghost use Rattle.types_faults.specs.declared.fault.FaultKind.TheVariants.{Mismatch};
ghost use Rattle.types_faults.specs.Faults.{fault, least_of};
ghost use Rattle.types_rules.specs.Scopes as scopes;
ghost use Rattle.types_rules.specs.Values.{judged};
ghost use Rattle.types_rules.specs.Statements as statement_rules;
ghost use Rattle.types_scopes.specs.Found.{judged_of};
ghost use Rattle.types_scopes.specs.Statements.{statements_of, declarators_of};
ghost use Rattle.types_faults.specs.Kept.{listed};
ghost use Rattle.types_scopes.specs.steps.Squeezed.{squeezed_part};

use crate::statements::lists::listed;
use mc_typed::{Declarator, Effect, Span, Statement};
use std::alloc::{AllocError, Global};
use types_faults::{Fault, FaultKind, lesser};
use types_scopes::found::Judged;
use types_scopes::joined;
use types_scopes::leaves::leaf;
use types_scopes::lists::unused;

fn compound_of(
    alloc: Global,
    span: Span,
    items: Option<Vec<Statement>>,
) -> Result<Option<Vec<Statement>>, AllocError>
    ensures { IfOk result (λ r. option_map statements_of r
        ≡ option_map (λ items. statement_rules.alone (typed.Compound items span))
        (option_map statements_of items)) }
{
    match items {
        Some(items) => listed(alloc, Statement::Compound { items, span }),
        None => Ok(None),
    }
}

/// A compound statement.
pub fn compound_statement(
    alloc: Global,
    span: Span,
    items: Judged<Vec<Statement>>,
) -> Result<Judged<Vec<Statement>>, AllocError>
    ensures { IfOk result (λ r. (s : scopes.Scope) → judged_of statements_of r s
        ≡ squeezed_part (statement_rules.compound_judged span (judged_of statements_of items s))) }
{
    let fault = joined::of_one(items.fault);
    match compound_of(alloc, span, items.value) {
        Ok(value) => Ok(Judged { fault, value }),
        Err(error) => Err(error),
    }
}

fn declaration_of(
    alloc: Global,
    span: Span,
    declarators: Option<Vec<Declarator>>,
) -> Result<Option<Vec<Statement>>, AllocError>
    ensures { IfOk result (λ r. option_map statements_of r
        ≡ option_map (λ ds. statement_rules.alone (typed.Declaration ds span))
        (option_map declarators_of declarators)) }
{
    match declarators {
        Some(declarators) => listed(
            alloc,
            Statement::Declaration {
                declarators,
                span,
                bit: None,
            },
        ),
        None => Ok(None),
    }
}

/// A local declaration.
pub fn declaration_statement(
    alloc: Global,
    span: Span,
    declarators: Judged<Vec<Declarator>>,
) -> Result<Judged<Vec<Statement>>, AllocError>
    ensures { IfOk result (λ r. (s : scopes.Scope) → judged_of statements_of r s
        ≡ squeezed_part (statement_rules.declaration_judged span
        (judged_of declarators_of declarators s))) }
{
    let fault = joined::of_one(declarators.fault);
    match declaration_of(alloc, span, declarators.value) {
        Ok(value) => Ok(Judged { fault, value }),
        Err(error) => Err(error),
    }
}

fn effect_statement_of(
    alloc: Global,
    span: Span,
    effect: Option<Effect>,
) -> Result<Option<Vec<Statement>>, AllocError>
    ensures { IfOk result (λ r. option_map statements_of r
        ≡ option_map (λ effect. statement_rules.alone (typed.EffectStatement effect span))
        (option_map effect_of effect)) }
{
    match effect {
        Some(effect) => listed(
            alloc,
            Statement::Effect {
                effect,
                span,
                bit: None,
            },
        ),
        None => Ok(None),
    }
}

/// An expression statement.
pub fn effect_statement(
    alloc: Global,
    span: Span,
    effect: Judged<Effect>,
) -> Result<Judged<Vec<Statement>>, AllocError>
    ensures { IfOk result (λ r. (s : scopes.Scope) → judged_of statements_of r s
        ≡ squeezed_part (statement_rules.effect_statement_judged span
        (judged_of effect_of effect s))) }
{
    let fault = joined::of_one(effect.fault);
    match effect_statement_of(alloc, span, effect.value) {
        Ok(value) => Ok(Judged { fault, value }),
        Err(error) => Err(error),
    }
}

/// A null statement.
pub fn null_statement(alloc: Global, span: Span) -> Result<Judged<Vec<Statement>>, AllocError>
    ensures { IfOk result (λ r. (s : scopes.Scope) → judged_of statements_of r s
        ≡ squeezed_part (statement_rules.leaf [] (typed.Null span) s)) }
{
    leaf(alloc, None, Statement::Null { span, bit: None })
}

/// No statements. Takes no memory.
pub fn no_statements(alloc: Global) -> Judged<Vec<Statement>>
    ensures { (s : scopes.Scope) → judged_of statements_of result s
        ≡ judged [] (Some typed.no_statements) s }
{
    Judged {
        fault: None,
        value: Some(Vec::new(alloc)),
    }
}

// The first of a fault and one that may be there.
fn first_of(fault: Fault, rest: Option<Fault>) -> Option<Fault>
    ensures { result ≡ least_of (fault ∷ listed rest) }
{
    match rest {
        Some(other) => lesser(Some(fault), Some(other)),
        None => Some(fault),
    }
}

/// A statement with an ordinary label, which is an outside form.
pub fn named_label(span: Span, body: Judged<Vec<Statement>>) -> Judged<Vec<Statement>>
    ensures { (s : scopes.Scope) → judged_of statements_of result s
        ≡ squeezed_part (judged
        (fault Mismatch span.start ++ (judged_of statements_of body s).faults) None s) }
{
    let fault = Fault {
        kind: FaultKind::Mismatch,
        at: span.start,
    };
    let first = first_of(fault, body.fault);
    unused(body.value);
    Judged {
        fault: first,
        value: None,
    }
}

/// A `goto`, which is an outside form.
pub fn goto_statement(span: Span) -> Judged<Vec<Statement>>
    ensures { (s : scopes.Scope) → judged_of statements_of result s
        ≡ judged (fault Mismatch span.start) None s }
{
    let fault = Fault {
        kind: FaultKind::Mismatch,
        at: span.start,
    };
    Judged {
        fault: Some(fault),
        value: None,
    }
}
