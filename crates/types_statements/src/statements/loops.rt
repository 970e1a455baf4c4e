//! Iteration statements (C17 6.8.5).
ghost use Rattle.std.specs.Prelude.{◌≡◌, Some, IfOk, option_map};
ghost use Rattle.mc_typed.specs.Tree as typed;
ghost use Rattle.mc_typed.specs.Views.{expression_of, start_of};
ghost use Rattle.types_rules.specs.Scopes as scopes;
ghost use Rattle.types_rules.specs.Values.{lift2};
ghost use Rattle.types_rules.specs.Statements as statement_rules;
ghost use Rattle.types_scopes.specs.Found.{found_of, judged_of};
ghost use Rattle.types_scopes.specs.Statements.{statements_of, effects_of, declarators_of, test_of};
ghost use Rattle.types_scopes.specs.steps.Squeezed.{squeezed_part};
ghost use Rattle.types_statements.specs.Lists.{boxed_of};

use crate::statements::lists::{first_word, listed, only_boxed};
use mc_typed::{Declarator, Effect, Expression, ForStart, Span, Statement};
use std::alloc::{AllocError, Global};
use types_faults::{FaultKind, or_fault, two_or_fault};
use types_scopes::found::{Found, Judged, fails_integer, number_in};
use types_scopes::joined;
use types_scopes::lists::{unused, unused_inner};

fn test_found(number: Option<Expression>) -> Option<Option<Expression>>
    ensures { option_map test_of result ≡ option_map Some (option_map expression_of number) }
{
    match number {
        Some(number) => Some(Some(number)),
        None => None,
    }
}

/// The controlling expression of a loop that starts here.
pub fn loop_test(at: u32, test: Found) -> Judged<Option<Expression>>
    ensures { (s : scopes.Scope) → judged_of test_of result s
        ≡ squeezed_part (statement_rules.test_judged at (found_of test s)) }
{
    let wrong = fails_integer(&test.value);
    let fault = or_fault(test.fault, wrong, FaultKind::Mismatch, at);
    let value = test_found(number_in(test.value));
    Judged { fault, value }
}

fn do_alone(
    alloc: Global,
    span: Span,
    body: Box<Statement>,
    test: Expression,
) -> Result<Option<Vec<Statement>>, AllocError>
    ensures { IfOk result (λ r. option_map statements_of r ≡ Some (statement_rules.alone
        (typed.DoWhile (boxed_of body) (expression_of test) (statement_rules.keyword 2 span)
        span))) }
{
    let keyword = first_word(2, span);
    listed(
        alloc,
        Statement::DoWhile {
            body,
            test,
            keyword,
            span,
            bit: None,
        },
    )
}

fn do_of(
    alloc: Global,
    span: Span,
    body: Option<Box<Statement>>,
    test: Option<Expression>,
) -> Result<Option<Vec<Statement>>, AllocError>
    ensures { IfOk result (λ r. option_map statements_of r
        ≡ lift2 (λ one e. statement_rules.alone
        (typed.DoWhile one e (statement_rules.keyword 2 span) span))
        (option_map boxed_of body) (option_map expression_of test)) }
{
    match body {
        Some(body) => match test {
            Some(test) => do_alone(alloc, span, body, test),
            None => {
                drop(body);
                Ok(None)
            }
        },
        None => {
            unused(test);
            Ok(None)
        }
    }
}

/// A `do` loop.
pub fn do_statement(
    alloc: Global,
    span: Span,
    body: Judged<Vec<Statement>>,
    test: Found,
) -> Result<Judged<Vec<Statement>>, AllocError>
    ensures { IfOk result (λ r. (s : scopes.Scope) → judged_of statements_of r s
        ≡ squeezed_part (statement_rules.do_judged span (judged_of statements_of body s)
        (found_of test s))) }
{
    let wrong = fails_integer(&test.value);
    let fault = two_or_fault(
        body.fault,
        test.fault,
        wrong,
        FaultKind::Mismatch,
        span.start,
    );
    let number = number_in(test.value);
    let Ok(body) = only_boxed(alloc, body.value) else {
        unused(number);
        return Err(AllocError);
    };
    match do_of(alloc, span, body, number) {
        Ok(value) => Ok(Judged { fault, value }),
        Err(error) => Err(error),
    }
}

fn start_with_effects(effects: Option<Vec<Effect>>) -> Option<ForStart>
    ensures { option_map start_of result
        ≡ option_map typed.StartEffects (option_map effects_of effects) }
{
    match effects {
        Some(effects) => Some(ForStart::Effects { effects }),
        None => None,
    }
}

/// The first part of a `for`, from its clauses.
pub fn effects_start(effects: Judged<Vec<Effect>>) -> Judged<ForStart>
    ensures { (s : scopes.Scope) → judged_of start_of result s
        ≡ squeezed_part (statement_rules.effects_start (judged_of effects_of effects s)) }
{
    let fault = joined::of_one(effects.fault);
    let value = start_with_effects(effects.value);
    Judged { fault, value }
}

fn start_with_declarators(declarators: Option<Vec<Declarator>>) -> Option<ForStart>
    ensures { option_map start_of result
        ≡ option_map typed.StartDeclaration (option_map declarators_of declarators) }
{
    match declarators {
        Some(declarators) => Some(ForStart::Declaration { declarators }),
        None => None,
    }
}

/// The first part of a `for`, from its declaration.
pub fn declaration_start(declarators: Judged<Vec<Declarator>>) -> Judged<ForStart>
    ensures { (s : scopes.Scope) → judged_of start_of result s
        ≡ squeezed_part (statement_rules.declaration_start
        (judged_of declarators_of declarators s)) }
{
    let fault = joined::of_one(declarators.fault);
    let value = start_with_declarators(declarators.value);
    Judged { fault, value }
}

/// The parts of a loop before its body.
#[derive(Drop)]
struct Head {
    start: ForStart,
    test: Option<Expression>,
    step: Vec<Effect>,
}

fn loop_alone(
    alloc: Global,
    size: u32,
    span: Span,
    head: Head,
    body: Box<Statement>,
) -> Result<Option<Vec<Statement>>, AllocError>
    ensures { IfOk result (λ r. option_map statements_of r ≡ Some (statement_rules.loop size span
        (start_of head.start) (test_of head.test) (effects_of head.step) (boxed_of body))) }
{
    let keyword = first_word(size, span);
    listed(
        alloc,
        Statement::For {
            start: head.start,
            test: head.test,
            step: head.step,
            body,
            keyword,
            span,
            bit: None,
        },
    )
}

fn loop_of(
    alloc: Global,
    size: u32,
    span: Span,
    start: Option<ForStart>,
    test: Option<Option<Expression>>,
    step: Option<Vec<Effect>>,
    body: Option<Box<Statement>>,
) -> Result<Option<Vec<Statement>>, AllocError>
    ensures { IfOk result (λ r. option_map statements_of r
        ≡ statement_rules.lift4 (statement_rules.loop size span)
        (option_map start_of start) (option_map test_of test) (option_map effects_of step)
        (option_map boxed_of body)) }
{
    match start {
        Some(start) => match test {
            Some(test) => match step {
                Some(step) => match body {
                    Some(body) => {
                        let head = Head { start, test, step };
                        loop_alone(alloc, size, span, head, body)
                    }
                    None => {
                        drop(start);
                        unused(test);
                        drop(step);
                        Ok(None)
                    }
                },
                None => {
                    drop(start);
                    unused(test);
                    unused(body);
                    Ok(None)
                }
            },
            None => {
                drop(start);
                unused(step);
                unused(body);
                Ok(None)
            }
        },
        None => {
            unused_inner(test);
            unused(step);
            unused(body);
            Ok(None)
        }
    }
}

/// A `for`, and a `while`, which has nothing but a test: its word has so many bytes.
pub fn loop_statement(
    alloc: Global,
    size: u32,
    span: Span,
    start: Judged<ForStart>,
    test: Judged<Option<Expression>>,
    step: Judged<Vec<Effect>>,
    body: Judged<Vec<Statement>>,
) -> Result<Judged<Vec<Statement>>, AllocError>
    ensures { IfOk result (λ r. (s : scopes.Scope) → judged_of statements_of r s
        ≡ squeezed_part (statement_rules.loop_judged size span (judged_of start_of start s)
        (judged_of test_of test s) (judged_of effects_of step s)
        (judged_of statements_of body s))) }
{
    let fault = joined::of_four(start.fault, test.fault, step.fault, body.fault);
    let Ok(body) = only_boxed(alloc, body.value) else {
        unused(start.value);
        unused_inner(test.value);
        unused(step.value);
        return Err(AllocError);
    };
    match loop_of(alloc, size, span, start.value, test.value, step.value, body) {
        Ok(value) => Ok(Judged { fault, value }),
        Err(error) => Err(error),
    }
}
