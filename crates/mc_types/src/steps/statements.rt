//! Statements of several parts (C17 6.8).
ghost use Rattle.std.specs.Prelude.{◌≡◌, IfOk, Ok, Option};
ghost use Rattle.mc_tree.specs.Tree as source_tree;
ghost use Rattle.mc_tree.specs.Units.{statement_of};
ghost use Rattle.mc_typed.specs.Tree.{Statements};
ghost use Rattle.types_rules.specs.Scopes as scopes;
ghost use Rattle.types_rules.specs.Values as values;
ghost use Rattle.types_rules.specs.Judgement as judgement;
ghost use Rattle.types_rules.specs.Statements as statement_rules;
ghost use Rattle.types_rules.specs.Bodies as bodies;
ghost use Rattle.types_scopes.specs.Blocks as blocks;
ghost use Rattle.types_scopes.specs.Views.{scope_of};
ghost use Rattle.types_scopes.specs.Found.{found_of, judged_of};
ghost use Rattle.types_scopes.specs.Statements.{statements_of};
ghost use Rattle.types_scopes.specs.steps.Squeezed.{squeezed, squeezed_part};
ghost use Rattle.mc_types.specs.Headings.{ArePartsOf};
ghost use Rattle.mc_types.specs.Loops.{FollowsItem, TakesItem};

use crate::unused;
use mc_tree as tree;
use mc_typed::{Effect, Expression, ForStart, Span, Statement};
use std::alloc::{AllocError, Global};
use types_scopes::found::{Found, Judged};
use types_scopes::{Block, Scope};

/// A compound statement (C17 6.8.2).
#[inline(never)]
pub(crate) fn compound(
    alloc: Global,
    span: Span,
    found: Result<Judged<Vec<Statement>>, AllocError>,
) -> Result<Judged<Vec<Statement>>, AllocError>
    ensures { (a : statement_rules.Around) (items : source_tree.BlockItems)
        (first last : scopes.Scope)
        → IfOk found (λ y. judged_of statements_of y last
        ≡ squeezed_part (statement_rules.closed first
        (bodies.judge_block (statement_rules.inside a) items
        (statement_rules.compound_scope a first))))
        → IfOk result (λ r. judged_of statements_of r last
        ≡ squeezed_part (bodies.judge_statement a (source_tree.Compound items span) first)) }
{
    match found {
        Ok(found) => types_statements::compound_statement(alloc, span, found),
        Err(error) => Err(error),
    }
}

/// `if` without `else` (C17 6.8.4.1).
#[inline(never)]
pub(crate) fn if_then(
    alloc: Global,
    span: Span,
    test: Found,
    chosen: Result<Judged<Vec<Statement>>, AllocError>,
) -> Result<Judged<Vec<Statement>>, AllocError>
    ensures { (a : statement_rules.Around) (e : source_tree.Expression)
        (one : source_tree.Statement) (first next last : scopes.Scope)
        → found_of test next ≡ squeezed (judgement.judge e first)
        → IfOk chosen (λ y. judged_of statements_of y last
        ≡ squeezed_part (statement_rules.closed next
        (bodies.judge_statement (statement_rules.inside a) one (scopes.block next))))
        → IfOk result (λ r. judged_of statements_of r last
        ≡ squeezed_part (bodies.judge_statement a (source_tree.If e one span) first)) }
{
    match chosen {
        Ok(chosen) => types_statements::if_statement(alloc, span, test, chosen),
        Err(error) => {
            unused::found(test);
            Err(error)
        }
    }
}

/// What is found of the parts of an `if` before `else`.
#[derive(Drop)]
pub(crate) struct Branch {
    pub(crate) test: Found,
    pub(crate) chosen: Judged<Vec<Statement>>,
}

/// The parts of an `if` before `else` together.
#[inline(never)]
pub(crate) fn tested(
    test: Found,
    chosen: Result<Judged<Vec<Statement>>, AllocError>,
) -> Result<Branch, AllocError>
    ensures test { IfOk result (λ r. r.test ≡ test) }
    ensures chosen { IfOk result (λ r. chosen ≡ Ok r.chosen) }
{
    match chosen {
        Ok(chosen) => Ok(Branch { test, chosen }),
        Err(error) => {
            unused::found(test);
            Err(error)
        }
    }
}

/// `if` with `else` (C17 6.8.4.1).
#[inline(never)]
pub(crate) fn if_else(
    alloc: Global,
    span: Span,
    tested: Branch,
    other: Result<Judged<Vec<Statement>>, AllocError>,
) -> Result<Judged<Vec<Statement>>, AllocError>
    ensures { (a : statement_rules.Around) (e : source_tree.Expression)
        (one two : source_tree.Statement)
        (first next last end : scopes.Scope)
        → found_of tested.test next ≡ squeezed (judgement.judge e first)
        → judged_of statements_of tested.chosen last ≡ squeezed_part (statement_rules.closed next
        (bodies.judge_statement (statement_rules.inside a) one (scopes.block next)))
        → IfOk other (λ y. judged_of statements_of y end
        ≡ squeezed_part (statement_rules.closed last
        (bodies.judge_statement (statement_rules.inside a) two (scopes.block last))))
        → IfOk result (λ r. judged_of statements_of r end
        ≡ squeezed_part (bodies.judge_statement a (source_tree.IfElse e one two span) first)) }
{
    match other {
        Ok(other) => {
            types_statements::if_else_statement(alloc, span, tested.test, tested.chosen, other)
        }
        Err(error) => {
            unused::found(tested.test);
            unused::statements(tested.chosen);
            Err(error)
        }
    }
}

/// `switch` (C17 6.8.4.2).
#[inline(never)]
pub(crate) fn switch_on(
    alloc: Global,
    span: Span,
    body: &tree::Statement<'_>,
    value: Found,
    found: Result<Judged<Vec<Statement>>, AllocError>,
) -> Result<Judged<Vec<Statement>>, AllocError>
    ensures { (a : statement_rules.Around) (e : source_tree.Expression)
        (first next last : scopes.Scope)
        → found_of value next ≡ squeezed (judgement.judge e first)
        → IfOk found (λ y. judged_of statements_of y last
        ≡ squeezed_part (statement_rules.closed next
        (bodies.judge_statement (statement_rules.in_switch a) (statement_of body.now)
        (statement_rules.switch_scope (found_of value next)))))
        → IfOk result (λ r. judged_of statements_of r last
        ≡ squeezed_part (bodies.judge_statement a
        (source_tree.Switch e (statement_of body.now) span) first)) }
{
    match found {
        Ok(found) => types_statements::switch_statement(alloc, span, body, value, found),
        Err(error) => {
            unused::found(value);
            Err(error)
        }
    }
}

/// `while` (C17 6.8.5.1).
#[inline(never)]
pub(crate) fn while_loop(
    alloc: Global,
    span: Span,
    test: Found,
    body: Result<Judged<Vec<Statement>>, AllocError>,
) -> Result<Judged<Vec<Statement>>, AllocError>
    ensures { (a : statement_rules.Around) (e : source_tree.Expression)
        (one : source_tree.Statement) (first next last : scopes.Scope)
        → found_of test next ≡ squeezed (judgement.judge e first)
        → IfOk body (λ y. judged_of statements_of y last
        ≡ squeezed_part (statement_rules.closed next
        (bodies.judge_statement (statement_rules.in_loop a) one (scopes.block next))))
        → IfOk result (λ r. judged_of statements_of r last
        ≡ squeezed_part (bodies.judge_statement a (source_tree.While e one span) first)) }
{
    match body {
        Ok(body) => {
            let test = types_statements::loop_test(span.start, test);
            let start = types_statements::no_start(alloc);
            let step = types_statements::no_clauses(alloc);
            types_statements::loop_statement(alloc, 5, span, start, test, step, body)
        }
        Err(error) => {
            unused::found(test);
            Err(error)
        }
    }
}

/// `do` (C17 6.8.5.2).
#[inline(never)]
pub(crate) fn do_loop(
    alloc: Global,
    span: Span,
    body: Judged<Vec<Statement>>,
    test: Result<Found, AllocError>,
) -> Result<Judged<Vec<Statement>>, AllocError>
    ensures { (a : statement_rules.Around) (e : source_tree.Expression)
        (one : source_tree.Statement) (first next last : scopes.Scope)
        → judged_of statements_of body next ≡ squeezed_part (statement_rules.closed first
        (bodies.judge_statement (statement_rules.in_loop a) one (scopes.block first)))
        → IfOk test (λ y. found_of y last ≡ squeezed (judgement.judge e next))
        → IfOk result (λ r. judged_of statements_of r last
        ≡ squeezed_part (bodies.judge_statement a (source_tree.DoWhile one e span) first)) }
{
    match test {
        Ok(test) => types_statements::do_statement(alloc, span, body, test),
        Err(error) => {
            unused::statements(body);
            Err(error)
        }
    }
}

/// What is found of the parts of a `for` before its body.
#[derive(Drop)]
pub(crate) struct ForHead {
    pub(crate) start: Judged<ForStart>,
    pub(crate) test: Judged<Option<Expression>>,
    pub(crate) step: Judged<Vec<Effect>>,
}

/// These, and what stands again after the loop.
#[derive(Drop)]
pub(crate) struct ForBegun {
    pub(crate) outer: Block,
    pub(crate) parts: ForHead,
}

/// `for` (C17 6.8.5.3).
#[inline(never)]
pub(crate) fn for_loop(
    alloc: Global,
    scope: &mut Scope<'_>,
    span: Span,
    heading: ForBegun,
    body: Result<Judged<Vec<Statement>>, AllocError>,
) -> Result<Judged<Vec<Statement>>, AllocError>
    ensures { (a : statement_rules.Around) (start : source_tree.ForStart)
        (test step : Option source_tree.Expression)
        (one : source_tree.Statement) (first next : scopes.Scope)
        → blocks.around_of heading.outer ≡ blocks.around first
        → ArePartsOf span.start start test step heading.parts (scopes.block first) next
        → IfOk body (λ y. judged_of statements_of y (scope_of scope.old) ≡ squeezed_part
        (statement_rules.closed next (bodies.judge_statement (statement_rules.in_loop a) one
        (scopes.block next))))
        → IfOk result (λ r. judged_of statements_of r (scope_of scope.new)
        ≡ squeezed_part (bodies.judge_statement a (source_tree.For start test step one span)
        first)) }
{
    match body {
        Ok(body) => {
            let parts = heading.parts;
            scope.leave(heading.outer);
            types_statements::loop_statement(
                alloc,
                3,
                span,
                parts.start,
                parts.test,
                parts.step,
                body,
            )
        }
        Err(error) => {
            drop(heading);
            Err(error)
        }
    }
}

/// Statements, and those after them.
#[inline(never)]
pub(crate) fn followed(
    list: Judged<Vec<Statement>>,
    rest: Result<Judged<Vec<Statement>>, AllocError>,
) -> Result<Judged<Vec<Statement>>, AllocError>
    ensures { (x : values.Judged Statements) (last : scopes.Scope)
        → IfOk rest (λ y. judged_of statements_of y last ≡ x)
        → IfOk result (λ r. judged_of statements_of r last
        ≡ squeezed_part (statement_rules.followed_judged (judged_of statements_of list last) x)) }
{
    match rest {
        Ok(rest) => types_statements::followed(list, rest),
        Err(error) => {
            unused::statements(list);
            Err(error)
        }
    }
}

/// Statements of a block, and those of the next item.
#[inline(never)]
pub(crate) fn with_item(
    list: Judged<Vec<Statement>>,
    one: Result<Judged<Vec<Statement>>, AllocError>,
) -> Result<Judged<Vec<Statement>>, AllocError>
    ensures { (a : statement_rules.Around) (f : source_tree.BlockItems → source_tree.BlockItems)
        (first last : scopes.Scope)
        → IfOk one (λ y. TakesItem a f first y last)
        → IfOk result (λ r. FollowsItem a f list first r last) }
{
    match one {
        Ok(one) => types_statements::followed(list, one),
        Err(error) => {
            unused::statements(list);
            Err(error)
        }
    }
}
