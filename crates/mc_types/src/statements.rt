//! Statements (C17 6.8).
//!
//! Where a part may fail after another was found, the found one is handed on with the part's result
//! (`steps`): an exit that lets it go here would make the proof of the walk twice as long.
ghost use Rattle.std.specs.Prelude.{◌≡◌, IfOk, map, option_copied, option_map};
ghost use Rattle.mc_tree.specs.Tree as source_tree;
ghost use Rattle.mc_tree.specs.Units as units;
ghost use Rattle.mc_tree.specs.Views.{expression_of, expressions_from};
ghost use Rattle.mc_typed.specs.Views.{effect_of, start_of};
ghost use Rattle.types_rules.specs.Scopes as scopes;
ghost use Rattle.types_rules.specs.Judgement as judgement;
ghost use Rattle.types_rules.specs.Statements as statement_rules;
ghost use Rattle.types_rules.specs.Bodies as bodies;
ghost use Rattle.types_scopes.specs.Blocks as blocks;
ghost use Rattle.types_scopes.specs.Views.{scope_of};
ghost use Rattle.types_scopes.specs.Found.{judged_of};
ghost use Rattle.types_scopes.specs.Statements.{around_of, effects_of, statements_of, test_of};
ghost use Rattle.types_scopes.specs.steps.Squeezed.{squeezed_part};
ghost use Rattle.mc_types.specs.Loops.{TakesItem};
ghost use Rattle.mc_types.specs.Operands.{operands_in};
ghost use Rattle.mc_types.specs.Headings.{ArePartsOf};

use crate::declarations::declaration;
use crate::expressions::expression;
use crate::steps::statements as steps;
use crate::steps::statements::{ForBegun, ForHead};
use mc_tree::{BlockItem, Expression, ForStart, Statement};
use mc_typed as typed;
use mc_typed::{Effect, Span};
use std::alloc::{AllocError, Global};
use types_scopes::Scope;
use types_scopes::around::Around;
use types_scopes::found::Judged;

/// A statement, as a list of one, or of more where labels stand before it. Those without statements
/// in them that come most often are told apart first, as names are among expressions.
#[cycle(statements)]
pub(crate) fn statement<'a>(
    alloc: Global,
    scope: &mut Scope<'a>,
    around: Around,
    tree: &Statement<'a>,
) -> Result<Judged<Vec<typed::Statement>>, AllocError>
    ensures { IfOk result (λ r. judged_of statements_of r (scope_of scope.new)
        ≡ squeezed_part (bodies.judge_statement (around_of around) (units.statement_of tree.now)
        (scope_of scope.old))) }
{
    match tree {
        Statement::Null { span } => types_statements::null_statement(alloc, *span),
        Statement::Expression { value, span } => expression_statement(alloc, scope, value, *span),
        Statement::Compound { .. }
        | Statement::If { .. }
        | Statement::IfElse { .. }
        | Statement::Switch { .. }
        | Statement::While { .. }
        | Statement::DoWhile { .. }
        | Statement::For { .. }
        | Statement::Case { .. }
        | Statement::Default { .. }
        | Statement::Label { .. }
        | Statement::Goto { .. }
        | Statement::Break { .. }
        | Statement::Continue { .. }
        | Statement::Return { .. } => any_statement(alloc, scope, around, tree),
    }
}

/// A statement of any kind.
#[cycle(statements)]
#[inline(never)]
fn any_statement<'a>(
    alloc: Global,
    scope: &mut Scope<'a>,
    around: Around,
    tree: &Statement<'a>,
) -> Result<Judged<Vec<typed::Statement>>, AllocError>
    ensures { IfOk result (λ r. judged_of statements_of r (scope_of scope.new)
        ≡ squeezed_part (bodies.judge_statement (around_of around) (units.statement_of tree.now)
        (scope_of scope.old))) }
{
    match tree {
        Statement::Compound { items, span } => {
            let outer = types_statements::enter_compound(scope, around)?;
            let found = block(alloc, scope, around.inside(), items);
            scope.leave(outer);
            steps::compound(alloc, *span, found)
        }
        Statement::Null { span } => types_statements::null_statement(alloc, *span),
        Statement::Expression { value, span } => expression_statement(alloc, scope, value, *span),
        Statement::If { test, chosen, span } => {
            let test = expression(alloc, scope, test)?;
            let chosen = inner(alloc, scope, around.inside(), chosen);
            steps::if_then(alloc, *span, test, chosen)
        }
        Statement::IfElse {
            test,
            chosen,
            other,
            span,
        } => {
            let test = expression(alloc, scope, test)?;
            let chosen = inner(alloc, scope, around.inside(), chosen);
            let tested = steps::tested(test, chosen)?;
            let other = inner(alloc, scope, around.inside(), other);
            steps::if_else(alloc, *span, tested, other)
        }
        Statement::Switch { value, body, span } => {
            let value = expression(alloc, scope, value)?;
            let outer = types_statements::enter_switch(alloc, scope, &value);
            let found = statement(alloc, scope, around.in_switch(), body);
            scope.leave(outer);
            steps::switch_on(alloc, *span, body, value, found)
        }
        Statement::While { test, body, span } => {
            let test = expression(alloc, scope, test)?;
            let body = inner(alloc, scope, around.in_loop(), body);
            steps::while_loop(alloc, *span, test, body)
        }
        Statement::DoWhile { body, test, span } => {
            let body = inner(alloc, scope, around.in_loop(), body)?;
            let test = expression(alloc, scope, test);
            steps::do_loop(alloc, *span, body, test)
        }
        Statement::For {
            start,
            test,
            step,
            body,
            span,
        } => {
            let heading = for_heading(alloc, scope, span.start, start, test, step)?;
            let body = inner(alloc, scope, around.in_loop(), body);
            steps::for_loop(alloc, scope, *span, heading, body)
        }
        Statement::Case {
            value,
            label,
            body,
            ..
        } => {
            let first = case_label(alloc, scope, value, *label)?;
            let rest = statement(alloc, scope, around.inside(), body);
            steps::followed(first, rest)
        }
        Statement::Default { label, body, .. } => {
            let first = types_jumps::default_label(alloc, scope, *label)?;
            let rest = statement(alloc, scope, around.inside(), body);
            steps::followed(first, rest)
        }
        Statement::Label { body, span, .. } => {
            match statement(alloc, scope, around.inside(), body) {
                Ok(found) => Ok(types_statements::named_label(*span, found)),
                Err(error) => Err(error),
            }
        }
        Statement::Goto { span, .. } => Ok(types_statements::goto_statement(*span)),
        Statement::Break { span } => types_jumps::break_statement(alloc, around, *span),
        Statement::Continue { span } => types_jumps::continue_statement(alloc, around, *span),
        Statement::Return { value, span } => return_statement(alloc, scope, around, value, *span),
    }
}

/// A statement that is a block of its own (C17 6.8.4p3, 6.8.5p5).
#[cycle(statements)]
fn inner<'a>(
    alloc: Global,
    scope: &mut Scope<'a>,
    around: Around,
    tree: &Statement<'a>,
) -> Result<Judged<Vec<typed::Statement>>, AllocError>
    ensures { IfOk result (λ r. judged_of statements_of r (scope_of scope.new)
        ≡ squeezed_part (statement_rules.closed (scope_of scope.old)
        (bodies.judge_statement (around_of around)
        (units.statement_of tree.now) (scopes.block (scope_of scope.old))))) }
{
    let outer = scope.enter(None);
    let found = statement(alloc, scope, around, tree);
    scope.leave(outer);
    found
}

/// The items of a block (C17 6.8.2).
#[cycle(statements)]
pub(crate) fn block<'a>(
    alloc: Global,
    scope: &mut Scope<'a>,
    around: Around,
    trees: &[BlockItem<'a>],
) -> Result<Judged<Vec<typed::Statement>>, AllocError>
    ensures { IfOk result (λ r. judged_of statements_of r (scope_of scope.new)
        ≡ squeezed_part (bodies.judge_block (around_of around)
        (units.block_from (map units.block_item_of trees.now)) (scope_of scope.old))) }
{
    let mut list = types_statements::no_statements(alloc);
    for tree in trees {
        let one = block_item(alloc, scope, around, tree);
        list = steps::with_item(list, one)?;
    }
    Ok(list)
}

/// A local declaration or a statement.
#[cycle(statements)]
fn block_item<'a>(
    alloc: Global,
    scope: &mut Scope<'a>,
    around: Around,
    tree: &BlockItem<'a>,
) -> Result<Judged<Vec<typed::Statement>>, AllocError>
    ensures { IfOk result (λ r. TakesItem (around_of around) (units.block_item_of tree.now)
        (scope_of scope.old) r (scope_of scope.new)) }
{
    match tree {
        BlockItem::Local { declaration: local } => match declaration(alloc, scope, local) {
            Ok(found) => types_statements::declaration_statement(alloc, local.span, found),
            Err(error) => Err(error),
        },
        BlockItem::Statement { statement: one } => statement(alloc, scope, around, one),
    }
}

// ---- statements without statements in them, and labels

/// An expression statement (C17 6.8.3).
#[inline(never)]
fn expression_statement<'a>(
    alloc: Global,
    scope: &mut Scope<'a>,
    tree: &Expression<'a>,
    span: Span,
) -> Result<Judged<Vec<typed::Statement>>, AllocError>
    ensures { (a : statement_rules.Around)
        → IfOk result (λ r. judged_of statements_of r (scope_of scope.new)
        ≡ squeezed_part (bodies.judge_statement a
        (source_tree.ExpressionStatement (expression_of tree.now) span) (scope_of scope.old))) }
{
    match effect(alloc, scope, tree) {
        Ok(found) => types_statements::effect_statement(alloc, span, found),
        Err(error) => Err(error),
    }
}

/// The label of a `case` with this value (C17 6.8.1).
#[inline(never)]
fn case_label<'a>(
    alloc: Global,
    scope: &mut Scope<'a>,
    tree: &Expression<'a>,
    label: Span,
) -> Result<Judged<Vec<typed::Statement>>, AllocError>
    ensures { let e = expression_of tree.now in
        IfOk result (λ r. judged_of statements_of r (scope_of scope.new) ≡ squeezed_part
        (statement_rules.case_judged label (source_tree.span_of e).start
        (judgement.judge e (scope_of scope.old)))) }
{
    match expression(alloc, scope, tree) {
        Ok(found) => types_jumps::case_label(alloc, scope, label, tree.span().start, found),
        Err(error) => Err(error),
    }
}

/// A `return` statement (C17 6.8.6.4).
#[inline(never)]
fn return_statement<'a>(
    alloc: Global,
    scope: &mut Scope<'a>,
    around: Around,
    value: &Option<Box<Expression<'a>>>,
    span: Span,
) -> Result<Judged<Vec<typed::Statement>>, AllocError>
    ensures { IfOk result (λ r. judged_of statements_of r (scope_of scope.new)
        ≡ squeezed_part (bodies.judge_statement (around_of around)
        (source_tree.Return (units.option_of value.now) span) (scope_of scope.old))) }
{
    match value {
        Some(tree) => match expression(alloc, scope, tree) {
            Ok(found) => types_jumps::return_statement(alloc, scope, around.result, span, found),
            Err(error) => Err(error),
        },
        None => types_jumps::return_nothing(alloc, around.result, span),
    }
}

// ---- parts of statements

/// A whole expression statement or a clause of a `for`.
fn effect<'a>(
    alloc: Global,
    scope: &mut Scope<'a>,
    tree: &Expression<'a>,
) -> Result<Judged<Effect>, AllocError>
    ensures { IfOk result (λ r. judged_of effect_of r (scope_of scope.new)
        ≡ squeezed_part (bodies.judge_effect (expression_of tree.now) (scope_of scope.old))) }
{
    match expression(alloc, scope, tree) {
        Ok(found) => Ok(types_statements::effect(tree, found)),
        Err(error) => Err(error),
    }
}

/// The clauses of a `for`.
#[inline(never)]
fn clauses<'a>(
    alloc: Global,
    scope: &mut Scope<'a>,
    trees: &[Expression<'a>],
) -> Result<Judged<Vec<Effect>>, AllocError>
    ensures { IfOk result (λ r. judged_of effects_of r (scope_of scope.new)
        ≡ squeezed_part (bodies.judge_clauses (expressions_from (map expression_of trees.now))
        (scope_of scope.old))) }
{
    let mut list = types_statements::no_clauses(alloc);
    for tree in trees {
        let found = effect(alloc, scope, tree)?;
        let one = types_statements::clause(alloc, found)?;
        list = types_statements::more_clauses(list, one)?;
    }
    Ok(list)
}

/// The operands of a comma operator, where the expression is one. Takes no memory.
fn operands<'t, 'a>(tree: &'t Expression<'a>) -> Option<&'t [Expression<'a>]>
    ensures { option_map (λ all. expressions_from (map expression_of all)) (option_copied result)
        ≡ operands_in (expression_of tree.now) }
{
    match tree {
        Expression::Comma { operands, .. } => Some(operands),
        Expression::Parenthesized { .. }
        | Expression::Name { .. }
        | Expression::Constant { .. }
        | Expression::Character { .. }
        | Expression::Call { .. }
        | Expression::Index { .. }
        | Expression::Member { .. }
        | Expression::PostfixStep { .. }
        | Expression::PrefixStep { .. }
        | Expression::Unary { .. }
        | Expression::Cast { .. }
        | Expression::Binary { .. }
        | Expression::Conditional { .. }
        | Expression::Assignment { .. } => None,
    }
}

/// The first or third part of a `for`.
fn part<'a>(
    alloc: Global,
    scope: &mut Scope<'a>,
    tree: &Expression<'a>,
) -> Result<Judged<Vec<Effect>>, AllocError>
    ensures { IfOk result (λ r. judged_of effects_of r (scope_of scope.new)
        ≡ squeezed_part (bodies.judge_part (expression_of tree.now) (scope_of scope.old))) }
{
    match operands(tree) {
        Some(all) => clauses(alloc, scope, all),
        None => match effect(alloc, scope, tree) {
            Ok(found) => types_statements::clause(alloc, found),
            Err(error) => Err(error),
        },
    }
}

fn optional_part<'a>(
    alloc: Global,
    scope: &mut Scope<'a>,
    tree: &Option<Box<Expression<'a>>>,
) -> Result<Judged<Vec<Effect>>, AllocError>
    ensures { IfOk result (λ r. judged_of effects_of r (scope_of scope.new)
        ≡ squeezed_part (bodies.judge_optional_part (units.option_of tree.now)
        (scope_of scope.old))) }
{
    match tree {
        Some(tree) => part(alloc, scope, tree),
        None => Ok(types_statements::no_clauses(alloc)),
    }
}

fn for_start<'a>(
    alloc: Global,
    scope: &mut Scope<'a>,
    tree: &ForStart<'a>,
) -> Result<Judged<typed::ForStart>, AllocError>
    ensures { IfOk result (λ r. judged_of start_of r (scope_of scope.new)
        ≡ squeezed_part (bodies.judge_start (units.start_of tree.now) (scope_of scope.old))) }
{
    match tree {
        ForStart::Local { declaration: local } => match declaration(alloc, scope, local) {
            Ok(found) => Ok(types_statements::declaration_start(found)),
            Err(error) => Err(error),
        },
        ForStart::Expression { value } => match optional_part(alloc, scope, value) {
            Ok(found) => Ok(types_statements::effects_start(found)),
            Err(error) => Err(error),
        },
    }
}

/// The controlling expression of a loop that starts at `at`, where there is one.
fn optional_test<'a>(
    alloc: Global,
    scope: &mut Scope<'a>,
    at: u32,
    tree: &Option<Box<Expression<'a>>>,
) -> Result<Judged<Option<typed::Expression>>, AllocError>
    ensures { IfOk result (λ r. judged_of test_of r (scope_of scope.new)
        ≡ squeezed_part (bodies.judge_test at (units.option_of tree.now) (scope_of scope.old))) }
{
    match tree {
        Some(tree) => match expression(alloc, scope, tree) {
            Ok(found) => Ok(types_statements::loop_test(at, found)),
            Err(error) => Err(error),
        },
        None => Ok(types_statements::no_test()),
    }
}

/// The parts of a `for` that starts at `at`, before its body.
fn for_parts<'a>(
    alloc: Global,
    scope: &mut Scope<'a>,
    at: u32,
    start: &ForStart<'a>,
    test: &Option<Box<Expression<'a>>>,
    step: &Option<Box<Expression<'a>>>,
) -> Result<ForHead, AllocError>
    ensures { IfOk result (λ r. ArePartsOf at (units.start_of start.now)
        (units.option_of test.now) (units.option_of step.now) r (scope_of scope.old)
        (scope_of scope.new)) }
{
    let start = for_start(alloc, scope, start)?;
    let test = optional_test(alloc, scope, at, test)?;
    let step = optional_part(alloc, scope, step)?;
    Ok(ForHead { start, test, step })
}

/// The parts of a `for` that starts at `at`, before its body, in a block of their own.
#[inline(never)]
fn for_heading<'a>(
    alloc: Global,
    scope: &mut Scope<'a>,
    at: u32,
    start: &ForStart<'a>,
    test: &Option<Box<Expression<'a>>>,
    step: &Option<Box<Expression<'a>>>,
) -> Result<ForBegun, AllocError>
    ensures outer { IfOk result (λ r. blocks.around_of r.outer ≡ blocks.around
        (scope_of scope.old)) }
    ensures parts { IfOk result (λ r. ArePartsOf at (units.start_of start.now)
        (units.option_of test.now) (units.option_of step.now) r.parts
        (scopes.block (scope_of scope.old)) (scope_of scope.new)) }
{
    let outer = scope.enter(None);
    match for_parts(alloc, scope, at, start, test, step) {
        Ok(parts) => Ok(ForBegun { outer, parts }),
        Err(error) => {
            drop(outer);
            Err(error)
        }
    }
}
