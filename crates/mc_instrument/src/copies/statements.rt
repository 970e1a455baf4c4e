//! Statements with their probes.
ghost use Rattle.std.specs.Prelude.{◌≡◌, ◌+◌, ◌<◌, ◌^◌, map, option_map, IfOk};
ghost use Rattle.mc_typed.specs.Views as plain;
ghost use Rattle.decide_rules.specs.Counts.{roots, roots_in};
ghost use Rattle.decide_rules.specs.Nodes as nodes;
ghost use Rattle.decide_rules.specs.declared.role.Role.TheVariants as role;
ghost use Rattle.mc_steps.specs.Points.{points_of, points_of_all};
ghost use Rattle.mc_probe.specs.BitMaps.{map_of};
ghost use Rattle.mc_probe.specs.Switches.{switches, switches_all};
ghost use Rattle.mc_probe.specs.Table.{put_effects, put_optional, put_return, put_start, put_statement, put_statements};
ghost use Rattle.mc_probe.specs.Views as probed;
ghost use Rattle.mc_instrument.specs.steps.Counters.{at_of, given, taken, taken_by_all};

use crate::copies::counters::{count, declaration_bit, mark_unless_default};
use crate::copies::effects::{effect, effects};
use crate::copies::expressions::{expression, structure, test};
use crate::copies::initializers::declarators;
use crate::copies::walk::{Walk, with_probe};
use mc_typed::{Effect, Expression, ForStart, Mark, Probe, ReturnValue, Statement};
use std::alloc::AllocError;

/// The bits of the next exit, counted statement and label, the number of the next decision of the
/// function, and the register of its next `switch`.
#[derive(Clone, Copy)]
pub(crate) struct At {
    pub exit: u32,
    pub statement: u32,
    pub label: u32,
    pub decision: u32,
    pub switch: u32,
}

fn start(walk: &Walk<'_>, next: &mut u32, tree: &ForStart) -> Result<ForStart, AllocError>
    requires { next.now + roots role.Plain (nodes.start (plain.start_of tree.now)) < 2 ^ 32 }
    ensures copy { IfOk result (λ c. probed.start_of c
        ≡ put_start (map_of walk.now.map.now) walk.now.first next.old (plain.start_of tree.now)) }
    ensures next { IfOk result (λ _. next.new
        ≡ next.old + roots role.Plain (nodes.start (plain.start_of tree.now))) }
{
    match tree {
        ForStart::Effects { effects: clauses } => {
            let effects = effects(walk, next, clauses)?;
            Ok(ForStart::Effects { effects })
        }
        ForStart::Declaration {
            declarators: declared,
        } => {
            let declarators = declarators(walk, next, declared)?;
            Ok(ForStart::Declaration { declarators })
        }
    }
}

fn optional(
    walk: &Walk<'_>,
    next: &mut u32,
    tree: &Option<Expression>,
) -> Result<Option<Expression>, AllocError>
    requires { next.now
        + roots role.Plain (nodes.optional_test (option_map plain.expression_of tree.now))
        < 2 ^ 32 }
    ensures copy { IfOk result (λ c. option_map probed.expression_of c
        ≡ put_optional (map_of walk.now.map.now) walk.now.first next.old
        (option_map plain.expression_of tree.now)) }
    ensures next { IfOk result (λ _. next.new
        ≡ next.old
        + roots role.Plain (nodes.optional_test (option_map plain.expression_of tree.now))) }
{
    match tree {
        Some(value) => {
            let value = test(walk, next, value)?;
            Ok(Some(value))
        }
        None => Ok(None),
    }
}

fn return_value(
    walk: &Walk<'_>,
    next: &mut u32,
    tree: &ReturnValue,
) -> Result<ReturnValue, AllocError>
    requires { next.now
        + roots role.Plain (nodes.return_value (plain.return_value_of tree.now)) < 2 ^ 32 }
    ensures copy { IfOk result (λ c. probed.return_value_of c
        ≡ put_return (map_of walk.now.map.now) walk.now.first next.old
        (plain.return_value_of tree.now)) }
    ensures next { IfOk result (λ _. next.new
        ≡ next.old + roots role.Plain (nodes.return_value (plain.return_value_of tree.now))) }
{
    match tree {
        ReturnValue::Nothing => Ok(ReturnValue::Nothing),
        ReturnValue::Number { value } => {
            let value = expression(walk, next, value)?;
            Ok(ReturnValue::Number { value })
        }
        ReturnValue::Structure { value, cells } => {
            let value = structure(walk, next, value)?;
            Ok(ReturnValue::Structure {
                value,
                cells: *cells,
            })
        }
    }
}

/// What a `for` has beside its body.
#[derive(Drop)]
struct Head {
    start: ForStart,
    test: Option<Expression>,
    step: Vec<Effect>,
}

/// Copies of what a `for` has beside its body.
fn for_head(
    walk: &Walk<'_>,
    next: &mut u32,
    first: &ForStart,
    test: &Option<Expression>,
    step: &[Effect],
) -> Result<Head, AllocError>
    requires { next.now
        + (roots role.Plain (nodes.start (plain.start_of first.now))
        + roots role.Plain (nodes.optional_test (option_map plain.expression_of test.now))
        + roots_in (nodes.effects (map plain.effect_of step.now))) < 2 ^ 32 }
    ensures start { IfOk result (λ h. probed.start_of h.start
        ≡ put_start (map_of walk.now.map.now) walk.now.first next.old
        (plain.start_of first.now)) }
    ensures test { IfOk result (λ h. option_map probed.expression_of h.test
        ≡ put_optional (map_of walk.now.map.now) walk.now.first
        (next.old + roots role.Plain (nodes.start (plain.start_of first.now)))
        (option_map plain.expression_of test.now)) }
    ensures step { IfOk result (λ h. map probed.effect_of h.step.items
        ≡ put_effects (map_of walk.now.map.now) walk.now.first
        (next.old + roots role.Plain (nodes.start (plain.start_of first.now))
        + roots role.Plain (nodes.optional_test (option_map plain.expression_of test.now)))
        (map plain.effect_of step.now)) }
    ensures next { IfOk result (λ _. next.new ≡ next.old
        + (roots role.Plain (nodes.start (plain.start_of first.now))
        + roots role.Plain (nodes.optional_test (option_map plain.expression_of test.now))
        + roots_in (nodes.effects (map plain.effect_of step.now)))) }
{
    let start = start(walk, next, first)?;
    let test = optional(walk, next, test)?;
    let step = effects(walk, next, step)?;
    Ok(Head { start, test, step })
}

/// A copy of a statement. `register` is that of the `switch` in whose body it stands.
#[cycle(statement)]
fn statement(
    walk: &Walk<'_>,
    register: u32,
    at: &mut At,
    tree: &Statement,
) -> Result<Statement, AllocError>
    requires { given at.now + taken (plain.statement_of tree.now) < 2 ^ 32 }
    ensures copy { IfOk result (λ c. let m = map_of walk.now.map.now in
        probed.statement_of c
        ≡ put_statement m walk.now.first register (at_of m walk.now.first at.old)
        (plain.statement_of tree.now)) }
    ensures exit { IfOk result (λ _. at.new.exit
        ≡ at.old.exit + (points_of (plain.statement_of tree.now)).exits) }
    ensures statement { IfOk result (λ _. at.new.statement
        ≡ at.old.statement + (points_of (plain.statement_of tree.now)).statements) }
    ensures label { IfOk result (λ _. at.new.label
        ≡ at.old.label + (points_of (plain.statement_of tree.now)).labels) }
    ensures decision { IfOk result (λ _. at.new.decision
        ≡ at.old.decision + roots role.Plain (nodes.statement (plain.statement_of tree.now))) }
    ensures switch { IfOk result (λ _. at.new.switch
        ≡ at.old.switch + switches (plain.statement_of tree.now)) }
{
    match tree {
        Statement::Compound { items, span } => {
            let items = statements(walk, register, at, items)?;
            Ok(Statement::Compound { items, span: *span })
        }
        Statement::Label { value, span, .. } => {
            let bit = count(&mut at.label);
            Ok(Statement::Label {
                value: *value,
                span: *span,
                mark: Some(Mark { register, bit }),
            })
        }
        Statement::Declaration {
            declarators: declared,
            span,
            ..
        } => {
            let bit = declaration_bit(&mut at.statement, declared);
            let declarators = declarators(walk, &mut at.decision, declared)?;
            Ok(Statement::Declaration {
                declarators,
                span: *span,
                bit,
            })
        }
        Statement::Null { span, .. } => {
            let bit = count(&mut at.statement);
            Ok(Statement::Null {
                span: *span,
                bit: Some(bit),
            })
        }
        Statement::Effect {
            effect: whole,
            span,
            ..
        } => {
            let bit = count(&mut at.statement);
            let effect = effect(walk, &mut at.decision, whole)?;
            Ok(Statement::Effect {
                effect,
                span: *span,
                bit: Some(bit),
            })
        }
        Statement::If {
            test: first,
            chosen,
            keyword,
            span,
            ..
        } => {
            let bit = count(&mut at.statement);
            let test = test(walk, &mut at.decision, first)?;
            let chosen = boxed(walk, register, at, chosen)?;
            Ok(Statement::If {
                test,
                chosen,
                keyword: *keyword,
                span: *span,
                bit: Some(bit),
            })
        }
        Statement::IfElse {
            test: first,
            chosen,
            other,
            keyword,
            span,
            ..
        } => {
            let bit = count(&mut at.statement);
            let test = test(walk, &mut at.decision, first)?;
            let chosen = boxed(walk, register, at, chosen)?;
            let other = boxed(walk, register, at, other)?;
            Ok(Statement::IfElse {
                test,
                chosen,
                other,
                keyword: *keyword,
                span: *span,
                bit: Some(bit),
            })
        }
        Statement::Switch {
            value,
            items,
            keyword,
            span,
            ..
        } => {
            let bit = count(&mut at.statement);
            let own = count(&mut at.switch);
            let absent = mark_unless_default(&mut at.label, own, items);
            let value = expression(walk, &mut at.decision, value)?;
            let value = with_probe(walk.alloc, Probe::Switch { register: own }, value)?;
            let items = statements(walk, own, at, items)?;
            Ok(Statement::Switch {
                value,
                items,
                keyword: *keyword,
                span: *span,
                bit: Some(bit),
                absent,
            })
        }
        Statement::For {
            start: first,
            test,
            step,
            body,
            keyword,
            span,
            ..
        } => {
            let bit = count(&mut at.statement);
            let head = for_head(walk, &mut at.decision, first, test, step)?;
            let body = boxed(walk, register, at, body)?;
            Ok(Statement::For {
                start: head.start,
                test: head.test,
                step: head.step,
                body,
                keyword: *keyword,
                span: *span,
                bit: Some(bit),
            })
        }
        Statement::DoWhile {
            body,
            test: last,
            keyword,
            span,
            ..
        } => {
            let bit = count(&mut at.statement);
            let body = boxed(walk, register, at, body)?;
            let test = test(walk, &mut at.decision, last)?;
            Ok(Statement::DoWhile {
                body,
                test,
                keyword: *keyword,
                span: *span,
                bit: Some(bit),
            })
        }
        Statement::Break { span, .. } => {
            let bit = count(&mut at.statement);
            Ok(Statement::Break {
                span: *span,
                bit: Some(bit),
            })
        }
        Statement::Continue { span, .. } => {
            let bit = count(&mut at.statement);
            Ok(Statement::Continue {
                span: *span,
                bit: Some(bit),
            })
        }
        Statement::Return { value, span, .. } => {
            let bit = count(&mut at.statement);
            let exit = count(&mut at.exit);
            let value = return_value(walk, &mut at.decision, value)?;
            Ok(Statement::Return {
                value,
                span: *span,
                bit: Some(bit),
                exit: Some(exit),
            })
        }
    }
}

/// The same on the heap. What is boxed passes through this function alone: a function clears all
/// its values as it begins, and that would be much of the time that a copy takes.
#[cycle(statement)]
#[inline(never)]
fn boxed(
    walk: &Walk<'_>,
    register: u32,
    at: &mut At,
    tree: &Statement,
) -> Result<Box<Statement>, AllocError>
    requires { given at.now + taken (plain.statement_of tree.now) < 2 ^ 32 }
    ensures copy { IfOk result (λ c. let m = map_of walk.now.map.now in
        probed.statement_of c.value
        ≡ put_statement m walk.now.first register (at_of m walk.now.first at.old)
        (plain.statement_of tree.now)) }
    ensures exit { IfOk result (λ _. at.new.exit
        ≡ at.old.exit + (points_of (plain.statement_of tree.now)).exits) }
    ensures statement { IfOk result (λ _. at.new.statement
        ≡ at.old.statement + (points_of (plain.statement_of tree.now)).statements) }
    ensures label { IfOk result (λ _. at.new.label
        ≡ at.old.label + (points_of (plain.statement_of tree.now)).labels) }
    ensures decision { IfOk result (λ _. at.new.decision
        ≡ at.old.decision + roots role.Plain (nodes.statement (plain.statement_of tree.now))) }
    ensures switch { IfOk result (λ _. at.new.switch
        ≡ at.old.switch + switches (plain.statement_of tree.now)) }
{
    let copy = statement(walk, register, at, tree)?;
    let copy = Box::new(walk.alloc, copy)?;
    Ok(copy)
}

/// Copies of the items of a body.
#[cycle(statement)]
pub(crate) fn statements(
    walk: &Walk<'_>,
    register: u32,
    at: &mut At,
    trees: &[Statement],
) -> Result<Vec<Statement>, AllocError>
    requires { given at.now
        + taken_by_all (plain.statements_from (map plain.statement_of trees.now)) < 2 ^ 32 }
    ensures copy { IfOk result (λ c. let m = map_of walk.now.map.now in
        probed.statements_from (map probed.statement_of c.items)
        ≡ put_statements m walk.now.first register (at_of m walk.now.first at.old)
        (plain.statements_from (map plain.statement_of trees.now))) }
    ensures exit { IfOk result (λ _. at.new.exit ≡ at.old.exit
        + (points_of_all (plain.statements_from (map plain.statement_of trees.now))).exits) }
    ensures statement { IfOk result (λ _. at.new.statement ≡ at.old.statement
        + (points_of_all (plain.statements_from (map plain.statement_of trees.now))).statements) }
    ensures label { IfOk result (λ _. at.new.label ≡ at.old.label
        + (points_of_all (plain.statements_from (map plain.statement_of trees.now))).labels) }
    ensures decision { IfOk result (λ _. at.new.decision ≡ at.old.decision
        + roots_in (nodes.statements (plain.statements_from (map plain.statement_of trees.now)))) }
    ensures switch { IfOk result (λ _. at.new.switch ≡ at.old.switch
        + switches_all (plain.statements_from (map plain.statement_of trees.now))) }
{
    let mut copies = Vec::with_capacity(walk.alloc, trees.len())?;
    for tree in trees {
        let copy = statement(walk, register, at, tree)?;
        copies.push(copy)?;
    }
    Ok(copies)
}
