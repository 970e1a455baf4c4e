//! Operators between operands (C17 6.5.5 to 6.5.17).
ghost use Rattle.std.specs.Prelude.{◌≡◌, ◌≤◌, ◌+◌, IfOk, List, max, map, Some};
ghost use Rattle.mc_tree.specs.Tree as source_tree;
ghost use Rattle.mc_tree.specs.Tree.{span_of};
ghost use Rattle.mc_tree.specs.Views.{expression_of, expressions_from};
ghost use Rattle.mc_grammar.specs.Places as places;
ghost use Rattle.laws_grammar.specs.Expressions as spec;
ghost use Rattle.mc_grammar.specs.steps.Parsers.{and_then};
ghost use Rattle.laws_grammar.specs.Rooms.{reading};
ghost use Rattle.parse_cursor.specs.Cursors.{left_of};
ghost use Rattle.parse_cursor.specs.Rules.{level_of, levels_of};
ghost use Rattle.parse_expressions.specs.Given.{GivesMade, GivesTree, IsHigh, tree_of, trees_of};

use crate::grammar::Grammar;
use crate::grammar::makers::{boxed, end_of_expressions};
use crate::grammar::operators::{assignment_operator, binary_operator};
use crate::grammar::parts::PartReader;
use crate::read::{Read, ReadAll};
use mc_span::Span;
use mc_tree::{AssignmentOperator, BinaryOperator, Expression};
use parse_cursor::cursor::Cursor;
use parse_cursor::fault::Fault;
use parse_cursor::rule::{Level, Rule};
use parse_cursor::{is_unary, to};
use std::alloc::Global;

#[inline(never)]
fn made_binary<'a>(
    alloc: Global,
    operator: BinaryOperator,
    left: Read<'a>,
    right: Read<'a>,
) -> Result<Read<'a>, Fault>
    requires small { (left.height ≤ 1000) × (right.height ≤ 1000) }
    ensures { GivesMade (source_tree.Binary operator (tree_of left.entry) (tree_of right.entry)
        (places.to (span_of (tree_of left.entry)) (span_of (tree_of right.entry))))
        (max left.entry.height right.entry.height + 1) result }
{
    let span = to(left.tree.span(), right.tree.span());
    let height = left.height.max(right.height) + 1;
    let tree = Expression::Binary {
        operator,
        left: left.tree,
        right: right.tree,
        span,
    };
    boxed(alloc, tree, height)
}

#[inline(never)]
fn made_conditional<'a>(
    alloc: Global,
    test: Read<'a>,
    chosen: Read<'a>,
    other: Read<'a>,
) -> Result<Read<'a>, Fault>
    requires small { (test.height ≤ 1000) × (chosen.height ≤ 1000) × (other.height ≤ 1000) }
    ensures { GivesMade (source_tree.Conditional (tree_of test.entry) (tree_of chosen.entry)
        (tree_of other.entry)
        (places.to (span_of (tree_of test.entry)) (span_of (tree_of other.entry))))
        (max test.entry.height (max chosen.entry.height other.entry.height) + 1) result }
{
    let Read {
        tree: test,
        height: test_height,
    } = test;
    let Read {
        tree: chosen,
        height: chosen_height,
    } = chosen;
    let Read {
        tree: other,
        height,
    } = other;
    let span = to(test.span(), other.span());
    let height = test_height.max(chosen_height.max(height)) + 1;
    let tree = Expression::Conditional {
        test,
        chosen,
        other,
        span,
    };
    boxed(alloc, tree, height)
}

#[inline(never)]
fn made_assignment<'a>(
    alloc: Global,
    operator: AssignmentOperator,
    target: Read<'a>,
    value: Read<'a>,
) -> Result<Read<'a>, Fault>
    requires small { (target.height ≤ 1000) × (value.height ≤ 1000) }
    ensures { GivesMade (source_tree.Assignment operator (tree_of target.entry)
        (tree_of value.entry)
        (places.to (span_of (tree_of target.entry)) (span_of (tree_of value.entry))))
        (max target.entry.height value.entry.height + 1) result }
{
    let span = to(target.tree.span(), value.tree.span());
    let height = target.height.max(value.height) + 1;
    let tree = Expression::Assignment {
        operator,
        target: target.tree,
        value: value.tree,
        span,
    };
    boxed(alloc, tree, height)
}

#[inline(never)]
fn made_comma<'a>(alloc: Global, start: Span, all: ReadAll<'a>) -> Result<Read<'a>, Fault>
    requires small { all.height ≤ 1000 }
    ensures { GivesMade
        (source_tree.Comma (expressions_from (trees_of all.entry))
        (places.to start
        (places.end_of_expressions start (expressions_from (trees_of all.entry)))))
        (all.entry.height + 1) result }
{
    let span = to(start, end_of_expressions(start, &all.trees));
    let tree = Expression::Comma {
        operands: all.trees,
        span,
    };
    boxed(alloc, tree, all.height + 1)
}

impl<'a, P: PartReader<'a>> Grammar<P> {
    /// One operator and its right operand, after the left one.
    #[inline(never)]
    #[tactic(auto, unfolding(laws_grammar::specs::Expressions::operation_of))]
    fn operation(
        &self,
        level: Level,
        operator: BinaryOperator,
        left: Read<'a>,
        tokens: &mut Cursor<'_, 'a>,
    ) -> Result<Read<'a>, Fault>
        requires room { self.now.room ≤ 1000 }
        requires nests { P.nests self.now.parts self.now.room }
        requires high { IsHigh left }
        ensures tree { GivesTree (spec.operation_of (reading self.now.room) self.now.room
            (level_of level) operator (tree_of left.entry) (left_of tokens.old)) result
            (left_of tokens.new) }
        ensures height { IfOk result (λ r. r.height ≤ self.now.room) }
    {
        if left.is_too_high(self.room) {
            return Err(Fault::Syntax);
        }
        tokens.take()?;
        let right = self.part(Rule::Operand(level), tokens)?;
        made_binary(self.alloc, operator, left, right)
    }

    /// The operators of a level and their right operands, after the first operand.
    #[inline(never)]
    #[tactic(auto, using(crate::proofs::Turns::operations_steps))]
    fn operations(
        &self,
        level: Level,
        first: Read<'a>,
        tokens: &mut Cursor<'_, 'a>,
    ) -> Result<Read<'a>, Fault>
        requires room { self.now.room ≤ 1000 }
        requires nests { P.nests self.now.parts self.now.room }
        requires high { IsHigh first }
        requires low { first.height ≤ self.now.room }
        ensures tree { GivesTree (spec.operations_of (reading self.now.room) self.now.room
            (level_of level) (tree_of first.entry) (left_of tokens.old)) result
            (left_of tokens.new) }
        ensures height { IfOk result (λ r. r.height ≤ self.now.room) }
    {
        let mut left = first;
        for _turn in 0..tokens.turns() {
            match binary_operator(level, tokens) {
                None => return Ok(left),
                Some(operator) => left = self.operation(level, operator, left, tokens)?,
            }
        }
        Err(Fault::Syntax)
    }

    /// An operand with the operators of these levels after it, one level after the other.
    #[tactic(auto, unfolding(laws_grammar::specs::Expressions::climb))]
    pub fn climb(&self, levels: &[Level], tokens: &mut Cursor<'_, 'a>) -> Result<Read<'a>, Fault>
        requires room { (self.now.room ≤ 1000) × (1 ≤ self.now.room) }
        requires nests { P.nests self.now.parts self.now.room }
        ensures tree { GivesTree
            (and_then (spec.cast_of (reading self.now.room) self.now.room (left_of tokens.old))
            (spec.climb (reading self.now.room) self.now.room (levels_of levels.now))) result
            (left_of tokens.new) }
        ensures height { IfOk result (λ r. r.height ≤ self.now.room) }
    {
        let mut left = self.cast(tokens)?;
        let mut later = levels;
        while let [level, rest @ ..] = later {
            left = self.operations(*level, left, tokens)?;
            later = rest;
        }
        Ok(left)
    }

    /// `?`, two operands and the `:` between them, after the test.
    #[inline(never)]
    #[tactic(auto, unfolding(laws_grammar::specs::Expressions::conditional_of))]
    fn conditional(&self, test: Read<'a>, tokens: &mut Cursor<'_, 'a>) -> Result<Read<'a>, Fault>
        requires room { self.now.room ≤ 1000 }
        requires nests { P.nests self.now.parts self.now.room }
        requires high { IsHigh test }
        ensures tree { GivesTree (spec.conditional_of (reading self.now.room) self.now.room
            (tree_of test.entry) (left_of tokens.old)) result (left_of tokens.new) }
        ensures height { IfOk result (λ r. r.height ≤ self.now.room) }
    {
        if test.is_too_high(self.room) {
            return Err(Fault::Syntax);
        }
        tokens.take()?;
        let chosen = self.part(Rule::Comma, tokens)?;
        tokens.expect(b":")?;
        let other = self.part(Rule::Cond, tokens)?;
        made_conditional(self.alloc, test, chosen, other)
    }

    #[tactic(auto, unfolding(laws_grammar::specs::Expressions::cond_of, laws_grammar::specs::Expressions::level_of))]
    pub fn cond(&self, tokens: &mut Cursor<'_, 'a>) -> Result<Read<'a>, Fault>
        requires room { (self.now.room ≤ 1000) × (1 ≤ self.now.room) }
        requires nests { P.nests self.now.parts self.now.room }
        ensures tree { GivesTree
            (spec.cond_of (reading self.now.room) self.now.room (left_of tokens.old)) result
            (left_of tokens.new) }
        ensures height { IfOk result (λ r. r.height ≤ self.now.room) }
    {
        let test = self.climb(Level::Or.up_to(), tokens)?;
        if tokens.sees(b"?") {
            self.conditional(test, tokens)
        } else {
            Ok(test)
        }
    }

    /// An operator that assigns and the value, after the target.
    #[inline(never)]
    #[tactic(auto, unfolding(laws_grammar::specs::Expressions::assignment_of))]
    fn assignment(
        &self,
        operator: AssignmentOperator,
        target: Read<'a>,
        tokens: &mut Cursor<'_, 'a>,
    ) -> Result<Read<'a>, Fault>
        requires room { self.now.room ≤ 1000 }
        requires nests { P.nests self.now.parts self.now.room }
        requires high { IsHigh target }
        ensures tree { GivesTree (spec.assignment_of (reading self.now.room) self.now.room operator
            (tree_of target.entry) (left_of tokens.old)) result (left_of tokens.new) }
        ensures height { IfOk result (λ r. r.height ≤ self.now.room) }
    {
        if target.is_too_high(self.room) {
            return Err(Fault::Syntax);
        }
        tokens.take()?;
        let value = self.part(Rule::Assign, tokens)?;
        made_assignment(self.alloc, operator, target, value)
    }

    #[tactic(auto, unfolding(laws_grammar::specs::Expressions::assign_of))]
    pub fn assign(&self, tokens: &mut Cursor<'_, 'a>) -> Result<Read<'a>, Fault>
        requires room { (self.now.room ≤ 1000) × (1 ≤ self.now.room) }
        requires nests { P.nests self.now.parts self.now.room }
        ensures tree { GivesTree
            (spec.assign_of (reading self.now.room) self.now.room (left_of tokens.old)) result
            (left_of tokens.new) }
        ensures height { IfOk result (λ r. r.height ≤ self.now.room) }
    {
        let target = self.cond(tokens)?;
        match assignment_operator(tokens) {
            Some(operator) if is_unary(&target.tree) => self.assignment(operator, target, tokens),
            _ => Ok(target),
        }
    }

    /// The operands of a comma, after the first.
    #[inline(never)]
    #[tactic(auto, unfolding(laws_grammar::specs::Expressions::operands_of))]
    fn operands(&self, first: Read<'a>, tokens: &mut Cursor<'_, 'a>) -> Result<Read<'a>, Fault>
        requires room { self.now.room ≤ 1000 }
        requires nests { P.nests self.now.parts self.now.room }
        requires high { IsHigh first }
        ensures tree { GivesTree
            (spec.operands_of (reading self.now.room) self.now.room (tree_of first.entry)
            (left_of tokens.old)) result (left_of tokens.new) }
        ensures height { IfOk result (λ r. r.height ≤ self.now.room) }
    {
        if first.is_too_high(self.room) {
            return Err(Fault::Syntax);
        }
        tokens.take()?;
        let start = first.tree.span();
        let mut all: ReadAll<'a> = ReadAll::new(self.alloc);
        all.push(first)?;
        self.expressions(&mut all, tokens)?;
        made_comma(self.alloc, start, all)
    }

    #[tactic(auto, unfolding(laws_grammar::specs::Expressions::comma_of))]
    pub fn comma(&self, tokens: &mut Cursor<'_, 'a>) -> Result<Read<'a>, Fault>
        requires room { (self.now.room ≤ 1000) × (1 ≤ self.now.room) }
        requires nests { P.nests self.now.parts self.now.room }
        ensures tree { GivesTree
            (spec.comma_of (reading self.now.room) self.now.room (left_of tokens.old)) result
            (left_of tokens.new) }
        ensures height { IfOk result (λ r. r.height ≤ self.now.room) }
    {
        let first = self.assign(tokens)?;
        if tokens.sees(b",") {
            self.operands(first, tokens)
        } else {
            Ok(first)
        }
    }
}
