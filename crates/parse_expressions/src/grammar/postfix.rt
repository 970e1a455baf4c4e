//! Suffixes of postfix expressions (C17 6.5.2).
ghost use Rattle.std.specs.Prelude.{◌≡◌, ◌≤◌, ◌+◌, IfOk, max};
ghost use Rattle.mc_tree.specs.Height.{height};
ghost use Rattle.laws_grammar.specs.Expressions as spec;
ghost use Rattle.laws_grammar.specs.Rooms.{reading};
ghost use Rattle.parse_cursor.specs.Cursors.{left_of};
ghost use Rattle.parse_expressions.specs.Given.{GivesTree, IsHigh, tree_of};
ghost use Rattle.parse_expressions.specs.Parts as view;

use crate::accept::accept;
use crate::grammar::Grammar;
use crate::grammar::makers::boxed;
use crate::grammar::operators::{sees_suffix, step_operator};
use crate::grammar::parts::PartReader;
use crate::read::Read;
use mc_tree::{Expression, StepOperator};
use parse_cursor::cursor::{Cursor, identifier, place};
use parse_cursor::fault::Fault;
use parse_cursor::rule::Rule;
use parse_cursor::to;
use std::alloc::Global;

/// The end of an index, after its value.
#[inline(never)]
fn index_end<'a>(
    alloc: Global,
    array: Read<'a>,
    index: Read<'a>,
    tokens: &mut Cursor<'_, 'a>,
) -> Result<Read<'a>, Fault>
    requires small { (array.height ≤ 1000) × (index.height ≤ 1000) }
    requires high { IsHigh array × IsHigh index }
    ensures tree { GivesTree (view.index_end (tree_of array.entry) (tree_of index.entry)
        (left_of tokens.old)) result (left_of tokens.new) }
    ensures height { IfOk result (λ r. r.height
        ≡ max array.entry.height index.entry.height + 1) }
{
    let close = tokens.expect(b"]")?;
    let Read {
        tree: array,
        height: array_height,
    } = array;
    let Read {
        tree: index,
        height,
    } = index;
    let span = to(array.span(), place(close));
    let tree = Expression::Index { array, index, span };
    boxed(alloc, tree, array_height.max(height) + 1)
}

/// A member's name, after its object and the point.
#[inline(never)]
fn member<'a>(
    alloc: Global,
    object: Read<'a>,
    tokens: &mut Cursor<'_, 'a>,
) -> Result<Read<'a>, Fault>
    requires small { object.height ≤ 1000 }
    requires high { IsHigh object }
    ensures tree { GivesTree (view.member_after (tree_of object.entry) (left_of tokens.old)) result
        (left_of tokens.new) }
    ensures height { IfOk result (λ r. r.height ≡ object.entry.height + 1) }
{
    let name = identifier(tokens.expect_name()?);
    let span = to(object.tree.span(), name.span);
    let height = object.height + 1;
    let tree = Expression::Member {
        object: object.tree,
        name,
        span,
    };
    boxed(alloc, tree, height)
}

/// `++` or `--`, after its operand.
#[inline(never)]
fn postfix_step<'a>(
    alloc: Global,
    operand: Read<'a>,
    operator: StepOperator,
    tokens: &mut Cursor<'_, 'a>,
) -> Result<Read<'a>, Fault>
    requires small { operand.height ≤ 1000 }
    requires high { IsHigh operand }
    ensures tree { GivesTree
        (spec.stepped (tree_of operand.entry) (Some operator) (left_of tokens.old)) result
        (left_of tokens.new) }
    ensures height { IfOk result (λ r. r.height ≡ operand.entry.height + 1) }
{
    let last = tokens.take()?;
    let span = to(operand.tree.span(), place(last));
    let height = operand.height + 1;
    let tree = Expression::PostfixStep {
        operator,
        operand: operand.tree,
        span,
    };
    boxed(alloc, tree, height)
}

impl<'a, P: PartReader<'a>> Grammar<P> {
    /// An index, after the array and the first bracket.
    #[inline(never)]
    fn index(&self, array: Read<'a>, tokens: &mut Cursor<'_, 'a>) -> Result<Read<'a>, Fault>
        requires room { (self.now.room ≤ 1000) × (array.height + 1 ≤ self.now.room) }
        requires nests { P.nests self.now.parts self.now.room }
        requires high { IsHigh array }
        ensures tree { GivesTree (view.index_after (reading self.now.room) (tree_of array.entry)
            (left_of tokens.old)) result (left_of tokens.new) }
        ensures height { IfOk result (λ r. r.height ≤ self.now.room) }
    {
        let index = self.part(Rule::Comma, tokens)?;
        index_end(self.alloc, array, index, tokens)
    }

    /// One suffix, after its expression.
    #[inline(never)]
    #[tactic(auto, unfolding(laws_grammar::specs::Expressions::suffix_of))]
    fn suffix(&self, base: Read<'a>, tokens: &mut Cursor<'_, 'a>) -> Result<Read<'a>, Fault>
        requires room { self.now.room ≤ 1000 }
        requires nests { P.nests self.now.parts self.now.room }
        requires high { IsHigh base }
        ensures tree { GivesTree
            (spec.suffix_of (reading self.now.room) self.now.room (tree_of base.entry)
            (left_of tokens.old)) result (left_of tokens.new) }
        ensures height { IfOk result (λ r. r.height ≤ self.now.room) }
    {
        if base.is_too_high(self.room) {
            return Err(Fault::Syntax);
        }
        if let Some(_) = accept(tokens, b"[") {
            return self.index(base, tokens);
        }
        if let Some(_) = accept(tokens, b".") {
            return member(self.alloc, base, tokens);
        }
        match step_operator(tokens) {
            Some(operator) => postfix_step(self.alloc, base, operator, tokens),
            None => Err(Fault::Syntax),
        }
    }

    /// A primary expression with its suffixes.
    #[tactic(auto, using(crate::proofs::Turns::suffixes_steps), unfolding(laws_grammar::specs::Expressions::postfix_of))]
    pub fn postfix(&self, tokens: &mut Cursor<'_, 'a>) -> Result<Read<'a>, Fault>
        requires room { (self.now.room ≤ 1000) × (1 ≤ self.now.room) }
        requires nests { P.nests self.now.parts self.now.room }
        ensures tree { GivesTree
            (spec.postfix_of (reading self.now.room) self.now.room (left_of tokens.old)) result
            (left_of tokens.new) }
        ensures height { IfOk result (λ r. r.height ≤ self.now.room) }
    {
        let mut base = self.primary(tokens)?;
        for _turn in 0..tokens.turns() {
            if !sees_suffix(tokens) {
                return Ok(base);
            }
            base = self.suffix(base, tokens)?;
        }
        Err(Fault::Syntax)
    }
}
