//! Operators before their operand, and casts (C17 6.5.3, 6.5.4).
ghost use Rattle.std.specs.Prelude.{◌≡◌, ◌≤◌, ◌+◌, IfOk, max, map, Some};
ghost use Rattle.mc_tree.specs.Tree as source_tree;
ghost use Rattle.mc_tree.specs.Tree.{span_of};
ghost use Rattle.mc_tree.specs.Height.{height_specifiers};
ghost use Rattle.mc_grammar.specs.Places as places;
ghost use Rattle.mc_grammar.specs.Counts.{for_type};
ghost use Rattle.laws_grammar.specs.Expressions as spec;
ghost use Rattle.laws_grammar.specs.Rooms.{reading};
ghost use Rattle.parse_cursor.specs.Cursors.{Gives, left_of};
ghost use Rattle.parse_expressions.specs.Given.{
  GivesMade,
  GivesSpecifiers,
  GivesTree,
  GivesType,
  specifiers_of,
  stars_of,
  tree_of,
  type_of,
};
ghost use Rattle.parse_expressions.specs.Parts as view;

use crate::accept::accept;
use crate::grammar::Grammar;
use crate::grammar::makers::{boxed, end_of_specifiers};
use crate::grammar::operators::{step_operator, unary_operator};
use crate::grammar::parts::PartReader;
use crate::read::{Read, ReadSpecifiers, ReadStars, ReadType};
use mc_span::Span;
use mc_tree::{Expression, StepOperator, UnaryOperator};
use parse_cursor::cursor::{Cursor, place};
use parse_cursor::fault::Fault;
use parse_cursor::rule::Rule;
use parse_cursor::to;
use std::alloc::Global;

/// The `*` after a token at this place.
#[inline(never)]
#[tactic(auto, using(crate::proofs::Turns::stars_steps))]
pub fn stars(before: Span, tokens: &mut Cursor<'_, '_>) -> Result<ReadStars, Fault>
    ensures { Gives stars_of (spec.stars_of before (left_of tokens.old)) result
        (left_of tokens.new) }
{
    let mut count = 0u32;
    let mut end = before;
    for _turn in 0..tokens.turns() {
        let Some(star) = accept(tokens, b"*") else {
            return Ok(ReadStars { count, end });
        };
        end = place(star);
        count += 1;
    }
    Err(Fault::Syntax)
}

/// A type name, after its specifiers.
#[inline(never)]
fn type_end<'a>(
    start: Span,
    read: ReadSpecifiers<'a>,
    tokens: &mut Cursor<'_, 'a>,
) -> Result<ReadType<'a>, Fault>
    requires high { read.height ≡ height_specifiers (specifiers_of read) }
    ensures name { GivesType (view.type_end start (specifiers_of read.entry) (left_of tokens.old))
        result (left_of tokens.new) }
    ensures height { IfOk result (λ r. r.height ≡ read.entry.height) }
{
    let stars = stars(end_of_specifiers(start, &read.all), tokens)?;
    let ReadSpecifiers { all, height } = read;
    let span = to(start, stars.end);
    Ok(ReadType {
        all,
        stars: stars.count,
        span,
        height,
    })
}

#[inline(never)]
fn made_cast<'a>(
    alloc: Global,
    first: Span,
    name: ReadType<'a>,
    operand: Read<'a>,
) -> Result<Read<'a>, Fault>
    requires small { (name.height ≤ 1000) × (operand.height ≤ 1000) }
    ensures { GivesMade
        (source_tree.Cast (type_of name.entry) (tree_of operand.entry)
        (places.to first (span_of (tree_of operand.entry))))
        (max name.entry.height operand.entry.height + 1) result }
{
    let ReadType {
        all: specifiers,
        stars,
        span: type_span,
        height: type_height,
    } = name;
    let Read {
        tree: operand,
        height,
    } = operand;
    let span = to(first, operand.span());
    let tree = Expression::Cast {
        specifiers,
        stars,
        type_span,
        operand,
        span,
    };
    boxed(alloc, tree, type_height.max(height) + 1)
}

#[inline(never)]
fn made_prefix_step<'a>(
    alloc: Global,
    operator: StepOperator,
    first: Span,
    operand: Read<'a>,
) -> Result<Read<'a>, Fault>
    requires small { operand.height ≤ 1000 }
    ensures { GivesMade
        (source_tree.PrefixStep operator (tree_of operand.entry)
        (places.to first (span_of (tree_of operand.entry)))) (operand.entry.height + 1) result }
{
    let Read {
        tree: operand,
        height,
    } = operand;
    let span = to(first, operand.span());
    let tree = Expression::PrefixStep {
        operator,
        operand,
        span,
    };
    boxed(alloc, tree, height + 1)
}

#[inline(never)]
fn made_unary<'a>(
    alloc: Global,
    operator: UnaryOperator,
    first: Span,
    operand: Read<'a>,
) -> Result<Read<'a>, Fault>
    requires small { operand.height ≤ 1000 }
    ensures { GivesMade
        (source_tree.Unary operator (tree_of operand.entry)
        (places.to first (span_of (tree_of operand.entry)))) (operand.entry.height + 1) result }
{
    let Read {
        tree: operand,
        height,
    } = operand;
    let span = to(first, operand.span());
    let tree = Expression::Unary {
        operator,
        operand,
        span,
    };
    boxed(alloc, tree, height + 1)
}

impl<'a, P: PartReader<'a>> Grammar<P> {
    /// Reads the specifiers of a type, of fewer than `room` levels.
    #[inline(always)]
    pub fn types(&self, tokens: &mut Cursor<'_, 'a>) -> Result<ReadSpecifiers<'a>, Fault>
        requires nests { P.nests self.now.parts self.now.room }
        ensures specifiers { GivesSpecifiers
            ((reading self.now.room).specifiers for_type (left_of tokens.old)) result
            (left_of tokens.new) }
        ensures height { IfOk result (λ r. r.height + 1 ≤ self.now.room) }
    {
        self.parts.types(self.alloc, tokens, self.room)
    }

    #[inline(never)]
    #[tactic(auto, unfolding(laws_grammar::specs::Expressions::type_name_of))]
    fn type_name(&self, tokens: &mut Cursor<'_, 'a>) -> Result<ReadType<'a>, Fault>
        requires nests { P.nests self.now.parts self.now.room }
        ensures name { GivesType (spec.type_name_of (reading self.now.room) (left_of tokens.old))
            result (left_of tokens.new) }
        ensures height { IfOk result (λ r. r.height + 1 ≤ self.now.room) }
    {
        let start = tokens.first()?;
        let read = self.types(tokens)?;
        type_end(start, read, tokens)
    }

    /// A cast, from its parenthesis on.
    #[inline(never)]
    #[tactic(auto, unfolding(laws_grammar::specs::Expressions::cast_to_of))]
    fn cast_to(&self, tokens: &mut Cursor<'_, 'a>) -> Result<Read<'a>, Fault>
        requires room { self.now.room ≤ 1000 }
        requires nests { P.nests self.now.parts self.now.room }
        ensures tree { GivesTree (spec.cast_to_of (reading self.now.room) (left_of tokens.old))
            result (left_of tokens.new) }
        ensures height { IfOk result (λ r. r.height ≤ self.now.room) }
    {
        let open = tokens.take()?;
        let name = self.type_name(tokens)?;
        tokens.expect(b")")?;
        let operand = self.part(Rule::Cast, tokens)?;
        made_cast(self.alloc, place(open), name, operand)
    }

    /// `++` or `--` before its operand.
    #[inline(never)]
    fn prefix_step(
        &self,
        operator: StepOperator,
        tokens: &mut Cursor<'_, 'a>,
    ) -> Result<Read<'a>, Fault>
        requires room { self.now.room ≤ 1000 }
        requires nests { P.nests self.now.parts self.now.room }
        ensures tree { GivesTree
            (spec.prefixed (reading self.now.room) self.now.room (Some operator)
            (left_of tokens.old)) result (left_of tokens.new) }
        ensures height { IfOk result (λ r. r.height ≤ self.now.room) }
    {
        let first = tokens.take()?;
        let operand = self.part(Rule::Unary, tokens)?;
        made_prefix_step(self.alloc, operator, place(first), operand)
    }

    /// An operator before its operand.
    #[inline(never)]
    fn operated(
        &self,
        operator: UnaryOperator,
        tokens: &mut Cursor<'_, 'a>,
    ) -> Result<Read<'a>, Fault>
        requires room { self.now.room ≤ 1000 }
        requires nests { P.nests self.now.parts self.now.room }
        ensures tree { GivesTree
            (spec.operated (reading self.now.room) self.now.room (Some operator)
            (left_of tokens.old)) result (left_of tokens.new) }
        ensures height { IfOk result (λ r. r.height ≤ self.now.room) }
    {
        let first = tokens.take()?;
        let operand = self.part(Rule::Cast, tokens)?;
        made_unary(self.alloc, operator, place(first), operand)
    }

    #[tactic(auto, unfolding(laws_grammar::specs::Expressions::unary_of))]
    pub fn unary(&self, tokens: &mut Cursor<'_, 'a>) -> Result<Read<'a>, Fault>
        requires room { (self.now.room ≤ 1000) × (1 ≤ self.now.room) }
        requires nests { P.nests self.now.parts self.now.room }
        ensures tree { GivesTree
            (spec.unary_of (reading self.now.room) self.now.room (left_of tokens.old)) result
            (left_of tokens.new) }
        ensures height { IfOk result (λ r. r.height ≤ self.now.room) }
    {
        if let Some(operator) = step_operator(tokens) {
            return self.prefix_step(operator, tokens);
        }
        match unary_operator(tokens) {
            Some(operator) => self.operated(operator, tokens),
            None => self.postfix(tokens),
        }
    }

    #[tactic(auto, unfolding(laws_grammar::specs::Expressions::cast_of))]
    pub fn cast(&self, tokens: &mut Cursor<'_, 'a>) -> Result<Read<'a>, Fault>
        requires room { (self.now.room ≤ 1000) × (1 ≤ self.now.room) }
        requires nests { P.nests self.now.parts self.now.room }
        ensures tree { GivesTree
            (spec.cast_of (reading self.now.room) self.now.room (left_of tokens.old)) result
            (left_of tokens.new) }
        ensures height { IfOk result (λ r. r.height ≤ self.now.room) }
    {
        if tokens.sees_cast() {
            self.cast_to(tokens)
        } else {
            self.unary(tokens)
        }
    }
}
