//! Primary and postfix expressions (C17 6.5.1, 6.5.2).
ghost use Rattle.std.specs.Prelude.{◌≡◌, ◌≤◌, ◌<◌, ◌+◌, ◌-◌, IfOk, length};
ghost use Rattle.mc_lex.specs.Tokens.{tok_of};
ghost use Rattle.mc_lex.specs.declared.token.TokenKind.TheVariants as kind;
ghost use Rattle.mc_grammar.specs.Words.{lexeme_of};
ghost use Rattle.mc_grammar.specs.Places.{at, name_at};
ghost use Rattle.mc_tree.specs.Tree as source_tree;
ghost use Rattle.laws_grammar.specs.Expressions as spec;
ghost use Rattle.laws_grammar.specs.Rooms.{reading};
ghost use Rattle.parse_cursor.specs.Cursors.{left_of};
ghost use Rattle.parse_cursor.specs.Rules.{nonterminal_of};
ghost use Rattle.parse_cursor.specs.Short.{IsShort};
ghost use Rattle.parse_expressions.specs.Given.{GivesMade, GivesMore, GivesTree, IsAllHigh, IsHigh, tree_of, trees_of};
ghost use Rattle.parse_expressions.specs.Parts as view;

use crate::accept::accept;
use crate::grammar::Grammar;
use crate::grammar::makers::boxed;
use crate::grammar::parts::PartReader;
use crate::read::{Read, ReadAll};
use mc_lex::{Token, TokenKind};
use mc_span::Span;
use mc_tree::Expression;
use parse_cursor::cursor::{Cursor, identifier, place};
use parse_cursor::fault::Fault;
use parse_cursor::rule::Rule;
use parse_cursor::to;
use std::alloc::Global;

/// The end of a parenthesized expression, after what stands between the parentheses.
#[inline(never)]
fn parenthesized_end<'a>(
    alloc: Global,
    start: Span,
    inner: Read<'a>,
    tokens: &mut Cursor<'_, 'a>,
) -> Result<Read<'a>, Fault>
    requires small { inner.height ≤ 1000 }
    requires high { IsHigh inner }
    ensures tree { GivesTree (view.parenthesized_end start (tree_of inner.entry)
        (left_of tokens.old)) result (left_of tokens.new) }
    ensures height { IfOk result (λ r. r.height ≡ inner.entry.height + 1) }
{
    let close = tokens.expect(b")")?;
    let Read {
        tree: inner,
        height,
    } = inner;
    let span = to(start, place(close));
    boxed(alloc, Expression::Parenthesized { inner, span }, height + 1)
}

/// The end of a call, after its arguments.
#[inline(never)]
fn call_end<'a>(
    alloc: Global,
    name: &Token<'a>,
    all: ReadAll<'a>,
    tokens: &mut Cursor<'_, 'a>,
) -> Result<Read<'a>, Fault>
    requires short { IsShort name.now }
    requires small { all.height ≤ 1000 }
    requires all_high { IsAllHigh all }
    ensures tree { GivesTree (view.call_end (lexeme_of (tok_of name.now)) (trees_of all.entry)
        (left_of tokens.old)) result (left_of tokens.new) }
    ensures height { IfOk result (λ r. r.height ≡ all.entry.height + 1) }
{
    let close = tokens.expect(b")")?;
    let name = identifier(name);
    let span = to(name.span, place(close));
    let ReadAll {
        trees: arguments,
        height,
    } = all;
    let tree = Expression::Call {
        name,
        arguments,
        span,
    };
    boxed(alloc, tree, height + 1)
}

#[inline(never)]
fn made_name<'a>(alloc: Global, name: &Token<'a>) -> Result<Read<'a>, Fault>
    requires short { IsShort name.now }
    ensures { GivesMade (source_tree.Named (name_at (lexeme_of (tok_of name.now)))) 1 result }
{
    let name = identifier(name);
    boxed(alloc, Expression::Name { name }, 1)
}

/// A constant, which is the next token.
#[inline(never)]
fn constant<'a>(
    alloc: Global,
    value: u64,
    decimal: bool,
    unsigned: bool,
    longs: u32,
    tokens: &mut Cursor<'_, 'a>,
) -> Result<Read<'a>, Fault>
    ensures tree { GivesTree
        (view.constant_of value decimal unsigned longs (left_of tokens.old)) result
        (left_of tokens.new) }
    ensures height { IfOk result (λ r. r.height ≡ 1) }
{
    let span = place(tokens.take()?);
    let tree = Expression::Constant {
        value,
        decimal,
        unsigned,
        longs,
        span,
    };
    boxed(alloc, tree, 1)
}

/// A character constant, which is the next token.
#[inline(never)]
fn character<'a>(alloc: Global, value: i32, tokens: &mut Cursor<'_, 'a>) -> Result<Read<'a>, Fault>
    ensures tree { GivesTree (view.character_of value (left_of tokens.old)) result
        (left_of tokens.new) }
    ensures height { IfOk result (λ r. r.height ≡ 1) }
{
    let span = place(tokens.take()?);
    boxed(alloc, Expression::Character { value, span }, 1)
}

impl<'a, P: PartReader<'a>> Grammar<P> {
    /// Reads an expression of fewer than `room` levels.
    #[inline(always)]
    pub fn part(&self, rule: Rule, tokens: &mut Cursor<'_, 'a>) -> Result<Read<'a>, Fault>
        requires nests { P.nests self.now.parts self.now.room }
        ensures tree { GivesTree ((reading self.now.room).expression (nonterminal_of rule)
            (left_of tokens.old)) result (left_of tokens.new) }
        ensures height { IfOk result (λ r. r.height + 1 ≤ self.now.room) }
    {
        self.parts.expression(self.alloc, tokens, self.room, rule)
    }

    #[inline(never)]
    #[tactic(auto, unfolding(laws_grammar::specs::Expressions::parenthesized_of))]
    fn parenthesized(&self, tokens: &mut Cursor<'_, 'a>) -> Result<Read<'a>, Fault>
        requires room { self.now.room ≤ 1000 }
        requires nests { P.nests self.now.parts self.now.room }
        ensures tree { GivesTree
            (spec.parenthesized_of (reading self.now.room) (left_of tokens.old)) result
            (left_of tokens.new) }
        ensures height { IfOk result (λ r. r.height ≤ self.now.room) }
    {
        let open = tokens.take()?;
        if tokens.sees_specifiers() {
            return Err(Fault::Syntax);
        }
        let inner = self.part(Rule::Comma, tokens)?;
        parenthesized_end(self.alloc, place(open), inner, tokens)
    }

    /// Reads the expressions of a list with commas between them, and puts them after these.
    #[inline(never)]
    #[tactic(auto, using(crate::proofs::Lists::expressions_steps))]
    pub fn expressions(
        &self,
        all: &mut ReadAll<'a>,
        tokens: &mut Cursor<'_, 'a>,
    ) -> Result<(), Fault>
        requires room { self.now.room ≤ 1000 }
        requires nests { P.nests self.now.parts self.now.room }
        requires all_high { IsAllHigh all.now }
        requires low { all.now.height ≤ self.now.room - 1 }
        ensures all { GivesMore
            (spec.expressions_after (reading self.now.room) (trees_of all.old)
            (left_of tokens.old)) all.new result (left_of tokens.new) }
        ensures height { IfOk result (λ _. all.new.height + 1 ≤ self.now.room) }
    {
        for _turn in 0..tokens.turns() {
            let one = self.part(Rule::Assign, tokens)?;
            all.push(one)?;
            let Some(_) = accept(tokens, b",") else {
                return Ok(());
            };
        }
        Err(Fault::Syntax)
    }

    /// The arguments of a call and the parenthesis after them.
    #[inline(never)]
    #[tactic(auto, unfolding(mc_grammar::specs::steps::Parsers::accept))]
    fn arguments(&self, name: &Token<'a>, tokens: &mut Cursor<'_, 'a>) -> Result<Read<'a>, Fault>
        requires room { (self.now.room ≤ 1000) × (1 ≤ self.now.room) }
        requires nests { P.nests self.now.parts self.now.room }
        requires short { IsShort name.now }
        ensures tree { GivesTree
            (spec.arguments_of (reading self.now.room) (lexeme_of (tok_of name.now))
            (left_of tokens.old)) result (left_of tokens.new) }
        ensures height { IfOk result (λ r. r.height ≤ self.now.room) }
    {
        let mut all: ReadAll<'a> = ReadAll::new(self.alloc);
        if !tokens.sees(b")") {
            self.expressions(&mut all, tokens)?;
        }
        call_end(self.alloc, name, all, tokens)
    }

    /// A name, or a call.
    #[inline(always)]
    #[tactic(auto, unfolding(laws_grammar::specs::Expressions::named_of))]
    fn named(&self, tokens: &mut Cursor<'_, 'a>) -> Result<Read<'a>, Fault>
        requires room { (self.now.room ≤ 1000) × (1 ≤ self.now.room) }
        requires nests { P.nests self.now.parts self.now.room }
        ensures tree { GivesTree (spec.named_of (reading self.now.room) (left_of tokens.old)) result
            (left_of tokens.new) }
        ensures height { IfOk result (λ r. r.height ≤ self.now.room) }
    {
        let name = tokens.take()?;
        match accept(tokens, b"(") {
            Some(_) => self.arguments(name, tokens),
            None => made_name(self.alloc, name),
        }
    }

    /// A primary expression, by the kind of the next token.
    #[inline(never)]
    #[tactic(auto, unfolding(laws_grammar::specs::Expressions::primary_of))]
    pub fn primary(&self, tokens: &mut Cursor<'_, 'a>) -> Result<Read<'a>, Fault>
        requires room { (self.now.room ≤ 1000) × (1 ≤ self.now.room) }
        requires nests { P.nests self.now.parts self.now.room }
        ensures tree { GivesTree (spec.primary_of (reading self.now.room) (left_of tokens.old))
            result (left_of tokens.new) }
        ensures height { IfOk result (λ r. r.height ≤ self.now.room) }
    {
        match tokens.kind() {
            Some(TokenKind::Identifier) if tokens.sees_name() => self.named(tokens),
            Some(
                TokenKind::Constant {
                    value,
                    decimal,
                    unsigned,
                    longs,
                },
            ) => constant(self.alloc, value, decimal, unsigned, longs, tokens),
            Some(TokenKind::Character { value }) => character(self.alloc, value, tokens),
            Some(TokenKind::Punctuator) if tokens.sees(b"(") => self.parenthesized(tokens),
            _ => Err(Fault::Syntax),
        }
    }
}
