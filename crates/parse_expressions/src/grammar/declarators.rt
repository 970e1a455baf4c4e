//! Declarators and their parts (C17 6.7.6).
ghost use Rattle.std.specs.Prelude.{◌≡◌, ◌≤◌, ◌+◌, ◌-◌, IfOk, [], map};
ghost use Rattle.mc_lex.specs.Tokens.{tok_of};
ghost use Rattle.mc_tree.specs.Tree as tree;
ghost use Rattle.mc_tree.specs.Views.{tag_of};
ghost use Rattle.mc_tree.specs.Height.{height_declarator, height_parameter, height_specifiers};
ghost use Rattle.mc_grammar.specs.Words.{lexeme_of};
ghost use Rattle.mc_grammar.specs.Places as places;
ghost use Rattle.mc_grammar.specs.Places.{name_at};
ghost use Rattle.laws_grammar.specs.Lists.{comma_list, listed};
ghost use Rattle.laws_grammar.specs.Specifiers as spec;
ghost use Rattle.laws_grammar.specs.Rooms.{reading};
ghost use Rattle.parse_cursor.specs.Cursors.{Gives, left_of};
ghost use Rattle.parse_cursor.specs.Short.{IsShort};
ghost use Rattle.parse_expressions.specs.Given.{GivesPart, IsHigh, specifiers_of, tree_of};
ghost use Rattle.parse_expressions.specs.Parts as view;

use crate::accept::{accept, accept_name};
use crate::grammar::Grammar;
use crate::grammar::makers::end_of_specifiers;
use crate::grammar::parts::PartReader;
use crate::grammar::unary::stars;
use crate::read::{Read, ReadLength, ReadLengths, ReadSpecifiers};
use mc_lex::Token;
use mc_span::Span;
use mc_tree::{ArrayLength, Declarator, Identifier, Parameter};
use parse_cursor::cursor::{Cursor, identifier, place};
use parse_cursor::fault::Fault;
use parse_cursor::rule::Rule;
use parse_cursor::to;
use parse_cursor::values::{on_heap, push, push_boxed};
use std::alloc::Global;

/// A pair of brackets without a length, after the first bracket.
#[inline(never)]
fn no_length<'a>(tokens: &mut Cursor<'_, 'a>) -> Result<ReadLength<'a>, Fault>
    ensures { Gives view.length_of (view.no_length (left_of tokens.old)) result
        (left_of tokens.new) }
{
    let end = place(tokens.take()?);
    let one = ArrayLength::Absent;
    Ok(ReadLength { one, end })
}

/// The end of a pair of brackets, after the length.
#[inline(never)]
fn length_end<'a>(
    value: Read<'a>,
    tokens: &mut Cursor<'_, 'a>,
    tallest: &mut u32,
) -> Result<ReadLength<'a>, Fault>
    requires high { IsHigh value }
    ensures length { GivesPart view.length_of (λ _. value.entry.height)
        (view.length_end (tree_of value.entry) (left_of tokens.old)) result (left_of tokens.new)
        tallest.old tallest.new }
{
    let close = tokens.expect(b"]")?;
    let Read {
        tree: value,
        height,
    } = value;
    *tallest = (*tallest).max(height);
    Ok(ReadLength {
        one: ArrayLength::Given { value },
        end: place(close),
    })
}

/// A declarator of a function whose parentheses, at this place, have nothing between them.
#[inline(never)]
fn empty_function<'a>(
    alloc: Global,
    start: Span,
    stars: u32,
    name: &Token<'a>,
    list_span: Span,
) -> Result<Box<Declarator<'a>>, Fault>
    requires short { IsShort name.now }
    ensures { view.IsMade view.boxed_declarator
        (tree.function stars (name_at (lexeme_of (tok_of name.now))) (tree.Empty list_span)
        (places.to start list_span)) result }
{
    on_heap(
        alloc,
        Declarator::EmptyFunction {
            stars,
            name: identifier(name),
            list_span,
            span: to(start, list_span),
        },
    )
}

/// A declarator of a function whose list is `void`, from this word on.
#[inline(never)]
fn void_function<'a>(
    alloc: Global,
    start: Span,
    stars: u32,
    name: &Token<'a>,
    list_start: Span,
    tokens: &mut Cursor<'_, 'a>,
) -> Result<Box<Declarator<'a>>, Fault>
    requires short { IsShort name.now }
    ensures { Gives view.boxed_declarator
        (view.void_function start stars (name_at (lexeme_of (tok_of name.now))) list_start
        (left_of tokens.old)) result (left_of tokens.new) }
{
    tokens.take()?;
    let list_span = to(list_start, place(tokens.take()?));
    on_heap(
        alloc,
        Declarator::VoidFunction {
            stars,
            name: identifier(name),
            list_span,
            span: to(start, list_span),
        },
    )
}

/// A declarator of a function, after its parameters.
#[inline(never)]
fn listed_function<'a>(
    alloc: Global,
    start: Span,
    stars: u32,
    name: &Token<'a>,
    list_start: Span,
    parameters: Vec<Parameter<'a>>,
    tokens: &mut Cursor<'_, 'a>,
) -> Result<Box<Declarator<'a>>, Fault>
    requires short { IsShort name.now }
    ensures { Gives view.boxed_declarator
        (view.listed_function start stars (name_at (lexeme_of (tok_of name.now))) list_start
        (view.parameters_of parameters.entry) (left_of tokens.old)) result (left_of tokens.new) }
{
    let list_span = to(list_start, place(tokens.expect(b")")?));
    on_heap(
        alloc,
        Declarator::Function {
            stars,
            name: identifier(name),
            parameters,
            list_span,
            span: to(start, list_span),
        },
    )
}

impl<'a, P: PartReader<'a>> Grammar<P> {
    /// A pair of brackets, perhaps with a length.
    #[inline(never)]
    #[tactic(auto, unfolding(laws_grammar::specs::Specifiers::length_of))]
    fn length(
        &self,
        tokens: &mut Cursor<'_, 'a>,
        tallest: &mut u32,
    ) -> Result<ReadLength<'a>, Fault>
        requires room { self.now.room ≤ 1000 }
        requires nests { P.nests self.now.parts self.now.room }
        requires low { tallest.now ≤ self.now.room - 1 }
        ensures length { GivesPart view.length_of view.high_length
            (spec.length_of (reading self.now.room) (left_of tokens.old)) result
            (left_of tokens.new) tallest.old tallest.new }
        ensures low { IfOk result (λ _. tallest.new ≤ self.now.room - 1) }
    {
        tokens.take()?;
        if tokens.sees(b"]") {
            return no_length(tokens);
        }
        let value = self.part(Rule::Cond, tokens)?;
        length_end(value, tokens, tallest)
    }

    /// The brackets after a token at this place.
    #[inline(never)]
    #[tactic(auto, using(crate::proofs::Parts::lengths_steps))]
    fn lengths(
        &self,
        before: Span,
        tokens: &mut Cursor<'_, 'a>,
        tallest: &mut u32,
    ) -> Result<ReadLengths<'a>, Fault>
        requires room { self.now.room ≤ 1000 }
        requires nests { P.nests self.now.parts self.now.room }
        requires low { tallest.now ≤ self.now.room - 1 }
        ensures lengths { GivesPart view.all_lengths_of view.high_lengths
            (spec.lengths_of (reading self.now.room) before (left_of tokens.old)) result
            (left_of tokens.new) tallest.old tallest.new }
        ensures low { IfOk result (λ _. tallest.new ≤ self.now.room - 1) }
    {
        let mut all = Vec::new(self.alloc);
        let mut end = before;
        for _turn in 0..tokens.turns() {
            if !tokens.sees(b"[") {
                return Ok(ReadLengths { all, end });
            }
            let ReadLength { one, end: last } = self.length(tokens, tallest)?;
            push(&mut all, one)?;
            end = last;
        }
        Err(Fault::Syntax)
    }

    /// The brackets of a parameter, after what stands before them.
    #[inline(never)]
    fn parameter_after(
        &self,
        start: Span,
        read: ReadSpecifiers<'a>,
        stars: u32,
        name: Option<Identifier<'a>>,
        end: Span,
        tokens: &mut Cursor<'_, 'a>,
        tallest: &mut u32,
    ) -> Result<Box<Parameter<'a>>, Fault>
        requires room { self.now.room ≤ 1000 }
        requires nests { P.nests self.now.parts self.now.room }
        requires low { (tallest.now ≤ self.now.room - 1) × (read.height ≤ self.now.room - 1) }
        requires high { read.height ≡ height_specifiers (specifiers_of read) }
        ensures parameter { GivesPart view.boxed_parameter height_parameter
            (view.parameter_after (reading self.now.room) start (specifiers_of read.entry) stars
            (tag_of name.entry) end (left_of tokens.old)) result (left_of tokens.new) tallest.old
            tallest.new }
        ensures low { IfOk result (λ _. tallest.new ≤ self.now.room - 1) }
    {
        let ReadSpecifiers {
            all: specifiers,
            height,
        } = read;
        let ReadLengths { all: lengths, end } = self.lengths(end, tokens, tallest)?;
        *tallest = (*tallest).max(height);
        let parameter = Parameter {
            specifiers,
            stars,
            name,
            lengths,
            span: to(start, end),
        };
        on_heap(self.alloc, parameter)
    }

    /// A parameter, after its specifiers. It stands apart, so that it takes no room of the stack
    /// where structures nest.
    #[inline(never)]
    #[tactic(auto, using(crate::proofs::Parts::name_steps))]
    fn parameter_named(
        &self,
        start: Span,
        read: ReadSpecifiers<'a>,
        tokens: &mut Cursor<'_, 'a>,
        tallest: &mut u32,
    ) -> Result<Box<Parameter<'a>>, Fault>
        requires room { self.now.room ≤ 1000 }
        requires nests { P.nests self.now.parts self.now.room }
        requires low { (tallest.now ≤ self.now.room - 1) × (read.height ≤ self.now.room - 1) }
        requires high { read.height ≡ height_specifiers (specifiers_of read) }
        ensures parameter { GivesPart view.boxed_parameter height_parameter
            (view.parameter_named (reading self.now.room) start (specifiers_of read.entry)
            (left_of tokens.old)) result (left_of tokens.new) tallest.old tallest.new }
        ensures low { IfOk result (λ _. tallest.new ≤ self.now.room - 1) }
    {
        let stars = stars(end_of_specifiers(start, &read.all), tokens)?;
        let Some(name) = accept_name(tokens) else {
            return self.parameter_after(start, read, stars.count, None, stars.end, tokens, tallest);
        };
        let name = identifier(name);
        self.parameter_after(
            start,
            read,
            stars.count,
            Some(name),
            name.span,
            tokens,
            tallest,
        )
    }

    #[inline(always)]
    #[tactic(auto, unfolding(laws_grammar::specs::Specifiers::parameter_of))]
    fn parameter(
        &self,
        tokens: &mut Cursor<'_, 'a>,
        tallest: &mut u32,
    ) -> Result<Box<Parameter<'a>>, Fault>
        requires room { self.now.room ≤ 1000 }
        requires nests { P.nests self.now.parts self.now.room }
        requires low { tallest.now ≤ self.now.room - 1 }
        ensures parameter { GivesPart view.boxed_parameter height_parameter
            (spec.parameter_of (reading self.now.room) (left_of tokens.old)) result
            (left_of tokens.new) tallest.old tallest.new }
        ensures low { IfOk result (λ _. tallest.new ≤ self.now.room - 1) }
    {
        let start = tokens.first()?;
        let read = self.types(tokens)?;
        self.parameter_named(start, read, tokens, tallest)
    }

    #[inline(always)]
    #[tactic(auto, using(crate::proofs::Parts::parameters_steps))]
    fn parameters(
        &self,
        tokens: &mut Cursor<'_, 'a>,
        tallest: &mut u32,
    ) -> Result<Vec<Parameter<'a>>, Fault>
        requires room { self.now.room ≤ 1000 }
        requires nests { P.nests self.now.parts self.now.room }
        requires low { tallest.now ≤ self.now.room - 1 }
        ensures parameters { GivesPart view.parameters_of view.high_parameters
            (listed (λ turns. comma_list turns (spec.parameter_of (reading self.now.room)) [])
            (left_of tokens.old)) result (left_of tokens.new) tallest.old tallest.new }
        ensures low { IfOk result (λ _. tallest.new ≤ self.now.room - 1) }
    {
        let mut all = Vec::new(self.alloc);
        for _turn in 0..tokens.turns() {
            let one = self.parameter(tokens, tallest)?;
            push_boxed(&mut all, one)?;
            let Some(_) = accept(tokens, b",") else {
                return Ok(all);
            };
        }
        Err(Fault::Syntax)
    }

    /// The parentheses of a function's declarator, after its name.
    #[inline(always)]
    #[tactic(auto, unfolding(laws_grammar::specs::Specifiers::parameters_of))]
    fn function(
        &self,
        start: Span,
        stars: u32,
        name: &Token<'a>,
        tokens: &mut Cursor<'_, 'a>,
        tallest: &mut u32,
    ) -> Result<Box<Declarator<'a>>, Fault>
        requires room { self.now.room ≤ 1000 }
        requires nests { P.nests self.now.parts self.now.room }
        requires low { tallest.now ≤ self.now.room - 1 }
        requires short { IsShort name.now }
        ensures declarator { GivesPart view.boxed_declarator height_declarator
            (view.function_of (reading self.now.room) start stars
            (name_at (lexeme_of (tok_of name.now))) (left_of tokens.old)) result
            (left_of tokens.new) tallest.old tallest.new }
        ensures low { IfOk result (λ _. tallest.new ≤ self.now.room - 1) }
    {
        let open = place(tokens.expect(b"(")?);
        if let Some(close) = accept(tokens, b")") {
            return empty_function(self.alloc, start, stars, name, to(open, place(close)));
        }
        if tokens.sees_void_alone() {
            return void_function(self.alloc, start, stars, name, open, tokens);
        }
        let parameters = self.parameters(tokens, tallest)?;
        listed_function(self.alloc, start, stars, name, open, parameters, tokens)
    }

    /// The brackets of a declarator, after its name.
    #[inline(never)]
    fn object(
        &self,
        start: Span,
        stars: u32,
        name: &Token<'a>,
        tokens: &mut Cursor<'_, 'a>,
        tallest: &mut u32,
    ) -> Result<Box<Declarator<'a>>, Fault>
        requires room { self.now.room ≤ 1000 }
        requires nests { P.nests self.now.parts self.now.room }
        requires low { tallest.now ≤ self.now.room - 1 }
        requires short { IsShort name.now }
        ensures declarator { GivesPart view.boxed_declarator height_declarator
            (view.object_of (reading self.now.room) start stars
            (name_at (lexeme_of (tok_of name.now))) (left_of tokens.old)) result
            (left_of tokens.new) tallest.old tallest.new }
        ensures low { IfOk result (λ _. tallest.new ≤ self.now.room - 1) }
    {
        let name = identifier(name);
        let ReadLengths { all: lengths, end } = self.lengths(name.span, tokens, tallest)?;
        let declarator = Declarator::Object {
            stars,
            name,
            lengths,
            span: to(start, end),
        };
        on_heap(self.alloc, declarator)
    }

    #[inline(always)]
    #[tactic(auto, unfolding(laws_grammar::specs::Specifiers::declarator_of))]
    pub fn declarator(
        &self,
        tokens: &mut Cursor<'_, 'a>,
        tallest: &mut u32,
    ) -> Result<Box<Declarator<'a>>, Fault>
        requires room { self.now.room ≤ 1000 }
        requires nests { P.nests self.now.parts self.now.room }
        requires low { tallest.now ≤ self.now.room - 1 }
        ensures declarator { GivesPart view.boxed_declarator height_declarator
            (spec.declarator_of (reading self.now.room) (left_of tokens.old)) result
            (left_of tokens.new) tallest.old tallest.new }
        ensures low { IfOk result (λ _. tallest.new ≤ self.now.room - 1) }
    {
        let start = tokens.first()?;
        let stars = stars(start, tokens)?;
        let name = tokens.expect_name()?;
        if tokens.sees(b"(") {
            return self.function(start, stars.count, name, tokens, tallest);
        }
        self.object(start, stars.count, name, tokens, tallest)
    }
}
