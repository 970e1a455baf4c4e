//! Members of structures and constants of enumerations (C17 6.7.2.1, 6.7.2.2).
ghost use Rattle.std.specs.Prelude.{◌≡◌, ◌≤◌, ◌+◌, ◌-◌, IfOk, [], map, max};
ghost use Rattle.mc_lex.specs.Tokens.{tok_of};
ghost use Rattle.mc_tree.specs.Tree as tree;
ghost use Rattle.mc_tree.specs.Height.{height_enumerator, height_member};
ghost use Rattle.mc_grammar.specs.Words.{lexeme_of, sees_specifiers};
ghost use Rattle.mc_grammar.specs.Places.{name_at};
ghost use Rattle.laws_grammar.specs.Lists.{braced_list, comma_list, listed, some_list};
ghost use Rattle.laws_grammar.specs.Specifiers as spec;
ghost use Rattle.laws_grammar.specs.Rooms.{reading};
ghost use Rattle.parse_cursor.specs.Cursors.{left_of};
ghost use Rattle.parse_cursor.specs.Short.{IsShort};
ghost use Rattle.parse_expressions.specs.Given.{GivesPart, specifiers_of, tree_of};
ghost use Rattle.parse_expressions.specs.Parts as view;

use crate::accept::accept;
use crate::grammar::Grammar;
use crate::grammar::parts::PartReader;
use crate::read::{Read, ReadSpecifiers};
use mc_lex::Token;
use mc_span::Span;
use mc_tree::{Declarator, Enumerator, Member};
use parse_cursor::cursor::{Cursor, identifier, place};
use parse_cursor::fault::Fault;
use parse_cursor::rule::Rule;
use parse_cursor::to;
use parse_cursor::values::{on_heap, push_boxed};
use std::alloc::Global;

/// The end of a declaration of members, after their declarators. It stands apart, so that it
/// takes no room of the stack where structures nest.
#[inline(never)]
fn member_end<'a>(
    alloc: Global,
    start: Span,
    read: ReadSpecifiers<'a>,
    declarators: Vec<Declarator<'a>>,
    tokens: &mut Cursor<'_, 'a>,
    tallest: &mut u32,
) -> Result<Box<Member<'a>>, Fault>
    ensures member { GivesPart view.boxed_member (λ _. read.entry.height)
        (view.member_end start (specifiers_of read.entry)
        (view.declarators_of declarators.entry) (left_of tokens.old)) result
        (left_of tokens.new) tallest.old tallest.new }
{
    let ReadSpecifiers {
        all: specifiers,
        height,
    } = read;
    let close = tokens.expect(b";")?;
    *tallest = (*tallest).max(height);
    let member = Member {
        specifiers,
        declarators,
        span: to(start, place(close)),
    };
    on_heap(alloc, member)
}

/// A constant of an enumeration without a value.
#[inline(never)]
fn bare_enumerator<'a>(alloc: Global, name: &Token<'a>) -> Result<Box<Enumerator<'a>>, Fault>
    requires short { IsShort name.now }
    ensures { view.IsMade view.boxed_enumerator
        (tree.enumerator (name_at (lexeme_of (tok_of name.now)))) result }
{
    let name = identifier(name);
    on_heap(alloc, Enumerator::Bare { name })
}

/// A constant of an enumeration with its value.
#[inline(never)]
fn valued_enumerator<'a>(
    alloc: Global,
    name: &Token<'a>,
    value: Read<'a>,
    tallest: &mut u32,
) -> Result<Box<Enumerator<'a>>, Fault>
    requires short { IsShort name.now }
    ensures enumerator { view.IsMade view.boxed_enumerator
        (tree.valued_enumerator (name_at (lexeme_of (tok_of name.now))) (tree_of value.entry))
        result }
    ensures tallest { tallest.new ≡ max tallest.old value.entry.height }
{
    let name = identifier(name);
    let Read {
        tree: value,
        height,
    } = value;
    *tallest = (*tallest).max(height);
    on_heap(alloc, Enumerator::Valued { name, value })
}

impl<'a, P: PartReader<'a>> Grammar<P> {
    #[inline(never)]
    #[tactic(auto, using(crate::proofs::Parts::declarators_steps))]
    fn declarators(
        &self,
        tokens: &mut Cursor<'_, 'a>,
        tallest: &mut u32,
    ) -> Result<Vec<Declarator<'a>>, Fault>
        requires room { self.now.room ≤ 1000 }
        requires nests { P.nests self.now.parts self.now.room }
        requires low { tallest.now ≤ self.now.room - 1 }
        ensures declarators { GivesPart view.declarators_of view.high_declarators
            (listed (λ turns. comma_list turns (spec.declarator_of (reading self.now.room)) [])
            (left_of tokens.old)) result (left_of tokens.new) tallest.old tallest.new }
        ensures low { IfOk result (λ _. tallest.new ≤ self.now.room - 1) }
    {
        let mut all = Vec::new(self.alloc);
        for _turn in 0..tokens.turns() {
            let one = self.declarator(tokens, tallest)?;
            push_boxed(&mut all, one)?;
            let Some(_) = accept(tokens, b",") else {
                return Ok(all);
            };
        }
        Err(Fault::Syntax)
    }

    #[inline(always)]
    #[tactic(auto, unfolding(laws_grammar::specs::Specifiers::struct_member_of))]
    fn member_declaration(
        &self,
        tokens: &mut Cursor<'_, 'a>,
        tallest: &mut u32,
    ) -> Result<Box<Member<'a>>, Fault>
        requires room { self.now.room ≤ 1000 }
        requires nests { P.nests self.now.parts self.now.room }
        requires low { tallest.now ≤ self.now.room - 1 }
        ensures member { GivesPart view.boxed_member height_member
            (spec.struct_member_of (reading self.now.room) (left_of tokens.old)) result
            (left_of tokens.new) tallest.old tallest.new }
        ensures low { IfOk result (λ _. tallest.new ≤ self.now.room - 1) }
    {
        let start = tokens.first()?;
        let read = self.types(tokens)?;
        let declarators = self.declarators(tokens, tallest)?;
        member_end(self.alloc, start, read, declarators, tokens, tallest)
    }

    #[inline(always)]
    #[tactic(auto, using(crate::proofs::Parts::members_steps))]
    pub fn members(
        &self,
        tokens: &mut Cursor<'_, 'a>,
        tallest: &mut u32,
    ) -> Result<Vec<Member<'a>>, Fault>
        requires room { self.now.room ≤ 1000 }
        requires nests { P.nests self.now.parts self.now.room }
        requires low { tallest.now ≤ self.now.room - 1 }
        ensures members { GivesPart view.members_of view.high_members
            (listed (λ turns. some_list turns sees_specifiers
            (spec.struct_member_of (reading self.now.room)) []) (left_of tokens.old)) result
            (left_of tokens.new) tallest.old tallest.new }
        ensures low { IfOk result (λ _. tallest.new ≤ self.now.room - 1) }
    {
        let mut all = Vec::new(self.alloc);
        for _turn in 0..tokens.turns() {
            let one = self.member_declaration(tokens, tallest)?;
            push_boxed(&mut all, one)?;
            if !tokens.sees_specifiers() {
                return Ok(all);
            }
        }
        Err(Fault::Syntax)
    }

    #[inline(never)]
    #[tactic(auto, unfolding(laws_grammar::specs::Specifiers::enumerator_of))]
    fn enumerator(
        &self,
        tokens: &mut Cursor<'_, 'a>,
        tallest: &mut u32,
    ) -> Result<Box<Enumerator<'a>>, Fault>
        requires room { self.now.room ≤ 1000 }
        requires nests { P.nests self.now.parts self.now.room }
        requires low { tallest.now ≤ self.now.room - 1 }
        ensures enumerator { GivesPart view.boxed_enumerator height_enumerator
            (spec.enumerator_of (reading self.now.room) (left_of tokens.old)) result
            (left_of tokens.new) tallest.old tallest.new }
        ensures low { IfOk result (λ _. tallest.new ≤ self.now.room - 1) }
    {
        let name = tokens.expect_name()?;
        let Some(_) = accept(tokens, b"=") else {
            return bare_enumerator(self.alloc, name);
        };
        let value = self.part(Rule::Cond, tokens)?;
        valued_enumerator(self.alloc, name, value, tallest)
    }

    /// The constants of an enumeration; a comma may stand after the last.
    #[inline(never)]
    #[tactic(auto, using(crate::proofs::Parts::enumerators_steps))]
    pub fn enumerators(
        &self,
        tokens: &mut Cursor<'_, 'a>,
        tallest: &mut u32,
    ) -> Result<Vec<Enumerator<'a>>, Fault>
        requires room { self.now.room ≤ 1000 }
        requires nests { P.nests self.now.parts self.now.room }
        requires low { tallest.now ≤ self.now.room - 1 }
        ensures enumerators { GivesPart view.enumerators_of view.high_enumerators
            (listed (λ turns. braced_list turns (spec.enumerator_of (reading self.now.room)) [])
            (left_of tokens.old)) result (left_of tokens.new) tallest.old tallest.new }
        ensures low { IfOk result (λ _. tallest.new ≤ self.now.room - 1) }
    {
        let mut all = Vec::new(self.alloc);
        for _turn in 0..tokens.turns() {
            let one = self.enumerator(tokens, tallest)?;
            push_boxed(&mut all, one)?;
            let Some(_) = accept(tokens, b",") else {
                return Ok(all);
            };
            if tokens.sees(b"}") {
                return Ok(all);
            }
        }
        Err(Fault::Syntax)
    }
}
