//! Specifiers (C17 6.7.1 to 6.7.3).
ghost use Rattle.std.specs.Prelude.{◌≡◌, ◌≤◌, ◌+◌, ◌||◌, IfOk};
ghost use Rattle.mc_lex.specs.Tokens.{tok_of};
ghost use Rattle.mc_tree.specs.Tree as tree;
ghost use Rattle.mc_tree.specs.Views.{name_of, specifier_of, tag_of};
ghost use Rattle.mc_tree.specs.Height.{height_specifier};
ghost use Rattle.mc_grammar.specs.Places as places;
ghost use Rattle.mc_grammar.specs.Places.{at};
ghost use Rattle.mc_grammar.specs.Words.{lexeme_of};
ghost use Rattle.laws_grammar.specs.Specifiers as spec;
ghost use Rattle.laws_grammar.specs.Rooms.{reading};
ghost use Rattle.parse_expressions.specs.Counted.{test_of};
ghost use Rattle.parse_cursor.specs.Cursors.{Gives, left_of};
ghost use Rattle.parse_cursor.specs.Short.{IsShort};
ghost use Rattle.parse_expressions.specs.Given.{GivesPart, GivesSpecifiers};
ghost use Rattle.parse_expressions.specs.Parts.{GivesList, all_specifiers_of};
ghost use Rattle.parse_expressions.specs.Parts as view;

use crate::allowed::Allowed;
use crate::grammar::Grammar;
use crate::grammar::operators::specifier_word;
use crate::grammar::parts::PartReader;
use crate::read::ReadSpecifiers;
use mc_lex::Token;
use mc_tree::{Enumerator, Identifier, Member, Specifier, SpecifierWord};
use parse_cursor::cursor::{Cursor, identifier, place};
use parse_cursor::fault::Fault;
use parse_cursor::to;
use parse_cursor::values::{on_heap, push_boxed};
use std::alloc::Global;

/// Whether there is a type after this specifier.
fn has_type_after(has_type: bool, one: &Specifier<'_>) -> bool
    ensures { result ≡ (has_type || spec.is_type_specifier (specifier_of one.now)) }
{
    has_type
        || !matches!(
            one,
            Specifier::Word {
                word: SpecifierWord::Typedef
                    | SpecifierWord::Static
                    | SpecifierWord::Extern
                    | SpecifierWord::Const,
                ..
            }
        )
}

/// A keyword that is a whole specifier.
#[inline(never)]
fn keyword<'a>(
    alloc: Global,
    word: SpecifierWord,
    tokens: &mut Cursor<'_, 'a>,
) -> Result<Box<Specifier<'a>>, Fault>
    ensures word { Gives view.boxed_specifier (view.word_of word (left_of tokens.old)) result
        (left_of tokens.new) }
    ensures flat { IfOk result (λ one. height_specifier (specifier_of one.value) ≡ 0) }
{
    let span = place(tokens.take()?);
    on_heap(alloc, Specifier::Word { word, span })
}

#[inline(never)]
fn typedef_name<'a>(alloc: Global, tokens: &mut Cursor<'_, 'a>) -> Result<Box<Specifier<'a>>, Fault>
    ensures name { Gives view.boxed_specifier (view.typedef_name_of (left_of tokens.old)) result
        (left_of tokens.new) }
    ensures flat { IfOk result (λ one. height_specifier (specifier_of one.value) ≡ 0) }
{
    let name = identifier(tokens.take()?);
    on_heap(alloc, Specifier::TypedefName { name })
}

/// The end of a structure, after its members, the tallest of which has `inner` levels.
#[inline(never)]
fn structure_end<'a>(
    alloc: Global,
    first: &Token<'a>,
    tag: Option<Identifier<'a>>,
    members: Vec<Member<'a>>,
    inner: u32,
    tokens: &mut Cursor<'_, 'a>,
    tallest: &mut u32,
) -> Result<Box<Specifier<'a>>, Fault>
    requires small { inner ≤ 1000 }
    requires short { IsShort first.now }
    ensures specifier { GivesPart view.boxed_specifier (λ _. inner + 1)
        (view.structure_end (lexeme_of (tok_of first.now)) (tag_of tag.entry)
        (view.members_of members.entry) (left_of tokens.old)) result (left_of tokens.new)
        tallest.old tallest.new }
{
    let close = tokens.expect(b"}")?;
    *tallest = (*tallest).max(inner + 1);
    let specifier = Specifier::Structure {
        tag,
        members,
        span: to(place(first), place(close)),
    };
    on_heap(alloc, specifier)
}

/// The end of an enumeration, after its constants, the tallest of which has `inner` levels.
#[inline(never)]
fn enumeration_end<'a>(
    alloc: Global,
    first: &Token<'a>,
    tag: Option<Identifier<'a>>,
    enumerators: Vec<Enumerator<'a>>,
    inner: u32,
    tokens: &mut Cursor<'_, 'a>,
    tallest: &mut u32,
) -> Result<Box<Specifier<'a>>, Fault>
    requires small { inner ≤ 1000 }
    requires short { IsShort first.now }
    ensures specifier { GivesPart view.boxed_specifier (λ _. inner + 1)
        (view.enumeration_end (lexeme_of (tok_of first.now)) (tag_of tag.entry)
        (view.enumerators_of enumerators.entry) (left_of tokens.old)) result (left_of tokens.new)
        tallest.old tallest.new }
{
    let close = tokens.expect(b"}")?;
    *tallest = (*tallest).max(inner + 1);
    let specifier = Specifier::Enumeration {
        tag,
        enumerators,
        span: to(place(first), place(close)),
    };
    on_heap(alloc, specifier)
}

/// An enumeration without a list.
#[inline(never)]
fn enumeration_tag<'a>(
    alloc: Global,
    first: &Token<'a>,
    tag: Identifier<'a>,
) -> Result<Box<Specifier<'a>>, Fault>
    requires short { IsShort first.now }
    ensures { view.IsMadeSpecifier
        (tree.EnumerationTag (name_of tag.entry)
        (places.to (at (lexeme_of (tok_of first.now))) tag.entry.span)) result }
{
    let span = to(place(first), tag.span);
    on_heap(alloc, Specifier::EnumerationTag { tag, span })
}

/// A structure without a list. It stands apart, so that it takes no room of the stack where
/// structures nest.
#[inline(never)]
fn structure_tag<'a>(
    alloc: Global,
    first: &Token<'a>,
    tag: Identifier<'a>,
) -> Result<Box<Specifier<'a>>, Fault>
    requires short { IsShort first.now }
    ensures { view.IsMadeSpecifier
        (tree.StructureTag (name_of tag.entry)
        (places.to (at (lexeme_of (tok_of first.now))) tag.entry.span)) result }
{
    let span = to(place(first), tag.span);
    on_heap(alloc, Specifier::StructureTag { tag, span })
}

impl<'a, P: PartReader<'a>> Grammar<P> {
    /// The members of a structure, from their brace on.
    #[inline(always)]
    fn structure_list(
        &self,
        first: &Token<'a>,
        tag: Option<Identifier<'a>>,
        tokens: &mut Cursor<'_, 'a>,
        tallest: &mut u32,
    ) -> Result<Box<Specifier<'a>>, Fault>
        requires room { self.now.room ≤ 1000 }
        requires nests { P.nests self.now.parts self.now.room }
        requires low { tallest.now ≤ self.now.room }
        requires short { IsShort first.now }
        ensures specifier { GivesPart view.boxed_specifier height_specifier
            (spec.structure_list (reading self.now.room) self.now.room
            (lexeme_of (tok_of first.now)) (tag_of tag.entry) (left_of tokens.old)) result
            (left_of tokens.new) tallest.old tallest.new }
        ensures low { IfOk result (λ _. tallest.new ≤ self.now.room) }
    {
        if self.room == 0 {
            return Err(Fault::Syntax);
        }
        tokens.take()?;
        let mut inner = 0;
        let members = self.members(tokens, &mut inner)?;
        structure_end(self.alloc, first, tag, members, inner, tokens, tallest)
    }

    #[inline(always)]
    #[tactic(auto, unfolding(laws_grammar::specs::Specifiers::structure_of))]
    fn structure(
        &self,
        tokens: &mut Cursor<'_, 'a>,
        tallest: &mut u32,
    ) -> Result<Box<Specifier<'a>>, Fault>
        requires room { self.now.room ≤ 1000 }
        requires nests { P.nests self.now.parts self.now.room }
        requires low { tallest.now ≤ self.now.room }
        ensures specifier { GivesPart view.boxed_specifier height_specifier
            (spec.structure_of (reading self.now.room) self.now.room (left_of tokens.old)) result
            (left_of tokens.new) tallest.old tallest.new }
        ensures low { IfOk result (λ _. tallest.new ≤ self.now.room) }
    {
        let first = tokens.take()?;
        let tag = if tokens.sees(b"{") {
            None
        } else {
            let tag = identifier(tokens.expect_tag()?);
            if !tokens.sees(b"{") {
                return structure_tag(self.alloc, first, tag);
            }
            Some(tag)
        };
        self.structure_list(first, tag, tokens, tallest)
    }

    /// The constants of an enumeration, from their brace on.
    #[inline(never)]
    fn enumeration_list(
        &self,
        first: &Token<'a>,
        tag: Option<Identifier<'a>>,
        tokens: &mut Cursor<'_, 'a>,
        tallest: &mut u32,
    ) -> Result<Box<Specifier<'a>>, Fault>
        requires room { self.now.room ≤ 1000 }
        requires nests { P.nests self.now.parts self.now.room }
        requires low { tallest.now ≤ self.now.room }
        requires short { IsShort first.now }
        ensures specifier { GivesPart view.boxed_specifier height_specifier
            (spec.enumeration_list (reading self.now.room) self.now.room
            (lexeme_of (tok_of first.now)) (tag_of tag.entry) (left_of tokens.old)) result
            (left_of tokens.new) tallest.old tallest.new }
        ensures low { IfOk result (λ _. tallest.new ≤ self.now.room) }
    {
        if self.room == 0 {
            return Err(Fault::Syntax);
        }
        tokens.take()?;
        let mut inner = 0;
        let enumerators = self.enumerators(tokens, &mut inner)?;
        enumeration_end(self.alloc, first, tag, enumerators, inner, tokens, tallest)
    }

    #[inline(never)]
    #[tactic(auto, unfolding(laws_grammar::specs::Specifiers::enumeration_of))]
    fn enumeration(
        &self,
        tokens: &mut Cursor<'_, 'a>,
        tallest: &mut u32,
    ) -> Result<Box<Specifier<'a>>, Fault>
        requires room { self.now.room ≤ 1000 }
        requires nests { P.nests self.now.parts self.now.room }
        requires low { tallest.now ≤ self.now.room }
        ensures specifier { GivesPart view.boxed_specifier height_specifier
            (spec.enumeration_of (reading self.now.room) self.now.room (left_of tokens.old)) result
            (left_of tokens.new) tallest.old tallest.new }
        ensures low { IfOk result (λ _. tallest.new ≤ self.now.room) }
    {
        let first = tokens.take()?;
        if tokens.sees(b"{") {
            return self.enumeration_list(first, None, tokens, tallest);
        }
        let tag = identifier(tokens.expect_tag()?);
        if tokens.sees(b"{") {
            return self.enumeration_list(first, Some(tag), tokens, tallest);
        }
        enumeration_tag(self.alloc, first, tag)
    }

    #[inline(always)]
    #[tactic(auto, unfolding(laws_grammar::specs::Specifiers::specifier_of))]
    fn specifier(
        &self,
        tokens: &mut Cursor<'_, 'a>,
        tallest: &mut u32,
    ) -> Result<Box<Specifier<'a>>, Fault>
        requires room { self.now.room ≤ 1000 }
        requires nests { P.nests self.now.parts self.now.room }
        requires low { tallest.now ≤ self.now.room }
        ensures specifier { GivesPart view.boxed_specifier height_specifier
            (spec.specifier_of (reading self.now.room) self.now.room (left_of tokens.old)) result
            (left_of tokens.new) tallest.old tallest.new }
        ensures low { IfOk result (λ _. tallest.new ≤ self.now.room) }
    {
        if let Some(word) = specifier_word(tokens) {
            return keyword(self.alloc, word, tokens);
        }
        if tokens.sees_keyword(b"struct") {
            return self.structure(tokens, tallest);
        }
        if tokens.sees_keyword(b"enum") {
            return self.enumeration(tokens, tallest);
        }
        typedef_name(self.alloc, tokens)
    }

    /// Specifiers, as long as they go on.
    #[inline(always)]
    #[tactic(auto, using(crate::proofs::Parts::specifiers_steps))]
    fn all_specifiers(&self, tokens: &mut Cursor<'_, 'a>) -> Result<ReadSpecifiers<'a>, Fault>
        requires room { self.now.room ≤ 1000 }
        requires nests { P.nests self.now.parts self.now.room }
        ensures specifiers { GivesList (all_specifiers_of (reading self.now.room) self.now.room
            (left_of tokens.old)) result (left_of tokens.new) }
        ensures height { IfOk result (λ r. r.height ≤ self.now.room) }
    {
        let mut all = Vec::new(self.alloc);
        let mut height = 0u32;
        let mut has_type = false;
        for _turn in 0..tokens.turns() {
            if !tokens.goes_on(has_type) {
                return Ok(ReadSpecifiers { all, height });
            }
            let one = self.specifier(tokens, &mut height)?;
            has_type = has_type_after(has_type, &one);
            push_boxed(&mut all, one)?;
        }
        Err(Fault::Syntax)
    }

    /// Specifiers that may stand together here.
    #[inline(always)]
    #[tactic(auto, unfolding(laws_grammar::specs::Specifiers::specifiers_of))]
    pub fn specifiers(
        &self,
        tokens: &mut Cursor<'_, 'a>,
        allowed: Allowed,
    ) -> Result<ReadSpecifiers<'a>, Fault>
        requires room { self.now.room ≤ 1000 }
        requires nests { P.nests self.now.parts self.now.room }
        ensures specifiers { GivesSpecifiers
            (spec.specifiers_of (reading self.now.room) self.now.room (test_of allowed)
            (left_of tokens.old)) result (left_of tokens.new) }
        ensures height { IfOk result (λ r. r.height ≤ self.now.room) }
    {
        let before = tokens.rest;
        let read = self.all_specifiers(tokens)?;
        if allowed.allows(&read.all) {
            return Ok(read);
        }
        if let Some(place) = allowed.refused(&read.all) {
            tokens.go_back(before, place.start);
        }
        Err(Fault::Syntax)
    }
}
