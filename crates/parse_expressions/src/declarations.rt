//! Declarations (C17 6.7).
ghost use Rattle.std.specs.Prelude.{◌≡◌, ◌≤◌, ◌∷◌, ◌++◌, [], Bool, IfOk, map};
ghost use Rattle.mc_tree.specs.Tree as tree;
ghost use Rattle.mc_tree.specs.Views.{declarator_of};
ghost use Rattle.mc_grammar.specs.Places as places;
ghost use Rattle.mc_tree.specs.Units.{declaration_of, init_declarator_of};
ghost use Rattle.laws_grammar.specs.Declarations as spec;
ghost use Rattle.laws_grammar.specs.Lists.{comma_list, listed};
ghost use Rattle.parse_expressions.specs.Counted.{test_of};
ghost use Rattle.parse_cursor.specs.Cursors.{Gives, left_of};
ghost use Rattle.parse_expressions.specs.Heads.{words_of};

use crate::accept::accept;
use crate::allowed::Allowed;
use crate::initializers::initializer;
use crate::knot::{declarator, specifiers};
use mc_span::Span;
use mc_tree::{Declaration, Declarator, InitDeclarator, Specifier};
use parse_cursor::cursor::{Cursor, place};
use parse_cursor::fault::Fault;
use parse_cursor::to;
use parse_cursor::values::{on_heap, push_boxed};
use std::alloc::{AllocError, Global};

/// The specifiers at the front of a declaration, and where it starts.
#[derive(Drop)]
pub struct Head<'a> {
    pub start: Span,
    pub specifiers: Vec<Specifier<'a>>,
}

/// The initializer after a declarator, if there is one. The name of a typedef is one from here on.
#[inline(never)]
#[tactic(auto, unfolding(laws_grammar::specs::Declarations::valued_of))]
fn valued<'a>(
    alloc: Global,
    typedef: bool,
    room: u32,
    declarator: Declarator<'a>,
    tokens: &mut Cursor<'_, 'a>,
) -> Result<Box<InitDeclarator<'a>>, Fault>
    requires { room ≤ 1000 }
    ensures { Gives (λ one. init_declarator_of one.value)
        (spec.valued_of typedef room (declarator_of declarator.entry) (left_of tokens.old)) result
        (left_of tokens.new) }
{
    tokens.declare(typedef, &declarator)?;
    let Some(_) = accept(tokens, b"=") else {
        return on_heap(alloc, InitDeclarator::Bare { declarator });
    };
    let value = initializer(alloc, tokens, room)?;
    on_heap(alloc, InitDeclarator::Initialized { declarator, value })
}

#[tactic(auto, using(crate::proofs::Lists::map_push))]
fn push<'a>(
    all: &mut Vec<InitDeclarator<'a>>,
    one: Box<InitDeclarator<'a>>,
) -> Result<(), AllocError>
    ensures { IfOk result (λ _. map init_declarator_of all.new.items
        ≡ map init_declarator_of all.old.items ++ init_declarator_of one.entry.value ∷ []) }
{
    push_boxed(all, one)
}

/// The declarators of a list with commas between them, after these.
#[inline(never)]
#[tactic(auto, using(crate::proofs::Lists::expressions_steps), unfolding(laws_grammar::specs::Declarations::init_declarator_of))]
fn declarators<'a>(
    alloc: Global,
    typedef: bool,
    room: u32,
    all: &mut Vec<InitDeclarator<'a>>,
    tokens: &mut Cursor<'_, 'a>,
) -> Result<(), Fault>
    requires { room ≤ 1000 }
    ensures { Gives (λ _. map init_declarator_of all.new.items)
        (listed (λ turns. comma_list turns (spec.init_declarator_of typedef room)
        (map init_declarator_of all.old.items)) (left_of tokens.old)) result
        (left_of tokens.new) }
{
    for _turn in 0..tokens.turns() {
        let one = declarator(alloc, tokens, room)?;
        let one = valued(alloc, typedef, room, one, tokens)?;
        push(all, one)?;
        let Some(_) = accept(tokens, b",") else {
            return Ok(());
        };
    }
    Err(Fault::Syntax)
}

/// The declarators of a declaration, the first of which is read.
#[inline(never)]
fn more_declarators<'a>(
    alloc: Global,
    typedef: bool,
    room: u32,
    first: Box<InitDeclarator<'a>>,
    tokens: &mut Cursor<'_, 'a>,
) -> Result<Vec<InitDeclarator<'a>>, Fault>
    requires { room ≤ 1000 }
    ensures { Gives (λ all. map init_declarator_of all.items)
        (spec.more_declarators_of typedef room (init_declarator_of first.entry.value)
        (left_of tokens.old)) result (left_of tokens.new) }
{
    let mut all = Vec::new(alloc);
    push(&mut all, first)?;
    let Some(_) = accept(tokens, b",") else {
        return Ok(all);
    };
    declarators(alloc, typedef, room, &mut all, tokens)?;
    Ok(all)
}

/// The rest of a declaration, whose first declarator is read.
#[inline(never)]
#[tactic(auto, unfolding(laws_grammar::specs::Declarations::declared_of))]
pub fn declared<'a>(
    alloc: Global,
    typedef: bool,
    room: u32,
    head: Head<'a>,
    first: Declarator<'a>,
    tokens: &mut Cursor<'_, 'a>,
) -> Result<Declaration<'a>, Fault>
    requires { room ≤ 1000 }
    ensures { Gives declaration_of
        (spec.declared_of typedef room head.entry.start (words_of head.entry)
        (declarator_of first.entry) (left_of tokens.old)) result (left_of tokens.new) }
{
    let first = valued(alloc, typedef, room, first, tokens)?;
    let all = more_declarators(alloc, typedef, room, first, tokens)?;
    let last = tokens.expect(b";")?;
    Ok(declaration(head, all, place(last)))
}

fn declaration<'a>(
    head: Head<'a>,
    declarators: Vec<InitDeclarator<'a>>,
    last: Span,
) -> Declaration<'a>
    ensures { declaration_of result
        ≡ tree.declaration (words_of head.entry) (map init_declarator_of declarators.entry.items)
        (places.to head.entry.start last) }
{
    let Head { start, specifiers } = head;
    Declaration {
        specifiers,
        declarators,
        span: to(start, last),
    }
}

/// A declaration without declarators.
pub fn undeclared<'a>(
    alloc: Global,
    head: Head<'a>,
    tokens: &mut Cursor<'_, 'a>,
) -> Result<Declaration<'a>, Fault>
    ensures { Gives declaration_of (spec.undeclared_of head.entry.start (words_of head.entry)
        (left_of tokens.old)) result (left_of tokens.new) }
{
    let last = tokens.take()?;
    Ok(declaration(head, Vec::new(alloc), place(last)))
}

/// Reads a declaration of fewer than `room` levels that is not a typedef.
#[inline(never)]
#[tactic(auto, unfolding(laws_grammar::specs::Declarations::local_of))]
pub fn local<'a>(
    alloc: Global,
    room: u32,
    allowed: Allowed,
    tokens: &mut Cursor<'_, 'a>,
) -> Result<Declaration<'a>, Fault>
    requires { room ≤ 1000 }
    ensures { Gives declaration_of (spec.local_of (test_of allowed) room (left_of tokens.old))
        result (left_of tokens.new) }
{
    let start = tokens.first()?;
    let specifiers = specifiers(alloc, tokens, room, allowed)?;
    let head = Head { start, specifiers };
    if tokens.sees(b";") {
        return undeclared(alloc, head, tokens);
    }
    let first = declarator(alloc, tokens, room)?;
    declared(alloc, false, room, head, first, tokens)
}
