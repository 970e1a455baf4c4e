//! What was read: parts of a tree, with their heights.
ghost use Rattle.std.specs.Prelude.{◌≡◌, ◌∷◌, ◌++◌, [], IfOk, max, nat_le};
ghost use Rattle.parse_expressions.specs.Given.{IsAllHigh, IsHigh, tree_of, trees_of};

use mc_span::Span;
use mc_tree::{ArrayLength, Expression, Specifier};
use parse_cursor::is_too_high;
use parse_cursor::values::push_boxed;
use std::alloc::{AllocError, Global};

/// An expression and how many levels it has.
#[derive(Drop)]
pub struct Read<'a> {
    pub tree: Box<Expression<'a>>,
    pub height: u32,
}

impl Read<'_> {
    /// Whether it is too high to be a part of a tree of at most `room` levels.
    pub fn is_too_high(&self, room: u32) -> bool
        ensures { result ≡ nat_le room self.now.height }
    {
        is_too_high(self.height, room)
    }
}

/// Expressions with commas between them, and the greatest of their heights.
#[derive(Drop)]
pub struct ReadAll<'a> {
    pub trees: Vec<Expression<'a>>,
    pub height: u32,
}

impl<'a> ReadAll<'a> {
    pub fn new(alloc: Global) -> ReadAll<'a>
        ensures trees { trees_of result ≡ [] }
        ensures all_high { IsAllHigh result }
        ensures height { result.height ≡ 0 }
    {
        ReadAll {
            trees: Vec::new(alloc),
            height: 0,
        }
    }

    /// Puts an expression at the end.
    #[inline(never)]
    #[tactic(auto, using(crate::proofs::Lists::push_steps))]
    pub fn push(&mut self, one: Read<'a>) -> Result<(), AllocError>
        requires high { IsHigh one }
        requires all_high { IsAllHigh self.now }
        ensures trees { IfOk result (λ _. trees_of self.new ≡ trees_of self.old
            ++ tree_of one.entry ∷ []) }
        ensures all_high { IfOk result (λ _. IsAllHigh self.new) }
        ensures height { IfOk result (λ _. self.new.height ≡ max self.old.height one.entry.height) }
    {
        let Read { tree, height } = one;
        push_boxed(&mut self.trees, tree)?;
        self.height = self.height.max(height);
        Ok(())
    }
}

/// Specifiers and how many levels they have.
#[derive(Drop)]
pub struct ReadSpecifiers<'a> {
    pub all: Vec<Specifier<'a>>,
    pub height: u32,
}

/// How many `*`, and the place of the last token read.
#[derive(Clone, Copy, Debug)]
pub struct ReadStars {
    pub count: u32,
    pub end: Span,
}

/// A type name: its specifiers, how many `*`, its place and how many levels it has.
#[derive(Drop)]
pub struct ReadType<'a> {
    pub all: Vec<Specifier<'a>>,
    pub stars: u32,
    pub span: Span,
    pub height: u32,
}

/// A pair of brackets, and where it ends.
#[derive(Drop)]
pub struct ReadLength<'a> {
    pub one: ArrayLength<'a>,
    pub end: Span,
}

/// The brackets after a name, and where the last token read stands.
#[derive(Drop)]
pub struct ReadLengths<'a> {
    pub all: Vec<ArrayLength<'a>>,
    pub end: Span,
}
