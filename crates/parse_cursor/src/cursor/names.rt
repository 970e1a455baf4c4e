//! Names of typedefs.
ghost use Rattle.std.specs.Prelude.{◌≡◌, ◌<◌, ◌^◌, ◌||◌, ℕ, All, Bool, IfOk, List, OnOk, length};
ghost use Rattle.std.specs.Str.{bytes_eq};
ghost use Rattle.mc_tree.specs.Tree as tree;
ghost use Rattle.mc_tree.specs.Views.{declarator_of, name_of};
ghost use Rattle.mc_lex.specs.Tokens.{toks_of};
ghost use Rattle.mc_grammar.specs.Statements.{after};
ghost use Rattle.mc_grammar.specs.Words.{lexemes_of};
ghost use Rattle.parse_cursor.specs.Short.{IsShort};
ghost use Rattle.parse_cursor.specs.Cursors.{has_name, left_of};

use crate::cursor::Cursor;
use mc_lex::Token;
use mc_tree::{Declarator, Identifier};
use name_table::Table;
use std::alloc::{AllocError, Global};

/// Adds a name. It needs no meaning: all that is asked is whether it is there.
#[tactic(auto, using(crate::proofs::Names::one_more))]
fn add<'a>(names: &mut Table<'a, ()>, name: &'a [u8]) -> Result<(), AllocError>
    ensures { OnOk result ((q : List ℕ)
        → has_name names.new q ≡ (bytes_eq name.now q || has_name names.old q)) }
{
    names.push(name, ())
}

/// The name that a declarator declares.
fn name<'a>(declarator: &Declarator<'a>) -> Identifier<'a>
    ensures { name_of result ≡ tree.name_of (declarator_of declarator.now) }
{
    match declarator {
        Declarator::Object { name, .. }
        | Declarator::EmptyFunction { name, .. }
        | Declarator::VoidFunction { name, .. }
        | Declarator::Function { name, .. } => *name,
    }
}

impl<'t, 'a> Cursor<'t, 'a> {
    /// All the tokens of a source, before any name of a typedef is in force.
    #[tactic(auto, using(crate::proofs::Names::unmarked))]
    pub fn new(alloc: Global, tokens: &'t [Token<'a>]) -> Cursor<'t, 'a>
        requires short { All IsShort tokens.now }
        requires few { length tokens.now < 2 ^ 31 }
        ensures left { left_of result ≡ lexemes_of (toks_of tokens.now) }
    {
        Cursor {
            rest: tokens,
            names: Table::new(alloc),
        }
    }

    /// From here on the name of a typedef's declarator is a typedef name.
    #[tactic(auto, using(crate::proofs::Names::retags))]
    pub fn declare(&mut self, typedef: bool, declarator: &Declarator<'a>) -> Result<(), AllocError>
        ensures { OnOk result (left_of self.new
            ≡ after typedef (declarator_of declarator.now) (left_of self.old)) }
    {
        if typedef {
            add(&mut self.names, name(declarator).text)?;
        }
        Ok(())
    }
}
