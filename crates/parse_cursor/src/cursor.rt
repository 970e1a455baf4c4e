//! The tokens that are left to read.
ghost use Rattle.std.specs.Prelude.{◌<◌, ◌^◌, All, length};
ghost use Rattle.parse_cursor.specs.Short.{IsShort};

mod asks;
mod names;
mod takes;

pub use asks::{is_keyword, is_punctuator};
use mc_lex::Token;
use name_table::Table;
pub use takes::{identifier, place};

/// Tokens that are read from the front, and the names of the typedefs that are in force.
#[derive(Drop)]
pub struct Cursor<'t, 'a> {
    pub rest: &'t [Token<'a>],
    pub names: Table<'a, ()>,
    ghost short: { All IsShort rest.now },
    ghost few: { length rest.now < 2 ^ 31 },
}
