//! The levels of an activation of a function.
ghost use Rattle.std.specs.Prelude.{◌≡◌, ◌+◌, ◌<◌, length, map, slice_get, IfSome};
ghost use Rattle.mc_typed.specs.Levels.{height_statements, levels_of, limited, limited_more, one_more};
ghost use Rattle.mc_typed.specs.Views.{function_of, statement_of, statements_from};

mod effects;
mod expressions;
mod initializers;
mod statements;

use crate::programs::Program;
use crate::statements::Statement;

/// How many levels an activation of a function takes: the height of its body, which is at level 1,
/// where each statement or expression inside is one level deeper and implied conversions are none;
/// 2^32 - 1 where it is greater. Takes no memory.
pub fn levels(program: &Program<'_>, function: u32) -> u32
    requires { function < length program.now.functions }
    ensures { IfSome (slice_get program.now.functions function)
        (λ f. result ≡ limited (levels_of (function_of f))) }
{
    levels_of_body(&program.function(function).body)
}

/// The same of the items of a body. Takes no memory.
pub fn levels_of_body(body: &[Statement]) -> u32
    ensures { result
        ≡ limited (height_statements one_more (statements_from (map statement_of body.now)) + 1) }
{
    deeper(statements::statements(body))
}

/// One level more.
fn deeper(levels: u32) -> u32
    ensures { result ≡ limited_more levels }
{
    if levels < u32::MAX {
        levels + 1
    } else {
        levels
    }
}
