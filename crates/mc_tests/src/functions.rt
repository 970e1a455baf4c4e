//! The functions of a program by their names.
ghost use Rattle.std.specs.Prelude.{◌<◌, ◌^◌, IfOk, length, map};
ghost use Rattle.mc_typed.specs.Views.{function_of};
ghost use Rattle.mc_tests.specs.Seen.{AreNumbers};

use mc_typed::Function;
use name_table::Table;
use std::alloc::{AllocError, Global};

/// The number of each function by its name; of functions with one name it is that of the first. In
/// a table the last entry of a name counts, so the last function goes in first.
pub(crate) fn numbers_by_name<'p>(
    alloc: Global,
    functions: &'p [Function<'_>],
) -> Result<Table<'p, u32>, AllocError>
    requires { length functions.now < 2 ^ 31 }
    ensures { IfOk result (λ numbers. AreNumbers numbers (map function_of functions.now)) }
{
    let mut numbers = Table::new(alloc);
    let mut left = functions;
    while let [before @ .., function] = left {
        numbers.push(function.name, before.len() as u32)?;
        left = before;
    }
    Ok(numbers)
}
