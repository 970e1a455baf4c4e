//! The cells of a frame.
ghost use Rattle.std.specs.Prelude.{◌≡◌, ◌<◌, ◌≤◌, length, slice_get, IfSome};
ghost use Rattle.mc_limits.specs.Limits.{most_frame_cells};
ghost use Rattle.mc_typed.specs.Frames.{frame_of};
ghost use Rattle.mc_typed.specs.Views.{function_of};

use crate::functions::Function;
use crate::programs::Program;

/// How many cells an activation of a function has: those of its parameters that are no arrays, of
/// its locals, and, for each call in its body, of the structure that it returns and of each
/// structure among its arguments. Takes no memory.
pub fn frame(program: &Program<'_>, function: u32) -> u32
    requires { function < length program.now.functions }
    ensures { IfSome (slice_get program.now.functions function)
        (λ f. result ≡ frame_of (function_of f)) }
{
    frame_cells(program.function(function))
}

/// The same of a function whose frame keeps its limit. Takes no memory.
pub fn frame_cells(function: &Function<'_>) -> u32
    requires { frame_of (function_of function.now) ≤ most_frame_cells }
    ensures { result ≡ frame_of (function_of function.now) }
{
    let mut total = 0;
    for object in &function.objects {
        total += object.cells;
    }
    total
}
