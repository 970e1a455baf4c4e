//! The source that is generated: its functions, each in a line.
ghost use Rattle.std.specs.Prelude.{◌≡◌, ◌≤◌, IfOk, string_bytes};
ghost use Rattle.mc_limits.specs.Limits.{most_functions};
ghost use Rattle.mc_gen.specs.Source.{condition_of, function_line, source_text};

use std::alloc::{AllocError, Global};

/// What the function of this number asks in its loop.
fn condition(number: u32) -> &'static str
    ensures { result.now ≡ condition_of number }
{
    match number % 4 {
        1 => "a<b&&c<d",
        2 => "a<b||c<d",
        3 => "(a<b||b<c)&&c<d",
        _ => "!(a<b&&b<c)||c<d",
    }
}

fn function_line(alloc: Global, number: u32) -> Result<String, AllocError>
    ensures { IfOk result (λ line. string_bytes line ≡ function_line number) }
{
    let condition = condition(number);
    format!(in alloc;
        "int g{number}(int a,int b,int c,int d){{int s=0;int i;for(i=0;i<8;i++){{if({condition})s++;}}return s;}}\n"
    )
}

/// The functions, each in a line of its own.
pub(crate) fn source(alloc: Global, functions: u32) -> Result<Vec<u8>, AllocError>
    requires { functions ≤ most_functions }
    ensures { IfOk result (λ text. text.items ≡ source_text functions) }
{
    let mut text = Vec::new(alloc);
    for number in 1..functions + 1 {
        let line = function_line(alloc, number)?;
        text.extend_from_slice(line.as_bytes())?;
    }
    Ok(text)
}
