//! Parts of an output.
ghost use Rattle.std.specs.Prelude.{◌≡◌, take, drop};

/// The numbers from `begin` on that stand before `end`. Takes no memory.
pub fn part(output: &[i32], begin: u32, end: u32) -> &[i32]
    ensures { result.now ≡ drop begin (take end output.now) }
{
    first(output, end as usize, begin as usize)
}

fn first(output: &[i32], end: usize, begin: usize) -> &[i32]
    ensures { result.now ≡ drop begin (take end output.now) }
{
    let end = end.min(output.len());
    later(&output[..end], begin)
}

fn later(output: &[i32], begin: usize) -> &[i32]
    ensures { result.now ≡ drop begin output.now }
{
    let begin = begin.min(output.len());
    &output[begin..]
}
