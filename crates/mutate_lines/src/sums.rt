//! How many mutants are killed, and how many survive.
ghost use Rattle.std.specs.Prelude.{◌≡◌, IfOk};
ghost use Rattle.mutate_lines.specs.Lines.{sum_line, survived_of};

use std::alloc::{AllocError, Global};

/// How many mutants no test kills.
pub fn survived(killers: &[Option<u32>]) -> usize
    ensures { result ≡ survived_of killers.now }
{
    let mut count = 0;
    let mut left = killers;
    while let [killer, later @ ..] = left {
        if killer.is_none() {
            count += 1;
        }
        left = later;
    }
    count
}

/// The line on how many of how many mutants are killed, and how many survive.
#[tactic(auto, using(crate::proofs::Told::all_told))]
pub(crate) fn sum_line(alloc: Global, killers: &[Option<u32>]) -> Result<Vec<u8>, AllocError>
    ensures { IfOk result (λ line. line.items ≡ sum_line killers.now) }
{
    let all = killers.len();
    let survived = survived(killers);
    let killed = all - survived;
    let text = format!(in alloc; "mutants killed {killed} survived {survived} of {all}\n")?;
    Ok(text.into_bytes())
}
