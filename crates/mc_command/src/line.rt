//! The line of words that `clap` reads.
ghost use Rattle.std.specs.Prelude.{◌≡◌, ◌∷◌, IfOk, codes, option_and_then};
ghost use Rattle.clap.specs.Words.{subcommand_rows_of};
ghost use Rattle.mc_command.specs.Line.{line_of, matches_on, words_of};

use crate::usage::line_command;
use clap::ArgMatches;
use clap::error::ErrorKind;
use mc_port::Words;
use std::alloc::{AllocError, Global};

/// The words after the program's own name, with `mcdc` before them.
pub fn line_of<'w>(alloc: Global, words: &'w Words) -> Result<Vec<&'w str>, AllocError>
    ensures line { IfOk result (λ v. line_of v.items ≡ codes "mcdc" ∷ words.entry.now) }
    ensures words { IfOk result (λ v. words_of v.items ≡ words.entry.now) }
{
    let mut line = Vec::new(alloc);
    line.push("mcdc")?;
    for at in 0..words.count() {
        line.push(words.get(at))?;
    }
    Ok(line)
}

/// The matches of the command line, or `None` where `clap` states none.
pub fn matches_in<'w>(
    alloc: Global,
    line: &'w [&'w str],
) -> Result<Option<ArgMatches<'w>>, AllocError>
    ensures { IfOk result (λ o.
        option_and_then subcommand_rows_of o ≡ matches_on (line_of line.entry.now)) }
{
    let command = line_command(alloc)?;
    match command.try_get_matches_from(line) {
        Ok(matches) => Ok(Some(matches)),
        Err(error) => match error.kind() {
            ErrorKind::OutOfMemory => Err(AllocError),
            _ => Ok(None),
        },
    }
}
