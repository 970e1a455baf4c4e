//! From a source and the records of tests to their runs.
ghost use Rattle.std.specs.Prelude.{◌<◌, ◌+◌, ◌^◌, length, All};

use crate::fail::Fail;
use crate::row::{Row, row_of};
use crate::runs::are_right;
use mc_lex::{Dialect, Token, lex};
use mc_parse::parse;
use mc_subset::check;
use mc_tests::read_tests;
use mc_tree::Unit;
use mc_typed::Program;
use mc_types::type_unit;
use std::alloc::Global;

const HEADER: &str = "test,call,arguments,inputs,expect,output";

/// The file of these records, which `$` ends.
fn file_of(alloc: Global, records: &str) -> Result<Vec<u8>, Fail> {
    let mut file = Vec::new(alloc);
    file.extend_from_slice(HEADER.as_bytes())?;
    file.push(b'\n')?;
    for byte in records.as_bytes() {
        file.push(if *byte == b'$' { b'\n' } else { *byte })?;
    }
    Ok(file)
}

fn tested(alloc: Global, program: &Program<'_>, row: &Row<'_>) -> Result<bool, Fail> {
    if row.fuel == 0 || row.fuel > 100_000_000 {
        return Err(Fail);
    }
    let file = file_of(alloc, row.records)?;
    match read_tests(alloc, &file, program, row.fuel) {
        Ok(plans) => {
            let right = are_right(alloc, program, &plans, row);
            drop(plans);
            right
        }
        Err(_) => Err(Fail),
    }
}

/// What a source is read as: its tree, and then its typed program.
trait Stage {
    /// Whether the tests of a row come to what it says.
    fn holds(&self, alloc: Global, row: &Row<'_>) -> Result<bool, Fail>;
}

/// The same of what was read, which is let go. For any type: a match that takes a whole tree or
/// program out of its result makes a long proof.
fn holds_of<T: Stage + Drop, E: Drop>(
    alloc: Global,
    row: &Row<'_>,
    read: Result<T, E>,
) -> Result<bool, Fail> {
    match read {
        Ok(it) => {
            let right = it.holds(alloc, row);
            drop(it);
            right
        }
        Err(_) => Err(Fail),
    }
}

impl Stage for Program<'_> {
    fn holds(&self, alloc: Global, row: &Row<'_>) -> Result<bool, Fail> {
        tested(alloc, self, row)
    }
}

impl Stage for Unit<'_> {
    fn holds(&self, alloc: Global, row: &Row<'_>) -> Result<bool, Fail> {
        if check(self).is_err() {
            return Err(Fail);
        }
        holds_of(alloc, row, type_unit(alloc, self))
    }
}

fn of_tokens(alloc: Global, row: &Row<'_>, tokens: &[Token<'_>]) -> Result<bool, Fail>
    requires short { All (λ token. token.start + length token.text.now < 2 ^ 31) tokens.now }
    requires few { length tokens.now < 2 ^ 31 }
{
    holds_of(alloc, row, parse(alloc, tokens, Dialect::Plain))
}

/// Whether the tests of a row come to what it says.
#[tactic(auto, using(crate::proofs::Short::all_short))]
fn holds(alloc: Global, row: &Row<'_>) -> Result<bool, Fail> {
    let source = row.source.as_bytes();
    if source.len() >= 0x8000_0000 {
        return Err(Fail);
    }
    match lex(alloc, source, Dialect::Plain) {
        Ok(tokens) => {
            let right = of_tokens(alloc, row, &tokens);
            drop(tokens);
            right
        }
        Err(_) => Err(Fail),
    }
}

/// The same of the row of a text.
pub(crate) fn told(alloc: Global, text: &str) -> Result<bool, Fail> {
    match row_of(text) {
        Some(row) => holds(alloc, &row),
        None => Err(Fail),
    }
}
