//! From a source to its instrumented text.
ghost use Rattle.std.specs.Prelude.{◌<◌, ◌+◌, ◌^◌, length, All};

use crate::fail::Fail;
use mc_decide::decisions;
use mc_instrument::instrument;
use mc_lex::{Dialect, Token, lex};
use mc_parse::parse;
use mc_port::MemorySink;
use mc_print::print;
use mc_probe::Instrumented;
use mc_subset::check;
use mc_tree::Unit;
use mc_typed::Program;
use mc_types::type_unit;
use std::alloc::Global;

/// What is asked of a source: the text that it has, and the put that fails, by its number, with how
/// many bytes it takes.
#[derive(Clone, Copy)]
pub(crate) struct Asked<'r> {
    pub text: &'r [u8],
    pub failing: Option<(u32, u32)>,
}

/// How much room the sink has.
const ROOM: u32 = 4096;

fn sink(alloc: Global, asked: Asked<'_>) -> Result<MemorySink, Fail> {
    let mut failing = Vec::new(alloc);
    if let Some(put) = asked.failing {
        failing.push(put)?;
    }
    let sink = MemorySink::new(alloc, ROOM, failing)?;
    Ok(sink)
}

/// Whether the text is put whole, or where a put fails, the text is what stands before it.
fn prints(
    alloc: Global,
    tokens: &[Token<'_>],
    tree: &Instrumented<'_>,
    asked: Asked<'_>,
) -> Result<bool, Fail> {
    let mut out = sink(alloc, asked)?;
    let whole = print(tokens, tree, &mut out).is_ok();
    let same = out.bytes() == asked.text;
    drop(out);
    Ok(same && whole == asked.failing.is_none())
}

/// What a source is read as: its tree, and then its typed program.
trait Stage {
    /// Whether its text is what is asked for.
    fn holds(&self, alloc: Global, tokens: &[Token<'_>], asked: Asked<'_>) -> Result<bool, Fail>;
}

/// The same of what was read, which is let go. For any type: a match that takes a whole tree or
/// program out of its result makes a long proof.
fn holds_of<T: Stage + Drop, E: Drop>(
    alloc: Global,
    tokens: &[Token<'_>],
    asked: Asked<'_>,
    read: Result<T, E>,
) -> Result<bool, Fail> {
    match read {
        Ok(it) => {
            let right = it.holds(alloc, tokens, asked);
            drop(it);
            right
        }
        Err(_) => Err(Fail),
    }
}

impl Stage for Program<'_> {
    fn holds(&self, alloc: Global, tokens: &[Token<'_>], asked: Asked<'_>) -> Result<bool, Fail> {
        let found = match decisions(alloc, self) {
            Ok(found) => found,
            Err(_) => return Err(Fail),
        };
        match instrument(alloc, self, found) {
            Ok((tree, map)) => {
                drop(map);
                let right = prints(alloc, tokens, &tree, asked);
                drop(tree);
                right
            }
            Err(_) => Err(Fail),
        }
    }
}

impl Stage for Unit<'_> {
    fn holds(&self, alloc: Global, tokens: &[Token<'_>], asked: Asked<'_>) -> Result<bool, Fail> {
        if check(self).is_err() {
            return Err(Fail);
        }
        holds_of(alloc, tokens, asked, type_unit(alloc, self))
    }
}

fn of_tokens(alloc: Global, tokens: &[Token<'_>], asked: Asked<'_>) -> Result<bool, Fail>
    requires short { All (λ token. token.start + length token.text.now < 2 ^ 31) tokens.now }
    requires few { length tokens.now < 2 ^ 31 }
{
    holds_of(alloc, tokens, asked, parse(alloc, tokens, Dialect::Plain))
}

/// Whether the text of a source is what is asked for.
#[tactic(auto, using(crate::proofs::Short::all_short))]
pub(crate) fn told(alloc: Global, source: &str, asked: Asked<'_>) -> Result<bool, Fail> {
    let source = source.as_bytes();
    if source.len() >= 0x8000_0000 {
        return Err(Fail);
    }
    match lex(alloc, source, Dialect::Plain) {
        Ok(tokens) => {
            let right = of_tokens(alloc, &tokens, asked);
            drop(tokens);
            right
        }
        Err(_) => Err(Fail),
    }
}
