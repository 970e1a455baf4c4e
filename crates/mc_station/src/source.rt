//! Which sources are accepted: by phases, of which the first with a fault answers.
ghost use Rattle.std.specs.Prelude.{[], ◌∷◌, ◌≡◌, ◌≤◌, ◌<◌, ◌^◌, All, IfOk, None, drop, length, map};
ghost use Rattle.mc_limits.specs.Limits.{most_source_bytes};
ghost use Rattle.mc_lex.specs.Lines.{column_of, line_of};
ghost use Rattle.mc_lex.specs.Returned.{IsSlice};
ghost use Rattle.mc_lex.specs.Tokens.{toks_of};
ghost use Rattle.mc_tree.specs.Units.{items_of};
ghost use Rattle.mc_typed.specs.Views.{program_of};
ghost use Rattle.mc_subset.specs.Forms.{first_outside};
ghost use Rattle.mc_subset.specs.Nodes.{nodes_of_unit};
ghost use Rattle.mc_cond.specs.Tree.{tree_of, IsNumbered};
ghost use Rattle.decide_rules.specs.Decisions.{AreDecisions};
ghost use Rattle.decide_rules.specs.Seen.{decision_of};
ghost use Rattle.station_replies.specs.Phases.{Then};
ghost use Rattle.station_replies.specs.Seen.{Gives};
ghost use Rattle.station_replies.specs.Texts.{start_of};
ghost use Rattle.mc_station.specs.Seen.{HasItsTree, HasTokens, seen_accepted};
ghost use Rattle.mc_station.specs.Source.{Accepts, Admits, Decides, JudgesSource, Lexes, Maps, PathsAreFew, Parses, Types};

use crate::accepted::Accepted;
use mc_decide::{DecideFault, Decision, decisions};
use mc_instrument::{InstrumentFault, instrument};
use mc_lex::{Dialect, Place, Token, lex, place_of};
use mc_parse::{ParseFault, parse};
use mc_subset::check;
use mc_tree::Unit;
use mc_typed::Program;
use mc_types::type_unit;
use station_replies::{Refusal, Stop};
use std::alloc::{AllocError, Global};

// The phase of the tokens.
fn lexed<'a>(alloc: Global, source: &'a [u8]) -> Result<Vec<Token<'a>>, Stop<'a>>
    requires { length source.now < 2 ^ 31 }
    ensures lexes { Gives (λ tokens. toks_of tokens.items) (Lexes source.now) result }
    ensures slices { IfOk result (λ tokens. All (IsSlice source.now) (toks_of tokens.items)) }
    ensures few { IfOk result (λ tokens. length tokens.items ≤ length source.now) }
{
    match lex(alloc, source, Dialect::Plain) {
        Ok(tokens) => Ok(tokens),
        Err(fault) => match fault.at() {
            Some(at) => Err(Stop::Refused(Refusal::Fault {
                place: place_of(source, at),
                word: fault.words(),
            })),
            None => Err(Stop::OutOfMemory),
        },
    }
}

/// The place of the byte at an offset, or of the source's end where the offset is greater.
#[tactic(auto, using(std::proofs::lemmas::List::take_min))]
pub fn place_within(source: &[u8], at: u32) -> Place
    requires { length source.now < 2 ^ 31 }
    ensures line { result.line ≡ line_of source.now at }
    ensures column { result.column ≡ column_of source.now at }
{
    place_of(source, at.min(source.len() as u32))
}

// Where a token starts, by how many come before it, or the source's end.
#[tactic(auto, using(crate::proofs::Places::start_some, crate::proofs::Places::start_none))]
fn start_of(source: &[u8], tokens: &[Token<'_>], at: u32) -> u32
    requires { length source.now < 2 ^ 31 }
    ensures { result ≡ start_of source.now (drop at (toks_of tokens.now)) }
{
    match tokens.get(at as usize) {
        Some(token) => token.start,
        None => source.len() as u32,
    }
}

// The phase of the syntax.
#[tactic(auto, using(crate::proofs::Places::slices_short))]
fn parsed<'a>(alloc: Global, source: &[u8], tokens: &[Token<'a>]) -> Result<Unit<'a>, Stop<'a>>
    requires short { length source.now < 2 ^ 31 }
    requires slices { All (IsSlice source.now) (toks_of tokens.now) }
    requires few { length tokens.now ≤ length source.now }
    ensures { Gives (λ unit. items_of unit.items.items)
        (Parses source.now (toks_of tokens.now)) result }
{
    match parse(alloc, tokens, Dialect::Plain) {
        Ok(unit) => Ok(unit),
        Err(ParseFault::Syntax { at }) => Err(Stop::Refused(Refusal::Fault {
            place: place_within(source, start_of(source, tokens, at)),
            word: "syntax",
        })),
        Err(ParseFault::OutOfMemory) => Err(Stop::OutOfMemory),
    }
}

// The phase of the outside forms.
fn admitted<'a>(source: &[u8], unit: &Unit<'_>) -> Result<(), Stop<'a>>
    requires { length source.now < 2 ^ 31 }
    ensures { Gives (λ u. u) (Admits source.now (items_of unit.now.items.items)) result }
{
    match check(unit) {
        Ok(()) => Ok(()),
        Err(outside) => Err(Stop::Refused(Refusal::Outside {
            place: place_within(source, outside.span.start),
            form: outside.form,
        })),
    }
}

// The phase of names and types.
fn typed<'a>(alloc: Global, source: &[u8], unit: &Unit<'a>) -> Result<Program<'a>, Stop<'a>>
    requires short { length source.now < 2 ^ 31 }
    requires admitted { first_outside (nodes_of_unit (items_of unit.now.items.items)) ≡ None }
    ensures { Gives program_of (Types source.now (items_of unit.now.items.items)) result }
{
    match type_unit(alloc, unit) {
        Ok(program) => Ok(program),
        Err(fault) => match fault.at() {
            Some(at) => Err(Stop::Refused(Refusal::Fault {
                place: place_within(source, at),
                word: fault.words(),
            })),
            None => Err(Stop::OutOfMemory),
        },
    }
}

// The phase of the conditions.
#[tactic(auto, using(crate::proofs::Decided::all_small))]
fn decided<'a>(
    alloc: Global,
    source: &[u8],
    program: &Program<'_>,
) -> Result<Vec<Decision>, Stop<'a>>
    requires { length source.now < 2 ^ 31 }
    ensures decides { Gives (λ ds. map decision_of ds.items)
        (Decides source.now (program_of program.now)) result }
    ensures decisions { IfOk result (λ ds.
        AreDecisions (program_of program.now).functions (map decision_of ds.items)) }
    ensures numbered { IfOk result (λ ds. All (λ d. IsNumbered (tree_of d.tree)) ds.items) }
{
    match decisions(alloc, program) {
        Ok(decisions) => Ok(decisions),
        Err(DecideFault::TooManyConditions { at, count }) => Err(Stop::Refused(Refusal::TooMany {
            place: place_within(source, at),
            what: "conditions",
            count: count as u128,
        })),
        Err(DecideFault::OutOfMemory) => Err(Stop::OutOfMemory),
    }
}

/// The decisions of a source that is accepted, found once more.
pub fn decisions_again(alloc: Global, accepted: &Accepted<'_>) -> Result<Vec<Decision>, AllocError>
    requires { HasItsTree accepted.now }
    ensures { IfOk result (λ ds. AreDecisions (seen_accepted accepted.now).program.functions
        (map decision_of ds.items)) }
{
    match decisions(alloc, accepted.tree.program()) {
        Ok(decisions) => Ok(decisions),
        Err(DecideFault::OutOfMemory) => Err(AllocError),
        Err(DecideFault::TooManyConditions { .. }) => unreachable!(),
    }
}

// The phases of the paths and of the map.
fn mapped<'a>(
    alloc: Global,
    source: &'a [u8],
    program: &Program<'a>,
    decisions: Vec<Decision>,
) -> Result<Accepted<'a>, Stop<'a>>
    requires short { length source.now ≤ most_source_bytes }
    requires tokens { HasTokens source.now }
    requires decisions { AreDecisions (program_of program.now).functions
        (map decision_of decisions.items) }
    requires numbered { All (λ d. IsNumbered (tree_of d.tree)) decisions.items }
    ensures judges { Gives seen_accepted (Then
        (PathsAreFew source.now (map decision_of decisions.items)) (λ u. Then
        (Maps (program_of program.now) (map decision_of decisions.items))
        (Accepts source.now (program_of program.now)))) result }
    ensures instrumented { IfOk result HasItsTree }
{
    match instrument(alloc, program, decisions) {
        Ok((tree, map)) => Ok(Accepted::new(source, tree, map)),
        Err(InstrumentFault::TooManyPaths { at, count }) => Err(Stop::Refused(Refusal::TooMany {
            place: place_within(source, at),
            what: "paths",
            count,
        })),
        Err(InstrumentFault::TooManyBits { count }) => {
            Err(Stop::Refused(Refusal::TooManyBits { count }))
        }
        Err(InstrumentFault::OutOfMemory) => Err(Stop::OutOfMemory),
    }
}

/// What a source is accepted as: the first phase with a fault refuses it.
pub fn judge_source<'a>(alloc: Global, source: &'a [u8]) -> Result<Accepted<'a>, Stop<'a>>
    requires { length source.now ≤ most_source_bytes }
    ensures judges { Gives seen_accepted (JudgesSource source.now) result }
    ensures instrumented { IfOk result HasItsTree }
{
    let tokens = lexed(alloc, source)?;
    let unit = parsed(alloc, source, &tokens)?;
    drop(tokens);
    admitted(source, &unit)?;
    let program = typed(alloc, source, &unit)?;
    drop(unit);
    let decisions = decided(alloc, source, &program)?;
    mapped(alloc, source, &program, decisions)
}
