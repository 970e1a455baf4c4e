//! What the lines are made from.
use mc_lex::Token;
use mc_oblige::Obligation;
use mc_places::Places;
use mc_probe::MappedDecision;
use mc_typed::Name;
use needed_paths::Needs;

/// The places of a source and its tokens, its tests by name, its decisions, and its obligations:
/// for each whether it is asked about, and what it needs.
#[derive(Clone, Copy)]
pub struct NeedsReport<'a> {
    pub places: &'a Places<'a>,
    pub tokens: &'a [Token<'a>],
    pub names: &'a [Name],
    pub decisions: &'a [MappedDecision],
    pub obligations: &'a [Obligation],
    pub asked: &'a [bool],
    pub needs: &'a Needs,
}
