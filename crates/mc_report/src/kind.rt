//! Kinds of obligations.
ghost use Rattle.std.specs.Prelude.{◌≡◌};
ghost use Rattle.mc_report.specs.Counts.{is_kind, kind_word};

use mc_oblige::ObligationId;

/// What is counted together.
#[derive(Clone, Copy)]
pub enum Kind {
    Entries,
    Exits,
    Statements,
    Labels,
    Outcomes,
    Conditions,
}

impl Kind {
    pub(crate) fn word(self) -> &'static str
        ensures { result.now ≡ kind_word self }
    {
        match self {
            Kind::Entries => "entries",
            Kind::Exits => "exits",
            Kind::Statements => "statements",
            Kind::Labels => "labels",
            Kind::Outcomes => "outcomes",
            Kind::Conditions => "conditions",
        }
    }

    /// Whether the obligation is of this kind.
    pub(crate) fn has(self, id: ObligationId) -> bool
        ensures { result ≡ is_kind self id }
    {
        match (self, id) {
            (Kind::Entries, ObligationId::Entry(_)) => true,
            (Kind::Exits, ObligationId::Exit(_)) => true,
            (Kind::Statements, ObligationId::Statement(_)) => true,
            (Kind::Labels, ObligationId::Label(_)) => true,
            (Kind::Outcomes, ObligationId::Outcome(_, _)) => true,
            (Kind::Conditions, ObligationId::Condition(_, _)) => true,
            _ => false,
        }
    }
}
