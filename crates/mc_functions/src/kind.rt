//! Kinds of obligations.
ghost use Rattle.std.specs.Prelude.{◌≡◌};
ghost use Rattle.mc_functions.specs.Kinds.{kind_of, kind_word};

use mc_oblige::ObligationId;

/// What is counted together.
#[derive(Clone, Copy)]
pub(crate) enum Kind {
    Entries,
    Exits,
    Statements,
    Labels,
    Outcomes,
    Conditions,
}

impl Kind {
    pub(crate) fn of(id: ObligationId) -> Kind
        ensures { result ≡ kind_of id }
    {
        match id {
            ObligationId::Entry(_) => Kind::Entries,
            ObligationId::Exit(_) => Kind::Exits,
            ObligationId::Statement(_) => Kind::Statements,
            ObligationId::Label(_) => Kind::Labels,
            ObligationId::Outcome(_, _) => Kind::Outcomes,
            ObligationId::Condition(_, _) => Kind::Conditions,
        }
    }

    pub(crate) fn word(self) -> &'static str
        ensures { result.now ≡ kind_word self }
    {
        match self {
            Kind::Entries => "entries",
            Kind::Exits => "exits",
            Kind::Statements => "statements",
            Kind::Labels => "labels",
            Kind::Outcomes => "outcomes",
            Kind::Conditions => "conditions",
        }
    }
}
