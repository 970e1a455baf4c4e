//! The counts of one function.
ghost use Rattle.std.specs.Prelude.{◌≡◌, ◌+◌, ◌<◌, ◌^◌};
ghost use Rattle.mc_functions.specs.Counts.{all_in, most_in, of_kind, of_verdict};
ghost use Rattle.mc_functions.specs.steps.Table.{no_row, with_one};

use crate::counts::Counts;
use crate::kind::Kind;
use mc_oblige::VerdictState;

/// The counts of each kind.
#[derive(Clone, Copy)]
pub(crate) struct Row {
    pub(crate) entries: Counts,
    pub(crate) exits: Counts,
    pub(crate) statements: Counts,
    pub(crate) labels: Counts,
    pub(crate) outcomes: Counts,
    pub(crate) conditions: Counts,
}

impl Row {
    /// Of no obligation.
    pub(crate) fn none() -> Row
        ensures { result ≡ no_row }
    {
        Row {
            entries: Counts::none(),
            exits: Counts::none(),
            statements: Counts::none(),
            labels: Counts::none(),
            outcomes: Counts::none(),
            conditions: Counts::none(),
        }
    }

    /// With one more obligation of this kind and this verdict.
    pub(crate) fn with(self, kind: Kind, state: VerdictState) -> Row
        requires { of_verdict state (of_kind kind self) + 1 < 2 ^ 64 }
        ensures { result ≡ with_one kind state self }
    {
        let mut row = self;
        match kind {
            Kind::Entries => row.entries = row.entries.with(state),
            Kind::Exits => row.exits = row.exits.with(state),
            Kind::Statements => row.statements = row.statements.with(state),
            Kind::Labels => row.labels = row.labels.with(state),
            Kind::Outcomes => row.outcomes = row.outcomes.with(state),
            Kind::Conditions => row.conditions = row.conditions.with(state),
        }
        row
    }

    /// How many obligations there are.
    pub(crate) fn all(self) -> u128
        ensures { result ≡ all_in self }
    {
        self.entries.total()
            + self.exits.total()
            + self.statements.total()
            + self.labels.total()
            + self.outcomes.total()
            + self.conditions.total()
    }

    /// The greatest number of obligations of a kind.
    pub(crate) fn most(self) -> u128
        ensures { result ≡ most_in self }
    {
        let conditions = self.conditions.total();
        let outcomes = self.outcomes.total().max(conditions);
        let labels = self.labels.total().max(outcomes);
        let statements = self.statements.total().max(labels);
        let exits = self.exits.total().max(statements);
        self.entries.total().max(exits)
    }
}
