//! What a node has to know of the nodes around it.
ghost use Rattle.std.specs.Prelude.{◌≡◌};
ghost use Rattle.subset_forms.specs.Contexts as contexts;

/// Whether a node stands inside a function definition or a parameter.
#[derive(Clone, Copy)]
pub enum Region {
    File,
    Function,
}

/// What an expression is a part of.
#[derive(Clone, Copy)]
pub enum Role {
    /// Another expression, or anything that takes its value.
    Part,
    /// It is a whole expression statement.
    Statement,
    /// It is the whole first or third part of a `for`.
    ForPart,
    /// It is one of the clauses between the commas of such a part.
    Clause,
}

impl Role {
    /// What the operands of a comma are.
    pub fn of_operands(self) -> Role
        ensures { result ≡ contexts.role_of_operands self }
    {
        match self {
            Role::ForPart => Role::Clause,
            Role::Part | Role::Statement | Role::Clause => Role::Part,
        }
    }

    /// What the expression in parentheses is.
    pub fn in_parentheses(self) -> Role
        ensures { result ≡ contexts.role_in_parentheses self }
    {
        match self {
            Role::Part | Role::Statement | Role::ForPart | Role::Clause => Role::Part,
        }
    }
}

/// Where a statement or a declaration stands, seen from a `switch`.
#[derive(Clone, Copy)]
pub enum Standing {
    /// It is the body of a `switch`.
    Body,
    /// It stands directly in the body of a `switch`, before the first label there.
    BeforeLabels,
    /// It stands directly in the body of a `switch`, and is or follows the first label there.
    AmongLabels,
    Elsewhere,
}

impl Standing {
    /// Where the items of a compound statement stand that stands here.
    pub fn of_items(self) -> Standing
        ensures { result ≡ contexts.standing_of_items self }
    {
        match self {
            Standing::Body => Standing::BeforeLabels,
            Standing::BeforeLabels | Standing::AmongLabels | Standing::Elsewhere => {
                Standing::Elsewhere
            }
        }
    }

    /// Where a labeled statement and what follows it stand, where the label stands here.
    pub fn of_label(self) -> Standing
        ensures { result ≡ contexts.standing_of_label self }
    {
        match self {
            Standing::BeforeLabels => Standing::AmongLabels,
            Standing::Body | Standing::AmongLabels | Standing::Elsewhere => self,
        }
    }
}
