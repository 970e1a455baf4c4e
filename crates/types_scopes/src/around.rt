//! What stands around a statement.
ghost use Rattle.std.specs.Prelude.{◌≡◌, option_map};
ghost use Rattle.types_rules.specs.Statements as statements;
ghost use Rattle.types_scopes.specs.Types.{base_of};
ghost use Rattle.types_scopes.specs.Statements.{around_of};

use crate::types::Base;

/// What stands around a statement: what the function gives, where that could be made out, whether
/// `break` and `continue` have something to end, and whether the statement is the body of a
/// `switch`.
#[derive(Clone, Copy)]
pub struct Around {
    pub result: Option<Base>,
    pub breaks: bool,
    pub continues: bool,
    pub is_body: bool,
}

impl Around {
    /// Round the body of a function.
    pub fn outermost(gives: Option<Base>) -> Around
        ensures { around_of result ≡ statements.outermost (option_map base_of gives) }
    {
        Around {
            result: gives,
            breaks: false,
            continues: false,
            is_body: false,
        }
    }

    /// Round a statement inside another one.
    pub fn inside(self) -> Around
        ensures { around_of result ≡ statements.inside (around_of self) }
    {
        Around {
            is_body: false,
            ..self
        }
    }

    /// Round the body of a loop (C17 6.8.5).
    pub fn in_loop(self) -> Around
        ensures { around_of result ≡ statements.in_loop (around_of self) }
    {
        Around {
            breaks: true,
            continues: true,
            is_body: false,
            ..self
        }
    }

    /// Round the body of a `switch` (C17 6.8.4.2).
    pub fn in_switch(self) -> Around
        ensures { around_of result ≡ statements.in_switch (around_of self) }
    {
        Around {
            breaks: true,
            is_body: true,
            ..self
        }
    }
}
