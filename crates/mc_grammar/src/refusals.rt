//! Texts that are not read, by their first tokens, whatever follows.
ghost use Rattle.std.specs.Prelude.{List};
ghost use Rattle.mc_grammar.specs.Words.{Lexeme};
ghost use Rattle.mc_grammar.specs.Refusals.{NoSpecifiers, NoStatement, assigned_constant, comma_label, default_alone, do_if, for_bracket};

/// The value of a label is not a comma expression: no statement begins with `case 1,`.
#[tactic(auto, using(crate::proofs::FirstTokens::no_comma_label))]
pub fn label_takes_no_comma()
    ensures { (ts : List Lexeme) → NoStatement (comma_label ts) }
{}

/// The value of a constant is not an assignment: no specifiers begin with `enum{A=b=`.
#[tactic(auto, using(crate::proofs::FirstTokens::no_assigned_constant))]
pub fn constant_takes_no_assignment()
    ensures { (ts : List Lexeme) → NoSpecifiers (assigned_constant ts) }
{}

/// After `default` stands a colon: no statement begins with `default;`.
#[tactic(auto, using(crate::proofs::FirstTokens::no_default_alone))]
pub fn default_has_a_colon()
    ensures { (ts : List Lexeme) → NoStatement (default_alone ts) }
{}

/// After `for` stands a parenthesis: no statement begins with `for[`.
#[tactic(auto, using(crate::proofs::FirstTokens::no_for_bracket))]
pub fn for_has_a_parenthesis()
    ensures { (ts : List Lexeme) → NoStatement (for_bracket ts) }
{}

/// After the body of a `do` stands `while`: no statement begins with `do;if`.
#[tactic(auto, using(crate::proofs::FirstTokens::no_do_if))]
pub fn do_ends_with_while()
    ensures { (ts : List Lexeme) → NoStatement (do_if ts) }
{}
