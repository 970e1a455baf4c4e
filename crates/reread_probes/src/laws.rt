//! Probes of worked texts. The functions do nothing: each has a law as its contract.
ghost use Rattle.reread_probes.specs.Worked.{
  TheBraces,
  TheChoice,
  TheDeclaration,
  TheFunction,
  TheOperand,
  TheParentheses,
};

/// The probes of `int f(int a,int b){return a&&b;}` stand at the function's name, at the
/// statement, at the decision and at its conditions.
pub fn function_with_probes()
    ensures { TheFunction }
{}

/// A label's probe stands after a label, and not after the colon of `?:`.
pub fn colon_is_no_label()
    ensures { TheChoice }
{}

/// The braces of a probe enclose one statement.
pub fn one_statement_in_braces()
    ensures { TheBraces }
{}

/// A decision is no assignment; the expression of a `switch` may be one.
pub fn decision_is_no_assignment()
    ensures { TheOperand }
{}

/// Parentheses of the source belong to no probe.
pub fn parentheses_of_the_source()
    ensures { TheParentheses }
{}

/// A declaration in a block is counted, one of a `for` is not.
pub fn declaration_of_a_block()
    ensures { TheDeclaration }
{}
