//! Probes of statements. The functions do nothing: each has a law as its contract.
ghost use Rattle.laws_reread_cases.specs.Probes.{
  ColonOfAChoice,
  ForCountsNoDeclaration,
  OperandOfADecision,
  TwoInBraces,
};

use reread_probes::laws::{
    colon_is_no_label, decision_is_no_assignment, declaration_of_a_block, one_statement_in_braces,
};

/// In `a?a:MCDC_L(0,1);a;` the probe stands right after the colon, and takes no place.
pub fn colon_of_a_choice()
    ensures { ColonOfAChoice }
{
    colon_is_no_label();
}

/// The braces of a probe in `{MCDC_H(1);a=1;a=1;}` begin where the first statement does.
pub fn two_in_braces()
    ensures { TwoInBraces }
{
    one_statement_in_braces();
}

/// `MCDC_D(0,0,a=1)` stands right at an assignment, and takes no place.
pub fn operand_of_a_decision()
    ensures { OperandOfADecision }
{
    decision_is_no_assignment();
}

/// In `for(MCDC_H(1);int a=1;;);` the probe stands right before the declaration, and takes no
/// place.
pub fn for_counts_no_declaration()
    ensures { ForCountsNoDeclaration }
{
    declaration_of_a_block();
}
