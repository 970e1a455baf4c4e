//! Pieces of texts. The functions do nothing: each has a law as its contract.
ghost use Rattle.laws_reread_cases.specs.Pieces.{FactorIsGrouped, HitBetweenStatements};

use reread_pieces::laws::{misplaced_probe, probe_groups};

/// Without its probe `x*MCDC_D(0,1,a<b);` is `x*(a<b);`.
pub fn factor_is_grouped()
    ensures { FactorIsGrouped }
{
    probe_groups();
}

/// `MCDC_H(0);` between statements has no place, though its number is one.
pub fn hit_between_statements()
    ensures { HitBetweenStatements }
{
    misplaced_probe();
}
