//! Typed programs. The functions do nothing: each has a law as its contract.
ghost use Rattle.laws_cases.specs.Types.{
  AndIsNotOr,
  BranchesAreLevels,
  ConversionIsImplied,
  LongConstantIsLong,
  NamesHaveNoFault,
  PairsAreAll,
  RootsStandInTheBody,
};

use laws_types::{decisions_stand_in_the_source, values_have_no_fault};

/// A name that has a type has no fault.
pub fn names_have_no_fault()
    ensures { NamesHaveNoFault }
{
    values_have_no_fault();
}

/// The roots of a function's decisions stand where expressions of its body do.
pub fn roots_stand_in_the_body()
    ensures { RootsStandInTheBody }
{
    decisions_stand_in_the_source();
}

/// The tables of pairs of operand types have each pair; those of operators and constants tell one
/// from another; those of levels have each branch.
pub fn tables_are_whole()
    ensures pairs { PairsAreAll }
    ensures operators { AndIsNotOr }
    ensures constants { LongConstantIsLong }
    ensures levels { BranchesAreLevels }
{}

/// A conversion that no cast writes is implied.
pub fn conversion_is_implied()
    ensures { ConversionIsImplied }
{}
