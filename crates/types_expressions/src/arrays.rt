//! Which array an array parameter takes (C17 6.7.6.3p7).
ghost use Rattle.std.specs.Prelude.{◌≡◌};
ghost use Rattle.types_rules.specs.Calls as calls;
ghost use Rattle.types_scopes.specs.Types.{base_of, type_of};

use types_scopes::{Base, CType, same_base, same_lengths};

/// Whether a parameter with elements of the first type takes an array with elements of a type with
/// this base and these lengths, which may be `const`.
pub fn array_fits(parameter: &CType, base: Base, is_const: bool, lengths: &[u32]) -> bool
    ensures { result ≡ calls.array_fits (type_of parameter.now)
        (record { base = base_of base; is_const = is_const; lengths = lengths.now }) }
{
    let base = same_base(parameter.base, base);
    let lengths = same_lengths(&parameter.lengths, lengths);
    base && lengths && (parameter.is_const || !is_const)
}
