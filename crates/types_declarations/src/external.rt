//! The two external functions.
ghost use Rattle.std.specs.Prelude.{◌≡◌};
ghost use Rattle.mc_tree.specs.Views.{name_of};
ghost use Rattle.types_rules.specs.Scopes as scopes;

use mc_tree::Identifier;

pub(crate) fn is_input(name: &Identifier<'_>) -> bool
    ensures { result ≡ scopes.is_input (name_of name.now) }
{
    name.text == b"mcdc_in".as_slice()
}

pub(crate) fn is_output(name: &Identifier<'_>) -> bool
    ensures { result ≡ scopes.is_output (name_of name.now) }
{
    name.text == b"mcdc_out".as_slice()
}

pub(crate) fn is_external(name: &Identifier<'_>) -> bool
    ensures { result ≡ scopes.is_external (name_of name.now) }
{
    let input = is_input(name);
    let output = is_output(name);
    input || output
}
