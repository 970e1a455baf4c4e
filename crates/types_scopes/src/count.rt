//! How many items a list has.
ghost use Rattle.std.specs.Prelude.{◌≡◌, map};
ghost use Rattle.mc_tree.specs.Units as units;
ghost use Rattle.types_rules.specs.Initializers as initializers;

/// How many items a list has. Takes no memory.
pub fn count_of(items: &[mc_tree::Initializer<'_>]) -> usize
    ensures { result ≡ initializers.item_count
        (units.initializers_from (map units.initializer_of items.now)) }
{
    items.len()
}
