//! A pass that looks at the words while others change them.
ghost use Rattle.std.specs.Prelude.{◌≡◌, vec_len, vec_capacity};
ghost use Rattle.mc_core.specs.Shape.{word_count};
ghost use Rattle.mc_cover.specs.Model.{IsOf};
ghost use Rattle.mc_watch.specs.Looks.{LooksOnce};
ghost use Rattle.mc_watch.specs.Watched.{CanWatch, HasLooked};

use mc_cover::{Cover, Pass, look};
use mc_limits::MOST_TESTS;
use mc_port::Gate;

/// The number with which the gate is passed after the first look. No test has it.
const FIRST_LOOK: u32 = MOST_TESTS;

/// So many looks. A look loads every coverage word once and counts the bits that are set; then the
/// gate is passed, with 4,096 after the first look, and with one more after each. The counts go to
/// `counts`, which has room for them.
pub fn watch<G: Gate>(
    cover: &Cover,
    mut pass: Pass,
    looks: u32,
    mut counts: Vec<u32>,
    gate: &G,
) -> (Pass, Vec<u32>)
    requires can { CanWatch cover.now pass looks (vec_len counts) (vec_capacity counts) }
    ensures own { result.0.cover ≡ pass.cover }
    ensures looked { HasLooked (word_count cover.now.shape) looks
        pass.view result.0.view result.1.items }
{
    for made in 0..looks {
        counts.push_reserved(look_at_all(cover, &mut pass));
        gate.pass(FIRST_LOOK + made);
    }
    (pass, counts)
}

/// One look: how many bits are set.
fn look_at_all(cover: &Cover, pass: &mut Pass) -> u32
    requires own { IsOf cover.now pass.old }
    ensures own { pass.new.cover ≡ pass.old.cover }
    ensures looked { LooksOnce (word_count cover.now.shape) pass.old.view pass.new.view result }
{
    let mut count = 0;
    for index in 0..cover.words() {
        let value = look(cover, pass, index);
        count += value.count_ones();
    }
    count
}
