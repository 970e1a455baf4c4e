//! The calls of passes on shared words.
ghost use Rattle.std.specs.Prelude.{◌≡◌, ℕ, ◌+◌, ◌%◌, ◌<◌, ◌≤◌, ◌↔◌, [], length, All, Contains, IfSome, IfNone, vec_len};
ghost use Rattle.std.specs.Int.{bit_at};
ghost use Rattle.mc_limits.specs.Limits.{most_workers};
ghost use Rattle.mc_core.specs.Shape.{word_count, place};
ghost use Rattle.mc_core.specs.Matrix.{Holds};
ghost use Rattle.mc_cover.specs.Views.{worker, after_fork, with_claim, ended, after_hit, after_join, after_look};
ghost use Rattle.mc_cover.specs.Tells.{AreDifferentBelow, IsSettled, SeenIsHit};
ghost use Rattle.mc_cover.specs.Model.{IsOf, Draws};
ghost use Rattle.mc_cover.specs.Closed.{HasHits, AreInRange};

use crate::cover::Cover;
use crate::pass::Pass;
use crate::rule::{Claims, Forks, Hits, Joins, Looks, Settles};
use crate::view::Role;
use mc_core::Matrix;

/// Gives a worker's pass.
pub fn fork(cover: &Cover, pass: &mut Pass) -> Pass
    requires own { pass.old.cover ≡ cover.now.cover }
    requires opener { pass.old.view.role ≡ Role.Opener }
    requires forks { pass.old.view.forks < most_workers }
    ensures own { (pass.new.cover ≡ pass.old.cover) × (result.cover ≡ pass.old.cover) }
    ensures opener { pass.new.view ≡ after_fork pass.old.view }
    ensures worker { result.view ≡ worker pass.old.view }
{
    Pass {
        seat: cover.table.shared.split_seat::<Forks>(&mut pass.seat),
    }
}

/// Draws the next number. It is a test that no other pass has, or none is left and the pass has
/// ended.
pub fn claim(cover: &Cover, pass: &mut Pass) -> Option<u32>
    requires own { IsOf cover.now pass.old }
    requires worker { pass.old.view.role ≡ Role.Worker }
    requires running { pass.old.view.over ≡ 0 }
    ensures own { pass.new.cover ≡ pass.old.cover }
    ensures drawn { Draws cover.now.shape.tests pass.old.view pass.new.view result }
    ensures some { IfSome result (λ test.
        (test < cover.now.shape.tests) × (pass.new.view ≡ with_claim pass.old.view test)) }
    ensures none { IfNone result (pass.new.view ≡ ended pass.old.view) }
    ensures different { AreDifferentBelow cover.now.shape.tests pass.new.view.claims }
    ensures few { length pass.new.view.claims ≤ cover.now.shape.tests }
{
    let tests = cover.shape.tests;
    let drawn = cover.table.shared.fetch_add::<Claims>(&mut pass.seat, 0, 1);
    if drawn < u64::from(tests) {
        Some(drawn as u32)
    } else {
        None
    }
}

/// Records the bit under the test, which the pass has claimed.
pub fn hit(cover: &Cover, pass: &mut Pass, bit: u32, test: u32)
    requires own { IsOf cover.now pass.old }
    requires claimed { Contains pass.old.view.claims test }
    requires in_range { (bit < cover.now.shape.bits) × (test < cover.now.shape.tests) }
    ensures own { pass.new.cover ≡ pass.old.cover }
    ensures hit { pass.new.view ≡ after_hit pass.old.view bit test }
{
    let word = cover.shape.place(bit, test) + 1;
    let mask = 1 << (test % 64);
    cover
        .table
        .shared
        .fetch_or::<Hits>(&mut pass.seat, word, mask);
}

/// Loads the coverage word of this index, and gives the value found there. It has each bit that the
/// pass has seen or hit in that word.
pub fn look(cover: &Cover, pass: &mut Pass, index: u32) -> u64
    requires own { IsOf cover.now pass.old }
    requires in_range { index < word_count cover.now.shape }
    ensures own { pass.new.cover ≡ pass.old.cover }
    ensures seen { pass.new.view ≡ after_look pass.old.view index result }
    ensures no_less { All (λ x. x.0 ≡ index → (i : ℕ) → bit_at x.1 i ≤ bit_at result i)
        pass.old.view.seen }
    ensures hits { (b t : ℕ) → Contains pass.old.view.hits (b, t) →
        place cover.now.shape b t ≡ index → bit_at result (t % 64) ≡ 1 }
{
    cover
        .table
        .shared
        .load::<Looks>(&mut pass.seat, index as usize + 1)
}

/// Brings a worker's pass back to the opener's.
pub fn join(cover: &Cover, pass: &mut Pass, other: Pass)
    requires own { (pass.old.cover ≡ cover.now.cover) × (other.cover ≡ cover.now.cover) }
    requires opener { pass.old.view.role ≡ Role.Opener }
    requires worker { other.view.role ≡ Role.Worker }
    ensures own { pass.new.cover ≡ pass.old.cover }
    ensures joined { pass.new.view ≡ after_join pass.old.view other.view }
    ensures settled { pass.new.view.forks ≡ pass.new.view.joined → IsSettled pass.new.view }
{
    let Pass { seat } = other;
    let shared = &cover.table.shared;
    shared.join_seat::<Joins>(&mut pass.seat, seat);
    shared.load::<Settles>(&mut pass.seat, 0);
}

/// The matrix of the hits of all joined passes. It stands in the memory that `open` took.
pub fn close(cover: Cover, pass: Pass) -> Matrix
    requires own { pass.cover ≡ cover.cover }
    requires opener { pass.view.role ≡ Role.Opener }
    requires joined { pass.view.forks ≡ pass.view.joined }
    ensures shape { result.shape ≡ cover.shape }
    ensures pairs { (b t : ℕ) → Holds result b t ↔ Contains pass.view.hits (b, t) }
    ensures seen { SeenIsHit pass.view }
{
    let shape = cover.shape;
    Matrix::of_words(shape, closing_words(cover, pass))
}

/// The coverage words, in the room that the cover keeps for them.
pub(crate) fn closing_words(cover: Cover, pass: Pass) -> Vec<u64>
    requires own { pass.cover ≡ cover.cover }
    requires opener { pass.view.role ≡ Role.Opener }
    requires joined { pass.view.forks ≡ pass.view.joined }
    ensures whole { vec_len result ≡ word_count cover.shape }
    ensures bits { HasHits cover.shape pass.view.hits [] result.items }
    ensures in_range { AreInRange cover.shape pass.view.hits }
    ensures seen { SeenIsHit pass.view }
{
    let Cover {
        table,
        shape: _,
        mut room,
    } = cover;
    let Pass { seat } = pass;
    let closed = table.close_with(seat);
    for i in 0..room.len() {
        room[i] = closed.word(i + 1);
    }
    closed.free();
    room
}
