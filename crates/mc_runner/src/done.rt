//! What a worker did.
ghost use Rattle.std.specs.Prelude.{◌≡◌, ℕ, ◌<◌, ◌++◌, List, All, vec_len};
ghost use Rattle.mc_cover.specs.Tells.{IsSettled};
ghost use Rattle.mc_cover.specs.Views.{after_join};
ghost use Rattle.mc_meaning.specs.Seen.{Told};
ghost use Rattle.mc_runner.specs.Jobs.{AreTold, AreFilled};

use mc_cover::{Cover, Pass, Role, join};
use mc_meaning::TestResult;

/// The pass of a worker that has ended, and the results of the tests that it ran, each with the
/// number of its test.
#[derive(Drop)]
pub(crate) struct Done {
    pub(crate) pass: Pass,
    pub(crate) results: Vec<(u32, TestResult)>,
}

impl Done {
    /// Joins the pass to the opener's, and puts each result in its place.
    pub(crate) fn join(self, cover: &Cover, pass: &mut Pass, results: &mut Vec<TestResult>)
        requires own { (pass.old.cover ≡ cover.now.cover) × (self.pass.cover ≡ cover.now.cover) }
        requires opener { pass.old.view.role ≡ Role.Opener }
        requires worker { self.pass.view.role ≡ Role.Worker }
        requires in_range { All (λ r. r.0 < vec_len results.old) self.results.items }
        ensures own { pass.new.cover ≡ pass.old.cover }
        ensures joined { pass.new.view ≡ after_join pass.old.view self.pass.view }
        ensures settled { pass.new.view.forks ≡ pass.new.view.joined → IsSettled pass.new.view }
        ensures whole { vec_len results.new ≡ vec_len results.old }
        ensures filled { (told : List Told) (before claims : List ℕ) →
            AreFilled told before results.old.items → AreTold told claims self.results.items →
            AreFilled told (before ++ claims) results.new.items }
    {
        let Done {
            pass: worker,
            results: part,
        } = self;
        join(cover, pass, worker);
        put(results, part);
    }
}

/// Puts each result in the place of its test.
fn put(results: &mut Vec<TestResult>, part: Vec<(u32, TestResult)>)
    requires in_range { All (λ r. r.0 < vec_len results.old) part.items }
    ensures whole { vec_len results.new ≡ vec_len results.old }
    ensures filled { (told : List Told) (before claims : List ℕ) →
        AreFilled told before results.old.items → AreTold told claims part.items →
        AreFilled told (before ++ claims) results.new.items }
{
    for (test, result) in part {
        results[test as usize] = result;
    }
}
