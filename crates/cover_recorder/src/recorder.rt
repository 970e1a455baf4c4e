//! The recorder of a worker.
ghost use Rattle.std.specs.Prelude.{◌≡◌, ◌<◌, ◌≤◌, length, IfSome, IfNone, IfOk, IfErr};
ghost use Rattle.mc_limits.specs.Limits.{most_workers};
ghost use Rattle.mc_cover.specs.Views.{after_fork};
ghost use Rattle.mc_cover.specs.Model.{IsOf};
ghost use Rattle.cover_recorder.specs.Recorder.{bits_of, fresh, claimed, ended, with_hit, pass_of};

use hit_sink::Probe;
use mc_core::Shape;
use mc_cover::{Cover, Pass, Role, claim, fork, hit};
use std::alloc::{AllocError, Global};
use std::marker::Model;

/// Claims items of a cover, and records the bits that are hit under the item that it claimed last.
/// Only the first hit of a bit under an item goes to the shared words. Contracts see the cover,
/// what its pass knows, and the item. All memory is taken when it is made.
#[derive(Drop)]
pub struct Recorder<'c> {
    cover: &'c Cover,
    pass: Pass,
    /// Of each bit the last item under which it was hit, plus 1; 0 where there is none.
    stamps: Vec<u32>,
    test: u32,
}

impl<'c> Model for Recorder<'c> {
    ghost use Rattle.std.specs.Prelude.{vec_len};
    ghost use Rattle.cover_recorder.specs.Recorder.{RecorderView, IsKept};

    ghost Value = { RecorderView };

    ghost view = { λ r. record { cover = r.cover.now; view = r.pass.view; test = r.test } };

    ghost invariant = { λ r.
        IsKept r.cover.now r.pass r.stamps.items (vec_len r.stamps) r.test };
}

impl<'c> Recorder<'c> {
    /// The recorder of one more worker, whose pass comes from the opener's. The cover has this
    /// shape. Takes 4 bytes for each bit.
    pub fn fork(
        alloc: Global,
        cover: &'c Cover,
        pass: &mut Pass,
        shape: Shape,
    ) -> Result<Recorder<'c>, AllocError>
        requires own { IsOf cover.now pass.old }
        requires opener { pass.old.view.role ≡ Role.Opener }
        requires forks { pass.old.view.forks < most_workers }
        requires shape { shape ≡ cover.now.shape }
        ensures own { pass.new.cover ≡ pass.old.cover }
        ensures opener { IfOk result (λ _. pass.new.view ≡ after_fork pass.old.view) }
        ensures recorder { IfOk result (λ r. r ≡ fresh cover.now pass.old.view) }
        ensures unchanged { IfErr result (λ _. pass.new ≡ pass.old) }
    {
        let stamps: Vec<u32> = vec![in alloc; 0; shape.bits as usize]?;
        let pass = fork(cover, pass);
        Ok(Recorder {
            cover,
            pass,
            stamps,
            test: 0,
        })
    }

    /// Draws the next item. It is one that no other worker has, or none is left and the worker has
    /// ended.
    pub fn claim(&mut self) -> Option<u32>
        requires worker { self.old.view.role ≡ Role.Worker }
        requires running { self.old.view.over ≡ 0 }
        ensures some { IfSome result (λ test.
            (test < self.old.cover.shape.tests) × (self.new ≡ claimed self.old test)) }
        ensures none { IfNone result (self.new ≡ ended self.old) }
        ensures bits { IfSome result (λ _. bits_of self.new ≡ self.old.cover.shape.bits) }
        ensures few { length self.new.view.claims ≤ self.old.cover.shape.tests }
    {
        let test = claim(self.cover, &mut self.pass)?;
        self.test = test;
        Some(test)
    }

    /// The pass, for the opener to join.
    pub fn into_pass(self) -> Pass
        ensures { result ≡ pass_of self.entry }
    {
        let Recorder {
            cover: _,
            pass,
            stamps: _,
            test: _,
        } = self;
        pass
    }

    /// The first hit of the bit under the item.
    fn first(&mut self, bit: u32)
        requires bits { bit < bits_of self.old }
        ensures hit { self.new ≡ with_hit self.old bit }
    {
        hit(self.cover, &mut self.pass, bit, self.test);
        self.stamps[bit as usize] = self.test + 1;
    }
}

impl<'c> Probe for Recorder<'c> {
    ghost use Rattle.cover_recorder.specs.Recorder.{bits_of, Leads};
    ghost use Rattle.cover_recorder.specs.Led.{stays, joins};

    ghost bits = { bits_of };

    ghost leads = { Leads };

    fn hit(&mut self, bit: u32) {
        if self.stamps[bit as usize] != self.test + 1 {
            self.first(bit);
        }
    }

    ghost stays = { stays };

    ghost joins = { joins };
}
