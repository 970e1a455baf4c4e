//! The marks of a part of a source.
ghost use Rattle.std.specs.Prelude.{◌≡◌, ℕ, ◌+◌, ◌-◌, ◌<◌, ◌≤◌, ◌↔◌, max, length, take, drop, slice_index_or, EachIndex, IsTrue};
ghost use Rattle.mc_list.specs.Marks.{rank_of, own_mark};
ghost use Rattle.mc_list.specs.steps.Ranks.{AreMarks, worst_rank};
ghost use Rattle.mc_list.specs.declared.mark.Mark.TheVariants.{Clear};

use crate::mark::{Mark, mark_of};
use mc_oblige::{Obligation, Verdict};

/// How many places have their marks at a time.
pub(crate) const WIDTH: usize = 4096;

/// The worst mark of each place, from a place on.
#[derive(Drop)]
pub(crate) struct Table {
    from: u32,
    marks: [Mark; 4096],
}

impl Table {
    /// The marks of the first places.
    pub(crate) fn of(obligations: &[Obligation], verdicts: &[Verdict]) -> Table
        requires { length obligations.now ≡ length verdicts.now }
        ensures { AreMarks result.from obligations.now verdicts.now result.marks }
    {
        let mut table = Table {
            from: 0,
            marks: [Mark::Clear; 4096],
        };
        table.fill(0, obligations, verdicts);
        table
    }

    /// Finds the marks of the places from `from` on.
    fn fill(&mut self, from: u32, obligations: &[Obligation], verdicts: &[Verdict])
        requires { length obligations.now ≡ length verdicts.now }
        ensures from { self.new.from ≡ from }
        ensures marks { AreMarks from obligations.now verdicts.now self.new.marks }
    {
        self.from = from;
        clear(&mut self.marks[..]);
        let mut obligations_left = obligations;
        let mut verdicts_left = verdicts;
        while let [obligation, later_obligations @ ..] = obligations_left {
            let [verdict, later_verdicts @ ..] = verdicts_left else {
                unreachable!();
            };
            self.raise(obligation.span.start, mark_of(verdict.state));
            obligations_left = later_obligations;
            verdicts_left = later_verdicts;
        }
    }

    /// Marks a place, where it is one of the table's.
    fn raise(&mut self, at: u32, mark: Mark)
        ensures from { self.new.from ≡ self.old.from }
        ensures whole { length self.new.marks ≡ length self.old.marks }
        ensures marks { (k : ℕ) → k < 4096 → rank_of (slice_index_or self.new.marks k Clear)
            ≡ max (rank_of (slice_index_or self.old.marks k Clear))
            (rank_of (own_mark (self.old.from + k) (self.old.from + k + 1) at mark)) }
    {
        if at < self.from {
            return;
        }
        let place = (at - self.from) as usize;
        if place < WIDTH {
            self.marks[place] = self.marks[place].worse(mark);
        }
    }

    /// Finds the marks from `start` on, where those of these places are not all in the table.
    pub(crate) fn reach(
        &mut self,
        start: u32,
        len: usize,
        obligations: &[Obligation],
        verdicts: &[Verdict],
    )
        requires len { len ≤ 4096 }
        requires same { length obligations.now ≡ length verdicts.now }
        requires marks { AreMarks self.old.from obligations.now verdicts.now self.old.marks }
        ensures low { self.new.from ≤ start }
        ensures high { start + len ≤ self.new.from + 4096 }
        ensures marks { AreMarks self.new.from obligations.now verdicts.now self.new.marks }
    {
        if !self.has(start, len) {
            self.fill(start, obligations, verdicts);
        }
    }

    /// Whether these places are all in the table.
    fn has(&self, start: u32, len: usize) -> bool
        requires { len ≤ 4096 }
        ensures { IsTrue result
            ↔ ((self.now.from ≤ start) × (start + len ≤ self.now.from + 4096)) }
    {
        start >= self.from && start as usize + len <= self.from as usize + WIDTH
    }

    /// The worst mark of these places.
    pub(crate) fn worst(&self, start: u32, len: usize) -> Mark
        requires from { self.now.from ≤ start }
        requires within { start + len ≤ self.now.from + 4096 }
        ensures { rank_of result ≡ worst_rank (take len
            (drop (start - self.now.from) self.now.marks)) }
    {
        let first = (start - self.from) as usize;
        worst_of(&self.marks[first..first + len])
    }
}

fn clear(marks: &mut [Mark])
    ensures { EachIndex marks.new (λ k. slice_index_or marks.new k Clear ≡ Clear) }
{
    for mark in marks.iter_mut() {
        *mark = Mark::Clear;
    }
}

fn worst_of(marks: &[Mark]) -> Mark
    ensures { rank_of result ≡ worst_rank marks.now }
{
    let mut worst = Mark::Clear;
    let mut left = marks;
    while let [mark, later @ ..] = left {
        worst = worst.worse(*mark);
        left = later;
    }
    worst
}
