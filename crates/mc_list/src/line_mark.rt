//! The mark of a line.
ghost use Rattle.std.specs.Prelude.{◌≡◌, length};
ghost use Rattle.mc_list.specs.Marks.{mark_within, mark_on, own_mark};
ghost use Rattle.mc_list.specs.Seen.{placed_of};
ghost use Rattle.mc_list.specs.steps.Ranks.{AreMarks};

use crate::line::Line;
use crate::mark::{Mark, mark_of};
use crate::table::{Table, WIDTH};
use mc_oblige::{Obligation, Verdict};

/// The mark of a line. Where the table has not all of its places, it is filled anew.
pub(crate) fn line_mark(
    table: &mut Table,
    line: &Line<'_>,
    obligations: &[Obligation],
    verdicts: &[Verdict],
) -> Mark
    requires same { length obligations.now ≡ length verdicts.now }
    requires table { AreMarks table.old.from obligations.now verdicts.now table.old.marks }
    ensures mark { result ≡ mark_on obligations.now verdicts.now (placed_of line.now) }
    ensures table { AreMarks table.new.from obligations.now verdicts.now table.new.marks }
{
    let len = line.bytes.len();
    if len > WIDTH {
        return mark_between(line.start, line.start as usize + len, obligations, verdicts);
    }
    table.reach(line.start, len, obligations, verdicts);
    table.worst(line.start, len)
}

/// The worst mark of the obligations whose span starts from `from` up to `to`.
fn mark_between(from: u32, to: usize, obligations: &[Obligation], verdicts: &[Verdict]) -> Mark
    requires { length obligations.now ≡ length verdicts.now }
    ensures { result ≡ mark_within from to obligations.now verdicts.now }
{
    let mut worst = Mark::Clear;
    let mut obligations_left = obligations;
    let mut verdicts_left = verdicts;
    while let [obligation, later_obligations @ ..] = obligations_left {
        let [verdict, later_verdicts @ ..] = verdicts_left else {
            unreachable!();
        };
        worst = worst.worse(own_mark(from, to, obligation.span.start, mark_of(verdict.state)));
        obligations_left = later_obligations;
        verdicts_left = later_verdicts;
    }
    worst
}

fn own_mark(from: u32, to: usize, at: u32, mark: Mark) -> Mark
    ensures { result ≡ own_mark from to at mark }
{
    if from <= at && (at as usize) < to {
        mark
    } else {
        Mark::Clear
    }
}
