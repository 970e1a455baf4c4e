//! The lines of all tests.
ghost use Rattle.std.specs.Prelude.{◌≡◌, ◌++◌, ◌<◌, ◌^◌, length, map, IfOk, OnOk};
ghost use Rattle.mc_port.specs.Lines.{bytes_of};
ghost use Rattle.mc_probe.specs.BitMaps.{map_of};
ghost use Rattle.mc_typed.specs.Plans.{plan_of};
ghost use Rattle.interp_trail.specs.Seen.{trace_of};
ghost use Rattle.results_lines.specs.Lines.{lines_of, results_lines, test_blocks};
ghost use Rattle.results_lines.specs.Seen.{source_of};

use crate::blocks::push_block;
use crate::source::Source;
use crate::tests::passed_line;
use interp_trail::TestTrace;
use mc_places::Places;
use mc_probe::BitMap;
use mc_typed::TestPlan;
use std::alloc::{AllocError, Global};

fn push_blocks(
    alloc: Global,
    lines: &mut Vec<Vec<u8>>,
    source: &Source<'_>,
    plans: &[TestPlan],
    traces: &[TestTrace],
) -> Result<(), AllocError>
    ensures { OnOk result (bytes_of lines.new.items ≡ bytes_of lines.old.items
        ++ test_blocks (source_of source.now) (map plan_of plans.now) (map trace_of traces.now)) }
{
    let mut plans_left = plans;
    let mut traces_left = traces;
    while let [plan, later_plans @ ..] = plans_left {
        let [trace, later_traces @ ..] = traces_left else {
            return Ok(());
        };
        push_block(alloc, lines, source, plan, trace)?;
        plans_left = later_plans;
        traces_left = later_traces;
    }
    Ok(())
}

fn lines_of(
    alloc: Global,
    source: &Source<'_>,
    plans: &[TestPlan],
    traces: &[TestTrace],
) -> Result<Vec<Vec<u8>>, AllocError>
    ensures { IfOk result (λ lines. bytes_of lines.items ≡ lines_of (source_of source.now)
        (map plan_of plans.now) (map trace_of traces.now)) }
{
    let mut lines = Vec::new(alloc);
    push_blocks(alloc, &mut lines, source, plans, traces)?;
    let line = passed_line(alloc, traces)?;
    lines.push(line)?;
    Ok(lines)
}

/// The same for the places of a source and its map.
fn lines_at(
    alloc: Global,
    places: &Places<'_>,
    bit_map: &BitMap,
    plans: &[TestPlan],
    traces: &[TestTrace],
) -> Result<Vec<Vec<u8>>, AllocError>
    ensures { IfOk result (λ lines. bytes_of lines.items ≡ results_lines places.now.text.now
        (map_of bit_map.now) (map plan_of plans.now) (map trace_of traces.now)) }
{
    let source = Source {
        places,
        map: bit_map,
    };
    lines_of(alloc, &source, plans, traces)
}

/// Of each test its line as in a report, and a line for each call that was made: its number from
/// 1, its function and its arguments, and what it returned and put out, with what was expected
/// where that was not met; or how the run ended in it, and after what. Under the line of a call
/// that ended after a statement stands the text of the statement. The last line counts the tests
/// that passed. The map is that of the source's program, and the traces are those of the plans.
pub fn results_lines(
    alloc: Global,
    source: &[u8],
    bit_map: &BitMap,
    plans: &[TestPlan],
    traces: &[TestTrace],
) -> Result<Vec<Vec<u8>>, AllocError>
    requires short { length source.now < 2 ^ 31 }
    ensures { IfOk result (λ lines. bytes_of lines.items ≡ results_lines source.now
        (map_of bit_map.now) (map plan_of plans.now) (map trace_of traces.now)) }
{
    let places = Places::of(alloc, source)?;
    lines_at(alloc, &places, bit_map, plans, traces)
}
