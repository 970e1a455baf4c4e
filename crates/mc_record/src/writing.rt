//! The text of a record.
ghost use Rattle.std.specs.Prelude.{◌≡◌, ◌≤◌, ◌++◌, true, length};
ghost use Rattle.std.specs.List.{concat, list_all};
ghost use Rattle.mc_limits.specs.Limits.{most_tests};
ghost use Rattle.mc_core.specs.Matrix.{IsSound};
ghost use Rattle.mc_port.specs.Sink.{Puts};
ghost use Rattle.csv_records.specs.Names.{is_name};
ghost use Rattle.mc_record.specs.Kept.{IsKept};
ghost use Rattle.mc_record.specs.Lines.{bit_lines, bits_line, end_line, header_line, record_lines, source_line, test_lines, tests_line};
ghost use Rattle.mc_record.specs.Seen.{kept_of};

use crate::kept::Record;
use crate::lines::{bit_line, bits_line, source_line, test_line, tests_line};
use mc_core::{Matrix, Shape};
use mc_port::{PutFault, Sink};
use mc_typed::{Name, TestState};

fn put_source<K: Sink>(digest: &[u8; 32], out: &mut K) -> Result<(), PutFault>
    ensures bytes { Puts (K.written out.old) (K.written out.new) (K.faults out.old)
        (K.faults out.new) (header_line ++ source_line digest.now) result }
    ensures later { K.faults out.old ≤ K.faults out.new }
{
    match out.put(b"mcdc-record 2\n") {
        Ok(()) => out.put(source_line(digest).as_slice()),
        Err(fault) => Err(fault),
    }
}

fn put_shape<K: Sink>(shape: Shape, out: &mut K) -> Result<(), PutFault>
    ensures bytes { Puts (K.written out.old) (K.written out.new) (K.faults out.old)
        (K.faults out.new) (bits_line shape.bits ++ tests_line shape.tests) result }
    ensures later { K.faults out.old ≤ K.faults out.new }
{
    match out.put(bits_line(shape.bits).as_slice()) {
        Ok(()) => out.put(tests_line(shape.tests).as_slice()),
        Err(fault) => Err(fault),
    }
}

fn put_head<K: Sink>(kept: &Record, out: &mut K) -> Result<(), PutFault>
    ensures bytes { Puts (K.written out.old) (K.written out.new) (K.faults out.old)
        (K.faults out.new)
        ((header_line ++ source_line kept.now.digest)
        ++ (bits_line kept.now.matrix.shape.bits ++ tests_line kept.now.matrix.shape.tests))
        result }
    ensures later { K.faults out.old ≤ K.faults out.new }
{
    match put_source(&kept.digest, out) {
        Ok(()) => put_shape(kept.matrix.shape(), out),
        Err(fault) => Err(fault),
    }
}

fn put_tests<K: Sink>(names: &[Name], states: &[TestState], out: &mut K) -> Result<(), PutFault>
    requires states { length states.now ≡ length names.now }
    requires named { list_all is_name names.now ≡ true }
    ensures bytes { Puts (K.written out.old) (K.written out.new) (K.faults out.old)
        (K.faults out.new) (concat (test_lines names.now states.now)) result }
    ensures later { K.faults out.old ≤ K.faults out.new }
{
    let mut names_left = names;
    let mut states_left = states;
    while let [name, later_names @ ..] = names_left {
        let [state, later_states @ ..] = states_left else {
            unreachable!();
        };
        match out.put(test_line(name, *state).as_slice()) {
            Ok(()) => {
                names_left = later_names;
                states_left = later_states;
            }
            Err(fault) => return Err(fault),
        }
    }
    Ok(())
}

fn put_bits<K: Sink>(matrix: &Matrix, out: &mut K) -> Result<(), PutFault>
    requires few { matrix.now.shape.tests ≤ most_tests }
    ensures bytes { Puts (K.written out.old) (K.written out.new) (K.faults out.old)
        (K.faults out.new) (concat (bit_lines matrix.now)) result }
    ensures later { K.faults out.old ≤ K.faults out.new }
{
    let shape = matrix.shape();
    let rows = shape.rows();
    let words = matrix.as_words();
    for bit in 0..shape.bits {
        let first = shape.place(bit, 0);
        match out.put(bit_line(bit, &words[first..first + rows]).as_slice()) {
            Ok(()) => {}
            Err(fault) => return Err(fault),
        }
    }
    Ok(())
}

fn put_results<K: Sink>(kept: &Record, out: &mut K) -> Result<(), PutFault>
    requires { IsKept (kept_of kept.now) }
    ensures bytes { Puts (K.written out.old) (K.written out.new) (K.faults out.old)
        (K.faults out.new)
        (concat (test_lines kept.now.names.items kept.now.states.items)
        ++ concat (bit_lines kept.now.matrix)) result }
    ensures later { K.faults out.old ≤ K.faults out.new }
{
    match put_tests(&kept.names, &kept.states, out) {
        Ok(()) => put_bits(&kept.matrix, out),
        Err(fault) => Err(fault),
    }
}

fn put_body<K: Sink>(kept: &Record, out: &mut K) -> Result<(), PutFault>
    requires { IsKept (kept_of kept.now) }
    ensures bytes { Puts (K.written out.old) (K.written out.new) (K.faults out.old)
        (K.faults out.new)
        ((concat (test_lines kept.now.names.items kept.now.states.items)
        ++ concat (bit_lines kept.now.matrix)) ++ end_line) result }
    ensures later { K.faults out.old ≤ K.faults out.new }
{
    match put_results(kept, out) {
        Ok(()) => out.put(b"end\n"),
        Err(fault) => Err(fault),
    }
}

/// Writes the text of a record, always as version 2. A line is one `put`, up to the first that
/// cannot be put. Takes no memory.
pub fn write_record<K: Sink>(kept: &Record, out: &mut K) -> Result<(), PutFault>
    requires { IsKept (kept_of kept.now) }
    ensures bytes { Puts (K.written out.old) (K.written out.new) (K.faults out.old)
        (K.faults out.new) (concat (record_lines (kept_of kept.now))) result }
    ensures later { K.faults out.old ≤ K.faults out.new }
{
    match put_head(kept, out) {
        Ok(()) => put_body(kept, out),
        Err(fault) => Err(fault),
    }
}
