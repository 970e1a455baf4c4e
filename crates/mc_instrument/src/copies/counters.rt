//! The counters of a walk, where there is room for what they count.
ghost use Rattle.std.specs.Prelude.{◌≡◌, ◌+◌, ◌<◌, ◌^◌, map, if◌then◌else◌, Some, None};
ghost use Rattle.mc_typed.specs.Views as plain;
ghost use Rattle.mc_steps.specs.Points as points;
ghost use Rattle.instrument_bits.specs.Marks.{mark_where};

use mc_typed::{Declarator, Mark, Statement};

/// Counts one on, and gives the number before.
pub(crate) fn count(counter: &mut u32) -> u32
    requires { counter.now + 1 < 2 ^ 32 }
    ensures number { result ≡ counter.old }
    ensures more { counter.new ≡ counter.old + 1 }
{
    instrument_bits::count(counter)
}

/// The bit of a declaration, which has one where it initializes something.
#[tactic(auto, using(crate::proofs::Counted::statement_after))]
pub(crate) fn declaration_bit(counter: &mut u32, declarators: &[Declarator]) -> Option<u32>
    requires { counter.now + (points.where_counted
        (points.initializes (map plain.declarator_of declarators.now))).statements < 2 ^ 32 }
    ensures bit { result
        ≡ (if points.initializes (map plain.declarator_of declarators.now)
        then Some counter.old else None) }
    ensures more { counter.new ≡ counter.old
        + (points.where_counted
        (points.initializes (map plain.declarator_of declarators.now))).statements }
    ensures no_exit { (points.where_counted
        (points.initializes (map plain.declarator_of declarators.now))).exits ≡ 0 }
    ensures no_label { (points.where_counted
        (points.initializes (map plain.declarator_of declarators.now))).labels ≡ 0 }
{
    instrument_bits::declaration_bit(counter, declarators)
}

/// The probe of a `default` that is absent.
#[tactic(auto, using(crate::proofs::Counted::label_after, crate::proofs::Counted::labels_after))]
pub(crate) fn mark_unless_default(
    label: &mut u32,
    register: u32,
    items: &[Statement],
) -> Option<Mark>
    requires { label.now + (points.unless_default
        (points.has_default (plain.statements_from (map plain.statement_of items.now)))).labels
        < 2 ^ 32 }
    ensures mark { result
        ≡ mark_where (points.has_default (plain.statements_from (map plain.statement_of items.now)))
        register label.old }
    ensures next { label.new
        ≡ (if points.has_default (plain.statements_from (map plain.statement_of items.now))
        then label.old else label.old + 1) }
    ensures more { label.new ≡ label.old
        + (points.unless_default
        (points.has_default (plain.statements_from (map plain.statement_of items.now)))).labels }
    ensures no_exit { (points.unless_default
        (points.has_default (plain.statements_from (map plain.statement_of items.now)))).exits ≡ 0 }
    ensures no_statement { (points.unless_default
        (points.has_default (plain.statements_from (map plain.statement_of items.now)))).statements
        ≡ 0 }
{
    instrument_bits::mark_unless_default(label, register, items)
}
