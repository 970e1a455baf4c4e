//! The bits of the parts of a program that do not always have one.
ghost use Rattle.std.specs.Prelude.{◌≡◌, ◌+◌, ◌-◌, ◌^◌, map, min, if◌then◌else◌, Some, None};
ghost use Rattle.mc_typed.specs.Views as plain;
ghost use Rattle.mc_steps.specs.Points as points;
ghost use Rattle.instrument_bits.specs.Marks.{mark_where};

use crate::completes::{all_complete, has_default, initializes};
use crate::counting::count;
use mc_typed::{Declarator, Mark, Statement};

/// The bit of the exit at the closing brace, where the body completes. `counter` is the bit of the
/// next exit, and goes on as far as its type.
pub fn closing_exit(counter: &mut u32, body: &[Statement]) -> Option<u32>
    ensures bit { result
        ≡ (if points.all_complete (plain.statements_from (map plain.statement_of body.now))
        then Some counter.old else None) }
    ensures more { counter.new
        ≡ (if points.all_complete (plain.statements_from (map plain.statement_of body.now))
        then min (counter.old + 1) (2 ^ 32 - 1) else counter.old) }
{
    if !all_complete(body) {
        return None;
    }
    let bit = count(counter);
    Some(bit)
}

/// The bit of a declaration, which has one where it initializes something. `counter` is the bit of
/// the next statement, and goes on as far as its type.
pub fn declaration_bit(counter: &mut u32, declarators: &[Declarator]) -> Option<u32>
    ensures bit { result
        ≡ (if points.initializes (map plain.declarator_of declarators.now)
        then Some counter.old else None) }
    ensures more { counter.new
        ≡ (if points.initializes (map plain.declarator_of declarators.now)
        then min (counter.old + 1) (2 ^ 32 - 1) else counter.old) }
    ensures no_exit { (points.where_counted
        (points.initializes (map plain.declarator_of declarators.now))).exits ≡ 0 }
    ensures no_label { (points.where_counted
        (points.initializes (map plain.declarator_of declarators.now))).labels ≡ 0 }
{
    if !initializes(declarators) {
        return None;
    }
    let bit = count(counter);
    Some(bit)
}

/// The probe of a `default` that is absent. `label` is the bit of the next label, and goes on as
/// far as its type.
pub fn mark_unless_default(label: &mut u32, register: u32, items: &[Statement]) -> Option<Mark>
    ensures mark { result
        ≡ mark_where (points.has_default (plain.statements_from (map plain.statement_of items.now)))
        register label.old }
    ensures next { label.new
        ≡ (if points.has_default (plain.statements_from (map plain.statement_of items.now))
        then label.old else min (label.old + 1) (2 ^ 32 - 1)) }
    ensures no_exit { (points.unless_default
        (points.has_default (plain.statements_from (map plain.statement_of items.now)))).exits ≡ 0 }
    ensures no_statement { (points.unless_default
        (points.has_default (plain.statements_from (map plain.statement_of items.now)))).statements
        ≡ 0 }
{
    if has_default(items) {
        return None;
    }
    let bit = count(label);
    Some(Mark { register, bit })
}
