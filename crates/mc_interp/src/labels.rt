//! The labels of a `switch` (C17 6.8.4.2).
ghost use Rattle.std.specs.Prelude.{◌≡◌, ◌≤◌, Bool, Some, map};
ghost use Rattle.mc_typed.specs.Sound.{Scope};
ghost use Rattle.mc_steps.specs.Statements as steps;
ghost use Rattle.interp_words.specs.Words.{number_of};
ghost use Rattle.mc_probe.specs.Flat.{Activation};
ghost use Rattle.mc_probe.specs.Probes.{mark_does};
ghost use Rattle.mc_probe.specs.Views as view;
ghost use Rattle.mc_probe.specs.WellFormed.{FitsMark};
ghost use Rattle.mc_interp.specs.Bodies.{flow_of, labels_in, label_runs, seek_of};
ghost use Rattle.mc_interp.specs.Bodies as bodies;
ghost use Rattle.mc_interp.specs.Stores.{state_of, Did};
ghost use Rattle.mc_interp.specs.Frames.{activation_of, scope_in, IsKept, IsReady};
ghost use Rattle.mc_interp.specs.Views as prepared;
ghost use Rattle.mc_interp.specs.Keeps.{KeepsBits, KeepsLimits};

use crate::flow::{Label, Seek, ends_switch, is_running, label_of};
use crate::frame::Frame;
use crate::prepared::Prepared;
use crate::store::Store;
use hit_sink::Probe;
use interp_steps::{Flow, hit, take};
use interp_words::number;
use mc_typed::Mark;
use mc_value::IntType;

/// Whether a label is the `case` of a value.
fn is_case(label: Option<i128>, of: IntType, word: u64) -> bool
    ensures { result ≡ steps.same_label (Some (number_of of word)) label }
{
    match label {
        Some(value) => number(of, word) == value,
        None => false,
    }
}

/// Whether an item is the `case` of a value.
fn is_case_item(tree: &Prepared<'_>, of: IntType, word: u64) -> bool
    ensures { result ≡ bodies.is_case (Some (number_of of word))
        (bodies.label_of (prepared.statement_of tree.now)) }
{
    match label_of(tree) {
        Some(label) => is_case(label.value, of, word),
        None => false,
    }
}

/// Whether a body has the `case` of a value.
fn has_case(items: &[Prepared<'_>], of: IntType, word: u64) -> bool
    ensures { result ≡ steps.has_label (Some (number_of of word))
        (labels_in (view.statements_from (map prepared.statement_of items.now))) }
{
    for tree in items {
        if is_case_item(tree, of, word) {
            return true;
        }
    }
    false
}

/// The label that a value leads to: its own, else `default`.
pub(crate) fn sought(items: &[Prepared<'_>], of: IntType, word: u64) -> Seek
    ensures { seek_of result ≡ steps.sought (number_of of word)
        (labels_in (view.statements_from (map prepared.statement_of items.now))) }
{
    if has_case(items, of, word) {
        Seek::Case { of, word }
    } else {
        Seek::Default
    }
}

/// What comes of the search at a label.
fn seek_at(label: Option<i128>, seek: Seek) -> Seek
    ensures { seek_of result ≡ steps.at_label label (seek_of seek) }
{
    match seek {
        Seek::Running => Seek::Running,
        Seek::Case { of, word } => {
            if is_case(label, of, word) {
                Seek::Running
            } else {
                seek
            }
        }
        Seek::Default => match label {
            None => Seek::Running,
            Some(_) => Seek::Default,
        },
    }
}

/// A label's probe: the label whose register is not 0 is the one that the `switch` chose.
#[tactic(auto, unfolding(crate::specs::Stores::limits_of))]
pub(crate) fn mark<P: Probe>(
    mark: Option<Mark>,
    frame: &Frame<'_, '_, '_>,
    store: &mut Store,
    probe: &mut P,
)
    requires fits { FitsMark frame.now.function.now.registers mark }
    requires ready { IsReady frame.now store.old (P.bits probe.old) }
    ensures did { (chosen : Bool) → Did P.leads (mark_does (activation_of frame.now) mark chosen
        (state_of store.old)) (Some tt) store.new probe.old probe.new }
    ensures kept { IsKept (scope_in frame.now) (activation_of frame.now) store.old store.new }
    ensures bits { KeepsBits P.bits probe.old probe.new }
    ensures limits { KeepsLimits store.old store.new }
{
    if let Some(set) = mark {
        if take(&mut store.registers, frame.first, set.register) {
            hit(frame.program.bits(), set.bit, probe);
        }
    }
}

/// A label of a body, and what comes of the search there.
pub(crate) fn at_label<P: Probe>(
    label: Label,
    seek: Seek,
    frame: &Frame<'_, '_, '_>,
    store: &mut Store,
    probe: &mut P,
) -> Seek
    requires fits { FitsMark frame.now.function.now.registers label.mark }
    requires ready { IsReady frame.now store.old (P.bits probe.old) }
    ensures did { Did P.leads (label_runs (activation_of frame.now) label (seek_of seek)
        (state_of store.old)) (Some (seek_of result)) store.new probe.old probe.new }
    ensures kept { IsKept (scope_in frame.now) (activation_of frame.now) store.old store.new }
    ensures bits { KeepsBits P.bits probe.old probe.new }
    ensures limits { KeepsLimits store.old store.new }
{
    let next = seek_at(label.value, seek);
    if is_running(next) {
        mark(label.mark, frame, store, probe);
    }
    next
}

/// A `switch` ends: `break` ends it, and an absent `default` has its probe here.
pub(crate) fn switch_ends<P: Probe>(
    flow: Flow,
    absent: Option<Mark>,
    frame: &Frame<'_, '_, '_>,
    store: &mut Store,
    probe: &mut P,
) -> Flow
    requires fits { FitsMark frame.now.function.now.registers absent }
    requires ready { IsReady frame.now store.old (P.bits probe.old) }
    ensures did { (chosen : Bool) → Did P.leads (steps.where_switch_ends (flow_of flow store.old)
        (mark_does (activation_of frame.now) absent chosen) (state_of store.old))
        (Some (flow_of result store.new)) store.new probe.old probe.new }
    ensures typed { (c : Scope) (w : Activation) → bodies.IsReturned c w flow store.old.given →
        bodies.IsReturned c w result store.new.given }
    ensures kept { IsKept (scope_in frame.now) (activation_of frame.now) store.old store.new }
    ensures bits { KeepsBits P.bits probe.old probe.new }
    ensures limits { KeepsLimits store.old store.new }
{
    if ends_switch(flow) {
        mark(absent, frame, store, probe);
        Flow::Completed
    } else {
        flow
    }
}
