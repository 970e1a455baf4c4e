//! How the parts of a body end.
ghost use Rattle.std.specs.Prelude.{◌≡◌, is_some};
ghost use Rattle.mc_interp.specs.Bodies as bodies;
ghost use Rattle.mc_interp.specs.Views as prepared;
ghost use Rattle.mc_steps.specs.Statements as steps;

use crate::prepared::Prepared;
use interp_steps::Flow;
use mc_typed::Mark;
use mc_value::IntType;

/// Whether the items of a body run, or are passed over up to the label of a value, or to `default`.
#[derive(Clone, Copy)]
pub(crate) enum Seek {
    Running,
    Case { of: IntType, word: u64 },
    Default,
}

/// What follows an item of a body: the next item, or the end of the body.
#[derive(Clone, Copy)]
pub(crate) enum Next {
    Item(Seek),
    End(Flow),
}

/// A label: its value, where it is no `default`, and its probe.
#[derive(Clone, Copy)]
pub(crate) struct Label {
    pub value: Option<i128>,
    pub mark: Option<Mark>,
}

/// The label that an item is, if it is one.
pub(crate) fn label_of(tree: &Prepared<'_>) -> Option<Label>
    ensures { result ≡ bodies.label_of (prepared.statement_of tree.now) }
{
    match tree {
        Prepared::Label { value, mark, .. } => Some(Label {
            value: *value,
            mark: *mark,
        }),
        Prepared::Compound { .. }
        | Prepared::Declaration { .. }
        | Prepared::Null { .. }
        | Prepared::Effect { .. }
        | Prepared::If { .. }
        | Prepared::IfElse { .. }
        | Prepared::Switch { .. }
        | Prepared::For { .. }
        | Prepared::DoWhile { .. }
        | Prepared::Break { .. }
        | Prepared::Continue { .. }
        | Prepared::Return { .. } => None,
    }
}

/// Whether an item is a label.
pub(crate) fn is_label(tree: &Prepared<'_>) -> bool
    ensures { result ≡ is_some (bodies.label_of (prepared.statement_of tree.now)) }
{
    label_of(tree).is_some()
}

/// Whether the items run.
pub(crate) fn is_running(seek: Seek) -> bool
    ensures { result ≡ steps.is_running (bodies.seek_of seek) }
{
    match seek {
        Seek::Running => true,
        Seek::Case { .. } | Seek::Default => false,
    }
}

/// What follows an item that ended so.
pub(crate) fn next_after(flow: Flow) -> Next
    ensures { result ≡ bodies.code_next_after flow }
{
    match flow {
        Flow::Completed => Next::Item(Seek::Running),
        Flow::Broke | Flow::Continued | Flow::Left => Next::End(flow),
    }
}

/// Whether a `switch` ends where its items ended so.
pub(crate) fn ends_switch(flow: Flow) -> bool
    ensures { result ≡ bodies.ends_switch flow }
{
    match flow {
        Flow::Completed | Flow::Broke => true,
        Flow::Continued | Flow::Left => false,
    }
}

/// Whether a body ended with a `return`.
pub(crate) fn has_left(flow: Flow) -> bool
    ensures { result ≡ bodies.has_left flow }
{
    match flow {
        Flow::Completed | Flow::Broke | Flow::Continued => false,
        Flow::Left => true,
    }
}
