//! The form of one node, by its row of the table.
ghost use Rattle.std.specs.Prelude.{◌≡◌, ◌||◌, map, nat_lt, if◌then◌else◌};
ghost use Rattle.mc_tree.specs.Views.{expression_of, specifier_of, specifiers_from};
ghost use Rattle.mc_tree.specs.Units.{statement_of};
ghost use Rattle.subset_forms.specs.declared.form.Form.TheVariants as form;
ghost use Rattle.mc_subset.specs.Nodes.{an_expression, a_statement};
ghost use Rattle.mc_subset.specs.Nodes as nodes;
ghost use Rattle.mc_subset.specs.Forms.{closing, form_of, outside_at};
ghost use Rattle.mc_subset.specs.Forms as forms;

use mc_span::Span;
use mc_tree::{Expression, Specifier, SpecifierWord, Statement, UnaryOperator};
use subset_forms::{Form, Outside, Region, Role, Standing};

/// What is said of a node of that form at that place.
pub(crate) fn judge(form: Option<Form>, span: Span) -> Option<Outside>
    ensures { result ≡ outside_at form span }
{
    match form {
        Some(form) => Some(Outside { form, span }),
        None => None,
    }
}

/// The `)` of a parameter list.
pub(crate) fn closing_of(list: Span) -> Span
    ensures { result ≡ closing list }
{
    Span {
        start: list.end.saturating_sub(1),
        end: list.end,
    }
}

fn is_of_pointers(operator: UnaryOperator) -> bool
    ensures { result ≡ forms.is_of_pointers operator }
{
    match operator {
        UnaryOperator::Dereference | UnaryOperator::Address => true,
        UnaryOperator::Plus
        | UnaryOperator::Minus
        | UnaryOperator::Complement
        | UnaryOperator::Not => false,
    }
}

fn is_part(role: Role) -> bool
    ensures { result ≡ forms.is_part role }
{
    match role {
        Role::Part => true,
        Role::Statement | Role::ForPart | Role::Clause => false,
    }
}

fn is_for_part(role: Role) -> bool
    ensures { result ≡ forms.is_for_part role }
{
    match role {
        Role::ForPart => true,
        Role::Part | Role::Statement | Role::Clause => false,
    }
}

#[tactic(auto, unfolding(crate::specs::Forms::form_of))]
pub(crate) fn expression_form(tree: &Expression<'_>, role: Role) -> Option<Form>
    ensures { result ≡ form_of (an_expression (expression_of tree.now) role) }
{
    match tree {
        Expression::Unary { operator, .. } => is_of_pointers(*operator).then_some(Form::Pointer),
        Expression::Assignment { .. }
        | Expression::PostfixStep { .. }
        | Expression::PrefixStep { .. } => is_part(role).then_some(Form::NestedAssignment),
        Expression::Comma { .. } => (!is_for_part(role)).then_some(Form::Comma),
        Expression::Name { .. }
        | Expression::Constant { .. }
        | Expression::Character { .. }
        | Expression::Parenthesized { .. }
        | Expression::Call { .. }
        | Expression::Index { .. }
        | Expression::Member { .. }
        | Expression::Cast { .. }
        | Expression::Binary { .. }
        | Expression::Conditional { .. } => None,
    }
}

/// The form of a type name or a parameter with so many `*`.
pub(crate) fn pointer_form(stars: u32) -> Option<Form>
    ensures { result ≡ (if nat_lt 0 stars then Some form.Pointer else None) }
{
    if stars > 0 { Some(Form::Pointer) } else { None }
}

/// The form of a declarator that is not a function's.
pub(crate) fn object_form(stars: u32, external: bool) -> Option<Form>
    ensures { result ≡ (if nat_lt 0 stars then Some form.Pointer
        else (if external then Some form.ExternalObject else None)) }
{
    if stars > 0 {
        Some(Form::Pointer)
    } else {
        external.then_some(Form::ExternalObject)
    }
}

/// The form of a function's declarator.
pub(crate) fn function_form(stars: u32, local: bool) -> Option<Form>
    ensures { result ≡ (if nat_lt 0 stars then Some form.Pointer
        else (if local then Some form.LocalFunction else None)) }
{
    if stars > 0 {
        Some(Form::Pointer)
    } else {
        local.then_some(Form::LocalFunction)
    }
}

/// The form of a structure or an enumeration with a list.
pub(crate) fn tag_form(region: Region) -> Option<Form>
    ensures { result ≡ (if nodes.is_local region then Some form.LocalTag else None) }
{
    is_local(region).then_some(Form::LocalTag)
}

pub(crate) fn is_local(region: Region) -> bool
    ensures { result ≡ nodes.is_local region }
{
    match region {
        Region::File => false,
        Region::Function => true,
    }
}

/// The form of a member with these specifiers.
pub(crate) fn member_form(specifiers: &[Specifier<'_>]) -> Option<Form>
    ensures { let words = specifiers_from (map specifier_of specifiers.now) in
        result ≡ (if forms.has_const words then Some form.ConstMember else None) }
{
    has_const(specifiers).then_some(Form::ConstMember)
}

fn has_const(trees: &[Specifier<'_>]) -> bool
    ensures { result ≡ forms.has_const (specifiers_from (map specifier_of trees.now)) }
{
    for tree in trees {
        if is_const(tree) {
            return true;
        }
    }
    false
}

fn is_const(tree: &Specifier<'_>) -> bool
    ensures { result ≡ forms.is_const (specifier_of tree.now) }
{
    matches!(
        tree,
        Specifier::Word {
            word: SpecifierWord::Const,
            ..
        }
    )
}

pub(crate) fn has_extern(trees: &[Specifier<'_>]) -> bool
    ensures { result ≡ nodes.has_extern (specifiers_from (map specifier_of trees.now)) }
{
    for tree in trees {
        if is_extern(tree) {
            return true;
        }
    }
    false
}

fn is_extern(tree: &Specifier<'_>) -> bool
    ensures { result ≡ nodes.is_extern (specifier_of tree.now) }
{
    matches!(
        tree,
        Specifier::Word {
            word: SpecifierWord::Extern,
            ..
        }
    )
}

/// Where a statement stands whose place in its compound statement is `standing`.
pub(crate) fn standing_from(tree: &Statement<'_>, standing: Standing) -> Standing
    ensures { result ≡ nodes.standing_from (statement_of tree.now) standing }
{
    match tree {
        Statement::Case { .. } | Statement::Default { .. } => standing.of_label(),
        Statement::Compound { .. }
        | Statement::Null { .. }
        | Statement::Expression { .. }
        | Statement::If { .. }
        | Statement::IfElse { .. }
        | Statement::Switch { .. }
        | Statement::While { .. }
        | Statement::DoWhile { .. }
        | Statement::For { .. }
        | Statement::Label { .. }
        | Statement::Goto { .. }
        | Statement::Break { .. }
        | Statement::Continue { .. }
        | Statement::Return { .. } => standing,
    }
}

fn is_compound(tree: &Statement<'_>) -> bool
    ensures { result ≡ forms.is_compound (statement_of tree.now) }
{
    match tree {
        Statement::Compound { .. } => true,
        Statement::Null { .. }
        | Statement::Expression { .. }
        | Statement::If { .. }
        | Statement::IfElse { .. }
        | Statement::Switch { .. }
        | Statement::While { .. }
        | Statement::DoWhile { .. }
        | Statement::For { .. }
        | Statement::Case { .. }
        | Statement::Default { .. }
        | Statement::Label { .. }
        | Statement::Goto { .. }
        | Statement::Break { .. }
        | Statement::Continue { .. }
        | Statement::Return { .. } => false,
    }
}

fn is_before_labels(standing: Standing) -> bool
    ensures { result ≡ forms.is_before_labels standing }
{
    match standing {
        Standing::BeforeLabels => true,
        Standing::Body | Standing::AmongLabels | Standing::Elsewhere => false,
    }
}

fn is_among_labels(standing: Standing) -> bool
    ensures { result ≡ forms.is_among_labels standing }
{
    match standing {
        Standing::AmongLabels => true,
        Standing::Body | Standing::BeforeLabels | Standing::Elsewhere => false,
    }
}

/// The form of a declaration.
pub(crate) fn declaration_form(standing: Standing) -> Option<Form>
    ensures { let inside = forms.is_before_labels standing || forms.is_among_labels standing in
        result ≡ (if inside then Some form.SwitchShape else None) }
{
    (is_before_labels(standing) || is_among_labels(standing)).then_some(Form::SwitchShape)
}

#[tactic(auto, unfolding(crate::specs::Forms::form_of))]
pub(crate) fn statement_form(tree: &Statement<'_>, standing: Standing) -> Option<Form>
    ensures { result ≡ form_of (a_statement (statement_of tree.now) standing) }
{
    match tree {
        Statement::Goto { .. } | Statement::Label { .. } => Some(Form::Goto),
        Statement::Switch { body, .. } => {
            (is_before_labels(standing) || !is_compound(body)).then_some(Form::SwitchShape)
        }
        Statement::Case { .. } | Statement::Default { .. } => {
            (!is_among_labels(standing)).then_some(Form::SwitchShape)
        }
        Statement::Compound { .. }
        | Statement::Null { .. }
        | Statement::Expression { .. }
        | Statement::If { .. }
        | Statement::IfElse { .. }
        | Statement::While { .. }
        | Statement::DoWhile { .. }
        | Statement::For { .. }
        | Statement::Break { .. }
        | Statement::Continue { .. }
        | Statement::Return { .. } => is_before_labels(standing).then_some(Form::SwitchShape),
    }
}
