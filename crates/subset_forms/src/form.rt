//! Forms of C that have a tree and are left out.
ghost use Rattle.std.specs.Prelude.{◌≡◌};
ghost use Rattle.subset_forms.specs.Names.{name_of};

use std::fmt;

/// Why a node is outside. At one node the first of these that fits answers.
#[derive(Clone, Copy, Debug, PartialEq, Eq)]
pub enum Form {
    /// A declarator, parameter or type name with `*`; unary `*` or `&`.
    Pointer,
    /// An assignment, `++` or `--` that is neither a whole expression statement nor a clause of the
    /// first or third part of a `for`.
    NestedAssignment,
    /// A comma between expressions, except between clauses of the first or third part of a `for`.
    Comma,
    /// A `goto`, or an ordinary label.
    Goto,
    /// A parameter list without a token.
    EmptyParameters,
    /// A `switch` whose body is not a compound statement; a declaration directly in the body; a
    /// statement directly in it before its first label; a `case` or `default` label anywhere else.
    SwitchShape,
    /// A structure or enumeration with a list inside a function definition or a parameter.
    LocalTag,
    /// A function declarator in a local declaration.
    LocalFunction,
    /// `extern` on a declarator that is not a function's.
    ExternalObject,
    /// `const` among the specifiers of a member.
    ConstMember,
}

impl Form {
    /// The form as it is printed.
    pub fn as_str(self) -> &'static str
        ensures { result.now ≡ name_of self }
    {
        match self {
            Form::Pointer => "pointer",
            Form::NestedAssignment => "nested assignment",
            Form::Comma => "comma",
            Form::Goto => "goto",
            Form::EmptyParameters => "empty parameters",
            Form::SwitchShape => "switch shape",
            Form::LocalTag => "local tag",
            Form::LocalFunction => "local function",
            Form::ExternalObject => "external object",
            Form::ConstMember => "const member",
        }
    }
}

impl fmt::Display for Form {
    fn fmt<W: fmt::Write>(&self, f: &mut fmt::Formatter<W>) -> fmt::Result {
        f.write_str(self.as_str())
    }
}
