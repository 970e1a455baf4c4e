//! The tree of a specifier (C17 6.7.1 to 6.7.3).
ghost use Rattle.std.specs.Prelude.{◌≡◌};
ghost use Rattle.mc_tree.specs.Tree.{span_of_specifier};
ghost use Rattle.mc_tree.specs.Views.{specifier_of};

use crate::declarations::enumerator::Enumerator;
use crate::declarations::member::Member;
use crate::declarations::specifier_word::SpecifierWord;
use crate::identifier::Identifier;
use mc_span::Span;

/// One of the specifiers of a declaration, a parameter, a member or a type name (C17 6.7.1 to
/// 6.7.3).
#[cycle(syntax)]
pub enum Specifier<'a> {
    Word {
        word: SpecifierWord,
        span: Span,
    },
    TypedefName {
        name: Identifier<'a>,
    },
    /// A structure by its tag alone.
    StructureTag {
        tag: Identifier<'a>,
        span: Span,
    },
    /// A structure with its members.
    Structure {
        tag: Option<Identifier<'a>>,
        members: Vec<Member<'a>>,
        span: Span,
    },
    /// An enumeration by its tag alone.
    EnumerationTag {
        tag: Identifier<'a>,
        span: Span,
    },
    /// An enumeration with its constants.
    Enumeration {
        tag: Option<Identifier<'a>>,
        enumerators: Vec<Enumerator<'a>>,
        span: Span,
    },
}

// Not derived: a derived one would be proved again in each crate that lets such a tree go.
impl Drop for Specifier<'_> {
    #[cycle(syntax)]
    fn drop(self) {
        match self {
            Specifier::Word { word: _, span: _ }
            | Specifier::TypedefName { name: _ }
            | Specifier::StructureTag { tag: _, span: _ }
            | Specifier::Structure {
                tag: _,
                members: _,
                span: _,
            }
            | Specifier::EnumerationTag { tag: _, span: _ }
            | Specifier::Enumeration {
                tag: _,
                enumerators: _,
                span: _,
            } => {}
        }
    }
}

impl Specifier<'_> {
    /// Where the specifier stands. Takes no memory.
    pub fn span(&self) -> Span
        ensures { result ≡ span_of_specifier (specifier_of self.now) }
    {
        match self {
            Specifier::TypedefName { name } => name.span,
            Specifier::Word { span, .. }
            | Specifier::StructureTag { span, .. }
            | Specifier::Structure { span, .. }
            | Specifier::EnumerationTag { span, .. }
            | Specifier::Enumeration { span, .. } => *span,
        }
    }
}
