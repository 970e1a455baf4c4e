//! Declarators with their initializers.
use crate::declarations::declarator::Declarator;
use crate::declarations::initializer::Initializer;

/// A declarator, perhaps with an initializer (C17 6.7).
pub enum InitDeclarator<'a> {
    Bare {
        declarator: Declarator<'a>,
    },
    Initialized {
        declarator: Declarator<'a>,
        value: Initializer<'a>,
    },
}

impl Drop for InitDeclarator<'_> {
    fn drop(self) {
        match self {
            InitDeclarator::Bare { declarator: _ }
            | InitDeclarator::Initialized {
                declarator: _,
                value: _,
            } => {}
        }
    }
}
