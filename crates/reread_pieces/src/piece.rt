//! Pieces of an instrumented text.

use crate::bracket::Bracket;
use mc_lex::Token;

/// What a piece is: a token of the source, or what a row of the table inserts.
///
/// The numbers are those of the text: `bit` of an event, `register` of a function, `base` the first
/// bit of a decision, and what a condition adds to its register.
#[derive(Clone, Copy, Debug, PartialEq, Eq)]
pub enum What {
    /// A token of the source that is no bracket.
    Source,
    /// A token of the source that opens a bracket.
    Opening {
        bracket: Bracket,
    },
    /// A token of the source that closes one.
    Closing,
    /// `unsigned mcdc_r [ n ] ;`
    Registers {
        count: u32,
    },
    /// `MCDC_H ( b ) ;` at the front of a function's body
    Entry {
        bit: u32,
    },
    /// `MCDC_H ( b ) ;` before the `}` of a function's body
    Exit {
        bit: u32,
    },
    /// `MCDC_H ( b ) ;` before a declaration
    Declaration {
        bit: u32,
    },
    /// `MCDC_L ( r , b ) ;` after a label's colon
    Label {
        register: u32,
        bit: u32,
    },
    /// `MCDC_L ( r , b ) ;` after a `switch` without `default`
    Default {
        register: u32,
        bit: u32,
    },
    /// `{ MCDC_H ( b ) ;` before a counted statement
    Statement {
        bit: u32,
    },
    /// `}` after it
    StatementEnd,
    /// `{ T mcdc_v =` in place of the word `return` before a value
    Value,
    /// `; MCDC_H ( b ) ; return mcdc_v ; }` in place of the `;` after the value
    ValueEnd {
        bit: u32,
    },
    /// `{ MCDC_H ( b ) ;` before `return ;`
    Return {
        bit: u32,
    },
    /// `}` after it
    ReturnEnd,
    /// `MCDC_D ( r , base ,`
    Decision {
        register: u32,
        base: u32,
    },
    /// `MCDC_C ( r , t , f ,`
    Condition {
        register: u32,
        on_true: u32,
        on_false: u32,
    },
    /// `MCDC_W ( r ,`
    Switch {
        register: u32,
    },
    /// `)` after the operand of one of these three
    OperandEnd,
}

/// A piece of a text: what it is, the first of its tokens, and the byte at which the word of its
/// probe starts. A token of the source is its own word.
#[derive(Clone, Copy, Debug)]
pub struct Piece<'a> {
    pub what: What,
    pub token: Token<'a>,
    pub word: u32,
}
