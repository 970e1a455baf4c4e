//! What is read as a part of an expression.
ghost use Rattle.std.specs.Prelude.{◌≡◌};
ghost use Rattle.mc_grammar.specs.steps.Next.{up_to};
ghost use Rattle.parse_cursor.specs.Rules.{below, level_of, levels_of};

/// The levels of operators between two operands, that which binds closest first (C17 6.5.5 to
/// 6.5.14).
#[derive(Clone, Copy)]
pub enum Level {
    Product,
    Sum,
    Shift,
    Relation,
    Equality,
    BitAnd,
    BitXor,
    BitOr,
    And,
    Or,
}

/// A nonterminal that stands as a part.
#[derive(Clone, Copy)]
pub enum Rule {
    Comma,
    Assign,
    Cond,
    Unary,
    Cast,
    /// An operand of an operator of this level.
    Operand(Level),
}

static LEVELS: [Level; 10] = [
    Level::Product,
    Level::Sum,
    Level::Shift,
    Level::Relation,
    Level::Equality,
    Level::BitAnd,
    Level::BitXor,
    Level::BitOr,
    Level::And,
    Level::Or,
];

impl Level {
    /// The levels up to this one, that which binds closest first.
    pub fn up_to(self) -> &'static [Level]
        ensures { levels_of result.now ≡ up_to (level_of self) }
    {
        match self {
            Level::Product => &LEVELS[..1],
            Level::Sum => &LEVELS[..2],
            Level::Shift => &LEVELS[..3],
            Level::Relation => &LEVELS[..4],
            Level::Equality => &LEVELS[..5],
            Level::BitAnd => &LEVELS[..6],
            Level::BitXor => &LEVELS[..7],
            Level::BitOr => &LEVELS[..8],
            Level::And => &LEVELS[..9],
            Level::Or => &LEVELS[..],
        }
    }

    /// The levels of an operand; an operand of a product is a cast.
    pub fn below(self) -> &'static [Level]
        ensures { levels_of result.now ≡ below (level_of self) }
    {
        match self {
            Level::Product => &LEVELS[..0],
            Level::Sum => Level::Product.up_to(),
            Level::Shift => Level::Sum.up_to(),
            Level::Relation => Level::Shift.up_to(),
            Level::Equality => Level::Relation.up_to(),
            Level::BitAnd => Level::Equality.up_to(),
            Level::BitXor => Level::BitAnd.up_to(),
            Level::BitOr => Level::BitXor.up_to(),
            Level::And => Level::BitOr.up_to(),
            Level::Or => Level::And.up_to(),
        }
    }
}
