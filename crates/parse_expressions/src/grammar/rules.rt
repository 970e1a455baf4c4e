//! Each rule by its name: the one call of the recursion, so that its proof has one contract to see.
ghost use Rattle.std.specs.Prelude.{◌≤◌, IfOk};
ghost use Rattle.laws_grammar.specs.Expressions as spec;
ghost use Rattle.laws_grammar.specs.Rooms.{reading};
ghost use Rattle.parse_cursor.specs.Cursors.{left_of};
ghost use Rattle.parse_expressions.specs.Given.{GivesTree};
ghost use Rattle.parse_cursor.specs.Rules.{nonterminal_of};

use crate::grammar::Grammar;
use crate::grammar::parts::PartReader;
use crate::read::Read;
use parse_cursor::cursor::Cursor;
use parse_cursor::fault::Fault;
use parse_cursor::rule::Rule;

impl<'a, P: PartReader<'a>> Grammar<P> {
    /// Reads an expression by this rule.
    #[inline(always)]
    #[tactic(auto, using(crate::proofs::Rooms::operand_at))]
    pub fn by_rule(&self, tokens: &mut Cursor<'_, 'a>, rule: Rule) -> Result<Read<'a>, Fault>
        requires room { (self.now.room ≤ 1000) × (1 ≤ self.now.room) }
        requires nests { P.nests self.now.parts self.now.room }
        ensures tree { GivesTree (spec.expression_by (reading self.now.room) self.now.room
            (nonterminal_of rule) (left_of tokens.old)) result (left_of tokens.new) }
        ensures height { IfOk result (λ r. r.height ≤ self.now.room) }
    {
        match rule {
            Rule::Comma => self.comma(tokens),
            Rule::Assign => self.assign(tokens),
            Rule::Cond => self.cond(tokens),
            Rule::Unary => self.unary(tokens),
            Rule::Cast => self.cast(tokens),
            Rule::Operand(level) => self.climb(level.below(), tokens),
        }
    }
}
