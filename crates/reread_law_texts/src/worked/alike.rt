//! A text with as few blanks as it can have, and with one between all tokens.
ghost use Rattle.std.specs.Prelude.{◌≡◌};
ghost use Rattle.mc_lex.specs.declared.token.Dialect.{Dialect};
ghost use Rattle.mc_tree.specs.Height.{height_unit};
ghost use Rattle.mc_grammar.specs.Items.{IsTree};
ghost use Rattle.reread_law_texts.specs.alike.Moves.{AreAlike, FollowFrom, between, moved_tokens};
ghost use Rattle.reread_law_texts.specs.alike.Trees.{moved_unit};
ghost use Rattle.reread_law_texts.specs.alike.Samples.{dense_tokens, dense_tree, spaced_tokens, spaced_tree};

/// The tokens of `int f(int a){return a+1;}` follow each other, and those of
/// `int f ( int a ) { return a + 1 ; }` are the same, moved. The tree of the one, moved, is that of
/// the other, and both are four high.
pub fn blanks_move_tokens()
    ensures alike { AreAlike dense_tokens spaced_tokens }
    ensures follow { FollowFrom 0 dense_tokens }
    ensures tokens { moved_tokens (between dense_tokens spaced_tokens) dense_tokens
        ≡ spaced_tokens }
    ensures tree { (d : Dialect) → IsTree d dense_tokens dense_tree }
    ensures moved { moved_unit (between dense_tokens spaced_tokens) dense_tree ≡ spaced_tree }
    ensures other_tree { (d : Dialect) → IsTree d spaced_tokens spaced_tree }
    ensures high { (height_unit dense_tree ≡ 4) × (height_unit spaced_tree ≡ 4) }
{}
