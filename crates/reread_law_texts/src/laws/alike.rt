//! Laws of texts that differ in blanks and comments alone: their trees differ in places alone. The
//! functions do nothing: each has a law as its contract.
ghost use Rattle.mc_lex.specs.declared.token.Dialect.{Dialect};
ghost use Rattle.std.specs.Prelude.{Bool, List, ℕ};
ghost use Rattle.mc_grammar.specs.Expressions.{ReadsDeclarator, ReadsDeclarators, ReadsEnumerator, ReadsEnumerators, ReadsExpressions, ReadsMember, ReadsMembers, ReadsParameter, ReadsParameterList, ReadsParameters, ReadsSpecifiers, ReadsTypeName};
ghost use Rattle.mc_grammar.specs.Statements.{ReadsBlockItems, ReadsForStart, ReadsInitDeclarator, ReadsInitDeclarators, ReadsInitializer, ReadsInitializers, ReadsOptional, ReadsStatement, ReadsTest};
ghost use Rattle.mc_grammar.specs.Items.{ReadsItem};
ghost use Rattle.reread_law_texts.specs.alike.Trees.{moved, moved_block, moved_declarator, moved_declarators, moved_enumerator, moved_enumerators, moved_expressions, moved_init_declarator, moved_init_declarators, moved_initializer, moved_initializers, moved_item, moved_member, moved_members, moved_optional, moved_parameter, moved_parameter_list, moved_parameters, moved_specifiers, moved_start, moved_statement, moved_type_name};
ghost use Rattle.reread_law_texts.specs.alike.Laws.{AlikeTextsHaveMovedTrees, AlikeTokensAreMoved, CompoundMoves, DeclarationMoves, ExpressionMoves, FormsAreKept, HeightIsKept, LengthsMove, MovesAlong, OrderIsKept, RefusalIsKept, StarsMove, TokensFollow, TreeMoves};

/// What is read of an expression is read of the moved tokens, in every dialect, with the moved
/// tree. So is a list of expressions and a type name.
pub fn expressions_move()
    ensures expression { ExpressionMoves }
    ensures expressions { MovesAlong moved_expressions ReadsExpressions }
    ensures type_name { MovesAlong moved_type_name ReadsTypeName }
{}

/// So are specifiers and a declarator, and each of their parts.
pub fn declarators_move()
    ensures stars { StarsMove }
    ensures specifiers { (has_type : Bool)
        → MovesAlong moved_specifiers (λ (d : Dialect). ReadsSpecifiers d has_type) }
    ensures members { MovesAlong moved_members ReadsMembers }
    ensures member { MovesAlong moved_member ReadsMember }
    ensures declarators { MovesAlong moved_declarators ReadsDeclarators }
    ensures enumerators { MovesAlong moved_enumerators ReadsEnumerators }
    ensures enumerator { MovesAlong moved_enumerator ReadsEnumerator }
    ensures declarator { MovesAlong moved_declarator ReadsDeclarator }
    ensures lengths { LengthsMove }
    ensures parameters { MovesAlong moved_parameters ReadsParameters }
    ensures parameter_list { MovesAlong moved_parameter_list ReadsParameterList }
    ensures parameter { MovesAlong moved_parameter ReadsParameter }
{}

/// So is an initializer, a declarator with its initializer if it has one, each list of them, and a
/// declaration.
pub fn declarations_move()
    ensures initializer { MovesAlong moved_initializer ReadsInitializer }
    ensures initializers { MovesAlong moved_initializers ReadsInitializers }
    ensures init_declarator { (typedef : Bool)
        → MovesAlong moved_init_declarator (λ (d : Dialect). ReadsInitDeclarator d typedef) }
    ensures init_declarators { (typedef : Bool)
        → MovesAlong moved_init_declarators (λ (d : Dialect). ReadsInitDeclarators d typedef) }
    ensures declaration { DeclarationMoves }
{}

/// So is a statement, and each of its parts.
pub fn statements_move()
    ensures optional { (stop : List ℕ)
        → MovesAlong moved_optional (λ (d : Dialect). ReadsOptional d stop) }
    ensures test { MovesAlong moved ReadsTest }
    ensures for_start { MovesAlong moved_start ReadsForStart }
    ensures statement { MovesAlong moved_statement ReadsStatement }
    ensures compound { CompoundMoves }
    ensures block_items { MovesAlong moved_block ReadsBlockItems }
{}

/// So is an item, and a whole list of tokens.
pub fn trees_move()
    ensures item { MovesAlong moved_item ReadsItem }
    ensures tree { TreeMoves }
{}

/// Where two lists of tokens have the same kinds and texts, and those of the first follow each
/// other, the second is the first, moved. So the tree of the one is that of the other, moved: only
/// their places differ.
pub fn alike_texts_have_moved_trees()
    ensures moved { AlikeTokensAreMoved }
    ensures tree { AlikeTextsHaveMovedTrees }
{}

/// The tokens of a source follow each other: each has a text, and starts where the one before it
/// ends or later.
pub fn tokens_follow()
    ensures { TokensFollow }
{}

/// Where the tokens follow each other before and after, a start of a token stands before another
/// start, and before an end, exactly where it did.
pub fn order_is_kept()
    ensures { OrderIsKept }
{}

/// A moved tree is as high.
pub fn height_is_kept()
    ensures { HeightIsKept }
{}

/// Each node of a moved tree has the outside form that it had, or none. So a moved tree has a node
/// outside the profile exactly where the tree has one.
pub fn forms_are_kept()
    ensures forms { FormsAreKept }
    ensures refusal { RefusalIsKept }
{}
