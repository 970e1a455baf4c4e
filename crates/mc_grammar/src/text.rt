//! Laws of a tree and its text: what a tree spells, and where its nodes stand.
ghost use Rattle.std.specs.Prelude.{Bool, false};
ghost use Rattle.mc_lex.specs.declared.token.Dialect.{Dialect};
ghost use Rattle.mc_tree.specs.Tree.{span_of_parameters, span_of_statement};
ghost use Rattle.mc_grammar.specs.Counts.{for_local};
ghost use Rattle.mc_grammar.specs.Expressions.{ReadsDeclarator, ReadsEnumerator, ReadsExpressions, ReadsMember, ReadsParameter, ReadsParameters, ReadsSpecifiers, ReadsTypeName};
ghost use Rattle.mc_grammar.specs.Statements.{ReadsDeclaration, ReadsForStart, ReadsInitializer, ReadsStatement};
ghost use Rattle.mc_grammar.specs.Items.{ReadsItem};
ghost use Rattle.mc_grammar.specs.Spelling.{spell_declaration, spell_declarator, spell_enumerator, spell_expressions, spell_initializer, spell_item, spell_member, spell_parameter, spell_parameters, spell_specifiers, spell_start, spell_statement, spell_type_name};
ghost use Rattle.mc_grammar.specs.Extent.{span_of_declarator, span_of_item, span_of_member, span_of_parameter, span_of_type_name};
ghost use Rattle.mc_grammar.specs.Laws.{BracesHavePlace, CaseHasPlace, CompoundHasPlace, DeclarationHasPlace, DefaultHasPlace, ExpressionHasPlace, ExpressionSpellsText, FunctionHasPlace, HasPlace, SpecifierHasPlace, SpellsText, TreeSpellsText};

/// A tree spells its text: token by token the text has the kinds, the texts and the values that the
/// tree says, and names at the places that it says. Only a comma directly before a `}` may be
/// missing in the tree. Names other than tags and typedef names are identifiers that are not
/// typedef names, a typedef name is one, and a tag is either; what is a typedef name is told by the
/// declarators of the tree's typedefs (C17 6.7.8).
#[tactic(auto, using(crate::proofs::Spelling::unit_spells))]
pub fn tree_spells_its_text()
    ensures { TreeSpellsText }
{}

/// Each part of a tree spells the tokens that were read for it.
pub fn parts_spell_their_tokens()
    ensures expression { ExpressionSpellsText }
    ensures expressions { (d : Dialect) → SpellsText spell_expressions (ReadsExpressions d) }
    ensures type_name { (d : Dialect) → SpellsText spell_type_name (ReadsTypeName d) }
    ensures specifiers { (d : Dialect) (has_type : Bool)
        → SpellsText spell_specifiers (ReadsSpecifiers d has_type) }
    ensures member { (d : Dialect) → SpellsText spell_member (ReadsMember d) }
    ensures enumerator { (d : Dialect) → SpellsText spell_enumerator (ReadsEnumerator d) }
    ensures declarator { (d : Dialect) → SpellsText spell_declarator (ReadsDeclarator d) }
    ensures parameters { (d : Dialect) → SpellsText spell_parameters (ReadsParameters d) }
    ensures parameter { (d : Dialect) → SpellsText spell_parameter (ReadsParameter d) }
    ensures initializer { (d : Dialect) → SpellsText spell_initializer (ReadsInitializer d) }
    ensures local { (d : Dialect)
        → SpellsText spell_declaration (ReadsDeclaration d false for_local) }
    ensures for_start { (d : Dialect) → SpellsText spell_start (ReadsForStart d) }
    ensures statement { (d : Dialect) → SpellsText spell_statement (ReadsStatement d) }
    ensures item { (d : Dialect) → SpellsText spell_item (ReadsItem d) }
{}

/// The place of a node runs from the first byte of its first token to after the last byte of its
/// last.
pub fn places_run_from_first_token_to_last()
    ensures expression { ExpressionHasPlace }
    ensures type_name { (d : Dialect) → HasPlace span_of_type_name (ReadsTypeName d) }
    ensures member { (d : Dialect) → HasPlace span_of_member (ReadsMember d) }
    ensures declarator { (d : Dialect) → HasPlace span_of_declarator (ReadsDeclarator d) }
    ensures parameters { (d : Dialect) → HasPlace span_of_parameters (ReadsParameters d) }
    ensures parameter { (d : Dialect) → HasPlace span_of_parameter (ReadsParameter d) }
    ensures declaration { DeclarationHasPlace }
    ensures statement { (d : Dialect) → HasPlace span_of_statement (ReadsStatement d) }
    ensures compound { CompoundHasPlace }
    ensures item { (d : Dialect) → HasPlace span_of_item (ReadsItem d) }
{}

/// So does the place of a part that is read with others: of the first of some specifiers, of the
/// braces of an initializer, of a label through its colon, and of a function's declarator. The
/// others are read after it.
#[tactic(auto, using(crate::proofs::Extent::specifier_stands, crate::proofs::Extent::braced_stands, crate::proofs::Extent::case_stands, crate::proofs::Extent::default_stands, crate::proofs::Extent::function_stands))]
pub fn places_of_parts_run_from_first_token_to_last()
    ensures specifier { SpecifierHasPlace }
    ensures braces { BracesHavePlace }
    ensures case { CaseHasPlace }
    ensures default { DefaultHasPlace }
    ensures function { FunctionHasPlace }
{}
