//! Laws of reading: what it reads, the grammar reads, and the other way round. So a text has at
//! most one tree, and from where it begins so has each of its parts.
ghost use Rattle.laws_grammar.specs.Laws.{Complete, OneBlockItems, OneCompound, OneDeclaration, OneDeclarator, OneDeclarators, OneEnumerator, OneEnumerators, OneExpression, OneExpressions, OneForStart, OneInitDeclarator, OneInitDeclarators, OneInitializer, OneInitializers, OneItem, OneLengths, OneMember, OneMembers, OneOptional, OneParameter, OneParameterList, OneParameters, OneSpecifiers, OneStars, OneStatement, OneTest, OneTypeName, OneUnit, Sound, TextHasAtMostOneTree};

/// What the grammar reads within a limit, the reading gives.
#[tactic(auto, using(crate::proofs::CompleteItems::complete_unit))]
pub fn complete()
    ensures { Complete }
{}

/// What the reading gives, the grammar reads, within the limit and to the end.
pub fn sound()
    ensures { Sound }
{}

/// A list of tokens has at most one tree.
#[tactic(auto, using(crate::proofs::OneTree::one_tree))]
pub fn text_has_at_most_one_tree()
    ensures { TextHasAtMostOneTree }
{}

/// From the front of a list of tokens an expression of each nonterminal is read in at most one way,
/// with one tree and one rest. So is a list of expressions, and a type name.
#[tactic(auto, using(crate::proofs::OneTree::one_expression, crate::proofs::OneTree::one_expressions, crate::proofs::OneTree::one_type_name))]
pub fn expression_is_read_in_one_way()
    ensures expression { OneExpression }
    ensures expressions { OneExpressions }
    ensures type_name { OneTypeName }
{}

/// So are specifiers and a declarator, and each of their parts: a list of declarators, the members
/// of a structure and one of them, the constants of an enumeration and one of them, the `*` of a
/// declarator, the lengths of an array, the parameters of a function with their parentheses, a list
/// of parameters and one of them.
#[tactic(auto, using(crate::proofs::OneTree::one_stars, crate::proofs::OneTree::one_specifiers, crate::proofs::OneTree::one_members, crate::proofs::OneTree::one_member, crate::proofs::OneTree::one_declarators, crate::proofs::OneTree::one_enumerators, crate::proofs::OneTree::one_enumerator, crate::proofs::OneTree::one_declarator, crate::proofs::OneTree::one_lengths, crate::proofs::OneTree::one_parameters, crate::proofs::OneTree::one_parameter_list, crate::proofs::OneTree::one_parameter))]
pub fn declarator_is_read_in_one_way()
    ensures stars { OneStars }
    ensures specifiers { OneSpecifiers }
    ensures members { OneMembers }
    ensures member { OneMember }
    ensures declarators { OneDeclarators }
    ensures enumerators { OneEnumerators }
    ensures enumerator { OneEnumerator }
    ensures declarator { OneDeclarator }
    ensures lengths { OneLengths }
    ensures parameters { OneParameters }
    ensures parameter_list { OneParameterList }
    ensures parameter { OneParameter }
{}

/// So is an initializer, a declarator with its initializer if it has one, each list of them, and a
/// declaration, whatever tests its specifiers meet. Whether it is a typedef is given here; at an
/// item the specifiers tell it.
#[tactic(auto, using(crate::proofs::OneTree::one_initializer, crate::proofs::OneTree::one_initializers, crate::proofs::OneTree::one_init_declarator, crate::proofs::OneTree::one_init_declarators, crate::proofs::OneTree::one_declaration))]
pub fn declaration_is_read_in_one_way()
    ensures initializer { OneInitializer }
    ensures initializers { OneInitializers }
    ensures init_declarator { OneInitDeclarator }
    ensures init_declarators { OneInitDeclarators }
    ensures declaration { OneDeclaration }
{}

/// So is a statement, and each of its parts: an expression that may be left out, a test with its
/// parentheses, the first part of a `for`, a compound statement and the items of a block.
#[tactic(auto, using(crate::proofs::OneTree::one_optional, crate::proofs::OneTree::one_test, crate::proofs::OneTree::one_for_start, crate::proofs::OneTree::one_statement, crate::proofs::OneTree::one_compound, crate::proofs::OneTree::one_block_items))]
pub fn statement_is_read_in_one_way()
    ensures optional { OneOptional }
    ensures test { OneTest }
    ensures for_start { OneForStart }
    ensures statement { OneStatement }
    ensures compound { OneCompound }
    ensures block_items { OneBlockItems }
{}

/// So is an item, and all the items up to the end.
#[tactic(auto, using(crate::proofs::OneTree::one_item, crate::proofs::OneTree::one_unit))]
pub fn item_is_read_in_one_way()
    ensures item { OneItem }
    ensures unit { OneUnit }
{}
