//! The worked examples of docs/LANGUAGE.md: what the grammar reads of short texts, and how high the
//! trees are.
ghost use Rattle.std.specs.Prelude.{◌≡◌, ◌≤◌, ◌<◌, ℕ, Bool, List, [], ◌∷◌, codes, length};
ghost use Rattle.mc_lex.specs.declared.token.Dialect.{Dialect};
ghost use Rattle.mc_span.specs.declared.span.Span.{Span};
ghost use Rattle.mc_tree.specs.Tree.{Declarator, Expression, Initializer, Parameters, Statement, Item};
ghost use Rattle.mc_tree.specs.Tree as source_tree;
ghost use Rattle.mc_tree.specs.Height.{height, height_unit};
ghost use Rattle.mc_tree.specs.Length.{token_count};
ghost use Rattle.mc_grammar.specs.Words.{Lexeme, lexemes_of, retag};
ghost use Rattle.mc_grammar.specs.Nonterminal as nonterminal;
ghost use Rattle.mc_grammar.specs.Expressions.{Reads, ReadsStars, ReadsDeclarator, ReadsParameters};
ghost use Rattle.mc_grammar.specs.Statements.{ReadsBlockItems, ReadsStatement, ReadsInitializer};
ghost use Rattle.mc_grammar.specs.Items.{IsTree, IsTreeWithin, ReadsItem};
ghost use Rattle.mc_grammar.specs.Meaning.{declares, identifier, multiplies, punctuator, type_name};
ghost use Rattle.mc_grammar.specs.Samples.{name, typedef_tokens, typedef_tree, value_tokens, value_tree, named_void_tokens, named_void_tree, void_tokens, void_tree, body_tokens, body_tree, tag_tokens, tag_tree, enumeration_tokens, enumeration_tree, braced_tokens, braced_tree};
ghost use Rattle.mc_grammar.specs.Nested.{nested_tokens, nested_height};
ghost use Rattle.mc_grammar.specs.Snippets.{semicolon, sum_tokens, sum_tree, operands_tokens, operands_tree, minus_tokens, cast_tree, subtraction_tree, else_tokens, else_tree, assignment_tokens, assignment_tree, parentheses_tokens, parentheses_tree, after_parentheses, element_tokens, element_tree, after_element, length_tokens, after_bracket, after_name};

/// In a block `T * x;` declares `x` where `T` is a typedef name.
#[tactic(auto, using(crate::proofs::Examples::declares_it))]
pub fn type_before_star_declares()
    ensures { (d : Dialect) (name other : List ℕ)
        (type_place star_place name_place semicolon_place brace_place : ℕ)
        → ReadsBlockItems d
        (type_name name type_place ∷ punctuator (codes "*") star_place
        ∷ identifier other name_place ∷ punctuator (codes ";") semicolon_place
        ∷ punctuator (codes "}") brace_place ∷ [])
        (declares name other type_place star_place name_place semicolon_place)
        (punctuator (codes "}") brace_place ∷ []) }
{}

/// In a block `a * x;` multiplies where `a` is not a typedef name.
#[tactic(auto, using(crate::proofs::Examples::multiplies_it))]
pub fn identifier_before_star_multiplies()
    ensures { (d : Dialect) (name other : List ℕ)
        (type_place star_place name_place semicolon_place brace_place : ℕ)
        → ReadsBlockItems d
        (identifier name type_place ∷ punctuator (codes "*") star_place
        ∷ identifier other name_place ∷ punctuator (codes ";") semicolon_place
        ∷ punctuator (codes "}") brace_place ∷ [])
        (multiplies name other type_place star_place name_place semicolon_place)
        (punctuator (codes "}") brace_place ∷ []) }
{}

/// A typedef's name is in force from the end of its declarator, within its declaration too:
/// `typedef int T,t[(T)3];` has a tree, with a cast in it.
#[tactic(auto, using(crate::proofs::Samples::in_force_at_once))]
pub fn typedef_name_is_in_force_at_once()
    ensures { (d : Dialect) → IsTree d typedef_tokens typedef_tree }
{}

/// `a + b + c` is `(a + b) + c`, and its height is 3.
#[tactic(auto, using(crate::proofs::Snippets::sum))]
pub fn sum_groups_to_the_left()
    ensures tree { (d : Dialect)
        → Reads d nonterminal.comma (lexemes_of sum_tokens) sum_tree (lexemes_of (semicolon 9)) }
    ensures high { height sum_tree ≡ 3 }
{}

/// `a, b, c` is one node with three operands, and its height is 2.
#[tactic(auto, using(crate::proofs::Snippets::operands))]
pub fn operands_share_one_node()
    ensures tree { (d : Dialect)
        → Reads d nonterminal.comma (lexemes_of operands_tokens) operands_tree
        (lexemes_of (semicolon 7)) }
    ensures high { height operands_tree ≡ 2 }
{}

/// `(T) - 1` is a cast of `-1` where `T` is a typedef name, and else a subtraction.
#[tactic(auto, using(crate::proofs::Snippets::cast, crate::proofs::Snippets::subtraction))]
pub fn typedef_name_makes_a_cast()
    ensures cast { (d : Dialect)
        → Reads d nonterminal.comma (retag (codes "T") (lexemes_of minus_tokens)) cast_tree
        (lexemes_of (semicolon 7)) }
    ensures subtraction { (d : Dialect)
        → Reads d nonterminal.comma (lexemes_of minus_tokens) subtraction_tree
        (lexemes_of (semicolon 7)) }
{}

/// In `if (a) if (b) ; else ;` the `else` is of the inner `if`.
#[tactic(auto, using(crate::proofs::Snippets::inner_else))]
pub fn else_is_of_the_inner_if()
    ensures { (d : Dialect) → ReadsStatement d (lexemes_of else_tokens) else_tree [] }
{}

/// In `(a=1);` the assignment stands inside another expression, its parentheses.
#[tactic(auto, using(crate::proofs::Snippets::assignment))]
pub fn parentheses_stay_around_an_assignment()
    ensures { (d : Dialect) → ReadsStatement d (lexemes_of assignment_tokens) assignment_tree [] }
{}

/// `int a = 5;` is a text of height 2: the initializer, and the expression in it. It has five
/// tokens.
#[tactic(auto, using(crate::proofs::Samples::value))]
pub fn initializer_counts_one()
    ensures tree { (d : Dialect) → IsTree d value_tokens value_tree }
    ensures high { height_unit value_tree ≡ 2 }
    ensures count { (token_count value_tree ≡ 5) × (length value_tokens ≡ 5) }
{}

/// `(V)` with `typedef void V;` is a list of one parameter, and `(void)` is the word itself.
#[tactic(auto, using(crate::proofs::Samples::named_void, crate::proofs::Samples::void))]
pub fn void_by_another_name_is_a_parameter()
    ensures named { (d : Dialect) → IsTree d named_void_tokens named_void_tree }
    ensures word { (d : Dialect) → IsTree d void_tokens void_tree }
{}

/// `int f(void) { return 0; }` has height 3: its body is a block, with a `return` and a constant in
/// it.
#[tactic(auto, using(crate::proofs::Samples::body))]
pub fn body_counts_one()
    ensures tree { (d : Dialect) → IsTree d body_tokens body_tree }
    ensures high { height_unit body_tree ≡ 3 }
{}

/// A typedef name may be a tag: `typedef int T; struct T { int a; };`.
#[tactic(auto, using(crate::proofs::Samples::tag))]
pub fn typedef_name_may_be_a_tag()
    ensures { (d : Dialect) → IsTree d tag_tokens tag_tree }
{}

/// The lists of an enumeration and of an initializer may end with a comma: `enum { A, B = 2, };`
/// and `int a[2] = {1, 2,};`. It leaves no trace: the first text has ten tokens, and its tree
/// stands for nine.
#[tactic(auto, using(crate::proofs::Samples::enumeration, crate::proofs::Samples::braced))]
pub fn list_may_end_with_comma()
    ensures enumeration { (d : Dialect) → IsTree d enumeration_tokens enumeration_tree }
    ensures fewer { (token_count enumeration_tree ≡ 9) × (length enumeration_tokens ≡ 10) }
    ensures initializer { (d : Dialect) → IsTree d braced_tokens braced_tree }
{}

/// `(f)(x)` is not a call: of it an expression takes `(f)`, and as a statement it is not read.
#[tactic(auto, using(crate::proofs::Refused::parentheses_leave, crate::proofs::Refused::parentheses_no_statement))]
pub fn parentheses_are_not_called()
    ensures rest { (d : Dialect) (a : Expression) (rest : List Lexeme)
        → Reads d nonterminal.comma (lexemes_of parentheses_tokens) a rest
        → (rest ≡ lexemes_of after_parentheses) × (a ≡ parentheses_tree) }
    ensures statement { (d : Dialect) (one : Statement) (rest : List Lexeme)
        → ReadsStatement d (lexemes_of parentheses_tokens) one rest → ⊥ }
{}

/// `a[0](x)` is not a call: of it an expression takes `a[0]`, and as a statement it is not read.
#[tactic(auto, using(crate::proofs::Refused::element_leaves, crate::proofs::Refused::element_no_statement))]
pub fn element_is_not_called()
    ensures rest { (d : Dialect) (a : Expression) (rest : List Lexeme)
        → Reads d nonterminal.comma (lexemes_of element_tokens) a rest
        → (rest ≡ lexemes_of after_element) × (a ≡ element_tree) }
    ensures statement { (d : Dialect) (one : Statement) (rest : List Lexeme)
        → ReadsStatement d (lexemes_of element_tokens) one rest → ⊥ }
{}

/// A length is not an assignment: `int a[b=1];` has no tree, since of `b=1` a length takes `b`.
#[tactic(auto, using(crate::proofs::Refused::length_leaves, crate::proofs::Refused::length_no_tree))]
pub fn length_is_not_an_assignment()
    ensures rest { (d : Dialect) (a : Expression) (rest : List Lexeme)
        → Reads d nonterminal.cond (lexemes_of after_bracket) a rest
        → (rest ≡ lexemes_of after_name) × (a ≡ source_tree.Named (name (codes "b") 6 7)) }
    ensures tree { (d : Dialect) (unit : List Item) → IsTree d length_tokens unit → ⊥ }
{}

/// A `;` alone is not an item, whatever follows it.
#[tactic(auto, using(crate::proofs::Refused::semicolon_no_item))]
pub fn semicolon_alone_is_not_an_item()
    ensures { (d : Dialect) (start : ℕ) (ts : List Lexeme) (one : Item) (rest : List Lexeme)
        → ReadsItem d (punctuator (codes ";") start ∷ ts) one rest → ⊥ }
{}

/// No parameter list begins with a name without a type, as in `int f(a)`.
#[tactic(auto, using(crate::proofs::Refused::names_no_parameters))]
pub fn parameter_list_begins_with_a_type()
    ensures { (d : Dialect) (text : List ℕ) (place start : ℕ) (ts rest : List Lexeme)
        (all : Parameters)
        → ReadsParameters d (punctuator (codes "(") place ∷ identifier text start ∷ ts) all rest
        → ⊥ }
{}

/// No parenthesis stands at the start of a declarator or after its `*`.
#[tactic(auto, using(crate::proofs::Refused::parenthesis_no_declarator))]
pub fn declarator_has_no_parentheses()
    ensures { (d : Dialect) (k place : ℕ) (before end : Span) (ts us rest : List Lexeme)
        (one : Declarator)
        → ReadsStars before ts k end (punctuator (codes "(") place ∷ us)
        → ReadsDeclarator d ts one rest → ⊥ }
{}

/// `{}` is not an initializer, whatever follows it.
#[tactic(auto, using(crate::proofs::Refused::braces_no_initializer))]
pub fn empty_braces_are_not_an_initializer()
    ensures { (d : Dialect) (start end : ℕ) (ts rest : List Lexeme) (one : Initializer)
        → ReadsInitializer d
        (punctuator (codes "{") start ∷ punctuator (codes "}") end ∷ ts) one rest → ⊥ }
{}

/// A text without tokens has the tree without items.
#[tactic(auto, using(crate::proofs::Samples::nothing))]
pub fn no_tokens_have_a_tree()
    ensures { (d : Dialect) → IsTree d [] [] }
{}

/// Structures inside one another have a tree, and each of their trees is as high as they are deep:
/// 200 are within a limit of 200, and 201 are not. A length in the innermost takes one level more.
#[tactic(auto, using(crate::proofs::Nested::as_high, crate::proofs::Nested::within, crate::proofs::Nested::too_high))]
pub fn structures_count_one_each()
    ensures high { (d : Dialect) (sized : Bool) (k : ℕ) (unit : List Item)
        → IsTree d (nested_tokens sized k) unit → height_unit unit ≡ nested_height sized k }
    ensures read { (d : Dialect) (sized : Bool) (k limit : ℕ)
        → nested_height sized k ≤ limit → (unit : List Item)
        × IsTreeWithin limit d (nested_tokens sized k) unit }
    ensures unread { (d : Dialect) (sized : Bool) (k limit : ℕ) (unit : List Item)
        → limit < nested_height sized k → IsTreeWithin limit d (nested_tokens sized k) unit → ⊥ }
{}
