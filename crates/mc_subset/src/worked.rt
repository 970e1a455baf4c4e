//! Worked examples: what is said of short texts. Their trees are named in specs/Samples.antt.
#![tactic(auto, unfolding(crate::specs::Forms::form_of))]

ghost use Rattle.std.specs.Prelude.{◌≡◌, [], ◌∷◌, None, codes};
ghost use Rattle.mc_tree.specs.declared.declarations.specifier_word.SpecifierWord.TheVariants as word;
ghost use Rattle.mc_tree.specs.Tree as tree;
ghost use Rattle.subset_forms.specs.declared.form.Form.TheVariants as form;
ghost use Rattle.mc_subset.specs.Samples.{a, alone, assigned, case_at, declared, enumeration_cast, for_of, function_at, in_function, int_at, name, null, object_at, of_statement, of_unit, outside, span, structure, structure_of_const, switch_of, with_commas, word_at};

/// `int *a;` has a pointer, whose place is that of the declarator.
pub fn star_makes_a_pointer()
    ensures { let star = tree.object 1 (name (codes "a") 5) tree.no_lengths (span 4 6) in
        of_unit (declared (int_at 0) (tree.bare star ∷ []) 7) ≡ outside form.Pointer 4 6 }
{}

/// `int *f();` has two nodes outside, and the declarator comes before its parameter list.
pub fn first_node_answers()
    ensures { let star = tree.function 1 (name (codes "f") 5) (tree.Empty (span 6 8)) (span 4 8) in
        of_unit (declared (int_at 0) (tree.bare star ∷ []) 9) ≡ outside form.Pointer 4 8 }
{}

/// `a=1;` is accepted, and `(a=1);` is not: the assignment is a part of the parentheses.
pub fn parentheses_nest_an_assignment()
    ensures whole { of_statement (tree.ExpressionStatement (assigned 0) (span 0 4)) ≡ None }
    ensures nested { let inner = tree.Parenthesized (assigned 1) (span 0 5) in
        of_statement (tree.ExpressionStatement inner (span 0 6))
        ≡ outside form.NestedAssignment 1 4 }
{}

/// Between the clauses of a `for` commas are accepted, as in `for(a=1,a=1;a;a=1);`, but not in the
/// second part, as in `for(a;a,a;a);`, or in parentheses, as in `for((a,a);a;a);`.
pub fn commas_stand_between_clauses()
    ensures clauses { let both = with_commas (assigned 4) (assigned 8) 4 11 in
        of_statement (for_of both (a 12) (assigned 14) 18) ≡ None }
    ensures second { let both = with_commas (a 6) (a 8) 6 9 in
        of_statement (for_of (a 4) both (a 10) 12) ≡ outside form.Comma 6 9 }
    ensures parentheses { let both = with_commas (a 5) (a 7) 5 8 in
        of_statement (for_of (tree.Parenthesized both (span 4 9)) (a 10) (a 12) 14)
        ≡ outside form.Comma 5 8 }
{}

/// `int f(){}` has an empty parameter list, whose place is its `)`.
pub fn empty_list_stands_at_its_end()
    ensures { let f = function_at 4 (tree.Empty (span 5 7)) 7 in
        of_unit (tree.Defined (int_at 0) f tree.no_block_items (span 0 9) ∷ [])
        ≡ outside form.EmptyParameters 6 7 }
{}

/// `switch(a){case 1:default:;}` is accepted. `switch(a);` has no compound statement,
/// `switch(a){;case 1:;}` a statement before its first label, `switch(a){case 1:;int a;}` a
/// declaration, and `switch(a){case 1:{case 1:;}}` a label in another statement.
pub fn switch_has_one_shape()
    ensures labels { let second = tree.Default (span 17 25) (null 25) (span 17 26) in
        of_statement (switch_of (alone (case_at 10 second 26)) 27) ≡ None }
    ensures compound { of_statement (tree.Switch (a 7) (null 9) (span 0 10))
        ≡ outside form.SwitchShape 0 10 }
    ensures first { let rest = alone (case_at 11 (null 18) 19) in
        of_statement (switch_of (tree.statement (null 10) rest) 20)
        ≡ outside form.SwitchShape 10 11 }
    ensures local { let d = tree.declaration (int_at 18) (tree.bare (object_at 22) ∷ [])
        (span 18 24) in
        let items = tree.statement (case_at 10 (null 17) 18) (tree.local d tree.no_block_items) in
        of_statement (switch_of items 25) ≡ outside form.SwitchShape 18 24 }
    ensures inner { let block = tree.Compound (alone (case_at 18 (null 25) 26)) (span 17 27) in
        of_statement (switch_of (alone (case_at 10 block 27)) 28)
        ≡ outside form.SwitchShape 18 26 }
{}

/// `switch(a){f:;case 1:;}` has an ordinary label where no statement may stand. At one node the
/// upper row answers.
pub fn upper_row_answers()
    ensures { let label = tree.Label (name (codes "f") 10) (null 12) (span 10 13) in
        of_statement (switch_of (tree.statement label (alone (case_at 13 (null 20) 21))) 22)
        ≡ outside form.Goto 10 13 }
{}

/// `struct{int a;}a;` is accepted outside functions, and so is `int a=(enum{a})1;`. In the body of
/// a function the structure is a local tag.
pub fn list_stands_outside_functions()
    ensures file { of_unit (declared (structure 0) (tree.bare (object_at 14) ∷ []) 16) ≡ None }
    ensures cast { let value = tree.Single (enumeration_cast 6) in
        of_unit (declared (int_at 0) (tree.initialized (object_at 4) value ∷ []) 17) ≡ None }
    ensures body { let d = tree.declaration (structure 13) (tree.bare (object_at 27) ∷ [])
        (span 13 29) in
        of_unit (in_function (tree.local d tree.no_block_items) 30) ≡ outside form.LocalTag 13 27 }
{}

/// `void f(void){int f(void);}` declares a function in a block.
pub fn function_in_a_block_is_local()
    ensures { let f = function_at 17 (tree.Void (span 18 24)) 24 in
        let d = tree.declaration (int_at 13) (tree.bare f ∷ []) (span 13 25) in
        of_unit (in_function (tree.local d tree.no_block_items) 26)
        ≡ outside form.LocalFunction 17 24 }
{}

/// In `extern int f(void),a;` the object is outside, and the function is not.
pub fn extern_is_for_functions()
    ensures { let f = function_at 11 (tree.Void (span 12 18)) 18 in
        let words = word_at word.Extern 0 6 (int_at 7) in
        of_unit (declared words (tree.bare f ∷ tree.bare (object_at 19) ∷ []) 21)
        ≡ outside form.ExternalObject 19 20 }
{}

/// `struct{const int a;};` has a `const` member, whose place is that of the member.
pub fn member_is_not_const()
    ensures { of_unit (declared structure_of_const [] 21) ≡ outside form.ConstMember 7 19 }
{}
