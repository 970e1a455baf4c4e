//! Laws of declaration specifiers: where storage words stand, and which words make a type.
ghost use Rattle.mc_lex.specs.declared.token.Dialect.{Dialect};
ghost use Rattle.mc_grammar.specs.Expressions.{ReadsMember, ReadsParameter, ReadsTypeName};
ghost use Rattle.mc_grammar.specs.Statements.{ReadsBlockItems, ReadsForStart};
ghost use Rattle.mc_grammar.specs.Items.{ReadsItem};
ghost use Rattle.mc_grammar.specs.WordSets.{is_extern_word, is_storage_word, is_typedef_word, words_of_first, words_of_function, words_of_item, words_of_member, words_of_parameter, words_of_start, words_of_type_name};
ghost use Rattle.mc_grammar.specs.Laws.{ForHasOneType, HasNo, HasOneStorage, HasOneType, ListsAreAccepted, LocalHasOneType};

/// A type name, a member, a parameter and the first part of a `for` have no storage word; so `int
/// f(static int a)` is not read. A local has neither `typedef` nor `extern`, a function that is
/// defined no `typedef`, and each at most one.
pub fn storage_words_stand_where_they_may()
    ensures type_name { (d : Dialect) → HasNo is_storage_word words_of_type_name (ReadsTypeName d) }
    ensures member { (d : Dialect) → HasNo is_storage_word words_of_member (ReadsMember d) }
    ensures parameter { (d : Dialect)
        → HasNo is_storage_word words_of_parameter (ReadsParameter d) }
    ensures for_start { (d : Dialect) → HasNo is_storage_word words_of_start (ReadsForStart d) }
    ensures local { (d : Dialect) → HasNo is_typedef_word words_of_first (ReadsBlockItems d) }
    ensures outer { (d : Dialect) → HasNo is_extern_word words_of_first (ReadsBlockItems d) }
    ensures function { (d : Dialect) → HasNo is_typedef_word words_of_function (ReadsItem d) }
    ensures one_of_local { (d : Dialect) → HasOneStorage words_of_first (ReadsBlockItems d) }
    ensures one_of_item { (d : Dialect) → HasOneStorage words_of_item (ReadsItem d) }
{}

/// Wherever specifiers stand, their words are those of one type of C17 6.7.2; so `long long long`
/// is not read.
pub fn specifiers_have_one_type()
    ensures type_name { (d : Dialect) → HasOneType words_of_type_name (ReadsTypeName d) }
    ensures member { (d : Dialect) → HasOneType words_of_member (ReadsMember d) }
    ensures parameter { (d : Dialect) → HasOneType words_of_parameter (ReadsParameter d) }
    ensures for_start { ForHasOneType }
    ensures local { LocalHasOneType }
    ensures item { (d : Dialect) → HasOneType words_of_item (ReadsItem d) }
{}

/// Each list of words of C17 6.7.2 is the type of some specifiers.
#[tactic(auto, using(crate::proofs::Storage::lists_accepted))]
pub fn lists_of_types_are_accepted()
    ensures { ListsAreAccepted }
{}
