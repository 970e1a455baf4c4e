//! Types of declaration specifiers (C17 6.7.2).
ghost use Rattle.std.specs.Prelude.{◌≡◌, [], None, map, option_map};
ghost use Rattle.mc_tree.specs.Views.{specifier_of, specifiers_from};
ghost use Rattle.types_rules.specs.Judgement as judgement;
ghost use Rattle.types_rules.specs.Scopes as scopes;
ghost use Rattle.types_rules.specs.Types as types;
ghost use Rattle.types_rules.specs.Values as values;
ghost use Rattle.types_scopes.specs.Types.{base_of, type_of};
ghost use Rattle.types_scopes.specs.Found.{judged_of};
ghost use Rattle.types_scopes.specs.steps.Squeezed.{squeezed_part};

use mc_tree::{Specifier, SpecifierWord};
use mc_value::IntType;
use std::alloc::Global;
use types_faults::{FaultKind, or_fault};
use types_scopes::found::Judged;
use types_scopes::joined::of_two;
use types_scopes::{Base, CType};

fn is_word(word: SpecifierWord, specifier: &Specifier<'_>) -> bool
    ensures { result ≡ types.is_word word (specifier_of specifier.now) }
{
    match specifier {
        Specifier::Word { word: other, .. } => *other == word,
        _ => false,
    }
}

fn count(word: SpecifierWord, specifiers: &[Specifier<'_>]) -> usize
    ensures { result ≡ types.count word (specifiers_from (map specifier_of specifiers.now)) }
{
    let mut count = 0;
    let mut left = specifiers;
    while let [specifier, later @ ..] = left {
        if is_word(word, specifier) {
            count += 1;
        }
        left = later;
    }
    count
}

/// Whether a word stands among specifiers.
pub fn has(word: SpecifierWord, specifiers: &[Specifier<'_>]) -> bool
    ensures { result ≡ types.has word (specifiers_from (map specifier_of specifiers.now)) }
{
    0 < count(word, specifiers)
}

fn signed_or(signed: IntType, unsigned: IntType, specifiers: &[Specifier<'_>]) -> IntType
    ensures { result
        ≡ types.signed_or signed unsigned (specifiers_from (map specifier_of specifiers.now)) }
{
    if has(SpecifierWord::Unsigned, specifiers) {
        unsigned
    } else {
        signed
    }
}

fn char_of_words(specifiers: &[Specifier<'_>]) -> IntType
    ensures { result ≡ types.char_of_words (specifiers_from (map specifier_of specifiers.now)) }
{
    if has(SpecifierWord::Signed, specifiers) {
        IntType::SChar
    } else {
        signed_or(IntType::Char, IntType::UChar, specifiers)
    }
}

/// The integer type of a set of words (C17 6.7.2p2).
fn integer_of_words(specifiers: &[Specifier<'_>]) -> Option<IntType>
    ensures { result ≡ types.integer_of_words (specifiers_from (map specifier_of specifiers.now)) }
{
    if has(SpecifierWord::Bool, specifiers) {
        return Some(IntType::Bool);
    }
    if has(SpecifierWord::Char, specifiers) {
        return Some(char_of_words(specifiers));
    }
    if has(SpecifierWord::Short, specifiers) {
        return Some(signed_or(IntType::Short, IntType::UShort, specifiers));
    }
    if 2 <= count(SpecifierWord::Long, specifiers) {
        return Some(signed_or(IntType::LLong, IntType::ULLong, specifiers));
    }
    if has(SpecifierWord::Long, specifiers) {
        return Some(signed_or(IntType::Long, IntType::ULong, specifiers));
    }
    if has(SpecifierWord::Unsigned, specifiers) {
        return Some(IntType::UInt);
    }
    if has(SpecifierWord::Int, specifiers) || has(SpecifierWord::Signed, specifiers) {
        return Some(IntType::Int);
    }
    None
}

fn base_of_words(specifiers: &[Specifier<'_>]) -> Option<Base>
    ensures { option_map base_of result
        ≡ types.base_of_words (specifiers_from (map specifier_of specifiers.now)) }
{
    if has(SpecifierWord::Void, specifiers) {
        return Some(Base::Void);
    }
    match integer_of_words(specifiers) {
        Some(integer) => Some(Base::Integer(integer)),
        None => None,
    }
}

fn any_is_no_word(specifiers: &[Specifier<'_>]) -> bool
    ensures { result ≡ types.any_is_no_word (specifiers_from (map specifier_of specifiers.now)) }
{
    let mut found = false;
    let mut left = specifiers;
    while let [specifier, later @ ..] = left {
        if !matches!(specifier, Specifier::Word { .. }) {
            found = true;
        }
        left = later;
    }
    found
}

/// Whether they have a type (C17 6.7.2p2).
fn has_type(specifiers: &[Specifier<'_>]) -> bool
    ensures { result ≡ types.has_type (specifiers_from (map specifier_of specifiers.now)) }
{
    base_of_words(specifiers).is_some() || any_is_no_word(specifiers)
}

fn type_of_words_or(alloc: Global, other: Option<CType>, base: Option<Base>) -> Option<CType>
    ensures { option_map type_of result
        ≡ types.type_of_words_or (option_map type_of other) (option_map base_of base) }
{
    match base {
        None => other,
        Some(base) => {
            drop(other);
            Some(CType {
                base,
                is_const: false,
                lengths: Vec::new(alloc),
            })
        }
    }
}

fn qualified(is_const: bool, of: Option<CType>) -> Option<CType>
    ensures { option_map type_of result
        ≡ option_map (types.qualified is_const) (option_map type_of of) }
{
    match of {
        Some(of) => Some(of.qualified(is_const)),
        None => None,
    }
}

/// The type of specifiers, by what is found of the one that is no word. They stand at `at`.
pub fn typed_by(
    alloc: Global,
    at: u32,
    specifiers: &[Specifier<'_>],
    found: Judged<CType>,
) -> Judged<CType>
    ensures { (s : scopes.Scope) → judged_of type_of result s ≡ squeezed_part
        (judgement.typed_by at (specifiers_from (map specifier_of specifiers.now))
        (judged_of type_of found s)) }
{
    let fault = or_fault(found.fault, !has_type(specifiers), FaultKind::Mismatch, at);
    let of = type_of_words_or(alloc, found.value, base_of_words(specifiers));
    let value = qualified(has(SpecifierWord::Const, specifiers), of);
    Judged { fault, value }
}

/// A specifier that is a word has no type of its own.
pub fn no_specifier() -> Judged<CType>
    ensures { (s : scopes.Scope) → judged_of type_of result s ≡ values.judged [] None s }
{
    Judged {
        fault: None,
        value: None,
    }
}

fn one_of(one: Option<CType>, other: Option<CType>) -> Option<CType>
    ensures { option_map type_of result
        ≡ judgement.one_of (option_map type_of one) (option_map type_of other) }
{
    match one {
        Some(of) => {
            drop(other);
            Some(of)
        }
        None => other,
    }
}

/// Specifiers, and more after them.
pub fn specifiers(one: Judged<CType>, more: Judged<CType>) -> Judged<CType>
    ensures { (s : scopes.Scope) → judged_of type_of result s ≡ squeezed_part
        (judgement.specifiers_judged (judged_of type_of one s) (judged_of type_of more s)) }
{
    Judged {
        fault: of_two(one.fault, more.fault),
        value: one_of(one.value, more.value),
    }
}
