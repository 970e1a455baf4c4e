//! The words that `adapt` knows.
ghost use Rattle.std.specs.Prelude.{◌≡◌};
ghost use Rattle.mc_lex.specs.Words.{keywords, one_of};
ghost use Rattle.mc_adapt.specs.Words as words;

use crate::table::is_one_of;

const ATTRIBUTE_WORDS: [&[u8]; 2] = [b"__attribute__", b"__attribute"];

/// Whether the word begins an attribute.
#[tactic(auto, unfolding(crate::specs::Words::attribute_words))]
pub(crate) fn begins_attribute(text: &[u8]) -> bool
    ensures { result ≡ one_of words.attribute_words text.now }
{
    is_one_of(&ATTRIBUTE_WORDS, text)
}

const ASSERTION_WORDS: [&[u8]; 1] = [b"_Static_assert"];

/// Whether the word begins an assertion.
#[tactic(auto, unfolding(crate::specs::Words::assertion_words))]
pub(crate) fn begins_assertion(text: &[u8]) -> bool
    ensures { result ≡ one_of words.assertion_words text.now }
{
    is_one_of(&ASSERTION_WORDS, text)
}

const INLINE_WORDS: [&[u8]; 3] = [b"inline", b"__inline", b"__inline__"];

/// Whether the word is `inline`.
#[tactic(auto, unfolding(crate::specs::Words::inline_words))]
pub(crate) fn is_inline(text: &[u8]) -> bool
    ensures { result ≡ one_of words.inline_words text.now }
{
    is_one_of(&INLINE_WORDS, text)
}

const STORAGE_WORDS: [&[u8]; 2] = [b"register", b"auto"];

/// Whether the word is `register` or `auto`.
#[tactic(auto, unfolding(crate::specs::Words::storage_words))]
pub(crate) fn is_storage(text: &[u8]) -> bool
    ensures { result ≡ one_of words.storage_words text.now }
{
    is_one_of(&STORAGE_WORDS, text)
}

const SILENT_WORDS: [&[u8]; 5] = [
    b"restrict",
    b"__restrict",
    b"__restrict__",
    b"_Noreturn",
    b"__extension__",
];

/// Whether the word says nothing of a value.
#[tactic(auto, unfolding(crate::specs::Words::silent_words))]
pub(crate) fn is_silent(text: &[u8]) -> bool
    ensures { result ≡ one_of words.silent_words text.now }
{
    is_one_of(&SILENT_WORDS, text)
}

const OUTSIDE_WORDS: [&[u8]; 46] = [
    b"double",
    b"float",
    b"sizeof",
    b"union",
    b"goto",
    b"volatile",
    b"__volatile",
    b"__volatile__",
    b"asm",
    b"__asm",
    b"__asm__",
    b"typeof",
    b"__typeof",
    b"__typeof__",
    b"_Alignas",
    b"_Alignof",
    b"__alignof",
    b"__alignof__",
    b"_Atomic",
    b"_Complex",
    b"__complex",
    b"__complex__",
    b"_Generic",
    b"_Imaginary",
    b"_Thread_local",
    b"__thread",
    b"__auto_type",
    b"__int128",
    b"_Float16",
    b"_Float32",
    b"_Float64",
    b"_Float128",
    b"__float128",
    b"__label__",
    b"__real__",
    b"__imag__",
    b"__builtin_va_list",
    b"__builtin_va_arg",
    b"__builtin_offsetof",
    b"MCDC_H",
    b"MCDC_L",
    b"MCDC_W",
    b"MCDC_D",
    b"MCDC_C",
    b"mcdc_r",
    b"mcdc_v",
];

/// Whether the word is outside the language.
#[tactic(auto, unfolding(crate::specs::Words::outside_words))]
pub(crate) fn is_outside(text: &[u8]) -> bool
    ensures { result ≡ one_of words.outside_words text.now }
{
    is_one_of(&OUTSIDE_WORDS, text)
}

const HARMLESS_ATTRIBUTES: [&[u8]; 29] = [
    b"access",
    b"alloc_align",
    b"alloc_size",
    b"always_inline",
    b"artificial",
    b"assume_aligned",
    b"cold",
    b"const",
    b"deprecated",
    b"fallthrough",
    b"flatten",
    b"format",
    b"format_arg",
    b"hot",
    b"leaf",
    b"malloc",
    b"noclone",
    b"noinline",
    b"nonnull",
    b"nonstring",
    b"noreturn",
    b"nothrow",
    b"pure",
    b"returns_nonnull",
    b"sentinel",
    b"unused",
    b"used",
    b"visibility",
    b"warn_unused_result",
];

/// Whether an attribute of this name changes no value.
#[tactic(auto, unfolding(crate::specs::Words::harmless_attributes))]
pub(crate) fn is_harmless_name(text: &[u8]) -> bool
    ensures { result ≡ one_of words.harmless_attributes text.now }
{
    is_one_of(&HARMLESS_ATTRIBUTES, text)
}

const KEPT_WORDS: [&[u8]; 26] = [
    b"break",
    b"case",
    b"char",
    b"const",
    b"continue",
    b"default",
    b"do",
    b"else",
    b"enum",
    b"extern",
    b"for",
    b"goto",
    b"if",
    b"int",
    b"long",
    b"return",
    b"short",
    b"signed",
    b"static",
    b"struct",
    b"switch",
    b"typedef",
    b"unsigned",
    b"void",
    b"while",
    b"_Bool",
];

/// Whether the word is a keyword of the language.
#[tactic(auto, unfolding(mc_lex::specs::Words::keywords))]
pub(crate) fn is_kept(text: &[u8]) -> bool
    ensures { result ≡ one_of keywords text.now }
{
    is_one_of(&KEPT_WORDS, text)
}

/// A name without `__` before it.
fn after_underlines(text: &[u8]) -> &[u8]
    ensures { result.now ≡ words.after_underlines text.now }
{
    match text {
        [a, b, rest @ ..] if *a == b'_' && *b == b'_' => rest,
        _ => text,
    }
}

/// A name without `__` after it.
fn before_underlines(text: &[u8]) -> &[u8]
    ensures { result.now ≡ words.before_underlines text.now }
{
    if text.len() < 2 {
        return text;
    }
    let (front, back) = text.split_at(text.len() - 2);
    if back == b"__".as_slice() {
        front
    } else {
        text
    }
}

/// Whether an attribute of this name changes no value.
pub(crate) fn is_harmless(text: &[u8]) -> bool
    ensures { result ≡ words.is_harmless text.now }
{
    is_harmless_name(before_underlines(after_underlines(text)))
}
