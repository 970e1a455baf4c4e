//! Which specifiers may stand together: a matter of how often each stands (C17 6.7.1, 6.7.2).
ghost use Rattle.std.specs.Prelude.{◌≡◌, ◌≤◌, ◌<◌, ◌+◌, ◌^◌, length, map};
ghost use Rattle.mc_tree.specs.Views.{specifier_of, specifiers_from};
ghost use Rattle.mc_grammar.specs.Counts as spec;
ghost use Rattle.parse_expressions.specs.Counted.{can_go_on, counts_of, refused_in, stores, test_of, total, types};

use mc_span::Span;
use mc_tree::{Specifier, SpecifierWord};

/// What a list of specifiers begins.
#[derive(Clone, Copy, Debug, PartialEq, Eq)]
pub enum Allowed {
    /// An item that is not a function definition.
    Item,
    /// A function definition.
    Function,
    /// A declaration in a block.
    Local,
    /// A parameter, a member, a type name or the first part of a `for`.
    Type,
}

/// How often each word stands, and how many specifiers are none of them.
#[derive(Drop)]
struct Counts {
    typedefs: usize,
    statics: usize,
    externs: usize,
    voids: usize,
    bools: usize,
    chars: usize,
    shorts: usize,
    ints: usize,
    longs: usize,
    signs: usize,
    others: usize,
}

impl Counts {
    fn new() -> Counts
        ensures { counts_of result ≡ spec.nothing }
    {
        Counts {
            typedefs: 0,
            statics: 0,
            externs: 0,
            voids: 0,
            bools: 0,
            chars: 0,
            shorts: 0,
            ints: 0,
            longs: 0,
            signs: 0,
            others: 0,
        }
    }

    fn count_word(&mut self, word: SpecifierWord)
        requires few { total (counts_of self.now) < 2 ^ 63 }
        ensures counts { counts_of self.new ≡ spec.with_word word (counts_of self.old) }
        ensures total { total (counts_of self.new) ≤ total (counts_of self.old) + 1 }
    {
        match word {
            SpecifierWord::Typedef => self.typedefs += 1,
            SpecifierWord::Static => self.statics += 1,
            SpecifierWord::Extern => self.externs += 1,
            SpecifierWord::Const => {}
            SpecifierWord::Void => self.voids += 1,
            SpecifierWord::Bool => self.bools += 1,
            SpecifierWord::Char => self.chars += 1,
            SpecifierWord::Short => self.shorts += 1,
            SpecifierWord::Int => self.ints += 1,
            SpecifierWord::Long => self.longs += 1,
            SpecifierWord::Signed | SpecifierWord::Unsigned => self.signs += 1,
        }
    }

    fn count(&mut self, one: &Specifier<'_>)
        requires few { total (counts_of self.now) < 2 ^ 63 }
        ensures counts { counts_of self.new
            ≡ spec.with_specifier (specifier_of one.now) (counts_of self.old) }
        ensures total { total (counts_of self.new) ≤ total (counts_of self.old) + 1 }
    {
        match one {
            Specifier::Word { word, .. } => self.count_word(*word),
            _ => self.others += 1,
        }
    }

    /// Whether the words are those of an integer type (C17 6.7.2).
    fn is_integer(&self) -> bool
        requires few { total (counts_of self.now) < 2 ^ 63 }
        ensures { result ≡ spec.is_integer_set (counts_of self.now) }
    {
        let sized = self.shorts + self.ints + self.longs;
        if self.bools == 1 && self.chars + sized + self.signs == 0 {
            return true;
        }
        if self.bools == 0 && self.chars == 1 && sized == 0 && self.signs <= 1 {
            return true;
        }
        let is_short = self.shorts <= 1 && self.longs == 0;
        let is_long = self.shorts == 0 && self.longs <= 2;
        self.bools + self.chars == 0
            && self.ints <= 1
            && self.signs <= 1
            && sized + self.signs >= 1
            && (is_short || is_long)
    }

    /// How many words of types there are.
    fn types(&self) -> usize
        requires few { total (counts_of self.now) < 2 ^ 63 }
        ensures { result ≡ types (counts_of self.now) }
    {
        let words = self.bools + self.chars + self.shorts + self.ints + self.longs + self.signs;
        self.others + self.voids + words
    }

    /// Whether there is exactly one type.
    fn has_one_type(&self) -> bool
        requires few { total (counts_of self.now) < 2 ^ 63 }
        ensures { result ≡ spec.has_one_type (counts_of self.now) }
    {
        let named = self.others + self.voids;
        let words = self.bools + self.chars + self.shorts + self.ints + self.longs + self.signs;
        (named == 1 && words == 0) || (named == 0 && self.is_integer())
    }
}

/// How often each stands.
#[inline(never)]
fn counted(all: &[Specifier<'_>]) -> Counts
    ensures counts { counts_of result ≡ spec.counts (specifiers_from (map specifier_of all.now)) }
    ensures few { total (counts_of result) < 2 ^ 63 }
{
    let mut counts = Counts::new();
    let mut before = all.len();
    while before > 0 {
        before -= 1;
        counts.count(&all[before]);
    }
    counts
}

impl Allowed {
    /// Whether the words that are no types may stand together here.
    fn stores(self, counts: &Counts) -> bool
        requires few { total (counts_of counts.now) < 2 ^ 63 }
        ensures { result ≡ stores self (counts_of counts.now) }
    {
        let storages = counts.typedefs + counts.statics + counts.externs;
        match self {
            Allowed::Item => storages <= 1,
            Allowed::Function => storages <= 1 && counts.typedefs == 0,
            Allowed::Local => storages <= 1 && counts.typedefs + counts.externs == 0,
            Allowed::Type => storages == 0,
        }
    }

    /// Whether these specifiers may stand together here.
    #[inline(never)]
    #[tactic(auto, using(crate::proofs::Allows::test_by))]
    pub fn allows(self, all: &[Specifier<'_>]) -> bool
        ensures { result ≡ test_of self (specifiers_from (map specifier_of all.now)) }
    {
        let counts = counted(all);
        counts.has_one_type() && self.stores(&counts)
    }

    /// Whether others can stand here after specifiers of which there are so many.
    #[inline(never)]
    fn goes_on(self, counts: &Counts) -> bool
        requires few { total (counts_of counts.now) < 2 ^ 63 }
        ensures { result ≡ can_go_on self (counts_of counts.now) }
    {
        self.stores(counts) && (counts.types() == 0 || counts.has_one_type())
    }

    /// Where the first specifier stands that is one too many here.
    #[inline(never)]
    pub fn refused(self, all: &[Specifier<'_>]) -> Option<Span>
        ensures { result ≡ refused_in self spec.nothing (map specifier_of all.now) }
    {
        let mut counts = Counts::new();
        let mut left = all;
        while let [first, later @ ..] = left {
            counts.count(first);
            if !self.goes_on(&counts) {
                return Some(first.span());
            }
            left = later;
        }
        None
    }
}

/// Whether `typedef` is one of these specifiers, and once.
pub fn is_typedef(all: &[Specifier<'_>]) -> bool
    ensures { result ≡ spec.is_typedef (specifiers_from (map specifier_of all.now)) }
{
    counted(all).typedefs == 1
}
