//! Where the last entry of each name stands.
ghost use Rattle.std.specs.Prelude.{◌≡◌, ℕ, List, Some, None, IsSome, if◌then◌else◌, cond, true, bytes_eq, IfOk, OnOk, OnErr};
ghost use Rattle.std.specs.BTreeMap.{is_at};
ghost use Rattle.std.specs.Ordering.{nat_cmp};
ghost use Rattle.name_table.specs.Latest.{hash_of, is_named, first_of, other_of, place_of};

use std::alloc::{AllocError, Global};
use std::collections::BTreeMap;

/// The place of the last entry of each name. A name is found by its hash: the search compares
/// numbers, and bytes only once. A name whose hash another one had first is found by its bytes, so
/// that each is found in logarithmic time, however names are chosen.
#[derive(Drop)]
pub(crate) struct Latest<'a> {
    firsts: BTreeMap<u64, First<'a>>,
    others: BTreeMap<&'a [u8], usize>,
}

// The first name with its hash, and its place.
#[derive(Clone, Copy)]
struct First<'a> {
    name: &'a [u8],
    place: usize,
}

/// A number that a name gives, by all of its bytes, so that names seldom share it. A map or a set
/// that has it before the name itself compares numbers, and bytes only where two numbers are the
/// same. Names that differ in their last bytes alone have numbers near one another, and so stand
/// together there.
pub fn hash(name: &[u8]) -> u64
    ensures { result ≡ hash_of name.now }
{
    let mut number: u64 = 0;
    let mut left = name;
    while let [byte, later @ ..] = left {
        number = number.wrapping_mul(257).wrapping_add(*byte as u64);
        left = later;
    }
    number
}

impl<'a> First<'a> {
    fn is(&self, name: &[u8]) -> bool
        ensures { result ≡ bytes_eq self.now.name.now name.now }
    {
        self.name == name
    }
}

impl<'a> Latest<'a> {
    /// No names. Takes no memory.
    pub(crate) fn new(alloc: Global) -> Latest<'a>
        ensures { (q : List ℕ) → place_of result q ≡ None }
    {
        Latest {
            firsts: BTreeMap::new(alloc),
            others: BTreeMap::new(alloc),
        }
    }

    /// The place of a name.
    pub(crate) fn get(&self, name: &[u8]) -> Option<usize>
        ensures { result ≡ place_of self.now name.now }
    {
        match self.firsts.get(&hash(name)) {
            Some(first) if first.is(name) => Some(first.place),
            _ => self.others.get(name).copied(),
        }
    }

    /// Keeps the place of a name, and gives the place that it had before.
    pub(crate) fn insert(
        &mut self,
        name: &'a [u8],
        place: usize,
    ) -> Result<Option<usize>, AllocError>
        ensures before { IfOk result (λ before. before ≡ place_of self.old name.now) }
        ensures ok { OnOk result ((q : List ℕ) → place_of self.new q
            ≡ (if bytes_eq name.now q then Some place else place_of self.old q)) }
        ensures err { OnErr result ((q : List ℕ) → place_of self.new q ≡ place_of self.old q) }
    {
        let hash = hash(name);
        match self.firsts.insert(hash, First { name, place })? {
            Some(first) => {
                if first.is(name) {
                    Ok(Some(first.place))
                } else {
                    // the name that had the hash before keeps it
                    self.put_first(hash, first);
                    let before = self.others.insert(name, place)?;
                    Ok(before)
                }
            }
            None => Ok(self.others.get(name).copied()),
        }
    }

    // Another first name or place under a hash that has one. Takes no memory.
    fn put_first(&mut self, hash: u64, first: First<'a>)
        requires { IsSome (first_of self.old hash) }
        ensures first { (k : ℕ) → first_of self.new k
            ≡ cond (is_at (nat_cmp hash) k) (Some first.entry) (first_of self.old k) }
        ensures others { self.new.others ≡ self.old.others }
    {
        match self.firsts.insert(hash, first) {
            Ok(_) => {}
            Err(_) => unreachable!(),
        }
    }

    // Whether a name is the first one with its hash.
    fn is_first(&self, hash: u64, name: &[u8]) -> bool
        ensures { result ≡ is_named (first_of self.now hash) name.now }
    {
        match self.firsts.get(&hash) {
            Some(first) => first.is(name),
            None => false,
        }
    }

    // Gives the first name with its hash another place, or takes it away. Takes no memory.
    fn restore_first(&mut self, hash: u64, name: &'a [u8], before: Option<usize>)
        requires hash { hash ≡ hash_of name.now }
        requires first { is_named (first_of self.old hash) name.now ≡ true }
        ensures { (q : List ℕ) → place_of self.new q
            ≡ (if bytes_eq name.now q then before else place_of self.old q) }
    {
        match before {
            Some(place) => self.put_first(hash, First { name, place }),
            None => {
                self.firsts.remove(&hash);
                self.others.remove(name);
            }
        }
    }

    // Gives another name another place, or takes it away. Takes no memory.
    fn restore_other(&mut self, name: &'a [u8], before: Option<usize>)
        requires { IsSome (other_of self.old name.now) }
        ensures firsts { self.new.firsts ≡ self.old.firsts }
        ensures others { (q : List ℕ) → other_of self.new q
            ≡ (if bytes_eq name.now q then before else other_of self.old q) }
    {
        match before {
            Some(place) => match self.others.insert(name, place) {
                Ok(_) => {}
                Err(_) => unreachable!(),
            },
            None => {
                self.others.remove(name);
            }
        }
    }

    /// Gives a name the place back that it had before its last entry. Takes no memory.
    pub(crate) fn restore(&mut self, name: &'a [u8], before: Option<usize>)
        requires { IsSome (place_of self.old name.now) }
        ensures { (q : List ℕ) → place_of self.new q
            ≡ (if bytes_eq name.now q then before else place_of self.old q) }
    {
        let hash = hash(name);
        if self.is_first(hash, name) {
            self.restore_first(hash, name, before);
        } else {
            self.restore_other(name, before);
        }
    }
}
