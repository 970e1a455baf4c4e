//! Names with what they mean.
ghost use Rattle.std.specs.Prelude.{◌≡◌, ◌≤◌, ◌∷◌, ◌++◌, ◌-◌, ◌+◌, [], ℕ, List, Some, None, IsSome, length, take, drop, option_copied, option_map, option_to_list, map, reverse, slice_get, IfOk, OnOk, OnErr};
ghost use Rattle.name_table.specs.Tables.{Named, last_of, last_place_of};
ghost use Rattle.name_table.specs.Taken.{taken_of};

use crate::latest::Latest;
use std::alloc::{AllocError, Global};
use std::marker::Model;

/// Names with what they mean, in the order in which they were declared. The last entry of a name
/// counts. It is found in logarithmic time.
#[derive(Drop)]
pub struct Table<'a, M> {
    entries: Vec<Entry<'a, M>>,
    latest: Latest<'a>,
}

/// A name, what it means, and where the entry of this name before it stands.
#[derive(Drop)]
pub struct Entry<'a, M> {
    name: &'a [u8],
    meaning: M,
    before: Option<usize>,
}

// An entry that is taken away.
#[derive(Drop)]
struct Taken<'a, M> {
    name: &'a [u8],
    meaning: M,
}

impl<'a, M> Model for Table<'a, M> {
    ghost use Rattle.std.specs.Prelude.{List, map};
    ghost use Rattle.name_table.specs.Tables.{Named};
    ghost use Rattle.name_table.specs.Indexed.{IsIndexed, named_of};

    ghost Value = { List (Named M) };

    ghost view = { λ t. map named_of t.entries.items };

    ghost invariant = { λ t. IsIndexed t.entries.items t.latest };
}

impl<'a, M: Drop> Table<'a, M> {
    /// No names. Takes no memory.
    pub fn new(alloc: Global) -> Table<'a, M>
        ensures { result ≡ [] }
    {
        Table {
            entries: Vec::new(alloc),
            latest: Latest::new(alloc),
        }
    }

    /// How many entries there are.
    pub fn len(&self) -> usize
        ensures { result ≡ length self.now }
    {
        self.entries.len()
    }

    /// What a name means: the meaning of its last entry.
    pub fn get(&self, name: &[u8]) -> Option<&M>
        ensures { option_copied result ≡ last_of name.now self.now }
    {
        match self.latest.get(name) {
            Some(place) => meaning_at(&self.entries, place),
            None => None,
        }
    }

    /// What a name means by the entries from one on.
    pub fn get_from(&self, from: usize, name: &[u8]) -> Option<&M>
        ensures { option_copied result ≡ last_of name.now (drop from self.now) }
    {
        match self.latest.get(name) {
            Some(place) => {
                if place < from {
                    None
                } else {
                    meaning_at(&self.entries, place)
                }
            }
            None => None,
        }
    }

    /// Where the last entry of a name stands.
    pub fn place(&self, name: &[u8]) -> Option<usize>
        ensures { result ≡ last_place_of name.now self.now }
    {
        self.latest.get(name)
    }

    /// The meaning of the entry at a place.
    pub fn at(&self, place: usize) -> Option<&M>
        ensures { option_copied result ≡ option_map (λ e. e.meaning) (slice_get self.now place) }
    {
        meaning_at(&self.entries, place)
    }

    /// One more entry.
    pub fn push(&mut self, name: &'a [u8], meaning: M) -> Result<(), AllocError>
        ensures ok { OnOk result (self.new
            ≡ self.old ++ record { name = name.now; meaning = meaning } ∷ []) }
        ensures err { OnErr result (self.new ≡ self.old) }
    {
        self.entries.reserve(1)?;
        let place = self.entries.len();
        let before = self.latest.insert(name, place)?;
        self.entries.push_reserved(Entry {
            name,
            meaning,
            before,
        });
        Ok(())
    }

    /// Takes the last entry away. Takes no memory.
    fn pop(&mut self)
        ensures { self.new ≡ take (length self.old - 1) self.old }
    {
        if let Some(last) = self.entries.pop() {
            self.latest.restore(last.name, last.before);
        }
    }

    // Takes the last entry away and gives it. Takes no memory.
    fn take_last(&mut self) -> Option<Taken<'a, M>>
        ensures last { self.old ≡ self.new ++ option_to_list (option_map taken_of result) }
        ensures rest { self.new ≡ take (length self.old - 1) self.old }
    {
        match self.entries.pop() {
            Some(last) => {
                self.latest.restore(last.name, last.before);
                Some(Taken {
                    name: last.name,
                    meaning: last.meaning,
                })
            }
            None => None,
        }
    }

    // Takes the last entry away and adds it to others.
    fn move_last(&mut self, later: &mut Vec<Taken<'a, M>>) -> Result<(), AllocError>
        ensures moved { OnOk result (self.new ++ reverse (map taken_of later.new.items)
            ≡ self.old ++ reverse (map taken_of later.old.items)) }
        ensures fewer { OnOk result (length self.new ≡ length self.old - 1) }
    {
        match self.take_last() {
            Some(last) => {
                later.push(last)?;
                Ok(())
            }
            None => Ok(()),
        }
    }

    // Puts the last one of these at the end.
    fn put_last(&mut self, later: &mut Vec<Taken<'a, M>>) -> Result<(), AllocError>
        ensures put { OnOk result (self.new ++ reverse (map taken_of later.new.items)
            ≡ self.old ++ reverse (map taken_of later.old.items)) }
        ensures fewer { OnOk result (length later.new.items ≡ length later.old.items - 1) }
    {
        match later.pop() {
            Some(next) => self.push(next.name, next.meaning),
            None => Ok(()),
        }
    }

    // Takes the entries from one on away, and gives them, the last one first.
    fn take_from(&mut self, alloc: Global, from: usize) -> Result<Vec<Taken<'a, M>>, AllocError>
        ensures left { OnOk result (self.new ≡ take from self.old) }
        ensures later { IfOk result (λ r. reverse (map taken_of r.items) ≡ drop from self.old) }
    {
        let mut later = Vec::new(alloc);
        let more = self.entries.len().saturating_sub(from);
        for _ in 0..more {
            self.move_last(&mut later)?;
        }
        Ok(later)
    }

    // Puts entries at the end, the last one first.
    fn put_back(&mut self, later: Vec<Taken<'a, M>>) -> Result<(), AllocError>
        ensures { OnOk result (self.new ≡ self.old ++ reverse (map taken_of later.entry.items)) }
    {
        let mut later = later;
        let count = later.len();
        for _ in 0..count {
            self.put_last(&mut later)?;
        }
        Ok(())
    }

    /// One more entry, before those from one on, and where those stand from then on.
    pub fn insert(
        &mut self,
        alloc: Global,
        from: usize,
        name: &'a [u8],
        meaning: M,
    ) -> Result<usize, AllocError>
        requires { from ≤ length self.old }
        ensures inserted { OnOk result (self.new ≡ take from self.old
            ++ (record { name = name.now; meaning = meaning } ∷ drop from self.old)) }
        ensures later { IfOk result (λ begin. begin ≡ from + 1) }
    {
        let later = self.take_from(alloc, from)?;
        self.push(name, meaning)?;
        let begin = self.len();
        self.put_back(later)?;
        Ok(begin)
    }

    /// Takes the entries from one on away. Takes no memory.
    pub fn truncate(&mut self, count: usize)
        ensures { self.new ≡ take count self.old }
    {
        let more = self.entries.len().saturating_sub(count);
        for _ in 0..more {
            self.pop();
        }
    }
}

// The meaning of the entry at a place, where there is one.
fn meaning_at<'t, M>(entries: &'t [Entry<'_, M>], place: usize) -> Option<&'t M>
    ensures { option_copied result ≡ option_map (λ e. e.meaning) (slice_get entries.now place) }
{
    match entries.get(place) {
        Some(entry) => Some(&entry.meaning),
        None => None,
    }
}
