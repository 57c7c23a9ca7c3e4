//! Maps that find a text by its hash.
ghost use Rattle.std.specs.Prelude.{◌≡◌, ◌<◌, ℕ, List, OnOk, OnErr, IfOk, IfSome, Some, None, true, false};
ghost use Rattle.std.specs.Prelude.{is_some, length, option_map};
ghost use Rattle.std.specs.FinMap as map;
ghost use Rattle.kb_base.specs.HashedMap.{is_marked};
ghost use Rattle.kb_base.specs.HashedText.{hash_of};

use crate::fingerprint::narrow;
use crate::hashed_text::{HASHES, HashedText, hash_of};
use crate::memory::NoMemory;
use crate::text_map::TextMap;
use std::alloc::Global;
use std::marker::Model;

/// Where a key with a certain hash is likely to be: its index in the map, and what its owner noted.
#[derive(Clone, Copy, Debug)]
pub(crate) struct Mark {
    index: u32,
    note: u32,
}

/// A map with texts as keys, which finds a [`HashedText`] without hashing it: it has a mark of one key for
/// each hash, and no mark for hashes of no key. Each key has a note, a number that only tells where else to
/// look first; the map may lose it. Contracts see a finite map from the bytes of the keys, without notes.
#[derive(Debug, Drop)]
pub struct HashedMap<V> {
    table: TextMap<V>,
    marks: Vec<Option<Mark>>,
}

impl<V> Model for HashedMap<V> {
    ghost use Rattle.std.specs.Prelude.{ℕ, List};
    ghost use Rattle.std.specs.Coded.{coded_list, coded_ℕ};
    ghost use Rattle.std.specs.Ordering.{nat_cmp};
    ghost use Rattle.std.specs.Cmp.Lexicographic.{slice_cmp};
    ghost use Rattle.std.specs.FinMap as map;
    ghost use Rattle.kb_base.specs.HashedMap.{HasMarks};

    ghost Value = { map.FinMap (slice_cmp nat_cmp) V };

    ghost coded = { map.code (coded_list coded_ℕ) V.code };

    ghost view = { λ m. m.table };

    ghost invariant = { λ m. HasMarks m.table m.marks.items };
}

/// The mark of a hash, if there is one.
fn mark_of(marks: &[Option<Mark>], hash: usize) -> Option<Mark>
    ensures { is_some result ≡ is_marked marks.now hash }
{
    match marks.get(hash) {
        Some(mark) => *mark,
        None => None,
    }
}

/// Puts the mark of a hash in place of the one that is there.
fn put_mark(marks: &mut Vec<Option<Mark>>, hash: usize, mark: Mark)
    requires { hash < length marks.old.items }
    ensures there { is_marked marks.new.items hash ≡ true }
    ensures kept { (other : ℕ) → is_marked marks.old.items other ≡ true
        → is_marked marks.new.items other ≡ true }
    ensures room { length marks.new.items ≡ length marks.old.items }
{
    marks[hash] = Some(mark);
}

impl<V: Drop> HashedMap<V> {
    /// An empty map. Error: `NoMemory`.
    #[tactic(auto, using(crate::proofs::HashedMapLemmas::marks_of_none))]
    pub fn new(alloc: Global) -> Result<HashedMap<V>, NoMemory>
        ensures { IfOk result (λ made. made ≡ map.empty) }
    {
        Ok(HashedMap {
            table: TextMap::new(alloc),
            marks: vec![in alloc; None; HASHES]?,
        })
    }

    /// The value of a key and the key's note, or `None` if the map lacks the key.
    pub fn get(&self, key: &HashedText) -> Option<(&V, usize)>
        ensures { option_map (λ found. found.0.now) result ≡ map.get self.now key.now }
    {
        self.find(key.as_str(), key.hash())
    }

    /// The same for a text without its hash.
    pub fn get_text(&self, key: &str) -> Option<(&V, usize)>
        ensures { option_map (λ found. found.0.now) result ≡ map.get self.now key.now }
    {
        self.find(key, hash_of(key))
    }

    /// The value of a key with this hash, and the key's note.
    fn find(&self, key: &str, hash: usize) -> Option<(&V, usize)>
        requires { hash ≡ hash_of key.now }
        ensures { option_map (λ found. found.0.now) result ≡ map.get self.now key.now }
    {
        let mark = mark_of(&self.marks, hash)?;
        let value = self.table.get_near(mark.index as usize, key)?;
        Some((value, mark.note as usize))
    }

    /// Whether the map may have a key with this hash. If not, it has none.
    pub fn may_have(&self, hash: usize) -> bool
        ensures { result ≡ false → (key : List ℕ) → hash_of key ≡ hash → map.get self.now key ≡ None }
    {
        mark_of(&self.marks, hash).is_some()
    }

    /// An entry with its note: if the map has a key with this hash, most likely that of one of these keys.
    pub fn entry_of(&self, hash: usize) -> Option<(&str, &V, usize)>
        ensures { IfSome result (λ entry. map.get self.now entry.0.now ≡ Some entry.1.now) }
    {
        let mark = mark_of(&self.marks, hash)?;
        let (key, value) = self.table.entry_at(mark.index as usize)?;
        Some((key, value, mark.note as usize))
    }

    /// Whether the map has the key.
    pub fn contains_key(&self, key: &str) -> bool
        ensures { result ≡ map.contains_key self.now key.now }
    {
        self.table.contains_key(key)
    }

    /// Sets the value of a key, which is copied if the map lacks it, and its note. Error: `NoMemory`, only if
    /// the map lacks the key; the map is then unchanged.
    #[tactic(auto, using(crate::proofs::HashedMapLemmas::marks_of_inserted))]
    pub fn set(&mut self, alloc: Global, key: &str, value: V, note: usize) -> Result<(), NoMemory>
        ensures ok { OnOk result (self.new ≡ map.insert self.old key.now value) }
        ensures err { OnErr result (self.new ≡ self.old) }
        ensures absent { OnErr result (map.contains_key self.old key.now ≡ false) }
    {
        self.table.set(alloc, key, value)?;
        let index = self.table.index_of(key).unwrap_or(0);
        let mark = Mark {
            index: narrow(index),
            note: narrow(note),
        };
        put_mark(&mut self.marks, hash_of(key), mark);
        Ok(())
    }

    /// Removes a key, if the map has it.
    #[tactic(auto, using(crate::proofs::HashedMapLemmas::marks_of_removed))]
    pub fn remove(&mut self, key: &str)
        ensures { self.new ≡ map.remove self.old key.now }
    {
        self.table.remove(key);
    }

    /// Removes all keys. The memory of the map is kept for further keys.
    #[tactic(auto, using(crate::proofs::HashedMapLemmas::marks_of_none))]
    pub fn clear(&mut self)
        ensures { self.new ≡ map.empty }
    {
        self.table.clear();
        self.marks.fill(None);
    }
}
