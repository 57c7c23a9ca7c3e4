//! Maps with texts as keys.
ghost use Rattle.std.specs.Prelude.{◌≡◌, ◌<◌, ◌^◌, ◌↔◌, ℕ, List, IsTrue, false, is_some, option_copied};
ghost use Rattle.std.specs.Prelude.{OnOk, OnErr, IfOk, IfSome, Some};
ghost use Rattle.std.specs.Prelude.{map as mapped};
ghost use Rattle.std.specs.FinMap as map;
ghost use Rattle.std.specs.List.{list_any};
ghost use Rattle.std.specs.Str.{bytes_eq};
ghost use Rattle.kb_base.specs.TextMap.{filled};

use crate::hashed_map::HashedMap;
use crate::memory::NoMemory;
use crate::text::Text;
use indexmap::IndexMap;
use std::alloc::Global;
use std::marker::Model;

/// A map with texts as keys. Contracts see a finite map from the bytes of the keys: neither order nor
/// capacity.
#[derive(Debug, Drop)]
pub struct TextMap<V> {
    table: IndexMap<String, V>,
}

impl<V> Model for TextMap<V> {
    ghost use Rattle.std.specs.Prelude.{ℕ, List};
    ghost use Rattle.std.specs.Coded.{coded_list, coded_ℕ};
    ghost use Rattle.std.specs.Ordering.{nat_cmp};
    ghost use Rattle.std.specs.Cmp.Lexicographic.{slice_cmp};
    ghost use Rattle.std.specs.FinMap as map;
    ghost use Rattle.kb_base.specs.TextMap.{by_bytes};

    ghost Value = { map.FinMap (slice_cmp nat_cmp) V };

    ghost coded = { map.code (coded_list coded_ℕ) V.code };

    ghost view = { λ m. map.from_entries (by_bytes m.table.entries) };
}

impl<V: Drop> TextMap<V> {
    /// An empty map.
    pub fn new(alloc: Global) -> TextMap<V>
        ensures { result ≡ map.empty }
    {
        TextMap {
            table: IndexMap::new(alloc),
        }
    }

    /// The number of keys.
    pub fn len(&self) -> usize
        ensures len { result ≡ map.len self.now }
        ensures fits { result < 2 ^ 63 }
    {
        self.table.len()
    }

    /// Whether the map is empty.
    pub fn is_empty(&self) -> bool
        ensures { IsTrue result ↔ (map.len self.now ≡ 0) }
    {
        self.len() == 0
    }

    /// The value of a key, or `None` if the map lacks the key.
    pub fn get(&self, key: &str) -> Option<&V>
        ensures { option_copied result ≡ map.get self.now key.now }
    {
        self.table.get(key)
    }

    /// The value of a key, as `get` has it. It is looked for at an index first: if the key is there, which
    /// [`TextMap::index_of`] told before, its text isn't hashed.
    pub fn get_near(&self, index: usize, key: &str) -> Option<&V>
        ensures { option_copied result ≡ map.get self.now key.now }
    {
        if let Some((found, value)) = self.table.get_index(index) {
            if found.as_str() == key {
                return Some(value);
            }
        }
        self.table.get(key)
    }

    /// The index at which the map has the key now, for [`TextMap::get_near`], or `None` if the map lacks the
    /// key. A removal of a key may move another one.
    pub fn index_of(&self, key: &str) -> Option<usize>
        ensures { is_some result ≡ map.contains_key self.now key.now }
    {
        self.table.get_index_of(key)
    }

    /// The key at an index and its value, or `None` if there are fewer keys. A removal of a key may move
    /// another one.
    pub fn entry_at(&self, index: usize) -> Option<(&str, &V)>
        ensures { IfSome result (λ entry. map.get self.now entry.0.now ≡ Some entry.1.now) }
    {
        match self.table.get_index(index) {
            Some((key, value)) => Some((key.as_str(), value)),
            None => None,
        }
    }

    /// Whether the map has the key.
    pub fn contains_key(&self, key: &str) -> bool
        ensures { result ≡ map.contains_key self.now key.now }
    {
        self.table.contains_key(key)
    }

    /// Sets the value of a key. Error: `NoMemory`, only if the map lacks the key; the map is then unchanged.
    pub fn insert(&mut self, key: Text, value: V) -> Result<(), NoMemory>
        ensures ok { OnOk result (self.new ≡ map.insert self.old key value) }
        ensures err { OnErr result (self.new ≡ self.old) }
        ensures absent { OnErr result (map.contains_key self.old key ≡ false) }
    {
        self.table.insert(key.into_string(), value)?;
        Ok(())
    }

    /// Sets the value of a key, which is copied if the map lacks it. Error: `NoMemory`, only in that case;
    /// the map is then unchanged.
    pub fn set(&mut self, alloc: Global, key: &str, value: V) -> Result<(), NoMemory>
        ensures ok { OnOk result (self.new ≡ map.insert self.old key.now value) }
        ensures err { OnErr result (self.new ≡ self.old) }
        ensures absent { OnErr result (map.contains_key self.old key.now ≡ false) }
    {
        if let Some(old) = self.table.get_mut(key) {
            *old = value;
            return Ok(());
        }
        self.table.insert(String::from_str(alloc, key)?, value)?;
        Ok(())
    }

    /// Removes a key, if the map has it.
    pub fn remove(&mut self, key: &str)
        ensures { self.new ≡ map.remove self.old key.now }
    {
        self.table.swap_remove(key);
    }

    /// Removes all keys. The memory of the map is kept for further keys.
    pub fn clear(&mut self)
        ensures { self.new ≡ map.empty }
    {
        self.table.clear();
    }

    /// All keys, lent, in no order that is known. Error: `NoMemory`.
    pub fn keys(&self, alloc: Global) -> Result<Vec<&str>, NoMemory>
        ensures { IfOk result (λ keys. (key : List ℕ)
            → list_any (bytes_eq key) (mapped (λ k. k.now) keys.items) ≡ map.contains_key self.now key) }
    {
        let mut keys = Vec::new(alloc);
        for (key, _) in &self.table {
            keys.push(key.as_str())?;
        }
        Ok(keys)
    }

    /// Gives each key of this map that the other map lacks the number there, with its index here as its note.
    /// Error: `NoMemory`; the other map then has some of these keys.
    pub fn fill(
        &self,
        alloc: Global,
        other: &mut HashedMap<usize>,
        number: usize,
    ) -> Result<(), NoMemory>
        ensures { OnOk result ((key : List ℕ)
            → map.get other.new key ≡ filled (map.get other.old key) (map.contains_key self.now key) number) }
    {
        let mut index = 0usize;
        for (key, _) in &self.table {
            if !other.contains_key(key.as_str()) {
                other.set(alloc, key.as_str(), number, index)?;
            }
            index = index.saturating_add(1);
        }
        Ok(())
    }
}
