//! What the focus sees, at hand: which scope it sees a key in, and what a clause asks of its value.
ghost use Rattle.std.specs.Prelude.{◌≡◌, ◌<◌, ◌-◌, ◌^◌, true, Some, IfOk, OnOk, length};
ghost use Rattle.std.specs.FinMap as map;
ghost use Rattle.kb_base.specs.HashedText.{hash_of};
ghost use Rattle.kb_context.specs.Scopes.{context, next_revision, IsFlat};
ghost use Rattle.kb_context.specs.Sights.{AnyKey, Tells, TellsSeen, TellsSeenBut};
ghost use Rattle.kb_context.specs.AtHand.{IsAtHand, IsAtHandBut, IsAtHandFor};

use crate::scope_tree::ScopeTree;
use crate::sight::{Sight, put_sight};
use kb_base::{HASHES, HashedMap, NoMemory};
use std::alloc::Global;

/// A flat map with the index of the innermost scope of each key that the focus sees, which notes the index of
/// the key there, and for each hash of a key what the focus sees of the keys that have it.
#[derive(Debug, Drop)]
pub(crate) struct AtHand {
    pub(crate) flat: HashedMap<usize>,
    pub(crate) sights: Vec<Sight>,
}

/// The sight of a hash, by a flat map.
fn sight_of(tree: &ScopeTree, flat: &HashedMap<usize>, hash: usize) -> Sight
    requires { IsFlat tree.now flat.now }
    ensures { Tells AnyKey (context tree.now) hash result }
{
    if !flat.may_have(hash) {
        return Sight::Nothing;
    }
    match flat.entry_of(hash) {
        Some((key, at, near)) => {
            let (_, sight) = Sight::of(key, tree.value_in_seat(Some((at, near)), key));
            sight
        }
        None => Sight::Unknown,
    }
}

/// Makes the sights of all hashes, by a flat map.
fn tell(tree: &ScopeTree, flat: &HashedMap<usize>, sights: &mut Vec<Sight>)
    requires flat { IsFlat tree.now flat.now }
    requires room { length sights.old.items ≡ 1024 }
    ensures { TellsSeen (context tree.now) sights.new.items }
{
    for hash in 0..HASHES {
        let sight = sight_of(tree, flat, hash);
        put_sight(sights, hash, sight);
    }
}

/// Makes the sight of a key, where all others are right.
fn tell_of(tree: &ScopeTree, sights: &mut Vec<Sight>, key: &str)
    requires { TellsSeenBut (context tree.now) sights.old.items key.now }
    ensures { TellsSeen (context tree.now) sights.new.items }
{
    let (hash, sight) = Sight::of(key, tree.get(key));
    put_sight(sights, hash, sight);
}

impl AtHand {
    /// Nothing that is seen. Error: `NoMemory`.
    pub(crate) fn new(alloc: Global) -> Result<AtHand, NoMemory>
        ensures { IfOk result (λ made. length made.sights.items ≡ 1024) }
    {
        Ok(AtHand {
            flat: HashedMap::new(alloc)?,
            sights: vec![in alloc; Sight::Nothing; HASHES]?,
        })
    }

    /// Makes all that is seen anew. Error: `NoMemory`; it is of no use then.
    pub(crate) fn refresh(&mut self, tree: &ScopeTree) -> Result<(), NoMemory>
        requires { length self.old.sights.items ≡ 1024 }
        ensures all { OnOk result (IsAtHand tree.now self.new) }
        ensures room { length self.new.sights.items ≡ 1024 }
    {
        self.flat.clear();
        tree.flatten(&mut self.flat)?;
        tell(tree, &self.flat, &mut self.sights);
        Ok(())
    }

    /// Whether it is of a revision behind which there are others, and says that the scope at index `at` is
    /// the innermost one with a key.
    pub(crate) fn is_seat(&self, made_at: Option<u64>, revision: u64, at: usize, key: &str) -> bool
        ensures now { result ≡ true → made_at ≡ Some revision }
        ensures below { result ≡ true → revision < 2 ^ 64 - 2 }
        ensures seat { result ≡ true → map.get self.now.flat key.now ≡ Some at }
    {
        if made_at != Some(revision) || revision >= u64::MAX - 1 {
            return false;
        }
        match self.flat.get_text(key) {
            Some((found, _)) => *found == at,
            None => false,
        }
    }

    /// Puts the sight of a key whose value alone changed.
    pub(crate) fn put(&mut self, tree: &ScopeTree, hash: usize, key: &str, sight: Sight)
        requires hash { hash ≡ hash_of key.now }
        requires flat { IsFlat tree.now self.old.flat }
        requires others { TellsSeenBut (context tree.now) self.old.sights.items key.now }
        requires own { Tells AnyKey (context tree.now) hash sight }
        ensures { IsAtHand tree.now self.new }
    {
        put_sight(&mut self.sights, hash, sight);
    }

    /// The revision behind `revision`, at which all is right that was so before a change of one key; or
    /// `None`, if it was not, if it may not be at that revision, or if it is refused memory.
    pub(crate) fn follow(
        &mut self,
        tree: &ScopeTree,
        made_at: Option<u64>,
        revision: u64,
        key: &str,
    ) -> Option<u64>
        requires room { length self.old.sights.items ≡ 1024 }
        requires but { made_at ≡ Some revision → IsAtHandBut tree.now self.old key.now }
        ensures { IsAtHandFor tree.now self.new result (next_revision revision) }
    {
        if made_at != Some(revision) || revision >= u64::MAX - 1 {
            return None;
        }
        match tree.seat(key) {
            Some(at) => match self
                .flat
                .set(tree.allocator(), key, at, tree.index_in_seat(at, key))
            {
                Ok(()) => {
                    tell_of(tree, &mut self.sights, key);
                    Some(revision + 1)
                }
                Err(_) => None,
            },
            None => {
                self.flat.remove(key);
                tell_of(tree, &mut self.sights, key);
                Some(revision + 1)
            }
        }
    }
}
