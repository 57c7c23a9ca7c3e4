//! Scopes of context keys, and which of them has the focus.
ghost use Rattle.std.specs.Prelude.{◌≡◌, ◌<◌, ◌-◌, ◌^◌, true, None, Some, OnOk, OnErr, IfOk, IfErr, IfSome};
ghost use Rattle.std.specs.Prelude.{IsSome, length, option_copied};
ghost use Rattle.std.specs.FinMap as map;
ghost use Rattle.kb_base.specs.HashedText.{hash_of};
ghost use Rattle.kb_context.specs.AtHand.{IsAtHandBut, IsAtHandFor};
ghost use Rattle.kb_context.specs.Scopes.{context, next_revision, IsFlat};
ghost use Rattle.kb_context.specs.Sights.{AnyKey, Tells, TellsSeen};

use crate::at_hand::AtHand;
use crate::fault::{ScopeFault, UnknownScope};
use crate::layout::Layout;
use crate::scope_tree::{Scope, ScopeTree};
use crate::sight::Sight;
use crate::value::ContextValue;
use kb_base::{Failure, HashedText, NoMemory};
use std::alloc::Global;
use std::marker::Model;

/// Nested scopes of context keys, one of which has the focus. A when clause sees the keys of the focused
/// scope and of the scopes around it. If several of them have a key, the innermost value counts, as VS
/// Code's documentation of when clause contexts describes it for the parts of an editor's window. The
/// limits and the refusals are our decision. A refused call changes nothing.
///
/// Contracts see the scopes and the number of changes. They don't see what is kept at hand of the keys that
/// the focus sees, as of the revision `made_at`. Both stand apart, since commands move the scopes with the
/// core.
#[derive(Debug, Drop)]
pub struct Scopes {
    tree: Box<ScopeTree>,
    at_hand: Box<AtHand>,
    made_at: Option<u64>,
    revision: u64,
}

impl Model for Scopes {
    ghost use Rattle.kb_context.specs.AtHand.{IsAtHandFor};
    ghost use Rattle.kb_context.specs.Scopes.{RevisedScopes, revised_code};
    ghost use Rattle.kb_context.specs.contracts.scope_tree.ScopeTree as base;

    ghost Value = { RevisedScopes };

    ghost coded = { revised_code base.the_row.coded };

    ghost view = { λ s. record { seen = s.tree.value; revision = s.revision } };

    ghost invariant = { λ s. IsAtHandFor s.tree.value s.at_hand.value s.made_at s.revision };
}

/// What is known of a key before it is set.
#[derive(Clone, Copy)]
struct Renewal {
    /// Whether its innermost scope is the one in which it is set.
    stays: bool,
    /// Its hash.
    hash: usize,
    /// What the focus sees of it then, if the innermost scope stays.
    sight: Sight,
}

/// The revision at which all is at hand after a key was set, as `AtHand::follow` has it.
fn follow_set(
    tree: &ScopeTree,
    at_hand: &mut AtHand,
    made_at: Option<u64>,
    revision: u64,
    key: &str,
    renewal: Renewal,
) -> Option<u64>
    requires hash { renewal.hash ≡ hash_of key.now }
    requires room { length at_hand.old.sights.items ≡ 1024 }
    requires changed { made_at ≡ Some revision → IsAtHandBut tree.now at_hand.old key.now }
    requires stays { renewal.stays ≡ true → (IsFlat tree.now at_hand.old.flat
        × Tells AnyKey (context tree.now) renewal.hash renewal.sight)
        × ((made_at ≡ Some revision) × (revision < 2 ^ 64 - 2)) }
    ensures { IsAtHandFor tree.now at_hand.new result (next_revision revision) }
{
    if !renewal.stays {
        return at_hand.follow(tree, made_at, revision, key);
    }
    at_hand.put(tree, renewal.hash, key, renewal.sight);
    Some(revision + 1)
}

impl Scopes {
    ghost use Rattle.kb_base.specs.Failure.{IsRefusal, IsRefusalOrMemory};
    ghost use Rattle.kb_context.specs.Layout.{layout_fault, scopes_of};
    ghost use Rattle.kb_context.specs.Scopes.{place_of, value_in, value_at, set_fault_at, set_fault};
    ghost use Rattle.kb_context.specs.Scopes.{with_value_at, with_value, without_value, with_focus, revised};
    ghost use Rattle.kb_context.specs.Scopes.{initial, ReachesRoot, ChangesOnly, ChangesOnlyIn};

    /// Builds the scopes of a layout, at revision 0.
    ///
    /// Errors, in this order: `BadLayout` (21) if there is no scope or more than `SCOPE_LIMIT`, if the
    /// first scope has a parent, if another scope has no parent or one that is not an earlier scope, if two
    /// scopes have the same name, or if the focus is not the name of a scope. `TooManyKeys` (22) if all
    /// scopes together have more than `KEY_LIMIT` keys. `NoMemory` (5) at any point.
    pub fn new(alloc: Global, layout: Layout) -> Result<Scopes, Failure<ScopeFault>>
        ensures good { OnOk result (layout_fault layout ≡ None) }
        ensures ok { IfOk result (λ scopes. scopes ≡ initial (scopes_of layout)) }
        ensures err { IfErr result (IsRefusal (layout_fault layout)) }
    {
        Ok(Scopes {
            tree: Box::new(alloc, ScopeTree::new(alloc, layout)?)?,
            at_hand: Box::new(alloc, AtHand::new(alloc)?)?,
            made_at: None,
            revision: 0,
        })
    }

    /// The number of accepted calls of `set`, `set_root`, `unset` and `focus`, also of those that changed
    /// nothing. At `u64::MAX` it stays.
    pub fn revision(&self) -> u64
        ensures { result ≡ self.now.revision }
    {
        self.revision
    }

    /// All scopes, the outermost first, each behind the scope around it.
    pub fn scopes(&self) -> &[Scope]
        ensures { result.now ≡ self.now.seen.scopes }
    {
        self.tree.scopes()
    }

    /// The index of the scope that has the focus.
    pub fn focused(&self) -> usize
        ensures { result ≡ self.now.seen.focus }
    {
        self.tree.focused()
    }

    /// Makes what is kept at hand for the present revision, so that `get` searches no scopes and `sights`
    /// gives some, until the focus changes. It changes nothing else. At revision `u64::MAX` it does nothing.
    /// Error: `NoMemory`; `get` then searches the scopes.
    pub fn refresh(&mut self) -> Result<(), NoMemory>
        ensures { self.new ≡ self.old }
    {
        if self.made_at == Some(self.revision) || self.revision == u64::MAX {
            return Ok(());
        }
        self.made_at = None;
        self.at_hand.refresh(&self.tree)?;
        self.made_at = Some(self.revision);
        Ok(())
    }

    /// The value of a key that is visible from the focus: the innermost value from the focused scope
    /// outward, or `None` if no scope on this path has the key. If the flat map is not up to date, each scope
    /// on the path costs one lookup.
    pub fn get(&self, key: &str) -> Option<&ContextValue>
        ensures value { option_copied result ≡ map.get (context self.now.seen) key.now }

        // The context includes the keys of every scope on the path, up to the outermost one.
        ensures whole { ReachesRoot self.now.seen }
    {
        if self.made_at != Some(self.revision) {
            return self.tree.get(key);
        }
        self.tree
            .value_in_seat(self.at_hand.flat.get_text(key), key)
    }

    /// The value of a key that is visible from the focus, as `get` has it. If the flat map is up to date, it
    /// is found by the hash that comes with the key.
    pub fn get_hashed(&self, key: &HashedText) -> Option<&ContextValue>
        ensures value { option_copied result ≡ map.get (context self.now.seen) key.now }
        ensures whole { ReachesRoot self.now.seen }
    {
        let text = key.as_str();
        if self.made_at != Some(self.revision) {
            return self.tree.get(text);
        }
        self.tree.value_in_seat(self.at_hand.flat.get(key), text)
    }

    /// What the focus sees of keys, one sight for each of the 1,024 hashes, or `None` if that isn't at hand.
    pub fn sights(&self) -> Option<&[Sight]>
        ensures { IfSome result (λ sights. TellsSeen (context self.now.seen) sights.now) }
    {
        if self.made_at != Some(self.revision) {
            return None;
        }
        Some(self.at_hand.sights.as_slice())
    }

    /// Sets a key in the scope at index `at`. Errors: as for `set`, without `UnknownScope`.
    fn set_at(
        &mut self,
        at: usize,
        key: &str,
        value: ContextValue,
    ) -> Result<(), Failure<ScopeFault>>
        requires { at < length self.old.seen.scopes }
        ensures allowed { OnOk result (set_fault_at self.old.seen at key.now ≡ None) }
        ensures ok { OnOk result
            (self.new ≡ revised self.old (with_value_at self.old.seen at key.now value)) }
        ensures err { IfErr result (IsRefusalOrMemory (set_fault_at self.old.seen at key.now)) }
        ensures unchanged { OnErr result (self.new ≡ self.old) }
        ensures absent { OnErr result (value_at self.old.seen at key.now ≡ None) }
        ensures change { OnOk result (ChangesOnly self.old.seen self.new.seen at key.now (Some value)) }
    {
        let stays = self.at_hand.is_seat(self.made_at, self.revision, at, key);
        let (hash, sight) = Sight::of(key, Some(&value));
        self.tree.set_at(at, key, value)?;
        self.made_at = follow_set(
            &self.tree,
            &mut self.at_hand,
            self.made_at,
            self.revision,
            key,
            Renewal { stays, hash, sight },
        );
        self.revision = self.revision.saturating_add(1);
        Ok(())
    }

    /// Sets a key in the scope that is named `scope`.
    ///
    /// Errors: `UnknownScope` (20) if no scope has the name. `TooManyKeys` (22) if the scope lacks the key
    /// and all scopes together have `KEY_LIMIT` keys. `NoMemory` (5), only if the scope lacks the key and
    /// neither of the others applies. On an error nothing changes, the revision included.
    pub fn set(
        &mut self,
        scope: &str,
        key: &str,
        value: ContextValue,
    ) -> Result<(), Failure<ScopeFault>>
        ensures allowed { OnOk result (set_fault self.old.seen scope.now key.now ≡ None) }
        ensures ok { OnOk result
            (self.new ≡ revised self.old (with_value self.old.seen scope.now key.now value)) }
        ensures err { IfErr result (IsRefusalOrMemory (set_fault self.old.seen scope.now key.now)) }
        ensures unchanged { OnErr result (self.new ≡ self.old) }
        ensures absent { OnErr result (value_in self.old.seen scope.now key.now ≡ None) }
        ensures change { OnOk result
            (ChangesOnlyIn self.old.seen self.new.seen scope.now key.now (Some value)) }
    {
        let Some(at) = self.tree.place(scope) else {
            return Err(Failure::Fault(ScopeFault::UnknownScope));
        };
        self.set_at(at, key, value)
    }

    /// Sets a key in the outermost scope, which is the first one. Errors: `TooManyKeys` (22) and `NoMemory`
    /// (5), as for `set`. On an error nothing changes, the revision included.
    pub fn set_root(&mut self, key: &str, value: ContextValue) -> Result<(), Failure<ScopeFault>>
        ensures allowed { OnOk result (set_fault_at self.old.seen 0 key.now ≡ None) }
        ensures ok { OnOk result (self.new ≡ revised self.old (with_value_at self.old.seen 0 key.now value)) }
        ensures err { IfErr result (IsRefusalOrMemory (set_fault_at self.old.seen 0 key.now)) }
        ensures unchanged { OnErr result (self.new ≡ self.old) }
        ensures absent { OnErr result (value_at self.old.seen 0 key.now ≡ None) }
        ensures change { OnOk result (ChangesOnly self.old.seen self.new.seen 0 key.now (Some value)) }
    {
        let at = self.tree.outermost();
        self.set_at(at, key, value)
    }

    /// Removes a key from the scope that is named `scope`. Changes no key if the scope lacks it. Error:
    /// `UnknownScope` (20) if no scope has the name. On an error nothing changes, the revision included.
    pub fn unset(&mut self, scope: &str, key: &str) -> Result<(), UnknownScope>
        ensures known { OnOk result (IsSome (place_of scope.now self.old.seen.scopes)) }
        ensures ok { OnOk result
            (self.new ≡ revised self.old (without_value self.old.seen scope.now key.now)) }
        ensures unknown { OnErr result (place_of scope.now self.old.seen.scopes ≡ None) }
        ensures unchanged { OnErr result (self.new ≡ self.old) }
        ensures change { OnOk result (ChangesOnlyIn self.old.seen self.new.seen scope.now key.now None) }
    {
        self.tree.unset(scope, key)?;
        self.made_at = self
            .at_hand
            .follow(&self.tree, self.made_at, self.revision, key);
        self.revision = self.revision.saturating_add(1);
        Ok(())
    }

    /// Gives the focus to the scope that is named `scope`. Error: `UnknownScope` (20) if no scope has the
    /// name. On an error nothing changes, the revision included.
    pub fn focus(&mut self, scope: &str) -> Result<(), UnknownScope>
        ensures known { OnOk result (IsSome (place_of scope.now self.old.seen.scopes)) }
        ensures ok { OnOk result (self.new ≡ revised self.old (with_focus self.old.seen scope.now)) }
        ensures unknown { OnErr result (place_of scope.now self.old.seen.scopes ≡ None) }
        ensures unchanged { OnErr result (self.new ≡ self.old) }
    {
        self.tree.focus(scope)?;
        self.made_at = None;
        self.revision = self.revision.saturating_add(1);
        Ok(())
    }
}
