//! Nested scopes of context keys, and the search from the focus outward.
ghost use Rattle.std.specs.Prelude.{◌≡◌, ◌<◌, ℕ, List, None, Some, length, option_copied, option_and_then};
ghost use Rattle.std.specs.Prelude.{slice_get, option_map};
ghost use Rattle.std.specs.Prelude.{IfOk, IfErr, IfSome, IsSome, OnOk, OnErr, IsTrue};
ghost use Rattle.std.specs.FinMap as map;
ghost use Rattle.kb_context.specs.Scopes.{IsRooted, seen_from, seat_from};

use crate::draft::Draft;
use crate::fault::{ScopeFault, UnknownScope};
use crate::layout::{Layout, SCOPE_LIMIT, count_keys};
use crate::value::ContextValue;
use kb_base::{Failure, HashedMap, NoMemory, Text, TextMap};
use std::alloc::Global;
use std::marker::Model;

/// The maximum number of keys in all scopes together (our decision).
pub const KEY_LIMIT: usize = 10_000;

/// A scope.
#[derive(Debug, Drop)]
pub struct Scope {
    /// Its name.
    pub name: Text,
    /// The index of the scope around it, which comes before it; the outermost scope has none.
    pub parent: Option<usize>,
    /// The values of its own keys.
    pub keys: TextMap<ContextValue>,
}

/// The innermost value of a key, searched from the scope at index `from` outward. Each scope on the path
/// costs one lookup.
fn look<'a>(scopes: &'a [Scope], from: usize, key: &str) -> Option<&'a ContextValue>
    requires inside { from < length scopes.now }
    requires rooted { IsRooted scopes.now }
    ensures { option_copied result ≡ map.get (seen_from scopes.now from) key.now }
{
    let mut at = from;
    loop {
        let scope = &scopes[at];
        if let Some(value) = scope.keys.get(key) {
            return Some(value);
        }
        match scope.parent {
            Some(parent) => at = parent,
            None => return None,
        }
    }
}

/// The value of a key in the scope at index `at`, if there is one. It is looked for at index `near` of the
/// scope's keys first.
fn value_in_scope<'a>(
    scopes: &'a [Scope],
    at: usize,
    near: usize,
    key: &str,
) -> Option<&'a ContextValue>
    ensures { option_copied result
        ≡ option_and_then (λ scope. map.get scope.keys key.now) (slice_get scopes.now at) }
{
    match scopes.get(at) {
        Some(scope) => scope.keys.get_near(near, key),
        None => None,
    }
}

/// The index that a key has among those of the scope at index `at`, or 0 if the scope lacks it.
fn index_in_scope(scopes: &[Scope], at: usize, key: &str) -> usize {
    match scopes.get(at) {
        Some(scope) => scope.keys.index_of(key).unwrap_or(0),
        None => 0,
    }
}

/// The index of the innermost scope, from the one at index `from` outward, that has a key.
fn find_seat(scopes: &[Scope], from: usize, key: &str) -> Option<usize>
    requires inside { from < length scopes.now }
    requires rooted { IsRooted scopes.now }
    ensures { result ≡ seat_from scopes.now (length scopes.now) from key.now }
{
    let mut at = from;
    loop {
        let scope = &scopes[at];
        if scope.keys.contains_key(key) {
            return Some(at);
        }
        match scope.parent {
            Some(parent) => at = parent,
            None => return None,
        }
    }
}

/// Gives each key that a scope has, from the one at index `from` outward, the index of the innermost one, in
/// an empty map. The key's note there is its index among the keys of that scope. Error: `NoMemory`.
fn mark(
    alloc: Global,
    scopes: &[Scope],
    from: usize,
    flat: &mut HashedMap<usize>,
) -> Result<(), NoMemory>
    requires inside { from < length scopes.now }
    requires rooted { IsRooted scopes.now }
    requires empty { flat.old ≡ map.empty }
    ensures { OnOk result ((key : List ℕ)
        → map.get flat.new key ≡ seat_from scopes.now (length scopes.now) from key) }
{
    let mut at = from;
    loop {
        let scope = &scopes[at];
        scope.keys.fill(alloc, flat, at)?;
        match scope.parent {
            Some(parent) => at = parent,
            None => return Ok(()),
        }
    }
}

/// Nested scopes of context keys, one of which has the focus: [`crate::Scopes`] without its flat map and its
/// revision. A refused call changes nothing.
#[derive(Debug, Drop)]
pub(crate) struct ScopeTree {
    scopes: Vec<Scope>,
    places: TextMap<usize>,
    focus: usize,
    keys: usize,
}

impl Model for ScopeTree {
    ghost use Rattle.kb_context.specs.Scopes.{ScopesData, IsWellFormed, scopes_code};
    ghost use Rattle.kb_context.specs.contracts.scope_tree.Scope as scope;

    ghost Value = { ScopesData };

    ghost coded = { scopes_code scope.the_row.coded };

    ghost view = { λ s. record { scopes = s.scopes.items; focus = s.focus } };

    ghost invariant = { λ s. IsWellFormed s.scopes.items s.places s.focus s.keys };
}

impl ScopeTree {
    ghost use Rattle.kb_base.specs.Failure.{IsRefusal, IsRefusalOrMemory};
    ghost use Rattle.kb_context.specs.Layout.{layout_fault, scopes_of};
    ghost use Rattle.kb_context.specs.Scopes.{context, place_of, value_at, has_room};
    ghost use Rattle.kb_context.specs.Scopes.{set_fault_at};
    ghost use Rattle.kb_context.specs.Scopes.{with_value_at, without_value, with_focus};
    ghost use Rattle.kb_context.specs.Scopes.{ReachesRoot, ChangesOnly, ChangesOnlyIn, seat, IsFlat};

    /// Builds the scopes of a layout.
    ///
    /// Errors, in this order: `BadLayout` (21) if there is no scope or more than `SCOPE_LIMIT`, if the
    /// first scope has a parent, if another scope has no parent or one that is not an earlier scope, if two
    /// scopes have the same name, or if the focus is not the name of a scope. `TooManyKeys` (22) if all
    /// scopes together have more than `KEY_LIMIT` keys. `NoMemory` (5) at any point.
    pub(crate) fn new(alloc: Global, layout: Layout) -> Result<ScopeTree, Failure<ScopeFault>>
        ensures good { OnOk result (layout_fault layout ≡ None) }
        ensures ok { IfOk result (λ scopes. scopes ≡ scopes_of layout) }
        ensures err { IfErr result (IsRefusal (layout_fault layout)) }
    {
        let Layout { scopes, focus } = layout;
        let scopes = scopes.into_vec();
        if scopes.len() > SCOPE_LIMIT {
            return Err(Failure::Fault(ScopeFault::BadLayout));
        }
        let count = count_keys(&scopes);
        let Draft { scopes, places } = Draft::of(alloc, scopes)?;
        let Some(&focus) = places.get(focus.as_str()) else {
            return Err(Failure::Fault(ScopeFault::BadLayout));
        };
        let Some(keys) = count else {
            return Err(Failure::Fault(ScopeFault::TooManyKeys));
        };
        Ok(ScopeTree {
            scopes,
            places,
            focus,
            keys,
        })
    }

    /// All scopes, the outermost first.
    pub(crate) fn scopes(&self) -> &[Scope]
        ensures { result.now ≡ self.now.scopes }
    {
        self.scopes.as_slice()
    }

    /// The index of the scope that has the focus.
    pub(crate) fn focused(&self) -> usize
        ensures { result ≡ self.now.focus }
    {
        self.focus
    }

    /// The innermost value of a key from the focused scope outward. Each scope on the path costs one lookup.
    pub(crate) fn get(&self, key: &str) -> Option<&ContextValue>
        ensures value { option_copied result ≡ map.get (context self.now) key.now }

        // The context includes the keys of every scope on the path, up to the outermost one.
        ensures whole { ReachesRoot self.now }
    {
        look(&self.scopes, self.focus, key)
    }

    /// The index of the innermost scope from the focused one outward that has a key.
    pub(crate) fn seat(&self, key: &str) -> Option<usize>
        ensures { result ≡ seat self.now key.now }
    {
        find_seat(&self.scopes, self.focus, key)
    }

    /// The value of a key in the scope at an index, if there is one. The number beside it is the index among
    /// the keys of that scope at which the key is looked for first.
    pub(crate) fn value_in_seat(
        &self,
        seat: Option<(&usize, usize)>,
        key: &str,
    ) -> Option<&ContextValue>
        ensures value { option_copied result
            ≡ option_and_then (λ at. value_at self.now at key.now) (option_map (λ s. s.0.now) seat.entry) }
        ensures whole { ReachesRoot self.now }
    {
        let scopes = &self.scopes;
        match seat {
            Some((at, near)) => value_in_scope(scopes, *at, near, key),
            None => None,
        }
    }

    /// The index that a key has among those of the scope at an index, or 0 if the scope lacks it.
    pub(crate) fn index_in_seat(&self, seat: usize, key: &str) -> usize {
        index_in_scope(&self.scopes, seat, key)
    }

    /// Fills an empty map with the index of the innermost scope of each key that the focus sees. Error:
    /// `NoMemory`.
    pub(crate) fn flatten(&self, flat: &mut HashedMap<usize>) -> Result<(), NoMemory>
        requires { flat.old ≡ map.empty }
        ensures { OnOk result (IsFlat self.now flat.new) }
    {
        mark(*self.scopes.allocator(), &self.scopes, self.focus, flat)
    }

    /// The allocator of the scopes.
    pub(crate) fn allocator(&self) -> Global {
        *self.scopes.allocator()
    }

    /// Whether a key can be set in the scope at index `at`: the scope has the key already, or the limit is
    /// not reached.
    fn has_room(&self, at: usize, key: &str) -> bool
        requires { at < length self.now.scopes }
        ensures { result ≡ has_room self.now at key.now }
    {
        self.keys < KEY_LIMIT || self.scopes[at].keys.contains_key(key)
    }

    /// Sets a key for which there is room, in the scope at index `at`. Error: `NoMemory`, only for a new
    /// key.
    fn put_at(&mut self, at: usize, key: &str, value: ContextValue) -> Result<(), NoMemory>
        requires inside { at < length self.old.scopes }
        requires room { IsTrue (has_room self.old at key.now) }
        ensures ok { OnOk result (self.new ≡ with_value_at self.old at key.now value) }
        ensures unchanged { OnErr result (self.new ≡ self.old) }
        ensures absent { OnErr result (value_at self.old at key.now ≡ None) }
    {
        let alloc = *self.scopes.allocator();
        let scope = &mut self.scopes[at];
        let before = scope.keys.len();
        scope.keys.set(alloc, key, value)?;
        self.keys = self.keys - before + scope.keys.len();
        Ok(())
    }

    /// Sets a key in the scope at index `at`. Errors: `TooManyKeys` (22) if the scope lacks the key and all
    /// scopes together have `KEY_LIMIT` keys. `NoMemory` (5), only if the scope lacks the key and the other
    /// doesn't apply.
    pub(crate) fn set_at(
        &mut self,
        at: usize,
        key: &str,
        value: ContextValue,
    ) -> Result<(), Failure<ScopeFault>>
        requires { at < length self.old.scopes }
        ensures allowed { OnOk result (set_fault_at self.old at key.now ≡ None) }
        ensures ok { OnOk result (self.new ≡ with_value_at self.old at key.now value) }
        ensures err { IfErr result (IsRefusalOrMemory (set_fault_at self.old at key.now)) }
        ensures unchanged { OnErr result (self.new ≡ self.old) }
        ensures absent { OnErr result (value_at self.old at key.now ≡ None) }
        ensures change { OnOk result (ChangesOnly self.old self.new at key.now (Some value)) }
    {
        if !self.has_room(at, key) {
            return Err(Failure::Fault(ScopeFault::TooManyKeys));
        }
        self.put_at(at, key, value)?;
        Ok(())
    }

    /// The index of the scope that is named `scope`, if there is one.
    pub(crate) fn place(&self, scope: &str) -> Option<usize>
        ensures place { result ≡ place_of scope.now self.now.scopes }
        ensures inside { IfSome result (λ at. at < length self.now.scopes) }
    {
        match self.places.get(scope) {
            Some(&at) => Some(at),
            None => None,
        }
    }

    /// The index of the outermost scope, which is the first one.
    pub(crate) fn outermost(&self) -> usize
        ensures first { result ≡ 0 }
        ensures inside { result < length self.now.scopes }
    {
        // No effect at run time: the proof uses it to see that there is a scope.
        let _focus = &self.focus;
        0
    }

    /// Removes a key from the scope that is named `scope`. Changes nothing if the scope lacks the key.
    /// Error: `UnknownScope` (20) if no scope has the name.
    pub(crate) fn unset(&mut self, scope: &str, key: &str) -> Result<(), UnknownScope>
        ensures known { OnOk result (IsSome (place_of scope.now self.old.scopes)) }
        ensures ok { OnOk result (self.new ≡ without_value self.old scope.now key.now) }
        ensures unknown { OnErr result (place_of scope.now self.old.scopes ≡ None) }
        ensures unchanged { OnErr result (self.new ≡ self.old) }
        ensures change { OnOk result (ChangesOnlyIn self.old self.new scope.now key.now None) }
    {
        let Some(&at) = self.places.get(scope) else {
            return Err(UnknownScope);
        };
        let scope = &mut self.scopes[at];
        let before = scope.keys.len();
        scope.keys.remove(key);
        self.keys = self.keys - before + scope.keys.len();
        Ok(())
    }

    /// Gives the focus to the scope that is named `scope`. Error: `UnknownScope` (20) if no scope has the
    /// name.
    pub(crate) fn focus(&mut self, scope: &str) -> Result<(), UnknownScope>
        ensures known { OnOk result (IsSome (place_of scope.now self.old.scopes)) }
        ensures ok { OnOk result (self.new ≡ with_focus self.old scope.now) }
        ensures unknown { OnErr result (place_of scope.now self.old.scopes ≡ None) }
        ensures unchanged { OnErr result (self.new ≡ self.old) }
    {
        let Some(&at) = self.places.get(scope) else {
            return Err(UnknownScope);
        };
        self.focus = at;
        Ok(())
    }
}
