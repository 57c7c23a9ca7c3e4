//! What the focus sees, key by key.
ghost use Rattle.std.specs.Prelude.{◌≡◌, All, IfOk, IfSome, OnOk, find, length, option_map};
ghost use Rattle.kb_context.specs.Scopes.{seat_from};
ghost use Rattle.kb_explain.specs.Seen.{has_key, holder, IsSeen};

use kb_base::NoMemory;
use kb_context::{ContextValue, Scope, Scopes};
use std::alloc::Global;

/// A context key that the focus sees.
#[derive(Clone, Copy, Debug)]
pub struct Seen<'s> {
    /// The key.
    pub key: &'s str,
    /// Its value.
    pub value: &'s ContextValue,
    /// The scope that has it: the innermost one.
    pub scope: &'s str,
}

/// The index of the innermost scope that has a key, from the one at an index outward.
#[tactic(auto, using(crate::proofs::SeenLemmas::seats))]
fn seat(all: &[Scope], from: usize, key: &str) -> Option<usize>
    ensures { result ≡ seat_from all.now (length all.now) from key.now }
{
    let mut at = from;
    for _ in 0..all.len() {
        match all.get(at) {
            Some(scope) => {
                if scope.keys.contains_key(key) {
                    return Some(at);
                }
                match scope.parent {
                    Some(parent) => at = parent,
                    None => return None,
                }
            }
            None => return None,
        }
    }
    None
}

/// The name of the scope that has the value of a key that the focus sees, if it sees one.
pub fn scope_of<'s>(scopes: &'s Scopes, key: &str) -> Option<&'s str>
    ensures { option_map (λ name. name.now) result ≡ holder scopes.entry.now.seen key.now }
{
    let all = scopes.scopes();
    match seat(all, scopes.focused(), key) {
        Some(place) => match all.get(place) {
            Some(scope) => Some(scope.name.as_str()),
            None => None,
        },
        None => None,
    }
}

/// The first scope of the layout that has a key, whether the focus sees it or not.
pub fn scope_with<'s>(scopes: &'s Scopes, key: &str) -> Option<&'s Scope>
    ensures { option_map (λ scope. scope.now) result
        ≡ find (λ scope. has_key scope key.now) scopes.entry.now.seen.scopes }
{
    let all = scopes.scopes();
    for scope in all {
        if scope.keys.contains_key(key) {
            return Some(scope);
        }
    }
    None
}

/// What the focus sees of a key, if it sees it.
fn seen_of<'s>(scopes: &'s Scopes, key: &'s str) -> Option<Seen<'s>>
    ensures { IfSome result (IsSeen scopes.entry.now.seen) }
{
    match (scopes.get(key), scope_of(scopes, key)) {
        (Some(value), Some(scope)) => Some(Seen { key, value, scope }),
        _ => None,
    }
}

/// Adds the keys of the scope at an index that none of the inner ones has, by name.
fn add_keys<'s>(
    alloc: Global,
    scopes: &'s Scopes,
    place: usize,
    seen: &mut Vec<Seen<'s>>,
) -> Result<(), NoMemory>
    ensures { OnOk result (All (IsSeen scopes.entry.now.seen) seen.old.items
        → All (IsSeen scopes.entry.now.seen) seen.new.items) }
{
    let Some(scope) = scopes.scopes().get(place) else {
        return Ok(());
    };
    let mut keys = scope.keys.keys(alloc)?;
    keys.sort_unstable();
    for key in keys {
        if seat(scopes.scopes(), scopes.focused(), key) != Some(place) {
            continue;
        }
        if let Some(one) = seen_of(scopes, key) {
            seen.push(one)?;
        }
    }
    Ok(())
}

/// The context keys that the focus sees, those of the innermost scope first, and of one scope by name. Error:
/// `NoMemory`.
pub fn keys_seen<'s>(alloc: Global, scopes: &'s Scopes) -> Result<Vec<Seen<'s>>, NoMemory>
    // The focus sees each key with its value, which is that of the scope.
    ensures { IfOk result (λ made. All (IsSeen scopes.entry.now.seen) made.items) }
{
    let mut made = Vec::new(alloc);
    let mut at = Some(scopes.focused());
    for _ in 0..scopes.scopes().len() {
        let Some(place) = at else {
            return Ok(made);
        };
        add_keys(alloc, scopes, place, &mut made)?;
        at = parent_of(scopes.scopes(), place);
    }
    Ok(made)
}

/// The index of the scope around the one at an index.
fn parent_of(all: &[Scope], place: usize) -> Option<usize> {
    match all.get(place) {
        Some(scope) => scope.parent,
        None => None,
    }
}
