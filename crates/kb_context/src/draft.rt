//! The scopes of a layout while they are being built.
ghost use Rattle.std.specs.Prelude.{◌≡◌, IfOk, IfErr, OnOk, OnErr, [], ◌∷◌, ◌++◌, length, Some};
ghost use Rattle.std.specs.FinMap as map;
ghost use Rattle.kb_context.specs.Draft.{under, parent_behind, after_scope, built, IsBadScope, IsBadList};

use crate::fault::ScopeFault;
use crate::layout::LayoutScope;
use crate::scope_tree::Scope;
use kb_base::{Failure, NoMemory, TextMap};
use std::alloc::Global;
use std::marker::Model;

/// The scopes built so far, and the index of each by name.
#[derive(Drop)]
pub(crate) struct Draft {
    pub(crate) scopes: Vec<Scope>,
    pub(crate) places: TextMap<usize>,
}

impl Model for Draft {
    ghost use Rattle.std.specs.Prelude.{List};
    ghost use Rattle.std.specs.Coded.{coded_list};
    ghost use Rattle.kb_context.specs.declared.scope_tree.Scope.{Scope};
    ghost use Rattle.kb_context.specs.Scopes.{IsPlaced};
    ghost use Rattle.kb_context.specs.contracts.scope_tree.Scope as scope;

    ghost Value = { List Scope };

    ghost coded = { coded_list scope.the_row.coded };

    ghost view = { λ draft. draft.scopes.items };

    ghost invariant = { λ draft. IsPlaced draft.scopes.items draft.places };
}

impl Draft {
    /// The parent index that `scope` would get if it were added now: `Some(None)` for the root. `None` if
    /// its name is taken or its parent is not valid here.
    fn parent_of(&self, scope: &LayoutScope) -> Option<Option<usize>>
        ensures { result ≡ parent_behind self.now scope.now }
    {
        if self.places.contains_key(scope.name.as_str()) {
            return None;
        }
        match &scope.parent {
            Some(parent) => match self.places.get(parent.as_str()) {
                Some(&at) => Some(Some(at)),
                None => None,
            },
            None if self.scopes.is_empty() => Some(None),
            None => None,
        }
    }

    /// Adds a scope that fits. Error: `NoMemory`; the draft is then unchanged.
    fn push_fitting(&mut self, scope: LayoutScope, parent: Option<usize>) -> Result<(), NoMemory>
        requires { parent_behind self.old scope ≡ Some parent }
        ensures { OnOk result (self.new ≡ self.old ++ under scope parent ∷ []) }
    {
        push_scope(&mut self.scopes, &mut self.places, placed(scope, parent))?;
        Ok(())
    }

    /// Adds a scope. Errors: `BadLayout` if its name is taken or its parent is not valid here, and
    /// `NoMemory`.
    fn push(&mut self, scope: LayoutScope) -> Result<(), Failure<ScopeFault>>
        ensures ok { OnOk result (after_scope self.old scope ≡ Some self.new) }
        ensures err { IfErr result (IsBadScope self.old scope) }
    {
        let Some(parent) = self.parent_of(&scope) else {
            return Err(Failure::Fault(ScopeFault::BadLayout));
        };
        self.push_fitting(scope, parent)?;
        Ok(())
    }

    /// Builds the scopes of a layout, in order. Errors: `BadLayout` if one of them does not fit, and
    /// `NoMemory`.
    pub(crate) fn of(alloc: Global, scopes: Vec<LayoutScope>) -> Result<Draft, Failure<ScopeFault>>
        ensures ok { IfOk result (λ draft. built [] scopes.items ≡ Some draft) }
        ensures err { IfErr result (IsBadList scopes.items) }
    {
        let mut draft = Draft {
            scopes: Vec::new(alloc),
            places: TextMap::new(alloc),
        };
        for scope in scopes {
            draft.push(scope)?;
        }
        Ok(draft)
    }
}

/// The scope of a layout, with the index of its parent in place of its name.
fn placed(scope: LayoutScope, parent: Option<usize>) -> Scope
    ensures { result ≡ under scope parent }
{
    let LayoutScope { name, keys, .. } = scope;
    Scope { name, parent, keys }
}

/// Adds a scope, and its index under its name. Error: `NoMemory`; both are then unchanged.
fn push_scope(
    scopes: &mut Vec<Scope>,
    places: &mut TextMap<usize>,
    scope: Scope,
) -> Result<(), NoMemory>
    ensures scopes { OnOk result (scopes.new.items ≡ scopes.old.items ++ scope ∷ []) }
    ensures places { OnOk result (places.new ≡ map.insert places.old scope.name (length scopes.old.items)) }
    ensures same_scopes { OnErr result (scopes.new.items ≡ scopes.old.items) }
    ensures same_places { OnErr result (places.new ≡ places.old) }
{
    scopes.reserve(1)?;
    places.insert(scope.name.copied()?, scopes.len())?;
    scopes.push(scope).unwrap();
    Ok(())
}
