//! What commands change: the text buffer, and the scopes of context keys.
ghost use Rattle.std.specs.Prelude.{◌≡◌, None, Some, OnOk, OnErr, IfErr, IsSome};
ghost use Rattle.kb_base.specs.Failure.{IsRefusalOrMemory};
ghost use Rattle.kb_context.specs.Scopes.{place_of, set_fault, value_in};
ghost use Rattle.kb_context.specs.Scopes.{with_focus, with_value, without_value};
ghost use Rattle.kb_core.specs.Core.{new_core, with_scopes};

use crate::buffer::Buffer;
use kb_base::{Failure, NoMemory};
use kb_context::{ContextValue, ScopeFault, Scopes, UnknownScope};
use std::alloc::Global;
use std::marker::Model;

/// What commands change: the text buffer, and the scopes of context keys. The revision of the scopes and
/// their flat map are no part of what contracts see.
#[derive(Debug, Drop)]
pub struct Core {
    pub(crate) buffer: Buffer,
    pub(crate) scopes: Scopes,
}

impl Model for Core {
    ghost use Rattle.kb_core.specs.Core.{Core, core_code};
    ghost use Rattle.kb_core.specs.contracts.buffer.Buffer as text;
    ghost use Rattle.kb_context.specs.contracts.scopes.Scopes as keys;

    ghost Value = { Core };

    ghost coded = { core_code text.the_row.coded keys.the_row.coded };

    ghost view = { λ c. record { buffer = c.buffer; scopes = c.scopes.seen } };
}

impl Core {
    /// The initial core: an empty buffer, and these scopes.
    pub fn new(alloc: Global, scopes: Scopes) -> Core
        ensures { result ≡ new_core scopes.seen }
    {
        Core {
            buffer: Buffer::new(alloc),
            scopes,
        }
    }

    /// The core of these parts.
    pub fn of(buffer: Buffer, scopes: Scopes) -> Core
        ensures { result ≡ record { buffer = buffer; scopes = scopes.seen } }
    {
        Core { buffer, scopes }
    }

    /// The parts of the core.
    pub fn into_parts(self) -> (Buffer, Scopes)
        ensures buffer { result.0 ≡ self.buffer }
        ensures scopes { result.1.seen ≡ self.scopes }
    {
        (self.buffer, self.scopes)
    }

    /// The text buffer.
    pub fn buffer(&self) -> &Buffer
        ensures { result.now ≡ self.now.buffer }
    {
        &self.buffer
    }

    /// The scopes of context keys.
    pub fn scopes(&self) -> &Scopes
        ensures { result.now.seen ≡ self.now.scopes }
    {
        &self.scopes
    }

    /// Makes the flat map of the scopes, as `Scopes::refresh` does. It changes nothing else. Error:
    /// `NoMemory`.
    pub fn refresh(&mut self) -> Result<(), NoMemory>
        ensures { self.new ≡ self.old }
    {
        self.scopes.refresh()
    }

    /// Gives the focus to a scope, as `Scopes::focus` does. Error: `UnknownScope` (20) if no scope has the
    /// name; the core is then unchanged.
    pub fn focus(&mut self, scope: &str) -> Result<(), UnknownScope>
        ensures known { OnOk result (IsSome (place_of scope.now self.old.scopes.scopes)) }
        ensures ok { OnOk result (self.new ≡ with_scopes self.old (with_focus self.old.scopes scope.now)) }
        ensures unknown { OnErr result (place_of scope.now self.old.scopes.scopes ≡ None) }
        ensures unchanged { OnErr result (self.new ≡ self.old) }
    {
        self.scopes.focus(scope)
    }

    /// Sets a key in the scope that is named `scope`, as `Scopes::set` does. Errors: `UnknownScope` (20),
    /// `TooManyKeys` (22), and `NoMemory` only if the scope lacks the key and neither of the others applies;
    /// the core is then unchanged.
    pub fn set_key(
        &mut self,
        scope: &str,
        key: &str,
        value: ContextValue,
    ) -> Result<(), Failure<ScopeFault>>
        ensures allowed { OnOk result (set_fault self.old.scopes scope.now key.now ≡ None) }
        ensures ok { OnOk result
            (self.new ≡ with_scopes self.old (with_value self.old.scopes scope.now key.now value)) }
        ensures err { IfErr result (IsRefusalOrMemory (set_fault self.old.scopes scope.now key.now)) }
        ensures unchanged { OnErr result (self.new ≡ self.old) }
        ensures absent { OnErr result (value_in self.old.scopes scope.now key.now ≡ None) }
    {
        self.scopes.set(scope, key, value)
    }

    /// Removes a key from the scope that is named `scope`, as `Scopes::unset` does. Error: `UnknownScope`
    /// (20) if no scope has the name; the core is then unchanged.
    pub fn unset_key(&mut self, scope: &str, key: &str) -> Result<(), UnknownScope>
        ensures known { OnOk result (IsSome (place_of scope.now self.old.scopes.scopes)) }
        ensures ok { OnOk result
            (self.new ≡ with_scopes self.old (without_value self.old.scopes scope.now key.now)) }
        ensures unknown { OnErr result (place_of scope.now self.old.scopes.scopes ≡ None) }
        ensures unchanged { OnErr result (self.new ≡ self.old) }
    {
        self.scopes.unset(scope, key)
    }
}
