//! The native commands: their identifiers, parameters and budgets.
ghost use Rattle.std.specs.Prelude.{◌≡◌, ◌≤◌, IfOk, IfSome, IsTrue, length, map, option_map};
ghost use Rattle.serde_json.specs.View.{view};
ghost use Rattle.kb_core.specs.Declaration.{parameter_limit};
ghost use Rattle.kb_core.specs.Native.{name_of, named, declaration_of, parameters_of, budget_of};
ghost use Rattle.kb_core.specs.Parameter.{declared};
ghost use Rattle.kb_core.specs.Reading.{arguments_for};
ghost use Rattle.kb_core.specs.Signature.{fits};

use crate::arg::Kind;
use crate::args::Args;
use crate::parameter::{NamedKind, Param};
use crate::reading::arguments_for;
use crate::signature::Signature;
use kb_base::{NoMemory, Seq};
use serde_json::Value;
use std::alloc::Global;

/// The parameters of `type`.
static TEXT: [NamedKind; 1] = [NamedKind {
    name: "text",
    kind: Kind::Text,
}];

/// The parameters of `setContext`.
static KEY_AND_VALUE: [NamedKind; 2] = [
    NamedKind {
        name: "key",
        kind: Kind::Text,
    },
    NamedKind {
        name: "value",
        kind: Kind::Any,
    },
];

/// All native commands.
pub const NATIVES: [Native; 9] = [
    Native::TypeText,
    Native::DeleteLeft,
    Native::DeleteRight,
    Native::CursorLeft,
    Native::CursorRight,
    Native::BufferClear,
    Native::BufferTop,
    Native::BufferBottom,
    Native::SetContext,
];

/// A native command. The commands, their identifiers, parameters, budgets and effects are our decision. VS
/// Code documents a command `setContext` that sets a context key.
#[derive(Clone, Copy, Debug, PartialEq, Eq, Hash)]
pub enum Native {
    /// `type` inserts its text before the caret.
    TypeText,
    /// `deleteLeft` deletes the character before the caret.
    DeleteLeft,
    /// `deleteRight` deletes the character after the caret.
    DeleteRight,
    /// `cursorLeft` moves the caret one character to the left.
    CursorLeft,
    /// `cursorRight` moves the caret one character to the right.
    CursorRight,
    /// `buffer.clear` deletes all text.
    BufferClear,
    /// `buffer.top` moves the caret to the start of the text.
    BufferTop,
    /// `buffer.bottom` moves the caret to the end of the text.
    BufferBottom,
    /// `setContext` sets a context key in the outermost scope. It does nothing if that scope lacks the key
    /// and the scopes have `KEY_LIMIT` keys already. If no value is given, the value is `false`.
    SetContext,
}

impl Native {
    /// The identifier of the command.
    pub fn name(self) -> &'static str
        ensures { result.now ≡ name_of self }
    {
        match self {
            Native::TypeText => "type",
            Native::DeleteLeft => "deleteLeft",
            Native::DeleteRight => "deleteRight",
            Native::CursorLeft => "cursorLeft",
            Native::CursorRight => "cursorRight",
            Native::BufferClear => "buffer.clear",
            Native::BufferTop => "buffer.top",
            Native::BufferBottom => "buffer.bottom",
            Native::SetContext => "setContext",
        }
    }

    /// The native command with this identifier, or `None`.
    pub fn named(identifier: &str) -> Option<Native>
        ensures { result ≡ named identifier.now }
    {
        match identifier {
            "type" => Some(Native::TypeText),
            "deleteLeft" => Some(Native::DeleteLeft),
            "deleteRight" => Some(Native::DeleteRight),
            "cursorLeft" => Some(Native::CursorLeft),
            "cursorRight" => Some(Native::CursorRight),
            "buffer.clear" => Some(Native::BufferClear),
            "buffer.top" => Some(Native::BufferTop),
            "buffer.bottom" => Some(Native::BufferBottom),
            "setContext" => Some(Native::SetContext),
            _ => None,
        }
    }

    /// The parameters of the command, in order.
    pub fn params(self) -> &'static [NamedKind]
        ensures params { map declared result.now ≡ parameters_of self }
        ensures few { length result.now ≤ parameter_limit }
    {
        match self {
            Native::TypeText => TEXT.as_slice(),
            Native::SetContext => KEY_AND_VALUE.as_slice(),
            _ => &[],
        }
    }

    /// Reads the command's arguments from a JSON value, as `Signature::read_args` does. Error: `NoMemory`,
    /// only if one of them is a text.
    pub fn read_args(self, alloc: Global, value: Option<&Value>) -> Result<Option<Args>, NoMemory>
        ensures value { let given = option_map (λ v. view v.now) value.entry in
            IfOk result (λ args. args ≡ arguments_for (parameters_of self) given) }
        ensures fits { IfOk result (λ args. IfSome args (λ args. IsTrue (fits (parameters_of self) args))) }
    {
        arguments_for(alloc, self.params(), value)
    }

    /// The command's signature. A native command calls no others, so its depth is 0. Error: `NoMemory`.
    pub fn signature(self, alloc: Global) -> Result<Signature, NoMemory>
        ensures { IfOk result (λ signature. signature ≡ declaration_of self) }
    {
        let params = owned(alloc, self.params())?;
        Ok(Signature::new(params, self.budget(), 0))
    }

    /// The maximum cost of a run of the command, in instructions.
    pub fn budget(self) -> u32
        ensures { result ≡ budget_of self }
    {
        match self {
            Native::TypeText | Native::DeleteLeft | Native::DeleteRight => 1_001,
            Native::CursorLeft
            | Native::CursorRight
            | Native::BufferClear
            | Native::BufferTop
            | Native::BufferBottom => 11,
            Native::SetContext => 101,
        }
    }
}

/// The parameters, with names of their own. Error: `NoMemory`.
fn owned(alloc: Global, params: &[NamedKind]) -> Result<Seq<Param>, NoMemory>
    ensures { IfOk result (λ owned. owned ≡ map declared params.now) }
{
    let mut owned = Seq::new(alloc);
    for param in params {
        owned.push(param.owned(alloc)?)?;
    }
    Ok(owned)
}
