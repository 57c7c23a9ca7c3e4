//! Layouts: the initial scopes of an editor.
ghost use Rattle.std.specs.Prelude.{◌≡◌, Some, None, if◌then◌else◌, nat_lt};
ghost use Rattle.kb_context.specs.Layout.{layout_key_count};
ghost use Rattle.kb_context.specs.Scopes.{key_limit};

use crate::scope_tree::KEY_LIMIT;
use crate::value::ContextValue;
use kb_base::{Seq, Text, TextMap};

/// The maximum number of scopes in a layout (our decision).
pub const SCOPE_LIMIT: usize = 1_000;

/// A scope of a layout: its name, the name of the scope around it, and the initial values of its keys.
/// Each key occurs once. If a file names a key twice, the last value counts.
#[derive(Debug, Drop)]
pub struct LayoutScope {
    /// The scope's name, unique in the layout.
    pub name: Text,
    /// The name of the scope around it. Only the first scope (the outermost) has `None`.
    pub parent: Option<Text>,
    /// The initial values of its keys.
    pub keys: TextMap<ContextValue>,
}

/// The scopes of an editor, the outermost first, and the name of the scope that has the focus at the
/// start.
#[derive(Debug, Drop)]
pub struct Layout {
    /// The scopes. Each comes after the scope around it.
    pub scopes: Seq<LayoutScope>,
    /// The name of the scope that has the focus at the start.
    pub focus: Text,
}

/// The number of keys in all scopes together, or `None` if it exceeds `KEY_LIMIT`.
pub(crate) fn count_keys(scopes: &[LayoutScope]) -> Option<usize>
    ensures { let count = layout_key_count scopes.now in
        result ≡ (if nat_lt key_limit count then None else Some count) }
{
    let mut count = 0;
    for scope in scopes {
        let more = scope.keys.len();
        if more > KEY_LIMIT - count {
            return None;
        }
        count += more;
    }
    Some(count)
}
