//! Identifiers of extensions.
ghost use Rattle.std.specs.Prelude.{◌≡◌};
ghost use Rattle.kb_base.specs.ExtensionId.{same_id};

use crate::text::Text;
use std::marker::Model;

/// The identifier of an extension, `publisher.name` (VS Code's documentation), as its manifest or whoever
/// names it spells it. Contracts see its bytes.
#[derive(Debug, Drop)]
pub struct ExtensionId {
    text: Text,
}

impl Model for ExtensionId {
    ghost use Rattle.std.specs.Prelude.{ℕ, List};

    ghost Value = { List ℕ };

    ghost view = { λ id. id.text };
}

impl ExtensionId {
    /// The identifier of this text.
    pub fn new(text: Text) -> ExtensionId
        ensures { result ≡ text }
    {
        ExtensionId { text }
    }

    /// The identifier as a text.
    pub fn text(&self) -> &Text
        ensures { result.now ≡ self.now }
    {
        &self.text
    }

    /// The identifier as a borrowed text.
    pub fn as_str(&self) -> &str
        ensures { result.now ≡ self.now }
    {
        self.text.as_str()
    }
}

/// Whether two texts identify the same extension. The case of ASCII letters is ignored (our decision).
pub fn same_id(id: &str, other: &str) -> bool
    ensures { result ≡ same_id id.now other.now }
{
    id.eq_ignore_ascii_case(other)
}
