//! Members of an entry that are texts.
ghost use Rattle.std.specs.Prelude.{◌≡◌, option_map};
ghost use Rattle.serde_json.specs.View.{view};
ghost use Rattle.kb_jsonc.specs.Member.{text_of, required_text, optional_text};

use crate::file_fault::FileFault;
use crate::parts::text_in;
use kb_base::Text;
use serde_json::Value;

/// The text that a value is, moved out of it.
///
/// Errors: `WrongShape` where the value is no text.
pub fn text_of(value: Value) -> Result<Text, FileFault>
    ensures { result ≡ text_of (view value) }
{
    text_in(value).ok_or(FileFault::WrongShape)
}

/// The text of a member that must be there, moved out of it.
///
/// Errors: `MissingMember` where the member is absent, `WrongShape` where it is no text.
pub fn required_text(member: Option<Value>) -> Result<Text, FileFault>
    ensures { result ≡ required_text (option_map view member) }
{
    match member {
        Some(value) => text_of(value),
        None => Err(FileFault::MissingMember),
    }
}

/// The text of a member that may be absent, moved out of it.
///
/// Errors: `WrongShape` where the member is no text.
pub fn optional_text(member: Option<Value>) -> Result<Option<Text>, FileFault>
    ensures { result ≡ optional_text (option_map view member) }
{
    match member {
        Some(value) => Ok(Some(text_of(value)?)),
        None => Ok(None),
    }
}
