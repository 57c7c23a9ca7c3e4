//! Bundles of messages: `package.nls.json`, and the file of a language beside it.
ghost use Rattle.std.specs.Prelude.{◌≡◌};
ghost use Rattle.serde_json.specs.View.{view};
ghost use Rattle.kb_base.specs.Failure.{Gives};
ghost use Rattle.kb_base.specs.Reading.{seen};
ghost use Rattle.kb_localized.specs.Bundle as words;

use crate::bundle_fault::BundleFault;
use kb_base::Failure;
use serde_json::Value;
use std::alloc::Global;

/// The most bytes that a bundle may have, as any file: 16 MiB.
pub const LIMIT: usize = 16_777_216;

/// The messages of an extension in one language, by their keys.
#[derive(Drop)]
pub struct Bundle {
    pub(crate) value: Value,
}

/// The bundle that a value is, which has to be an object.
fn bundle_in(value: Value) -> Result<Bundle, BundleFault>
    ensures { seen (λ bundle. view bundle.value) result ≡ words.bundle_in (view value) }
{
    if !value.is_object() {
        return Err(BundleFault::WrongShape);
    }
    Ok(Bundle { value })
}

/// The value that the bytes of a bundle hold.
fn value_in(alloc: Global, bytes: &[u8]) -> Result<Value, Failure<BundleFault>>
    ensures { Gives view result (words.value_in bytes.now) }
{
    match kb_jsonc::read(alloc, bytes) {
        Ok(value) => Ok(value),
        Err(Failure::NoMemory) => Err(Failure::NoMemory),
        Err(Failure::Fault(fault)) => Err(Failure::Fault(BundleFault::Text(fault))),
    }
}

impl Bundle {
    /// The bundle that the bytes of a file hold: JSON with comments whose value is an object. A member is the
    /// message of a key if it is a text, or an object whose member `message` is one, and the text isn't empty
    /// (VS Code's documentation of extensions). Any other member is no message, and no fault.
    ///
    /// Errors, in this order: `TooLarge` (44) for more than 16,777,216 bytes; `Text`, with the fault of the
    /// text (1 to 4); `WrongShape` (41) if the value is no object. `NoMemory` (5) behind the first.
    #[tactic(auto, unfolding(crate::specs::Bundle::bundle_of))]
    pub fn read(alloc: Global, bytes: &[u8]) -> Result<Bundle, Failure<BundleFault>>
        ensures { Gives (λ bundle. view bundle.value) result (words.bundle_of bytes.now) }
    {
        if bytes.len() > LIMIT {
            return Err(Failure::Fault(BundleFault::TooLarge));
        }
        let value = value_in(alloc, bytes)?;
        bundle_in(value).map_err(Failure::Fault)
    }
}
