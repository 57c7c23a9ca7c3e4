//! Whether what is read of a manifest with its messages differs from what is read of the manifest in those
//! texts alone: then the text of the first value is that of the second with the messages in it.
use kb_base::{Failure, NoMemory};
use kb_jsonc::{JsoncFault, read};
use kb_localized::{Bundle, localize};
use serde_json::Value;
use std::alloc::{AllocError, Global};

fn text_of(alloc: Global, value: &Value) -> Result<String, NoMemory> {
    match value.to_string(alloc) {
        Ok(text) => Ok(text),
        Err(_) => Err(AllocError),
    }
}

/// The text of the value that a file holds, or the name of its fault.
fn read_text(alloc: Global, file: &[u8]) -> Result<Result<String, JsoncFault>, NoMemory> {
    match read(alloc, file) {
        Ok(value) => Ok(Ok(text_of(alloc, &value)?)),
        Err(Failure::Fault(fault)) => Ok(Err(fault)),
        Err(Failure::NoMemory) => Err(AllocError),
    }
}

fn with_messages(
    alloc: Global,
    text: &str,
    bundles: &[Bundle],
    wanted: &str,
) -> Result<bool, NoMemory> {
    let made = localize(alloc, text.as_bytes(), bundles)?;
    Ok(made.bytes.as_slice() == wanted.as_bytes())
}

/// Whether a manifest and the one with its messages are read alike.
pub(crate) fn reads_alike(
    alloc: Global,
    old: &[u8],
    new: &[u8],
    bundles: &[Bundle],
) -> Result<bool, NoMemory> {
    let new = read_text(alloc, new)?;
    match read_text(alloc, old)? {
        Ok(old) => match new {
            Ok(new) => with_messages(alloc, old.as_str(), bundles, new.as_str()),
            Err(_) => Ok(false),
        },
        Err(old) => match new {
            Ok(_) => Ok(false),
            Err(new) => Ok(old == new),
        },
    }
}
