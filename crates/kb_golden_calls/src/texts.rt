//! Keys, JSON texts and context values.
use kb_base::{Failure, NoMemory, Refusal, Text};
use kb_context::ContextValue;
use kb_files::read_context_text;
use kb_golden_text::fault_text;
use kb_jsonc::{JsoncFault, plain, read};
use kb_keys::{Chord, KeyFault, Keystroke};
use serde_json::Value;
use std::alloc::{AllocError, Global};

fn key_fault(alloc: Global, wrong: KeyFault) -> Result<String, NoMemory> {
    fault_text(alloc, wrong.kind())
}

/// The canonical spelling of a chord, or its fault.
pub(crate) fn chord(alloc: Global, text: &str) -> Result<String, NoMemory> {
    match Chord::parse(alloc, text) {
        Ok(chord) => chord.text(alloc),
        Err(wrong) => key_fault(alloc, wrong),
    }
}

/// The canonical spelling of a keystroke, or its fault.
pub(crate) fn keystroke(alloc: Global, text: &str) -> Result<String, NoMemory> {
    match Keystroke::parse(text) {
        Ok(stroke) => stroke.text(alloc),
        Err(wrong) => key_fault(alloc, wrong),
    }
}

fn json_fault(alloc: Global, wrong: Failure<JsoncFault>) -> Result<String, NoMemory> {
    match wrong {
        Failure::Fault(wrong) => fault_text(alloc, wrong.kind()),
        Failure::NoMemory => Err(AllocError),
    }
}

fn json_text(alloc: Global, value: &Value) -> Result<String, NoMemory> {
    match value.to_string(alloc) {
        Ok(text) => Ok(text),
        Err(_) => Err(AllocError),
    }
}

/// The value of a JSON file with comments, as JSON, or its fault.
pub(crate) fn json(alloc: Global, bytes: &[u8]) -> Result<String, NoMemory> {
    match read(alloc, bytes) {
        Ok(value) => json_text(alloc, &value),
        Err(wrong) => json_fault(alloc, wrong),
    }
}

/// A JSON text without comments and trailing commas, between bars, or its fault.
pub(crate) fn plain_json(alloc: Global, text: &str) -> Result<String, NoMemory> {
    match plain(alloc, text) {
        Ok(text) => format!(in alloc; "|{text}|"),
        Err(wrong) => json_fault(alloc, wrong),
    }
}

/// The fault of a file.
pub(crate) fn file_fault(alloc: Global, wrong: Failure<Refusal>) -> Result<String, NoMemory> {
    match wrong {
        Failure::Fault(wrong) => fault_text(alloc, wrong.kind),
        Failure::NoMemory => Err(AllocError),
    }
}

fn list(alloc: Global, kind: &str, texts: &[Text]) -> Result<String, NoMemory> {
    let mut output = String::from_str(alloc, kind)?;
    for text in texts {
        let text = text.as_str();
        write!(output, " \"{text}\"")?;
    }
    Ok(output)
}

/// A context value with its kind.
pub(crate) fn value_text(alloc: Global, value: &ContextValue) -> Result<String, NoMemory> {
    match value {
        ContextValue::Truth(truth) => format!(in alloc; "truth {truth}"),
        ContextValue::Number(number) => format!(in alloc; "number {number}"),
        ContextValue::Text(text) => {
            let text = text.as_str();
            format!(in alloc; "text \"{text}\"")
        }
        ContextValue::Texts(texts) => list(alloc, "texts", texts.as_slice()),
        ContextValue::Names(names) => list(alloc, "names", names.as_slice()),
    }
}

/// The context value that a JSON text with comments denotes, or its fault.
pub(crate) fn context(alloc: Global, text: &str) -> Result<String, NoMemory> {
    match read_context_text(alloc, text) {
        Ok(value) => value_text(alloc, &value),
        Err(wrong) => file_fault(alloc, wrong),
    }
}
