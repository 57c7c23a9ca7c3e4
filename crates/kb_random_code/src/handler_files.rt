//! Random handlers as a file, so that a failing one can be copied into a golden file.
use crate::names::{CALLS, TEXTS};
use crate::random::Draft;
use kb_base::NoMemory;
use kb_code::{Instr, encode};
use kb_core::Kind;
use std::alloc::Global;

fn kind_name(kind: Kind) -> &'static str {
    match kind {
        Kind::Text => "text",
        Kind::Number => "number",
        Kind::Truth => "truth",
        Kind::Any => "any",
    }
}

fn add_params(text: &mut String, params: &[Kind]) -> Result<(), NoMemory> {
    for nth in 0..params.len() {
        let comma = if nth == 0 { "" } else { "," };
        let kind = kind_name(params[nth]);
        write!(text, "{comma}{{\"name\":\"p{nth}\",\"kind\":\"{kind}\"}}")?;
    }
    Ok(())
}

fn add_names(text: &mut String, names: &[&str]) -> Result<(), NoMemory> {
    for nth in 0..names.len() {
        let comma = if nth == 0 { "" } else { "," };
        let name = names[nth];
        write!(text, "{comma}\"{name}\"")?;
    }
    Ok(())
}

// The encoded bytes of code, in hexadecimal digits.
fn digits(alloc: Global, code: &[Instr]) -> Result<String, NoMemory> {
    let bytes = encode(alloc, code)?;
    hex::encode(alloc, bytes.as_slice())
}

fn add_code(alloc: Global, text: &mut String, code: &[Instr]) -> Result<(), NoMemory> {
    let digits = digits(alloc, code)?;
    let digits = digits.as_str();
    write!(text, "],\"code\":\"{digits}\"}}")
}

fn add_object(
    alloc: Global,
    text: &mut String,
    name: &str,
    draft: &Draft,
    budget: u64,
) -> Result<(), NoMemory> {
    let depth = draft.depth;
    write!(text, "{{\"command\":\"{name}\",\"params\":[")?;
    add_params(text, draft.params.as_slice())?;
    write!(text, "],\"budget\":{budget},\"depth\":{depth},\"texts\":[")?;
    add_names(text, TEXTS.as_slice())?;
    text.push_str("],\"calls\":[")?;
    add_names(text, CALLS.as_slice())?;
    add_code(alloc, text, draft.code.as_slice())
}

/// The object of a file for a handler with this name and budget.
pub(crate) fn object(
    alloc: Global,
    name: &str,
    draft: &Draft,
    budget: u64,
) -> Result<String, NoMemory> {
    let mut text = String::new(alloc);
    add_object(alloc, &mut text, name, draft, budget)?;
    Ok(text)
}

/// The file of a version that has these objects.
pub(crate) fn file(alloc: Global, version: u16, objects: &str) -> Result<String, NoMemory> {
    format!(in alloc; "{{\"version\":{version},\"handlers\":[{objects}]}}")
}
