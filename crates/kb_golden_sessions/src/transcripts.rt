//! Transcripts of scripts.
use crate::host::{Cost, all_commands};
use kb_base::{Failure, NoMemory};
use kb_end_to_end::{TranscriptFault, transcript};
use kb_files::{Inputs, LoadFault};
use kb_keys::Platform;
use kb_script::ScriptFault;
use std::alloc::{AllocError, Global};
use std::str;

fn load_fault(alloc: Global, fault: &LoadFault) -> Result<String, NoMemory> {
    let file = fault.file;
    let name = fault.refusal.kind.name();
    format!(in alloc; "Load(Refused({file:?}, {name}))")
}

fn script_fault(alloc: Global, fault: ScriptFault) -> Result<String, NoMemory> {
    format!(in alloc; "Script({fault:?})")
}

fn fault_text(alloc: Global, fault: &TranscriptFault) -> Result<String, NoMemory> {
    match fault {
        TranscriptFault::Load(fault) => load_fault(alloc, fault),
        TranscriptFault::Script(fault) => script_fault(alloc, *fault),
    }
}

// The user's rules, without other files but perhaps a layout.
fn rules_alone<'a>(layout: Option<&'a [u8]>, user: &'a [u8]) -> Inputs<'a> {
    Inputs {
        layout,
        defaults: &[],
        user,
        platform: Platform::Linux,
        extensions: &[],
    }
}

/// The transcript of a script over the user's rules, `RULES ;; SCRIPT`, or the fault. The load has a closure
/// for each native, and the shelf one more.
pub(crate) fn text(alloc: Global, input: &str) -> Result<String, NoMemory> {
    let (user, script) = input.split_once(" ;; ").unwrap_or((input, ""));
    let inputs = rules_alone(None, user.as_bytes());
    let natives = all_commands(alloc, Cost::One)?;
    let shelf = all_commands(alloc, Cost::One)?;
    match transcript(alloc, inputs, natives, shelf, script.as_bytes()) {
        Ok(out) => String::from_str(alloc, str::from_utf8(out.as_slice()).unwrap_or("no text")),
        Err(Failure::Fault(fault)) => fault_text(alloc, &fault),
        Err(Failure::NoMemory) => Err(AllocError),
    }
}
