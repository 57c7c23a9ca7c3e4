//! The signatures of natives, and the arguments that they read.
use kb_base::NoMemory;
use kb_core::{Arg, Args, Native, Signature};
use serde_json::Value;
use std::alloc::Global;

/// The parameters of a signature with their kinds, its budget and its depth.
pub fn signature_text(alloc: Global, signature: &Signature) -> Result<String, NoMemory> {
    let mut output = String::new(alloc);
    for param in signature.params() {
        let name = param.name.as_str();
        let kind = param.kind;
        write!(output, "{name} {kind:?}, ")?;
    }
    let budget = signature.budget();
    let depth = signature.depth();
    write!(output, "budget {budget}, depth {depth}")?;
    Ok(output)
}

/// The signature of a native.
pub(crate) fn declared(alloc: Global, name: &str) -> Result<String, NoMemory> {
    match Native::named(name) {
        Some(native) => signature_text(alloc, &native.signature(alloc)?),
        None => String::from_str(alloc, "no native"),
    }
}

fn arg_text(alloc: Global, arg: &Arg) -> Result<String, NoMemory> {
    match arg {
        Arg::Truth(truth) => format!(in alloc; " truth {truth}"),
        Arg::Number(number) => format!(in alloc; " number {number}"),
        Arg::Text(text) => {
            let text = text.as_str();
            format!(in alloc; " text \"{text}\"")
        }
    }
}

fn args_text(alloc: Global, args: &Args) -> Result<String, NoMemory> {
    let mut output = String::from_str(alloc, "read")?;
    for arg in args.as_slice() {
        let arg = arg_text(alloc, arg)?;
        output.push_str(arg.as_str())?;
    }
    Ok(output)
}

fn read_by(
    alloc: Global,
    signature: &Signature,
    value: Option<&Value>,
) -> Result<String, NoMemory> {
    match signature.read_args(alloc, value)? {
        Some(args) if signature.fits(&args) => args_text(alloc, &args),
        Some(_) => String::from_str(alloc, "not fitting"),
        None => String::from_str(alloc, "bad"),
    }
}

fn read_of(alloc: Global, signature: &Signature, json: &str) -> Result<String, NoMemory> {
    match Value::from_str(alloc, json) {
        Ok(value) => read_by(alloc, signature, Some(&value)),
        Err(_) => String::from_str(alloc, "no JSON"),
    }
}

/// The arguments that a native reads from the JSON text behind its name, or from no JSON.
pub(crate) fn arguments(alloc: Global, text: &str) -> Result<String, NoMemory> {
    let (name, json) = text.split_once(' ').unwrap_or((text, ""));
    let Some(native) = Native::named(name) else {
        return String::from_str(alloc, "no native");
    };
    let signature = native.signature(alloc)?;
    if json.is_empty() {
        read_by(alloc, &signature, None)
    } else {
        read_of(alloc, &signature, json)
    }
}
