//! Code in a registry: added, exchanged and removed.
use crate::registries::Command;
use crate::verifier::handlers_in;
use kb_base::{ExtensionId, Failure, NoMemory, Seq, Text};
use kb_code::Handler;
use kb_core::NATIVES;
use kb_golden_text::fault_text;
use kb_handler_table::Codes;
use kb_registry::{Registry, RegistryFault};
use kb_verify::{Callable, Provider, VerifiedList, VerifyFault, callable_of, verify};
use std::alloc::{AllocError, Global};

// Code of these extensions may call each other's handlers.
const EXTENSIONS: u32 = 4;

// One handler, written NAME, NAME>CALLEE, NAME@BUDGET^DEPTH or NAME@BUDGET^DEPTH>CALLEE. The budget is 100
// and the depth 1 where they are absent. It calls its callee, if it has one, and returns.
fn add_handler(output: &mut String, text: &str) -> Result<(), NoMemory> {
    let (head, callee) = text.split_once('>').unwrap_or((text, ""));
    let (name, limits) = head.split_once('@').unwrap_or((head, "100^1"));
    let (budget, depth) = limits.split_once('^').unwrap_or((limits, "1"));
    write!(
        output,
        "{{\"command\":\"{name}\",\"budget\":{budget},\"depth\":{depth},"
    )?;
    if callee.is_empty() {
        return output.push_str("\"code\":\"000000\"}");
    }
    write!(
        output,
        "\"calls\":[\"{callee}\"],\"code\":\"300000000000\"}}"
    )
}

fn add_handlers(output: &mut String, text: &str) -> Result<(), NoMemory> {
    for (place, handler) in text.split(' ').enumerate() {
        if place > 0 {
            output.push_str(",")?;
        }
        add_handler(output, handler)?;
    }
    Ok(())
}

// The handlers of these texts, separated by spaces.
fn handlers_of(alloc: Global, text: &str) -> Result<Seq<Handler>, NoMemory> {
    let mut file = String::from_str(alloc, "{\"version\":1,\"handlers\":[")?;
    if !text.is_empty() {
        add_handlers(&mut file, text)?;
    }
    file.push_str("]}")?;
    Ok(handlers_in(alloc, file.as_bytes()))
}

fn ids(alloc: Global) -> Result<Vec<ExtensionId>, NoMemory> {
    let mut ids = Vec::new(alloc);
    for number in 0..EXTENSIONS {
        let id = Text::from_string(format!(in alloc; "{number}")?);
        ids.push(ExtensionId::new(id)).map_err(NoMemory::from)?;
    }
    Ok(ids)
}

fn providers<'a>(
    alloc: Global,
    registry: &'a Registry<Command>,
    ids: &'a [ExtensionId],
) -> Result<Vec<Provider<'a>>, NoMemory> {
    let mut providers = Vec::new(alloc);
    for number in 0..EXTENSIONS {
        if let Some(id) = ids.get(number as usize) {
            providers.push(Provider {
                id: id.as_str(),
                handlers: registry.handlers(number),
            })?;
        }
    }
    Ok(providers)
}

// All natives, live or not, the handlers that are live, and these.
fn callable(
    alloc: Global,
    registry: &Registry<Command>,
    own: &[Handler],
) -> Result<Callable, NoMemory> {
    let ids = ids(alloc)?;
    let providers = providers(alloc, registry, ids.as_slice())?;
    callable_of(
        alloc,
        NATIVES.as_slice(),
        ids.as_slice(),
        providers.as_slice(),
        own,
    )
}

fn fault_in(alloc: Global, failure: Failure<VerifyFault>) -> Failure<String> {
    failure.try_map_fault(|fault| fault_text(alloc, fault.kind()))
}

// The verified handlers, or the text of the first fault.
fn verify_all(
    alloc: Global,
    handlers: Seq<Handler>,
    callable: &Callable,
) -> Result<Codes, Failure<String>> {
    let mut verified = VerifiedList::new(alloc);
    for handler in handlers.into_vec() {
        match verify(alloc, handler, callable) {
            Ok(one) => verified = verified.with(one)?,
            Err((_, failure)) => return Err(fault_in(alloc, failure)),
        }
    }
    Ok(Codes::checked(verified))
}

fn checked(
    alloc: Global,
    registry: &Registry<Command>,
    text: &str,
) -> Result<Codes, Failure<String>> {
    let handlers = handlers_of(alloc, text)?;
    let callable = callable(alloc, registry, handlers.as_slice())?;
    verify_all(alloc, handlers, &callable)
}

// The names of the handlers, behind a word.
fn named(alloc: Global, word: &str, codes: &Codes) -> Result<String, NoMemory> {
    let mut output = String::from_str(alloc, word)?;
    for handler in codes.handlers() {
        let name = handler.command().as_str();
        write!(output, " {name}")?;
    }
    Ok(output)
}

// The fault, and the missing callee of 74.
fn refused(
    alloc: Global,
    registry: &Registry<Command>,
    codes: &Codes,
    failure: Failure<RegistryFault>,
) -> Result<String, NoMemory> {
    let fault = match failure {
        Failure::NoMemory => return Err(AllocError),
        Failure::Fault(fault) => fault,
    };
    let mut output = fault_text(alloc, fault.kind())?;
    if fault == RegistryFault::CalleeNotLive {
        if let Some(name) = registry.missing_callee(codes) {
            let name = name.as_str();
            write!(output, " {name}")?;
        }
    }
    Ok(output)
}

fn add(
    alloc: Global,
    registry: &mut Registry<Command>,
    extension: u32,
    codes: Codes,
) -> Result<String, NoMemory> {
    if registry.codes(extension).is_some() {
        return String::from_str(alloc, "has code");
    }
    match registry.register_code(extension, codes) {
        Ok(()) => String::from_str(alloc, "added"),
        Err((codes, failure)) => refused(alloc, registry, &codes, failure),
    }
}

fn replace(
    alloc: Global,
    registry: &mut Registry<Command>,
    extension: u32,
    codes: Codes,
) -> Result<String, NoMemory> {
    if registry.codes(extension).is_none() {
        return String::from_str(alloc, "has no code");
    }
    match registry.replace_code(extension, codes) {
        Ok(before) => named(alloc, "before", &before),
        Err((codes, failure)) => refused(alloc, registry, &codes, failure),
    }
}

// The fault, and the user of 73.
fn in_use(
    alloc: Global,
    registry: &Registry<Command>,
    extension: u32,
    fault: RegistryFault,
) -> Result<String, NoMemory> {
    let mut output = fault_text(alloc, fault.kind())?;
    if let Some(user) = registry.user_of_code(extension) {
        let name = user.command().as_str();
        write!(output, " {name}")?;
    }
    Ok(output)
}

fn remove(
    alloc: Global,
    registry: &mut Registry<Command>,
    extension: u32,
) -> Result<String, NoMemory> {
    if registry.codes(extension).is_none() {
        return String::from_str(alloc, "has no code");
    }
    match registry.dispose_code(extension) {
        Ok(codes) => named(alloc, "gave", &codes),
        Err(fault) => in_use(alloc, registry, extension, fault),
    }
}

fn with_codes(
    alloc: Global,
    registry: &mut Registry<Command>,
    word: &str,
    extension: u32,
    codes: Codes,
) -> Result<String, NoMemory> {
    if word.starts_with("replace") {
        return replace(alloc, registry, extension, codes);
    }
    add(alloc, registry, extension, codes)
}

/// `code E HANDLERS` and `replace E HANDLERS` verify handlers, and add them as the code of extension E or
/// exchange its code; `raw` and `replace-raw` do so without verification; `remove E` removes it.
pub(crate) fn call(
    alloc: Global,
    registry: &mut Registry<Command>,
    word: &str,
    rest: &str,
) -> Result<String, NoMemory> {
    let (number, handlers) = rest.split_once(' ').unwrap_or((rest, ""));
    let extension = number.parse::<u32>().unwrap_or(0);
    if word == "remove" {
        return remove(alloc, registry, extension);
    }
    if word.ends_with("raw") {
        let codes = Codes::raw(handlers_of(alloc, handlers)?);
        return with_codes(alloc, registry, word, extension, codes);
    }
    match checked(alloc, registry, handlers) {
        Ok(codes) => with_codes(alloc, registry, word, extension, codes),
        Err(Failure::NoMemory) => Err(AllocError),
        Err(Failure::Fault(fault)) => Ok(fault),
    }
}
