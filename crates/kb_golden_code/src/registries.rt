//! Calls of a registry in order, and what each returns.
use crate::codes;
use crate::signatures::signature_text;
use kb_base::{Failure, NoMemory};
use kb_core::{Args, Core, Native, Ran, plain};
use kb_golden_text::fault_text;
use kb_registry::{HostCommand, Permit, Registry, RegistryFault, Ticket};
use std::alloc::{AllocError, Global};

/// Runs its native as the plain implementation does.
#[derive(Drop)]
pub struct Command {
    pub native: Native,
}

impl HostCommand for Command {
    ghost stands_for = { λ c. c.native };

    fn native(&self) -> Native {
        self.native
    }

    fn call(&self, core: Core, args: Args, _permit: Permit) -> Ran {
        plain(self.native, core, args)
    }
}

fn fault_of(alloc: Global, fault: RegistryFault) -> Result<String, NoMemory> {
    fault_text(alloc, fault.kind())
}

// The fault, and the native of the closure that is returned with it.
fn refused(
    alloc: Global,
    command: &Command,
    failure: Failure<RegistryFault>,
) -> Result<String, NoMemory> {
    match failure {
        Failure::Fault(wrong) => {
            let wrong = fault_of(alloc, wrong)?;
            let name = command.native.name();
            format!(in alloc; "{wrong} {name}")
        }
        Failure::NoMemory => Err(AllocError),
    }
}

fn register(
    alloc: Global,
    registry: &mut Registry<Command>,
    native: Native,
) -> Result<String, NoMemory> {
    match registry.register(Command { native }) {
        Ok(ticket) => {
            let number = ticket.0;
            format!(in alloc; "ticket {number}")
        }
        Err((command, failure)) => refused(alloc, &command, failure),
    }
}

fn dispose(
    alloc: Global,
    registry: &mut Registry<Command>,
    ticket: Ticket,
) -> Result<String, NoMemory> {
    match registry.dispose(ticket) {
        Ok(command) => String::from_str(alloc, command.native.name()),
        Err(wrong) => fault_of(alloc, wrong),
    }
}

fn holder(alloc: Global, registry: &Registry<Command>, ticket: Ticket) -> Result<String, NoMemory> {
    match registry.holder(ticket) {
        Some(native) => String::from_str(alloc, native.name()),
        None => String::from_str(alloc, "none"),
    }
}

// The fault of a registration for a native, or the ticket that it would get.
fn would_be(
    alloc: Global,
    registry: &Registry<Command>,
    native: Native,
) -> Result<String, NoMemory> {
    match registry.registration_fault(native) {
        Some(wrong) => fault_of(alloc, wrong),
        None => {
            let number = registry.next_ticket().0;
            format!(in alloc; "ticket {number}")
        }
    }
}

fn signature(alloc: Global, registry: &Registry<Command>, name: &str) -> Result<String, NoMemory> {
    match registry.signature(name) {
        Some(signature) => signature_text(alloc, signature),
        None => String::from_str(alloc, "none"),
    }
}

fn call_for(
    alloc: Global,
    registry: &mut Registry<Command>,
    word: &str,
    native: Native,
) -> Result<String, NoMemory> {
    match word {
        "register" => register(alloc, registry, native),
        _ => would_be(alloc, registry, native),
    }
}

fn ticket_of(number: &str) -> Ticket {
    Ticket(number.parse::<u64>().unwrap_or(0))
}

fn call(alloc: Global, registry: &mut Registry<Command>, text: &str) -> Result<String, NoMemory> {
    let (word, rest) = text.split_once(' ').unwrap_or((text, ""));
    match word {
        "dispose" => dispose(alloc, registry, ticket_of(rest)),
        "holder" => holder(alloc, registry, ticket_of(rest)),
        "live" => {
            let is_live = registry.is_live(rest);
            format!(in alloc; "{is_live}")
        }
        "signature" => signature(alloc, registry, rest),
        "code" | "raw" | "replace" | "replace-raw" | "remove" => {
            codes::call(alloc, registry, word, rest)
        }
        _ => match Native::named(rest) {
            Some(native) => call_for(alloc, registry, word, native),
            None => String::from_str(alloc, "no native"),
        },
    }
}

fn add_call(
    alloc: Global,
    registry: &mut Registry<Command>,
    text: &str,
    output: &mut String,
) -> Result<(), NoMemory> {
    let answer = call(alloc, registry, text)?;
    output.push_str(answer.as_str())
}

fn add_calls(
    alloc: Global,
    registry: &mut Registry<Command>,
    text: &str,
    output: &mut String,
) -> Result<(), NoMemory> {
    for one in text.split(", ") {
        if !output.is_empty() {
            output.push_str(", ")?;
        }
        add_call(alloc, registry, one, output)?;
    }
    Ok(())
}

/// What each call of a new registry returns, in order, separated by `, `; `limit` registrations may be made.
pub(crate) fn calls(alloc: Global, limit: &str, text: &str) -> Result<String, NoMemory> {
    let mut registry = Registry::new(alloc, limit.parse::<u64>().unwrap_or(0))?;
    let mut output = String::new(alloc);
    add_calls(alloc, &mut registry, text, &mut output)?;
    Ok(output)
}
