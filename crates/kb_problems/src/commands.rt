//! Which commands there are.
ghost use Rattle.std.specs.Prelude.{◌≡◌, [], IfOk, option_map};
ghost use Rattle.std.specs.Result.{result_unwrap_or};
ghost use Rattle.kb_files.specs.Extensions.{handlers_in_file};

use crate::near::is_near;
use kb_base::{Failure, NoMemory, Seq};
use kb_code::Handler;
use kb_core::{NATIVES, Native, Signature};
use kb_files::{Extension, read_handlers};
use kb_source_files::ExtensionSource;
use serde_json::Value;
use std::alloc::{AllocError, Global};
use std::collections::HashMap;

/// The command that runs a list of commands.
pub const LIST_COMMAND: &str = "runCommands";

/// The most names that are compared to find one next to an unknown command.
const GUESS_LIMIT: usize = 2_000_000;

/// What a name is that is taken.
#[derive(Clone, Copy, Debug, PartialEq, Eq)]
enum Known {
    /// A native command, one that an extension contributes, or one that is said to be known.
    Command,
    /// The handler at a place in the list of an extension.
    Handler(usize, usize),
}

/// The names that are taken.
type TakenNames = HashMap<String, Known>;

/// The native commands, the handlers, the commands that extensions contribute, and those that are said to be
/// known.
#[derive(Drop)]
pub struct KnownCommands {
    names: TakenNames,
    handlers: Vec<Seq<Handler>>,
    compared: usize,
}

/// The handlers of a file that a load accepts, or none where there is no file.
fn handlers_of(alloc: Global, bytes: Option<&[u8]>) -> Result<Seq<Handler>, NoMemory>
    ensures { IfOk result (λ handlers. handlers
        ≡ result_unwrap_or (handlers_in_file (option_map (λ bytes. bytes.now) bytes.entry)) []) }
{
    let Some(bytes) = bytes else {
        return Ok(Seq::new(alloc));
    };
    match read_handlers(alloc, bytes) {
        Ok(handlers) => Ok(handlers),
        Err(Failure::NoMemory) => Err(AllocError),
        Err(Failure::Fault(_)) => Ok(Seq::new(alloc)),
    }
}

/// The handlers of all extensions, in load order.
fn all_handlers(
    alloc: Global,
    extensions: &[ExtensionSource<'_>],
) -> Result<Vec<Seq<Handler>>, NoMemory> {
    let mut all = Vec::new(alloc);
    for extension in extensions {
        let bytes = match extension.handlers {
            Some(file) => Some(file.bytes),
            None => None,
        };
        all.push(handlers_of(alloc, bytes)?)?;
    }
    Ok(all)
}

/// Adds the commands of the handlers of an extension.
fn add_handlers(
    alloc: Global,
    list: usize,
    handlers: &[Handler],
    names: &mut TakenNames,
) -> Result<(), NoMemory> {
    for (place, handler) in handlers.iter().enumerate() {
        let command = String::from_str(alloc, handler.command().as_str())?;
        names.insert(command, Known::Handler(list, place))?;
    }
    Ok(())
}

/// The names of the native commands and of these handlers.
fn names_of(alloc: Global, handlers: &[Seq<Handler>]) -> Result<TakenNames, NoMemory> {
    let mut names = native_names(alloc)?;
    for (list, handlers) in handlers.iter().enumerate() {
        add_handlers(alloc, list, handlers.as_slice(), &mut names)?;
    }
    Ok(names)
}

/// The native commands.
fn native_names(alloc: Global) -> Result<TakenNames, NoMemory> {
    let mut names = HashMap::new(alloc);
    for native in NATIVES {
        names.insert(String::from_str(alloc, native.name())?, Known::Command)?;
    }
    names.insert(String::from_str(alloc, LIST_COMMAND)?, Known::Command)?;
    Ok(names)
}

/// Adds a command, unless a handler has its name.
fn add_name(alloc: Global, name: &str, names: &mut TakenNames) -> Result<(), NoMemory> {
    names
        .entry(String::from_str(alloc, name)?)?
        .or_insert(Known::Command);
    Ok(())
}

/// Adds the commands that an extension contributes.
fn add_contributed(
    alloc: Global,
    extension: &Extension,
    names: &mut TakenNames,
) -> Result<(), NoMemory> {
    let commands = &extension.manifest.commands;
    for number in 0..commands.len() {
        if let Some((name, _)) = commands.at(number) {
            add_name(alloc, name, names)?;
        }
    }
    Ok(())
}

/// The handler at a place in one of these lists.
fn handler_at(handlers: &[Seq<Handler>], list: usize, place: usize) -> Option<&Handler> {
    match handlers.get(list) {
        Some(handlers) => handlers.as_slice().get(place),
        None => None,
    }
}

impl KnownCommands {
    /// The native commands and the handlers of these extensions. Error: `NoMemory`.
    pub fn new(
        alloc: Global,
        extensions: &[ExtensionSource<'_>],
    ) -> Result<KnownCommands, NoMemory> {
        let handlers = all_handlers(alloc, extensions)?;
        let names = names_of(alloc, handlers.as_slice())?;
        Ok(KnownCommands {
            names,
            handlers,
            compared: 0,
        })
    }

    /// Adds the commands that extensions contribute. A handler stays what it is. Error: `NoMemory`.
    pub fn contribute(&mut self, alloc: Global, extensions: &[Extension]) -> Result<(), NoMemory> {
        for extension in extensions {
            add_contributed(alloc, extension, &mut self.names)?;
        }
        Ok(())
    }

    /// Adds a command that is said to be known. A handler stays what it is. Error: `NoMemory`.
    pub fn know(&mut self, alloc: Global, command: &str) -> Result<(), NoMemory> {
        add_name(alloc, command, &mut self.names)
    }

    /// Whether a command takes these arguments. A command that nobody has takes any. Error: `NoMemory`.
    pub fn takes(
        &self,
        alloc: Global,
        command: &str,
        args: Option<&Value>,
    ) -> Result<bool, NoMemory> {
        if let Some(native) = Native::named(command) {
            return Ok(native.read_args(alloc, args)?.is_some());
        }
        match self.signature(command) {
            Some(signature) => Ok(signature.read_args(alloc, args)?.is_some()),
            None => Ok(true),
        }
    }

    /// The signature of a handler's command.
    pub fn signature(&self, command: &str) -> Option<&Signature> {
        let Some(Known::Handler(list, place)) = self.names.get(command) else {
            return None;
        };
        match handler_at(self.handlers.as_slice(), *list, *place) {
            Some(handler) => Some(handler.signature()),
            None => None,
        }
    }

    /// Whether there is a command of this name.
    pub fn has(&self, command: &str) -> bool {
        self.names.contains_key(command)
    }

    /// A known command next to an unknown one: one edit from it, or the same but for the case of letters.
    /// None is looked for once so many names have been compared that a check would take too long.
    pub fn near(&mut self, command: &str) -> Option<&str> {
        if self.compared >= GUESS_LIMIT {
            return None;
        }
        self.compared = self.compared.saturating_add(self.names.len());
        near_in(&self.names, command)
    }
}

/// Whether a name is one edit from another one, or the same but for the case of ASCII letters.
fn is_meant(name: &str, command: &str) -> bool {
    is_near(command, name) || name.eq_ignore_ascii_case(command)
}

/// The first of the names, in the order of their bytes, that is next to another one.
fn near_in<'n>(names: &'n TakenNames, command: &str) -> Option<&'n str> {
    let mut found: Option<&str> = None;
    for (name, _) in names {
        if is_meant(name.as_str(), command) && is_before(name.as_str(), found) {
            found = Some(name.as_str());
        }
    }
    found
}

/// Whether a name is before another one, if there is one.
fn is_before(name: &str, other: Option<&str>) -> bool {
    match other {
        Some(other) => name.as_bytes() < other.as_bytes(),
        None => true,
    }
}
