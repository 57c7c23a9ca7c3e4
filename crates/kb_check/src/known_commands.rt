//! The commands that are known.
use crate::list_lints::{command_in, elements_of};
use kb_base::NoMemory;
use kb_bindings::Bindings;
use kb_places::without_mark;
use kb_problems::{KnownCommands, LIST_COMMAND};
use kb_rules::Rule;
use kb_source_files::ExtensionSource;
use std::alloc::Global;
use std::rc::Rc;
use std::str;

/// The native commands, those of handlers, those that extensions contribute, those that default rules start,
/// and those of a list.
pub(crate) fn known_in(
    alloc: Global,
    extensions: &[ExtensionSource<'_>],
    bindings: &Bindings,
    list: &[u8],
) -> Result<KnownCommands, NoMemory> {
    let mut known = KnownCommands::new(alloc, extensions)?;
    known.contribute(alloc, bindings.extensions())?;
    know_started(alloc, bindings.defaults().rules(), &mut known)?;
    know_listed(alloc, list, &mut known)?;
    Ok(known)
}

/// Adds the commands that rules start.
fn know_started(
    alloc: Global,
    rules: &[Rc<Rule>],
    known: &mut KnownCommands,
) -> Result<(), NoMemory> {
    for rule in rules {
        let command = rule.command.as_str();
        if command == LIST_COMMAND {
            know_elements(alloc, rule, known)?;
        } else if !command.is_empty() {
            known.know(alloc, command)?;
        }
    }
    Ok(())
}

/// Adds the commands of the list that a rule runs.
fn know_elements(alloc: Global, rule: &Rule, known: &mut KnownCommands) -> Result<(), NoMemory> {
    let Some(elements) = elements_of(rule) else {
        return Ok(());
    };
    for element in elements {
        if let Some(command) = command_in(element) {
            known.know(alloc, command)?;
        }
    }
    Ok(())
}

/// Adds the commands of a list, one a line. Blanks round them and blank lines are left out. A list that is no
/// text has none.
fn know_listed(alloc: Global, list: &[u8], known: &mut KnownCommands) -> Result<(), NoMemory> {
    let text = str::from_utf8(without_mark(list)).unwrap_or("");
    for line in text.lines() {
        let command = line.trim();
        if !command.is_empty() {
            known.know(alloc, command)?;
        }
    }
    Ok(())
}
