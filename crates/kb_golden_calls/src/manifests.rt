//! Manifests: what is read from an extension's `package.json`, on one line.
use kb_base::{ExtensionId, Failure, NoMemory, Origin};
use kb_golden_text::fault_text;
use kb_jsonc::{FileFault, read};
use kb_manifest::{Command, Manifest, Notes, Package, PaletteItem};
use kb_when::{Clause, SharedClause};
use serde_json::Value;
use std::alloc::{AllocError, Global};

fn add_clause(
    alloc: Global,
    output: &mut String,
    clause: &Option<SharedClause>,
) -> Result<(), NoMemory> {
    let Some(clause) = clause else {
        return Ok(());
    };
    if clause.as_clause().same_tree(&Clause::never(alloc)) {
        output.push_str(" if false")
    } else {
        output.push_str(" if a clause")
    }
}

fn add_command(
    alloc: Global,
    output: &mut String,
    name: &str,
    command: &Command,
) -> Result<(), NoMemory> {
    let place = command.place;
    let title = command.title.as_str();
    write!(output, "; command {place} \"{name}\" \"{title}\"")?;
    if let Some(category) = &command.category {
        let category = category.as_str();
        write!(output, " of \"{category}\"")?;
    }
    add_clause(alloc, output, &command.enablement)
}

fn add_commands(alloc: Global, output: &mut String, manifest: &Manifest) -> Result<(), NoMemory> {
    for number in 0..manifest.commands.len() {
        if let Some((name, command)) = manifest.commands.at(number) {
            add_command(alloc, output, name, command)?;
        }
    }
    Ok(())
}

fn add_rules(alloc: Global, output: &mut String, rules: &[Value]) -> Result<(), NoMemory> {
    for rule in rules {
        match rule.to_string(alloc) {
            Ok(rule) => {
                let rule = rule.as_str();
                write!(output, "; rule {rule}")?;
            }
            Err(_) => return Err(AllocError),
        }
    }
    Ok(())
}

fn add_items(alloc: Global, output: &mut String, items: &[PaletteItem]) -> Result<(), NoMemory> {
    for item in items {
        let place = item.place;
        let command = item.command.as_str();
        write!(output, "; item {place} \"{command}\"")?;
        add_clause(alloc, output, &item.when)?;
    }
    Ok(())
}

fn add_warnings(output: &mut String, notes: &Notes) -> Result<(), NoMemory> {
    for warning in notes.warnings.as_slice() {
        let number = warning.kind.number();
        let part = warning.part.name();
        let place = warning.place;
        write!(output, "; warning {number} {part} {place}")?;
    }
    Ok(())
}

fn add_unread(output: &mut String, notes: &Notes) -> Result<(), NoMemory> {
    for unread in notes.unread.as_slice() {
        let part = unread.part.name();
        let place = unread.place;
        let number = unread.unread.number;
        let pattern = unread.unread.pattern.as_str();
        write!(output, "; unread {part} {place} {number} {pattern}")?;
    }
    Ok(())
}

fn add_head(output: &mut String, id: &str, dependencies: &[ExtensionId]) -> Result<(), NoMemory> {
    output.push_str(id)?;
    for dependency in dependencies {
        let dependency = dependency.as_str();
        write!(output, "; depends on {dependency}")?;
    }
    Ok(())
}

fn add_all(alloc: Global, output: &mut String, package: &Package) -> Result<(), NoMemory> {
    let manifest = &package.manifest;
    add_head(
        output,
        manifest.id.as_str(),
        manifest.dependencies.as_slice(),
    )?;
    add_commands(alloc, output, manifest)?;
    add_rules(alloc, output, package.keybindings.as_slice())?;
    add_items(alloc, output, manifest.palette.as_slice())?;
    add_warnings(output, &manifest.command_notes)?;
    add_warnings(output, &manifest.palette_notes)?;
    add_unread(output, &manifest.command_notes)?;
    add_unread(output, &manifest.palette_notes)
}

fn manifest_text(alloc: Global, package: &Package) -> Result<String, NoMemory> {
    let mut output = String::new(alloc);
    add_all(alloc, &mut output, package)?;
    Ok(output)
}

fn refused(alloc: Global, failure: Failure<FileFault>) -> Result<String, NoMemory> {
    match failure {
        Failure::Fault(wrong) => fault_text(alloc, wrong.kind()),
        Failure::NoMemory => Err(AllocError),
    }
}

/// What a manifest contributes, its warnings and its unread patterns, or its first fault.
pub(crate) fn manifest(alloc: Global, bytes: &[u8]) -> Result<String, NoMemory> {
    let Ok(value) = read(alloc, bytes) else {
        return String::from_str(alloc, "no JSON");
    };
    match Package::read(alloc, value, Origin::Extension(0)) {
        Ok(package) => manifest_text(alloc, &package),
        Err(failure) => refused(alloc, failure),
    }
}
