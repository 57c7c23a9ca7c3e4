//! The commands that extensions contribute, lent.
ghost use Rattle.std.specs.Prelude.{◌≡◌, ◌++◌, [], map, IfOk, OnOk};
ghost use Rattle.std.specs.List.{flat_map};
ghost use Rattle.kb_manifest.specs.CommandTable.{firsts_behind};
ghost use Rattle.kb_palette_commands.specs.Contributed.{commands_in, named_of};

use indexmap::IndexSet;
use kb_base::NoMemory;
use kb_files::Extension;
use kb_manifest::{Command, CommandTable};
use std::alloc::Global;

/// A command that an extension contributes, with its identifier.
#[derive(Clone, Copy)]
pub(crate) struct Contributed<'e> {
    pub(crate) name: &'e str,
    pub(crate) command: &'e Command,
}

/// The commands of the enabled extensions, in load order.
pub(crate) fn all_commands<'e>(
    alloc: Global,
    extensions: &'e [Extension],
) -> Result<Vec<Contributed<'e>>, NoMemory>
    ensures { IfOk result (λ made. map named_of made.items ≡ flat_map commands_in extensions.now) }
{
    let mut made = Vec::new(alloc);
    for extension in extensions {
        add_extension(extension, &mut made)?;
    }
    Ok(made)
}

/// Adds the commands of an extension, if it is enabled.
fn add_extension<'e>(
    extension: &'e Extension,
    made: &mut Vec<Contributed<'e>>,
) -> Result<(), NoMemory>
    ensures { OnOk result
        (map named_of made.new.items ≡ map named_of made.old.items ++ commands_in extension.now) }
{
    if !extension.enabled {
        return Ok(());
    }
    add_commands(&extension.manifest.commands, made)
}

/// Adds the commands of a table.
fn add_commands<'e>(
    commands: &'e CommandTable,
    made: &mut Vec<Contributed<'e>>,
) -> Result<(), NoMemory>
    ensures { OnOk result (map named_of made.new.items ≡ map named_of made.old.items ++ commands.now) }
{
    for number in 0..commands.len() {
        if let Some((name, command)) = commands.at(number) {
            made.push(Contributed { name, command })?;
        }
    }
    Ok(())
}

/// The first command of each identifier.
pub(crate) fn first_of_each<'e>(
    alloc: Global,
    all: &[Contributed<'e>],
) -> Result<Vec<Contributed<'e>>, NoMemory>
    ensures { IfOk result (λ firsts. map named_of firsts.items ≡ firsts_behind [] (map named_of all.now)) }
{
    let mut seen: IndexSet<&str> = IndexSet::new(alloc);
    let mut firsts = Vec::new(alloc);
    for contributed in all {
        if seen.insert(contributed.name)? {
            firsts.push(*contributed)?;
        }
    }
    Ok(firsts)
}
