//! The commands of the palette.
ghost use Rattle.std.specs.Prelude.{◌≡◌, map, IfOk};
ghost use Rattle.kb_palette_commands.specs.Contributed.{named_of};
ghost use Rattle.kb_palette_commands.specs.Items.{clauses_in};
ghost use Rattle.kb_palette_commands.specs.Palette.{label_of, palette_commands, with_clauses};

use crate::contributed::{Contributed, all_commands, first_of_each};
use crate::items::{ItemTable, shared};
use kb_base::{NoMemory, Seq, Text};
use kb_files::Extension;
use kb_manifest::Command;
use kb_palette::PaletteCommand;
use kb_when::SharedClause;
use std::alloc::Global;

/// The commands of the palette: what the enabled extensions contribute, in load order. Of several
/// contributions of one identifier the first counts, whole (our decision). The label of a command is its
/// title, behind its category and `: ` where it has one (VS Code's documentation). All items of enabled
/// extensions that name a command belong to it.
///
/// Error: `NoMemory`.
pub fn palette_commands(
    alloc: Global,
    extensions: &[Extension],
) -> Result<Vec<PaletteCommand>, NoMemory>
    ensures { IfOk result (λ made. made.items ≡ palette_commands extensions.now) }
{
    let items = ItemTable::new(alloc, extensions)?;
    let all = all_commands(alloc, extensions)?;
    let firsts = first_of_each(alloc, all.as_slice())?;
    listed(alloc, firsts.as_slice(), &items)
}

/// These commands, with the items that name them.
fn listed(
    alloc: Global,
    commands: &[Contributed<'_>],
    items: &ItemTable,
) -> Result<Vec<PaletteCommand>, NoMemory>
    ensures { IfOk result (λ made.
        made.items ≡ map (λ c. with_clauses (clauses_in items.now) (named_of c)) commands.now) }
{
    let mut made = Vec::new(alloc);
    for contributed in commands {
        made.push(palette_command(alloc, *contributed, items)?)?;
    }
    Ok(made)
}

/// A command, with the items that name it. Its clauses are shared.
fn palette_command(
    alloc: Global,
    contributed: Contributed<'_>,
    items: &ItemTable,
) -> Result<PaletteCommand, NoMemory>
    ensures { IfOk result (λ made. made ≡ with_clauses (clauses_in items.now) (named_of contributed.entry)) }
{
    let Contributed { name, command } = contributed;
    let label = label_of(alloc, command)?;
    let enablement = shared(&command.enablement)?;
    let clauses = all_shared(alloc, items.clauses(name))?;
    let command = Text::from_str(alloc, name)?;
    PaletteCommand::new(alloc, command, label, enablement, clauses)
}

/// The text of a command in the palette.
fn label_of(alloc: Global, command: &Command) -> Result<Text, NoMemory>
    ensures { IfOk result (λ label. label ≡ label_of command.now) }
{
    let mut label = Text::new(alloc);
    if let Some(category) = &command.category {
        label.push_str(category.as_str())?;
        label.push_str(": ")?;
    }
    label.push_str(command.title.as_str())?;
    Ok(label)
}

/// One more owner of each of these clauses.
fn all_shared(
    alloc: Global,
    clauses: &[Option<SharedClause>],
) -> Result<Seq<Option<SharedClause>>, NoMemory>
    ensures { IfOk result (λ made. made ≡ clauses.now) }
{
    let mut made = Seq::new(alloc);
    for clause in clauses {
        made.push(shared(clause)?)?;
    }
    Ok(made)
}
