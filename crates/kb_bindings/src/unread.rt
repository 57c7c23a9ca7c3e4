//! The unread patterns of all files.
ghost use Rattle.std.specs.Prelude.{◌≡◌, ◌++◌, OnOk, IfOk};
ghost use Rattle.std.specs.List.{flat_map};
ghost use Rattle.kb_files.specs.Extension.{unread_in};
ghost use Rattle.kb_bindings.specs.Unread.{unread_of};

use kb_base::{EntryPattern, NoMemory, Seq};
use kb_files::Extension;
use kb_rules::RuleList;
use std::alloc::Global;

/// The unread patterns of all files, in their order.
pub(crate) fn all_unread(
    alloc: Global,
    defaults: &RuleList,
    extensions: &[Extension],
    user: &RuleList,
) -> Result<Seq<EntryPattern>, NoMemory>
    ensures { IfOk result (λ all. all ≡ unread_of (record {
      defaults = defaults.now;
      extensions = extensions.now;
      user = user.now;
    })) }
{
    let mut all = Seq::new(alloc);
    add(&mut all, defaults.unread())?;
    add_of_extensions(&mut all, extensions)?;
    add(&mut all, user.unread())?;
    Ok(all)
}

/// A copy of the unread patterns of a list of rules. Error: `NoMemory`.
pub fn unread_rules(alloc: Global, list: &RuleList) -> Result<Seq<EntryPattern>, NoMemory>
    ensures { IfOk result (λ all. all ≡ list.now.unread) }
{
    let mut all = Seq::new(alloc);
    add(&mut all, list.unread())?;
    Ok(all)
}

/// Adds those of extensions.
fn add_of_extensions(all: &mut Seq<EntryPattern>, extensions: &[Extension]) -> Result<(), NoMemory>
    ensures { OnOk result (all.new ≡ all.old ++ flat_map unread_in extensions.now) }
{
    for extension in extensions {
        add_of_extension(all, extension)?;
    }
    Ok(())
}

/// Adds those of an extension: of its commands, its rules and its items of the palette.
fn add_of_extension(all: &mut Seq<EntryPattern>, extension: &Extension) -> Result<(), NoMemory>
    ensures { OnOk result (all.new ≡ all.old ++ unread_in extension.now) }
{
    add(all, extension.manifest.command_notes.unread.as_slice())?;
    add(all, extension.rules.unread())?;
    add(all, extension.manifest.palette_notes.unread.as_slice())
}

/// Adds copies of these.
fn add(all: &mut Seq<EntryPattern>, unread: &[EntryPattern]) -> Result<(), NoMemory>
    ensures { OnOk result (all.new ≡ all.old ++ unread.now) }
{
    for one in unread {
        all.push(EntryPattern {
            origin: one.origin,
            part: one.part,
            place: one.place,
            unread: one.unread.copied()?,
        })?;
    }
    Ok(())
}
