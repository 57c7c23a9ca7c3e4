//! The warnings about the entries of all files.
ghost use Rattle.std.specs.Prelude.{◌≡◌, ◌++◌, OnOk, IfOk};
ghost use Rattle.std.specs.List.{flat_map};
ghost use Rattle.kb_bindings.specs.Warning.{of_extension, warnings_of};

use kb_base::{NoMemory, Seq, Warning};
use kb_files::Extension;
use kb_rules::RuleList;
use std::alloc::Global;

/// The warnings of all files, in their order.
pub(crate) fn all_warnings(
    alloc: Global,
    defaults: &RuleList,
    extensions: &[Extension],
    user: &RuleList,
) -> Result<Seq<Warning>, NoMemory>
    ensures { IfOk result (λ all. all ≡ warnings_of (record {
      defaults = defaults.now;
      extensions = extensions.now;
      user = user.now;
    })) }
{
    let mut all = Seq::new(alloc);
    add(&mut all, defaults.warnings())?;
    add_of_extensions(&mut all, extensions)?;
    add(&mut all, user.warnings())?;
    Ok(all)
}

/// Adds those of extensions.
fn add_of_extensions(all: &mut Seq<Warning>, extensions: &[Extension]) -> Result<(), NoMemory>
    ensures { OnOk result (all.new ≡ all.old ++ flat_map of_extension extensions.now) }
{
    for extension in extensions {
        add_of_extension(all, extension)?;
    }
    Ok(())
}

/// Adds those of an extension: of its commands, its rules and its items of the palette.
fn add_of_extension(all: &mut Seq<Warning>, extension: &Extension) -> Result<(), NoMemory>
    ensures { OnOk result (all.new ≡ all.old ++ of_extension extension.now) }
{
    add(all, extension.manifest.command_notes.warnings.as_slice())?;
    add(all, extension.rules.warnings())?;
    add(all, extension.manifest.palette_notes.warnings.as_slice())
}

/// Adds these.
fn add(all: &mut Seq<Warning>, warnings: &[Warning]) -> Result<(), NoMemory>
    ensures { OnOk result (all.new ≡ all.old ++ warnings.now) }
{
    for warning in warnings {
        all.push(*warning)?;
    }
    Ok(())
}
