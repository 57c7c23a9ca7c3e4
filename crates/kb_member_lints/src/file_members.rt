//! Members of layouts and of files of handlers that are next to known ones.
ghost use Rattle.std.specs.Prelude.{◌≡◌, OnOk};
ghost use Rattle.kb_problems.specs.Starts.{never_said};

use crate::near_members::{Piece, add_near_in_each, add_near_members, pieces_of};
use kb_base::NoMemory;
use kb_files::LoadFile;
use kb_places::open;
use kb_problems::{OpenedFiles, Problem};
use kb_source_files::SourceFile;
use std::alloc::Global;

/// The known members of a layout.
const LAYOUT: [&str; 2] = ["scopes", "focus"];

/// The known members of a scope.
const SCOPE: [&str; 3] = ["name", "parent", "keys"];

/// The known members of a `handlers.json`.
const FILE: [&str; 2] = ["version", "handlers"];

/// The known members of a handler.
const HANDLER: [&str; 7] = [
    "command", "params", "budget", "depth", "texts", "calls", "code",
];

/// The known members of a parameter.
const PARAM: [&str; 2] = ["name", "kind"];

/// Adds the members of the layout and of the files of handlers that are next to known ones.
pub(crate) fn add_other_files(
    alloc: Global,
    files: &OpenedFiles<'_>,
    problems: &mut Vec<Problem>,
) -> Result<(), NoMemory>
    ensures { OnOk result (never_said problems.new.items ≡ never_said problems.old.items) }
{
    add_layout(alloc, files.sources.layout, problems)?;
    for (number, extension) in files.sources.extensions.iter().enumerate() {
        let name = LoadFile::Handlers(number);
        add_handlers(alloc, name, extension.handlers, problems)?;
    }
    Ok(())
}

/// Adds the members of a layout and of its scopes that are next to known ones. The context keys of a scope
/// may have any name.
fn add_layout(
    alloc: Global,
    file: Option<SourceFile<'_>>,
    problems: &mut Vec<Problem>,
) -> Result<(), NoMemory>
    ensures { OnOk result (never_said problems.new.items ≡ never_said problems.old.items) }
{
    let Some(file) = file else {
        return Ok(());
    };
    let Ok(source) = open(alloc, file.bytes)? else {
        return Ok(());
    };
    let layout = Piece::whole(LoadFile::Layout, &source);
    add_near_members(alloc, layout, "member", LAYOUT.as_slice(), problems)?;
    let Some(scopes) = layout.member(alloc, "scopes")? else {
        return Ok(());
    };
    add_near_in_each(alloc, scopes, SCOPE.as_slice(), problems)?;
    Ok(())
}

/// Adds the members of a file of handlers, of its handlers and of their parameters that are next to known
/// ones.
fn add_handlers(
    alloc: Global,
    name: LoadFile,
    file: Option<SourceFile<'_>>,
    problems: &mut Vec<Problem>,
) -> Result<(), NoMemory>
    ensures { OnOk result (never_said problems.new.items ≡ never_said problems.old.items) }
{
    let Some(file) = file else {
        return Ok(());
    };
    let Ok(source) = open(alloc, file.bytes)? else {
        return Ok(());
    };
    let whole = Piece::whole(name, &source);
    add_near_members(alloc, whole, "member", FILE.as_slice(), problems)?;
    let Some(handlers) = whole.member(alloc, "handlers")? else {
        return Ok(());
    };
    add_each_handler(alloc, handlers, problems)?;
    Ok(())
}

/// Adds the members of the handlers of a list that are next to known ones.
fn add_each_handler(
    alloc: Global,
    handlers: Piece<'_>,
    problems: &mut Vec<Problem>,
) -> Result<(), NoMemory>
    ensures { OnOk result (never_said problems.new.items ≡ never_said problems.old.items) }
{
    let handlers = pieces_of(alloc, handlers)?;
    for handler in handlers.as_slice() {
        add_handler(alloc, *handler, problems)?;
    }
    Ok(())
}

/// Adds the members of a handler and of its parameters that are next to known ones.
fn add_handler(
    alloc: Global,
    handler: Piece<'_>,
    problems: &mut Vec<Problem>,
) -> Result<(), NoMemory>
    ensures { OnOk result (never_said problems.new.items ≡ never_said problems.old.items) }
{
    add_near_members(alloc, handler, "member", HANDLER.as_slice(), problems)?;
    let Some(params) = handler.member(alloc, "params")? else {
        return Ok(());
    };
    add_near_in_each(alloc, params, PARAM.as_slice(), problems)?;
    Ok(())
}
