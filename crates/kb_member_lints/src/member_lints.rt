//! Lints on the members of entries, as the files have them.
ghost use Rattle.std.specs.Prelude.{◌≡◌, OnOk};
ghost use Rattle.kb_problems.specs.Starts.{never_said};

use crate::double_quotes::has_double_quotes;
use crate::file_members::add_other_files;
use crate::near_members::{Piece, add_near_members};
use kb_base::{NoMemory, Origin, Part};
use kb_problems::{Lint, Opened, OpenedFiles, Problem, clause_member, linted, push_other};
use serde_json::Value;
use std::alloc::Global;

/// The members that entries of a part have.
fn known_members(part: Part) -> &'static [&'static str] {
    match part {
        Part::Commands => &[
            "command",
            "title",
            "category",
            "enablement",
            "icon",
            "shortTitle",
        ],
        Part::Keybindings => &["command", "key", "when", "args", "mac", "linux", "win"],
        Part::Palette => &["command", "when", "group", "alt"],
    }
}

/// The known members of a `package.json`.
const MEMBERS: [&str; 4] = ["name", "publisher", "extensionDependencies", "contributes"];

/// The known members of its contributions.
const POINTS: [&str; 3] = ["commands", "keybindings", "menus"];

/// The known members of its menus.
const MENUS: [&str; 1] = ["commandPalette"];

/// Adds the members of all files that are next to known ones. Error: `NoMemory`.
pub fn add_misspelled(
    alloc: Global,
    files: &OpenedFiles<'_>,
    problems: &mut Vec<Problem>,
) -> Result<(), NoMemory>
    ensures { OnOk result (never_said problems.new.items ≡ never_said problems.old.items) }
{
    add_of_files(alloc, files, Lint::MisspelledMember, problems)?;
    add_other_files(alloc, files, problems)?;
    Ok(())
}

/// Adds the entries of all files whose clause has a text in double quotes. Error: `NoMemory`.
pub fn add_double_quotes(
    alloc: Global,
    files: &OpenedFiles<'_>,
    problems: &mut Vec<Problem>,
) -> Result<(), NoMemory>
    ensures { OnOk result (never_said problems.new.items ≡ never_said problems.old.items) }
{
    add_of_files(alloc, files, Lint::DoubleQuotes, problems)?;
    Ok(())
}

/// Adds a lint on all files of entries as they are written.
fn add_of_files(
    alloc: Global,
    files: &OpenedFiles<'_>,
    lint: Lint,
    problems: &mut Vec<Problem>,
) -> Result<(), NoMemory>
    ensures { OnOk result (never_said problems.new.items ≡ never_said problems.old.items) }
{
    add_of_file(alloc, files.of(Origin::Defaults), lint, problems)?;
    // A load refuses more than 100 extensions.
    let count = match u32::try_from(files.sources.extensions.len()) {
        Ok(count) => count,
        Err(_) => u32::MAX,
    };
    for number in 0..count {
        let origin = Origin::Extension(number);
        add_of_file(alloc, files.of(origin), lint, problems)?;
    }
    add_of_file(alloc, files.of(Origin::User), lint, problems)?;
    Ok(())
}

/// Adds a lint on a file as it is written.
fn add_of_file(
    alloc: Global,
    opened: Option<&Opened<'_>>,
    lint: Lint,
    problems: &mut Vec<Problem>,
) -> Result<(), NoMemory>
    ensures { OnOk result (never_said problems.new.items ≡ never_said problems.old.items) }
{
    let Some(opened) = opened else {
        return Ok(());
    };
    add_points(alloc, opened, lint, problems)?;
    add_members(alloc, opened, lint, problems)?;
    Ok(())
}

/// Adds what the members of a file's entries are wrong in.
pub(crate) fn add_members(
    alloc: Global,
    opened: &Opened<'_>,
    lint: Lint,
    problems: &mut Vec<Problem>,
) -> Result<(), NoMemory>
    ensures { OnOk result (never_said problems.new.items ≡ never_said problems.old.items) }
{
    add_of_part(alloc, opened, Part::Commands, lint, problems)?;
    add_of_part(alloc, opened, Part::Keybindings, lint, problems)?;
    add_of_part(alloc, opened, Part::Palette, lint, problems)?;
    Ok(())
}

/// Adds what the members of the entries of a part are wrong in.
fn add_of_part(
    alloc: Global,
    opened: &Opened<'_>,
    part: Part,
    lint: Lint,
    problems: &mut Vec<Problem>,
) -> Result<(), NoMemory>
    ensures { OnOk result (never_said problems.new.items ≡ never_said problems.old.items) }
{
    for place in 0..opened.entries(part).len() {
        add_of_entry(alloc, opened, part, place, lint, problems)?;
    }
    Ok(())
}

/// Adds what the members of an entry are wrong in.
fn add_of_entry(
    alloc: Global,
    opened: &Opened<'_>,
    part: Part,
    place: usize,
    lint: Lint,
    problems: &mut Vec<Problem>,
) -> Result<(), NoMemory>
    ensures { OnOk result (never_said problems.new.items ≡ never_said problems.old.items) }
{
    let Some(entry) = opened.value(alloc, part, place)? else {
        return Ok(());
    };
    if lint == Lint::MisspelledMember {
        add_near(alloc, opened, part, place, entry, problems)?;
        return Ok(());
    }
    add_quotes(alloc, opened, part, place, entry, problems)?;
    Ok(())
}

/// Adds the members of an entry that are next to known ones.
fn add_near(
    alloc: Global,
    opened: &Opened<'_>,
    part: Part,
    place: usize,
    entry: &Value,
    problems: &mut Vec<Problem>,
) -> Result<(), NoMemory>
    ensures { OnOk result (never_said problems.new.items ≡ never_said problems.old.items) }
{
    let Some(span) = opened.entries(part).get(place) else {
        return Ok(());
    };
    let object = Piece {
        file: opened.file,
        text: opened.source.plain().as_bytes(),
        span: *span,
        value: entry,
    };
    add_near_members(alloc, object, "member", known_members(part), problems)?;
    Ok(())
}

/// Adds an entry whose clause has a text in double quotes.
fn add_quotes(
    alloc: Global,
    opened: &Opened<'_>,
    part: Part,
    place: usize,
    entry: &Value,
    problems: &mut Vec<Problem>,
) -> Result<(), NoMemory>
    ensures { OnOk result (never_said problems.new.items ≡ never_said problems.old.items) }
{
    let name = clause_member(part);
    let Some(clause) = entry.get(name).and_then(Value::as_str) else {
        return Ok(());
    };
    if !has_double_quotes(clause) {
        return Ok(());
    }
    let span = opened.member(alloc, part, place, name)?;
    let sentence = format!(in alloc;
        "double quotes are a part of the text that is compared; write '..' around it"
    )?;
    push_other(
        linted(opened.file, Lint::DoubleQuotes, span, sentence),
        problems,
    )?;
    Ok(())
}

/// Adds the members of a manifest, of its contributions and of its menus that are next to known ones, if this
/// is the lint that is looked for.
pub(crate) fn add_points(
    alloc: Global,
    opened: &Opened<'_>,
    lint: Lint,
    problems: &mut Vec<Problem>,
) -> Result<(), NoMemory>
    ensures { OnOk result (never_said problems.new.items ≡ never_said problems.old.items) }
{
    if lint != Lint::MisspelledMember {
        return Ok(());
    }
    let whole = Piece::whole(opened.file, &opened.source);
    add_near_members(alloc, whole, "member", MEMBERS.as_slice(), problems)?;
    let Some(points) = whole.member(alloc, "contributes")? else {
        return Ok(());
    };
    add_near_members(
        alloc,
        points,
        "contribution point",
        POINTS.as_slice(),
        problems,
    )?;
    let Some(menus) = points.member(alloc, "menus")? else {
        return Ok(());
    };
    add_near_members(alloc, menus, "member", MENUS.as_slice(), problems)?;
    Ok(())
}
