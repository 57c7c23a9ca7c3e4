//! The changes that problems guess, as a unified diff.
use crate::diff::{Line, first_line, line_with, write_change, write_names};
use crate::guess::{Change, change_of};
use crate::listing::Listing;
use crate::page::{bytes_of, path_of};
use kb_base::NoMemory;
use kb_files::LoadFile;
use kb_problems::Problem;
use kb_report::{Stop, say};
use kb_source_files::SourceFiles;
use std::alloc::Global;
use std::io::Write;

/// The line whose changes are gathered, and its file.
#[derive(Drop)]
struct Gathered<'p> {
    file: Option<LoadFile>,
    line: Line,
    changes: Vec<Change<'p>>,
}

/// The byte order mark of a file, if it has one.
fn mark_of(files: &SourceFiles<'_>, file: LoadFile) -> &'static str {
    let found = files.file_of(file);
    match found {
        Some(source) if source.bytes.len() != bytes_of(found).len() => "\u{feff}",
        _ => "",
    }
}

/// Writes the gathered line with its changes behind a text, if it has some. Then it has none.
fn write_gathered(
    files: &SourceFiles<'_>,
    gathered: &mut Gathered<'_>,
    text: &mut String,
) -> Result<(), NoMemory> {
    let Some(file) = gathered.file else {
        return Ok(());
    };
    if gathered.changes.is_empty() {
        return Ok(());
    }
    let bytes = bytes_of(files.file_of(file));
    let mark = mark_of(files, file);
    write_change(
        bytes,
        gathered.line,
        mark,
        gathered.changes.as_slice(),
        text,
    )?;
    gathered.changes.clear();
    Ok(())
}

/// Gathers a change of the file that a problem is in. If the change is in another line than those before it,
/// their line is written.
fn gather<'p>(
    files: &SourceFiles<'_>,
    file: LoadFile,
    change: Change<'p>,
    gathered: &mut Gathered<'p>,
    text: &mut String,
) -> Result<(), NoMemory> {
    let found = files.file_of(file);
    let bytes = bytes_of(found);
    if gathered.file != Some(file) {
        write_gathered(files, gathered, text)?;
        write_names(path_of(found, file), text)?;
        gathered.file = Some(file);
        gathered.line = first_line(bytes);
    }
    if !gathered.line.has(change.span.begin) {
        write_gathered(files, gathered, text)?;
        gathered.line = line_with(bytes, change.span.begin, gathered.line);
    }
    gathered.changes.push(change)?;
    Ok(())
}

/// Gathers the change that a problem guesses, if it guesses one.
fn gather_guess<'p>(
    files: &SourceFiles<'_>,
    problem: &'p Problem,
    gathered: &mut Gathered<'p>,
    text: &mut String,
) -> Result<(), NoMemory> {
    let bytes = bytes_of(files.file_of(problem.file));
    match change_of(bytes, problem) {
        Some(change) => gather(files, problem.file, change, gathered, text),
        None => Ok(()),
    }
}

/// Writes what the problems guess, in order.
pub(crate) fn write_changes<W: Write>(
    alloc: Global,
    files: &SourceFiles<'_>,
    listing: Listing<'_>,
    out: &mut W,
) -> Result<(), Stop> {
    let mut gathered = Gathered {
        file: None,
        line: first_line(&[]),
        changes: Vec::new(alloc),
    };
    let mut text = String::new(alloc);
    for index in 0..listing.shown.len() {
        text.clear();
        if let Some(problem) = listing.problem(index) {
            gather_guess(files, problem, &mut gathered, &mut text)?;
        }
        say(text.as_str(), out)?;
    }
    text.clear();
    write_gathered(files, &mut gathered, &mut text)?;
    say(text.as_str(), out)
}
