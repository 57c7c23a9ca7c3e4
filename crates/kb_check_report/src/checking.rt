//! The check of some files, from their bytes to what is written.
ghost use Rattle.std.specs.Prelude.{◌≡◌, IfOk, map, not, ◌||◌};
ghost use Rattle.std.specs.List.{list_any};
ghost use Rattle.kb_check.specs.Problems.{files_in};
ghost use Rattle.kb_check_report.specs.Checking.{Checks};
ghost use Rattle.kb_check_report.specs.Marks.{is_shown, mark_of};
ghost use Rattle.kb_check_report.specs.Whose.{is_unknown};

use crate::format::Format;
use crate::last_line::{write_last_line, write_last_object};
use crate::listing::{Listing, positions_of, write_listed};
use crate::marks::{Counts, Mark, counts_of, is_any_shown, is_refusal, marks_of};
use crate::sarif::{HEAD, write_last_results};
use crate::shown::{Ranked, shown};
use crate::whose::{is_any_unknown, unknown_names};
use kb_base::NoMemory;
use kb_check::{Findings, find_problems};
use kb_problems::{Choices, Problem};
use kb_report::{Stop, say};
use kb_source_files::SourceFiles;
use std::alloc::Global;
use std::io::{BufWriter, Write};

/// The names that were given for files, but that no file has. Of a refused load nothing is known of
/// extensions, and no name is said to be unknown.
fn unknown_in<'c>(
    alloc: Global,
    files: &SourceFiles<'_>,
    found: &Findings,
    choices: &Choices<'c>,
) -> Result<Vec<&'c str>, NoMemory> {
    match found.problems.first() {
        Some(problem) if is_refusal(problem.cause) => Ok(Vec::new(alloc)),
        _ => unknown_names(alloc, files, found.ids.as_slice(), choices.only),
    }
}

/// Writes what stands before the problems.
fn write_head<W: Write>(format: Format, out: &mut W) -> Result<(), Stop> {
    match format {
        Format::Sarif => say(HEAD, out),
        Format::Text | Format::Json | Format::Github | Format::Diff => Ok(()),
    }
}

/// Writes what stands behind the problems: how many are shown and how many aren't, and names that are of no
/// file.
fn write_end<W: Write>(
    alloc: Global,
    counts: &Counts,
    unknown: &[&str],
    format: Format,
    out: &mut W,
) -> Result<(), Stop> {
    let mut text = String::new(alloc);
    match format {
        Format::Text | Format::Github => write_last_line(alloc, counts, unknown, &mut text)?,
        Format::Json => write_last_object(alloc, counts, unknown, &mut text)?,
        Format::Diff => {}
        Format::Sarif => write_last_results(alloc, unknown, counts.shown() == 0, &mut text)?,
    }
    say(text.as_str(), out)
}

/// Writes the problems that are shown.
fn write_shown<W: Write>(
    alloc: Global,
    files: &SourceFiles<'_>,
    problems: &[Problem],
    shown: &[Ranked],
    format: Format,
    out: &mut W,
) -> Result<(), Stop> {
    let positions = positions_of(alloc, files, problems, shown)?;
    let listing = Listing {
        problems,
        shown,
        positions: positions.as_slice(),
    };
    write_head(format, out)?;
    write_listed(alloc, files, listing, format, out)
}

/// Writes the problems that are shown, and how many there are.
fn write_all<W: Write>(
    alloc: Global,
    files: &SourceFiles<'_>,
    found: &Findings,
    marks: &[Mark],
    choices: &Choices<'_>,
    format: Format,
    out: &mut W,
) -> Result<(), Stop> {
    let problems = found.problems.as_slice();
    let shown = shown(alloc, problems, marks)?;
    write_shown(alloc, files, problems, shown.as_slice(), format, out)?;
    let unknown = unknown_in(alloc, files, found, choices)?;
    let counts = counts_of(marks).of_so_many(shown.len());
    write_end(alloc, &counts, unknown.as_slice(), format, out)
}

/// Whether no problem is shown, and each name that was given is of a file.
fn is_clean(
    files: &SourceFiles<'_>,
    found: &Findings,
    marks: &[Mark],
    choices: &Choices<'_>,
) -> bool
    ensures { result ≡ not (list_any is_shown marks.now
        || list_any (is_unknown files.now found.now.ids.items)
        (map (λ name. name.now) choices.now.only.now)) }
{
    !(is_any_shown(marks) || is_any_unknown(files, found.ids.as_slice(), choices.only))
}

/// The mark of each problem that was found in files.
fn marks_in(
    alloc: Global,
    files: &SourceFiles<'_>,
    found: &Findings,
    choices: &Choices<'_>,
) -> Result<Vec<Mark>, NoMemory>
    ensures { IfOk result (λ marks.
        marks.items ≡ map (mark_of files.now found.now.ids.items choices.now) found.now.problems.items) }
{
    let (ids, problems) = (found.ids.as_slice(), found.problems.as_slice());
    marks_of(alloc, files, ids, choices, problems)
}

/// Checks some files, writes in a format the problems that are asked for and how many there are, flushes the
/// buffer, and returns whether none is shown. What is written is tested, and in no clause.
///
/// Errors: `NotWritten` where a write failed, or `NoMemory`; what was written stays.
#[tactic(auto, using(crate::proofs::CheckingLemmas::checks))]
pub fn check<W: Write + Drop>(
    alloc: Global,
    files: &SourceFiles<'_>,
    choices: &Choices<'_>,
    format: Format,
    out: &mut BufWriter<W>,
) -> Result<bool, Stop>
    ensures { IfOk result (Checks (files_in files.now) choices.now) }
{
    let found = find_problems(alloc, files, choices)?;
    let marks = marks_in(alloc, files, &found, choices)?;
    write_all(alloc, files, &found, marks.as_slice(), choices, format, out)?;
    match out.flush() {
        Ok(()) => Ok(is_clean(files, &found, marks.as_slice(), choices)),
        Err(_) => Err(Stop::NotWritten),
    }
}
