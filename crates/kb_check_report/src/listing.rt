//! Problems in the order in which they are written, with their positions.
ghost use Rattle.kb_check_report.specs.Page.{IsPage};

use crate::changing::write_changes;
use crate::format::Format;
use crate::github::write_command;
use crate::grouped::{Group, grouped};
use crate::json_lines::write_object;
use crate::page::{Page, page_of, path_of, position_in, turn_to};
use crate::sarif::write_result;
use crate::shown::Ranked;
use crate::text_lines::write_problem;
use kb_base::NoMemory;
use kb_files::LoadFile;
use kb_places::Position;
use kb_problems::Problem;
use kb_report::{Stop, say};
use kb_source_files::SourceFiles;
use std::alloc::Global;
use std::io::Write;

/// The most positions that are written below a problem.
const OTHERS: usize = 8;

/// Problems in the order in which they are written, with their positions.
#[derive(Clone, Copy)]
pub(crate) struct Listing<'l> {
    /// The problems that were found.
    pub(crate) problems: &'l [Problem],
    /// Those that are written.
    pub(crate) shown: &'l [Ranked],
    /// The position of each that is written, `None` for one of a file as a whole.
    pub(crate) positions: &'l [Option<Position>],
}

impl<'l> Listing<'l> {
    /// The problem at an index.
    pub(crate) fn problem(self, index: usize) -> Option<&'l Problem> {
        match self.shown.get(index) {
            Some(one) => self.problems.get(one.place),
            None => None,
        }
    }

    /// The line and the column of the problem at an index.
    fn position(self, index: usize) -> Option<Position> {
        match self.positions.get(index) {
            Some(position) => *position,
            None => None,
        }
    }
}

/// The line and the column of each problem that is written. In each file the places rise, so that it is gone
/// over once.
pub(crate) fn positions_of(
    alloc: Global,
    files: &SourceFiles<'_>,
    problems: &[Problem],
    shown: &[Ranked],
) -> Result<Vec<Option<Position>>, NoMemory> {
    let mut page = page_of(files, LoadFile::Natives);
    let mut positions = Vec::with_capacity(alloc, shown.len())?;
    for one in shown {
        let position = match problems.get(one.place) {
            Some(problem) => position_in(files, problem, &mut page),
            None => None,
        };
        positions.push(position)?;
    }
    Ok(positions)
}

/// Writes the positions of other problems behind a text, if there are some.
fn write_others(listing: Listing<'_>, others: &[usize], text: &mut String) -> Result<(), NoMemory> {
    if others.is_empty() {
        return Ok(());
    }
    text.push_str("    also at")?;
    for (number, index) in others.iter().take(OTHERS).enumerate() {
        if let Some(Position { line, column }) = listing.position(*index) {
            let sign = if number == 0 { " " } else { ", " };
            write!(text, "{sign}{line}:{column}")?;
        }
    }
    if others.len() > OTHERS {
        let left = others.len() - OTHERS;
        write!(text, " and {left} more")?;
    }
    text.push_str("\n")
}

/// Writes the problems of a group as text: the first with its line, and below it the positions of the others.
fn write_group<'a>(
    files: &SourceFiles<'a>,
    listing: Listing<'_>,
    group: &Group,
    page: &mut Page<'a>,
    text: &mut String,
) -> Result<(), NoMemory>
    requires { IsPage files.now page.old }
    ensures { IsPage files.now page.new }
{
    let Some(problem) = listing.problem(group.first) else {
        return Ok(());
    };
    turn_to(files, problem.file, page);
    write_problem(
        problem,
        page.path,
        listing.position(group.first),
        &mut page.walker,
        page.bytes,
        text,
    )?;
    write_others(listing, group.others.as_slice(), text)
}

/// Writes the problems as text, those of a file with one sentence together.
fn write_groups<W: Write>(
    alloc: Global,
    files: &SourceFiles<'_>,
    listing: Listing<'_>,
    out: &mut W,
) -> Result<(), Stop> {
    let groups = grouped(alloc, listing.problems, listing.shown)?;
    let mut page = page_of(files, LoadFile::Natives);
    let mut text = String::new(alloc);
    for group in groups.as_slice() {
        text.clear();
        write_group(files, listing, group, &mut page, &mut text)?;
        say(text.as_str(), out)?;
    }
    Ok(())
}

/// What a problem is written for, if people don't read it.
#[derive(Clone, Copy)]
enum Reader {
    Json,
    Github,
    Sarif,
}

/// Writes the problem at an index behind a text.
fn write_one(
    alloc: Global,
    files: &SourceFiles<'_>,
    listing: Listing<'_>,
    index: usize,
    reader: Reader,
    text: &mut String,
) -> Result<(), NoMemory> {
    let Some(problem) = listing.problem(index) else {
        return Ok(());
    };
    let path = path_of(files.file_of(problem.file), problem.file);
    let position = listing.position(index);
    match reader {
        Reader::Json => write_object(alloc, problem, path, position, text),
        Reader::Github => write_command(problem, path, position, text),
        Reader::Sarif => write_result(alloc, problem, path, position, index == 0, text),
    }
}

/// Writes each problem for a reader.
fn write_each<W: Write>(
    alloc: Global,
    files: &SourceFiles<'_>,
    listing: Listing<'_>,
    reader: Reader,
    out: &mut W,
) -> Result<(), Stop> {
    let mut text = String::new(alloc);
    for index in 0..listing.shown.len() {
        text.clear();
        write_one(alloc, files, listing, index, reader, &mut text)?;
        say(text.as_str(), out)?;
    }
    Ok(())
}

/// Writes the problems in a format.
pub(crate) fn write_listed<W: Write>(
    alloc: Global,
    files: &SourceFiles<'_>,
    listing: Listing<'_>,
    format: Format,
    out: &mut W,
) -> Result<(), Stop> {
    match format {
        Format::Text => write_groups(alloc, files, listing, out),
        Format::Json => write_each(alloc, files, listing, Reader::Json, out),
        Format::Github => write_each(alloc, files, listing, Reader::Github, out),
        Format::Sarif => write_each(alloc, files, listing, Reader::Sarif, out),
        Format::Diff => write_changes(alloc, files, listing, out),
    }
}
