//! Which problems are written, and in which order: those of a file together, from its beginning on, and what
//! two of them say of one place once.
use crate::marks::Mark;
use kb_base::{FaultKind, NoMemory};
use kb_files::LoadFile;
use kb_problems::{Cause, Lint, Problem};
use std::alloc::Global;

/// A problem by its place among those that were found, with what it is sorted by.
#[derive(Clone, Copy, Debug, PartialEq, Eq)]
pub(crate) struct Ranked {
    /// The number of its file.
    pub(crate) file: usize,
    /// Where it begins in the file.
    pub(crate) begin: usize,
    /// Its place among those that were found.
    pub(crate) place: usize,
}

/// The number of a file in the order in which problems are written: what one most likely wrote comes first.
fn rank_of(file: LoadFile) -> usize {
    match file {
        LoadFile::User => 0,
        LoadFile::Defaults => 1,
        LoadFile::Layout => 2,
        LoadFile::Natives => 3,
        LoadFile::Extensions => 4,
        LoadFile::Package(number) => number.saturating_mul(2).saturating_add(5),
        LoadFile::Handlers(number) => number.saturating_mul(2).saturating_add(6),
    }
}

/// Where a problem begins in its file, 0 for a file as a whole.
fn begin_of(problem: &Problem) -> usize {
    match problem.span {
        Some(span) => span.begin,
        None => 0,
    }
}

/// The problems with a mark that says so, as they were found.
fn marked(alloc: Global, problems: &[Problem], marks: &[Mark]) -> Result<Vec<Ranked>, NoMemory> {
    let mut found = Vec::new(alloc);
    for (place, problem) in problems.iter().enumerate() {
        if let Some(mark) = marks.get(place)
            && mark.is_shown()
        {
            found.push(Ranked {
                file: rank_of(problem.file),
                begin: begin_of(problem),
                place,
            })?;
        }
    }
    Ok(found)
}

/// Whether a problem is a warning that a pattern of a clause isn't read.
fn is_unread_warning(problem: &Problem) -> bool {
    match problem.cause {
        Cause::Warned(warning) => warning.kind == FaultKind::UnreadPattern,
        Cause::Refused(_, _) | Cause::Linted(_) => false,
    }
}

/// Whether a problem names a pattern that isn't read, and why.
fn names_pattern(problem: &Problem) -> bool {
    problem.cause == Cause::Linted(Lint::UnreadPattern)
}

/// Whether one of the problems that begin where the first of some begins names the pattern.
fn is_pattern_named(problems: &[Problem], from: &[Ranked]) -> bool {
    let Some(first) = from.first() else {
        return false;
    };
    for one in from {
        if one.file != first.file || one.begin != first.begin {
            return false;
        }
        if let Some(problem) = problems.get(one.place)
            && names_pattern(problem)
        {
            return true;
        }
    }
    false
}

/// Whether the first of some problems in order is said by another one of its place.
fn is_said(problems: &[Problem], from: &[Ranked]) -> bool {
    let Some(first) = from.first() else {
        return false;
    };
    match problems.get(first.place) {
        Some(problem) => is_unread_warning(problem) && is_pattern_named(problems, from),
        None => false,
    }
}

/// The problems that are shown, in the order in which they are written. A warning of a pattern that isn't
/// read is left out where a lint names the pattern and says why.
pub(crate) fn shown(
    alloc: Global,
    problems: &[Problem],
    marks: &[Mark],
) -> Result<Vec<Ranked>, NoMemory> {
    let mut all = marked(alloc, problems, marks)?;
    all.sort_unstable_by_key(|one| (one.file, one.begin, one.place));
    let mut kept = Vec::with_capacity(alloc, all.len())?;
    let mut rest = all.as_slice();
    while let [first, behind @ ..] = rest {
        if !is_said(problems, rest) {
            kept.push(*first)?;
        }
        rest = behind;
    }
    Ok(kept)
}
