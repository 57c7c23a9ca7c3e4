//! Which problems are shown, and how many there are.
ghost use Rattle.std.specs.Prelude.{◌≡◌, IfOk, map};
ghost use Rattle.std.specs.List.{list_any};
ghost use Rattle.kb_check_report.specs.Marks.{count, counts, is_refusal, is_shown, mark_at, mark_by};
ghost use Rattle.kb_check_report.specs.Marks.{mark_number, mark_of};

use crate::whose::is_asked;
use kb_base::{NoMemory, Text};
use kb_problems::{Cause, Choices, Problem, Severity};
use kb_source_files::SourceFiles;
use std::alloc::Global;

/// As what a problem is shown, or why it isn't.
#[derive(Clone, Copy, Debug, PartialEq, Eq)]
pub(crate) enum Mark {
    /// It is shown, as an error.
    Error = 0,
    /// It is shown, as a warning.
    Warning = 1,
    /// It is shown, as a note.
    Note = 2,
    /// It is a warning, below the level.
    LowWarning = 3,
    /// It is a note, below the level.
    LowNote = 4,
    /// It is in a file that isn't asked for.
    Elsewhere = 5,
}

impl Mark {
    /// The number of a mark.
    fn number(self) -> u32
        ensures { result ≡ mark_number self }
    {
        self as u32
    }

    /// Whether a problem with the mark is shown.
    pub(crate) fn is_shown(self) -> bool
        ensures { result ≡ is_shown self }
    {
        match self {
            Mark::Error | Mark::Warning | Mark::Note => true,
            Mark::LowWarning | Mark::LowNote | Mark::Elsewhere => false,
        }
    }
}

/// The mark of a problem of a severity at a level.
fn mark_at(level: Severity, severity: Severity) -> Mark
    ensures { result ≡ mark_at level severity }
{
    match (severity, level) {
        (Severity::Error, _) => Mark::Error,
        (Severity::Warning, Severity::Error) => Mark::LowWarning,
        (Severity::Warning, _) => Mark::Warning,
        (Severity::Note, Severity::Note) => Mark::Note,
        (Severity::Note, _) => Mark::LowNote,
    }
}

/// The mark of a problem of a severity, in a file that is asked for or not.
fn mark_by(is_asked: bool, level: Severity, severity: Severity) -> Mark
    ensures { result ≡ mark_by is_asked level severity }
{
    match is_asked {
        true => mark_at(level, severity),
        false => Mark::Elsewhere,
    }
}

/// Whether a problem is that the load is refused.
pub(crate) fn is_refusal(cause: Cause) -> bool
    ensures { result ≡ is_refusal cause }
{
    match cause {
        Cause::Refused(_, _) => true,
        Cause::Warned(_) | Cause::Linted(_) => false,
    }
}

/// The mark of a problem among those of files, whose extensions have these identifiers.
fn mark_of(files: &SourceFiles<'_>, ids: &[Text], choices: &Choices<'_>, problem: &Problem) -> Mark
    ensures { result ≡ mark_of files.now ids.now choices.now problem.now }
{
    let is_asked = is_refusal(problem.cause) || is_asked(files, ids, choices.only, problem.file);
    mark_by(is_asked, choices.level, problem.cause.severity())
}

/// The mark of each problem of files, whose extensions have these identifiers.
pub(crate) fn marks_of(
    alloc: Global,
    files: &SourceFiles<'_>,
    ids: &[Text],
    choices: &Choices<'_>,
    problems: &[Problem],
) -> Result<Vec<Mark>, NoMemory>
    ensures { IfOk result (λ marks.
        marks.items ≡ map (mark_of files.now ids.now choices.now) problems.now) }
{
    let mut marks = Vec::new(alloc);
    for problem in problems {
        marks.push(mark_of(files, ids, choices, problem))?;
    }
    Ok(marks)
}

/// Whether a problem is shown.
pub(crate) fn is_any_shown(marks: &[Mark]) -> bool
    ensures { result ≡ list_any is_shown marks.now }
{
    for mark in marks {
        if mark.is_shown() {
            return true;
        }
    }
    false
}

/// How many problems have each mark.
#[derive(Clone, Copy, Debug, PartialEq, Eq)]
pub(crate) struct Counts {
    pub(crate) errors: usize,
    pub(crate) warnings: usize,
    pub(crate) notes: usize,
    pub(crate) low_warnings: usize,
    pub(crate) low_notes: usize,
    pub(crate) elsewhere: usize,
}

impl Counts {
    /// How many problems are shown.
    pub(crate) fn shown(&self) -> usize {
        let others = self.warnings.saturating_add(self.notes);
        self.errors.saturating_add(others)
    }

    /// The same with so many that are shown. Those that are left out, since others say them, are warnings.
    pub(crate) fn of_so_many(self, shown: usize) -> Counts {
        let left_out = self.shown().saturating_sub(shown);
        Counts {
            warnings: self.warnings.saturating_sub(left_out),
            ..self
        }
    }
}

/// How many problems have a mark.
fn count(mark: Mark, marks: &[Mark]) -> usize
    ensures { result ≡ count mark marks.now }
{
    let mut found = 0;
    for one in marks {
        if one.number() == mark.number() {
            found += 1;
        }
    }
    found
}

/// How many problems have each mark.
pub(crate) fn counts_of(marks: &[Mark]) -> Counts
    ensures { result ≡ counts marks.now }
{
    Counts {
        errors: count(Mark::Error, marks),
        warnings: count(Mark::Warning, marks),
        notes: count(Mark::Note, marks),
        low_warnings: count(Mark::LowWarning, marks),
        low_notes: count(Mark::LowNote, marks),
        elsewhere: count(Mark::Elsewhere, marks),
    }
}
