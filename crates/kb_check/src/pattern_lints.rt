//! Lints on patterns that `regex` rejects.
ghost use Rattle.std.specs.Prelude.{◌≡◌, OnOk};
ghost use Rattle.kb_problems.specs.Starts.{never_said};

use kb_base::{EntryPattern, NoMemory, Origin, Part};
use kb_places::Span;
use kb_problems::{Lint, OpenedFiles, Problem, clause_member, linted, push_other};
use std::alloc::Global;

/// Whether a text has another one in it.
fn has(text: &str, part: &str) -> bool {
    text.contains(part)
}

/// Whether a pattern refers back to a group.
fn refers_back(pattern: &str) -> bool {
    let bytes = pattern.as_bytes();
    for (place, byte) in bytes.iter().enumerate() {
        if *byte == b'\\' && matches!(bytes.get(place.saturating_add(1)), Some(b'1'..=b'9')) {
            return true;
        }
    }
    false
}

/// What in a pattern isn't supported.
fn reason_of(pattern: &str) -> &'static str {
    if has(pattern, "(?<=") || has(pattern, "(?<!") {
        "it looks at the text before, by (?<= or (?<!, which isn't supported"
    } else if has(pattern, "(?=") || has(pattern, "(?!") {
        "it looks at the text behind, by (?= or (?!, which isn't supported"
    } else if refers_back(pattern) {
        "it refers back to a group, as \\1 does, which isn't supported"
    } else {
        "it isn't a pattern of Rust's regex"
    }
}

/// The clause of an entry, and where it is.
#[derive(Clone, Copy)]
struct ClausePlace {
    origin: Origin,
    part: Part,
    place: usize,
    span: Option<Span>,
}

/// Whether a pattern is in a clause.
fn is_in(unread: &EntryPattern, clause: ClausePlace) -> bool {
    unread.origin == clause.origin && unread.part == clause.part && unread.place == clause.place
}

/// The clause that a pattern is in.
fn clause_of(
    alloc: Global,
    files: &OpenedFiles<'_>,
    unread: &EntryPattern,
) -> Result<ClausePlace, NoMemory> {
    let span = match files.of(unread.origin) {
        Some(opened) => {
            opened.member(alloc, unread.part, unread.place, clause_member(unread.part))?
        }
        None => None,
    };
    Ok(ClausePlace {
        origin: unread.origin,
        part: unread.part,
        place: unread.place,
        span,
    })
}

/// Adds each pattern that isn't read. A clause with several of them is looked for once.
pub(crate) fn add_unread_patterns(
    alloc: Global,
    files: &OpenedFiles<'_>,
    unread: &[EntryPattern],
    problems: &mut Vec<Problem>,
) -> Result<(), NoMemory>
    ensures { OnOk result (never_said problems.new.items ≡ never_said problems.old.items) }
{
    let mut last = None;
    for pattern in unread {
        let clause = match last {
            Some(clause) if is_in(pattern, clause) => clause,
            _ => clause_of(alloc, files, pattern)?,
        };
        add_pattern(alloc, files, pattern, clause.span, problems)?;
        last = Some(clause);
    }
    Ok(())
}

/// Adds a pattern that isn't read, in a clause.
fn add_pattern(
    alloc: Global,
    files: &OpenedFiles<'_>,
    unread: &EntryPattern,
    clause: Option<Span>,
    problems: &mut Vec<Problem>,
) -> Result<(), NoMemory>
    ensures { OnOk result (never_said problems.new.items ≡ never_said problems.old.items) }
{
    let Some(opened) = files.of(unread.origin) else {
        return Ok(());
    };
    let pattern = unread.unread.pattern.as_str();
    let reason = reason_of(pattern);
    let sentence = format!(in alloc; "the pattern /{pattern}/ never matches: {reason}")?;
    push_other(
        linted(opened.file, Lint::UnreadPattern, clause, sentence),
        problems,
    )?;
    Ok(())
}
