//! Which member of an entry has its fault.
ghost use Rattle.std.specs.Prelude.{◌≡◌};
ghost use Rattle.kb_problems.specs.Faulty.{clause_member};

use kb_base::{FaultKind, Part};
use kb_files::LoadFile;
use kb_keys::Platform;
use serde_json::Value;

/// What an entry's fault is about.
#[derive(Clone, Copy, Debug, PartialEq, Eq)]
pub enum Faulty {
    /// The entry is no object.
    Entry,
    /// This member is missing.
    Missing(&'static str),
    /// This member has the fault.
    Member(&'static str),
}

/// The member that names the keystrokes of an entry.
pub(crate) fn key_member(entry: &Value, file: LoadFile, platform: Platform) -> &'static str {
    match file {
        LoadFile::Package(_) if entry.get(platform.name()).is_some() => platform.name(),
        _ => "key",
    }
}

/// Whether an entry has a member that is no text.
fn is_no_text(entry: &Value, name: &str) -> bool {
    match entry.get(name) {
        Some(value) => !value.is_string(),
        None => false,
    }
}

/// The first of these members that is missing.
fn first_missing(entry: &Value, names: &[&'static str]) -> Option<Faulty> {
    for name in names {
        if entry.get(*name).is_none() {
            return Some(Faulty::Missing(*name));
        }
    }
    None
}

/// The first of these members that is there and no text.
fn first_no_text(entry: &Value, names: &[&'static str]) -> Option<Faulty> {
    for name in names {
        if is_no_text(entry, *name) {
            return Some(Faulty::Member(*name));
        }
    }
    None
}

/// The member that has the clause of an entry of a part.
pub fn clause_member(part: Part) -> &'static str
    ensures { result.now ≡ clause_member part }
{
    match part {
        Part::Commands => "enablement",
        Part::Keybindings | Part::Palette => "when",
    }
}

/// What a rule lacks.
fn missing_in_rule(entry: &Value) -> Faulty {
    first_missing(entry, &["command"]).unwrap_or(Faulty::Missing("key"))
}

/// The member of a rule that has another shape than it has to have.
fn shape_in_rule(entry: &Value, key: &'static str) -> Faulty {
    first_no_text(entry, &["command", key, "when"]).unwrap_or(Faulty::Member("args"))
}

/// What an entry of a part lacks, or which member has another shape than it has to have.
fn wrong_in(entry: &Value, part: Part, is_missing: bool, key: &'static str) -> Faulty {
    let found = match (part, is_missing) {
        (Part::Keybindings, true) => return missing_in_rule(entry),
        (Part::Keybindings, false) => return shape_in_rule(entry, key),
        (Part::Commands, true) => first_missing(entry, &["command", "title"]),
        (Part::Commands, false) => {
            first_no_text(entry, &["command", "title", "category", "enablement"])
        }
        (Part::Palette, true) => first_missing(entry, &["command"]),
        (Part::Palette, false) => first_no_text(entry, &["command", "when"]),
    };
    found.unwrap_or(Faulty::Entry)
}

/// Whether a fault is one of a text of keystrokes.
pub(crate) fn is_of_keys(kind: FaultKind) -> bool {
    matches!(
        kind,
        FaultKind::UnknownKey | FaultKind::TooManySteps | FaultKind::EmptyKey
    )
}

/// Whether a fault is one of a clause, or the warning of a pattern in it.
pub(crate) fn is_of_clause(kind: FaultKind) -> bool {
    (30..35).contains(&kind.number())
}

/// What a fault is about, in an entry of a part.
pub(crate) fn faulty_in(
    entry: &Value,
    part: Part,
    kind: FaultKind,
    file: LoadFile,
    platform: Platform,
) -> Faulty {
    if !entry.is_object() {
        return Faulty::Entry;
    }
    let key = key_member(entry, file, platform);
    if is_of_keys(kind) {
        Faulty::Member(key)
    } else if is_of_clause(kind) {
        Faulty::Member(clause_member(part))
    } else {
        wrong_in(entry, part, kind == FaultKind::MissingMember, key)
    }
}
