//! Members of objects that are next to known ones.
ghost use Rattle.std.specs.Prelude.{◌≡◌, OnOk};
ghost use Rattle.kb_problems.specs.Starts.{never_said};

use kb_base::NoMemory;
use kb_files::LoadFile;
use kb_places::{Source, Span, items, last_member, members};
use kb_problems::{Lint, Problem, is_near, linted, push_other};
use serde_json::{Map, Value};
use std::alloc::{AllocError, Global};
use std::collections::HashMap;

/// A value of a file, and where it is.
#[derive(Clone, Copy)]
pub struct Piece<'a> {
    /// The file.
    pub file: LoadFile,
    /// The blanked text of the file.
    pub text: &'a [u8],
    /// Where the value is in the text.
    pub span: Span,
    /// The value.
    pub value: &'a Value,
}

impl<'a> Piece<'a> {
    /// The value of a file.
    pub(crate) fn whole(file: LoadFile, source: &'a Source<'_>) -> Piece<'a> {
        Piece {
            file,
            text: source.plain().as_bytes(),
            span: source.whole(),
            value: source.value(),
        }
    }

    /// The value of a member.
    pub(crate) fn member(self, alloc: Global, name: &str) -> Result<Option<Piece<'a>>, NoMemory> {
        let Some(value) = self.value.get(name) else {
            return Ok(None);
        };
        let members = members(alloc, self.text, self.span)?;
        let Some(member) = last_member(alloc, self.text, members.as_slice(), name)? else {
            return Ok(None);
        };
        Ok(Some(Piece {
            file: self.file,
            text: self.text,
            span: member.value,
            value,
        }))
    }
}

/// Where the names of the members of an object are. Of equal ones the last is there.
type NamePlaces = HashMap<String, Span>;

/// A copy of a text, if there is one.
fn copied(alloc: Global, text: Option<&str>) -> Result<Option<String>, NoMemory> {
    match text {
        Some(text) => Ok(Some(String::from_str(alloc, text)?)),
        None => Ok(None),
    }
}

/// The name that is written at a part of a text.
fn name_at(alloc: Global, text: &[u8], part: Span) -> Result<Option<String>, NoMemory> {
    let quoted = text.get(part.begin..part.end).unwrap_or(&[]);
    let Ok(quoted) = str::from_utf8(quoted) else {
        return Ok(None);
    };
    match Value::from_str(alloc, quoted) {
        Ok(value) => copied(alloc, value.as_str()),
        Err(error) if error.is_memory() => Err(AllocError),
        Err(_) => Ok(None),
    }
}

/// Where the names of the members are of the object at a part of a text.
fn name_places(alloc: Global, text: &[u8], object: Span) -> Result<NamePlaces, NoMemory> {
    let members = members(alloc, text, object)?;
    let mut places = HashMap::new(alloc);
    for member in members.as_slice() {
        if let Some(name) = name_at(alloc, text, member.name)? {
            places.insert(name, member.name)?;
        }
    }
    Ok(places)
}

/// Whether a name is one of these.
fn is_among(name: &str, names: &[&str]) -> bool {
    for known in names {
        if *known == name {
            return true;
        }
    }
    false
}

/// The known name that is one edit from an unknown one.
fn near_among(name: &str, names: &[&'static str]) -> Option<&'static str> {
    if is_among(name, names) {
        return None;
    }
    for known in names {
        if is_near(name, *known) {
            return Some(*known);
        }
    }
    None
}

/// Whether some member is next to a known one.
fn is_some_near(members: &Map<String, Value>, known: &[&'static str]) -> bool {
    for (name, _) in members {
        if near_among(name.as_str(), known).is_some() {
            return true;
        }
    }
    false
}

/// Adds the members of an object that are next to known ones, with the word for its members.
pub(crate) fn add_near_members(
    alloc: Global,
    object: Piece<'_>,
    what: &str,
    known: &[&'static str],
    problems: &mut Vec<Problem>,
) -> Result<(), NoMemory>
    ensures { OnOk result (never_said problems.new.items ≡ never_said problems.old.items) }
{
    let Some(members) = object.value.as_object() else {
        return Ok(());
    };
    if !is_some_near(members, known) {
        return Ok(());
    }
    let places = name_places(alloc, object.text, object.span)?;
    for (name, _) in members {
        let name = name.as_str();
        let Some(near) = near_among(name, known) else {
            continue;
        };
        let sentence = format!(in alloc; "there is no {what} `{name}`; is `{near}` meant?")?;
        let span = places.get(name).copied();
        push_other(
            linted(object.file, Lint::MisspelledMember, span, sentence),
            problems,
        )?;
    }
    Ok(())
}

/// Adds the members of the objects of a list that are next to known ones.
pub(crate) fn add_near_in_each(
    alloc: Global,
    list: Piece<'_>,
    known: &[&'static str],
    problems: &mut Vec<Problem>,
) -> Result<(), NoMemory>
    ensures { OnOk result (never_said problems.new.items ≡ never_said problems.old.items) }
{
    let pieces = pieces_of(alloc, list)?;
    for piece in pieces.as_slice() {
        add_near_members(alloc, *piece, "member", known, problems)?;
    }
    Ok(())
}

/// The values of a list, or none where there is no list.
pub(crate) fn pieces_of<'a>(alloc: Global, list: Piece<'a>) -> Result<Vec<Piece<'a>>, NoMemory> {
    let mut pieces = Vec::new(alloc);
    let Some(values) = list.value.as_array() else {
        return Ok(pieces);
    };
    let spans = items(alloc, list.text, list.span)?;
    for (place, value) in values.iter().enumerate() {
        if let Some(span) = spans.get(place) {
            pieces.push(Piece {
                file: list.file,
                text: list.text,
                span: *span,
                value,
            })?;
        }
    }
    Ok(pieces)
}
