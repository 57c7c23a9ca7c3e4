//! Rules that were dropped with a warning, said.
ghost use Rattle.std.specs.Prelude.{OnOk};
ghost use Rattle.kb_explain_report.specs.Said.{WritesMore};

use crate::rule_said::{Named, place_json, place_text};
use kb_base::{NoMemory, Origin, Warning};
use kb_keys::{Chord, Keystroke, Platform};
use kb_places::{Source, open};
use kb_report::{Form, Stop, say_object, say_text};
use kb_rules::{RuleList, is_dropped};
use serde_json::{Value, json};
use std::alloc::Global;
use std::io::Write;

/// The element of a file at a place.
fn element_at<'v>(value: &'v Value, origin: Origin, place: usize) -> Option<&'v Value> {
    match origin {
        Origin::Defaults | Origin::User => value.get(place),
        Origin::Extension(_) => {
            let list = value.get("contributes")?.get("keybindings")?;
            if list.is_object() {
                return Some(list);
            }
            list.get(place)
        }
    }
}

/// The text of an element's keystrokes: of an extension that of the platform's member, if it is there.
fn keys_of<'v>(element: &'v Value, origin: Origin, platform: Platform) -> Option<&'v str> {
    if let Origin::Extension(_) = origin {
        if let Some(own) = element.get(platform.name()) {
            return own.as_str();
        }
    }
    element.get("key")?.as_str()
}

/// A keystroke's text with another key behind its modifiers.
fn with_key(alloc: Global, text: &str, key: &str) -> Result<String, NoMemory> {
    let mut made = String::new(alloc);
    let mut last = None;
    for part in text.split('+') {
        if let Some(before) = last {
            made.push_str(before)?;
            made.push('+')?;
        }
        last = Some(part);
    }
    made.push_str(key)?;
    Ok(made)
}

/// Whether a keystroke's text may be meant for a keystroke: it is read as that one; or it can't be read, and
/// has its modifiers.
fn may_be_stroke(alloc: Global, text: &str, stroke: Keystroke) -> Result<bool, NoMemory> {
    if let Ok(read) = Keystroke::parse(text) {
        return Ok(read == stroke);
    }
    let other = with_key(alloc, text, stroke.key.as_str())?;
    Ok(Keystroke::parse(other.as_str()) == Ok(stroke))
}

/// Whether a text that can't be read may be meant for keystrokes, by its parts between spaces.
fn may_be_spelled(alloc: Global, keys: &str, strokes: &[Keystroke]) -> Result<bool, NoMemory> {
    let mut left = strokes;
    for text in keys.split(' ') {
        if text.is_empty() {
            continue;
        }
        match left {
            [stroke, rest @ ..] => {
                if !may_be_stroke(alloc, text, *stroke)? {
                    return Ok(false);
                }
                left = rest;
            }
            [] => return Ok(true),
        }
    }
    Ok(left.is_empty())
}

/// Whether a text of keystrokes may be meant for these: it begins with them, or it can't be read and its
/// spelling could mean them.
fn may_be_meant(
    alloc: Global,
    keys: Option<&str>,
    strokes: &[Keystroke],
) -> Result<bool, NoMemory> {
    let Some(keys) = keys else {
        return Ok(true);
    };
    match Chord::parse(alloc, keys) {
        Ok(chord) => Ok(chord.begins_with(strokes)),
        Err(_) => may_be_spelled(alloc, keys, strokes),
    }
}

/// Writes that an element was dropped.
#[tactic(auto, using(crate::proofs::SaidLemmas::more))]
fn say_one<W: Write>(
    alloc: Global,
    named: &Named<'_>,
    warning: &Warning,
    keys: Option<&str>,
    form: Form,
    out: &mut W,
) -> Result<(), Stop>
    ensures { OnOk result (WritesMore (W.contents out.old) (W.contents out.new)) }
{
    match form {
        Form::Text => say_text(dropped_text(alloc, named, warning, keys)?, out)?,
        Form::Json => say_object(alloc, dropped_json(alloc, named, warning, keys)?, out)?,
    }
    Ok(())
}

/// That an element was dropped, in words.
fn dropped_text(
    alloc: Global,
    named: &Named<'_>,
    warning: &Warning,
    keys: Option<&str>,
) -> Result<String, NoMemory> {
    let place = place_text(alloc, named, warning.origin, warning.place)?;
    let source = named.bindings.source(warning.origin);
    let fault = warning.kind;
    match keys {
        Some(keys) => format!(in alloc; "{place}: {source}: {keys}: is dropped, for {fault}"),
        None => format!(in alloc; "{place}: {source}: is dropped, for {fault}"),
    }
}

/// That an element was dropped, as JSON.
fn dropped_json(
    alloc: Global,
    named: &Named<'_>,
    warning: &Warning,
    keys: Option<&str>,
) -> Result<Value, NoMemory> {
    let place = place_json(alloc, named, warning.origin, warning.place)?;
    let number = u64::from(warning.kind.number());
    let name = warning.kind.name();
    let rule = match keys {
        Some(keys) => json!(in alloc; {"keys": keys, "place": place})?,
        None => json!(in alloc; {"place": place})?,
    };
    json!(in alloc; {"rule": rule, "verdict": "dropped", "number": number, "name": name})
}

/// Writes a line for each dropped element of a file that may be meant for these keystrokes.
#[tactic(auto, using(crate::proofs::SaidLemmas::more))]
fn say_of_source<W: Write>(
    alloc: Global,
    named: &Named<'_>,
    source: &Source<'_>,
    warnings: &[Warning],
    strokes: &[Keystroke],
    form: Form,
    out: &mut W,
) -> Result<(), Stop>
    ensures { OnOk result (WritesMore (W.contents out.old) (W.contents out.new)) }
{
    for warning in warnings {
        if !is_dropped(warning) {
            continue;
        }
        let keys = match element_at(source.value(), warning.origin, warning.place) {
            Some(element) => keys_of(element, warning.origin, named.files.platform),
            None => None,
        };
        let is_meant = may_be_meant(alloc, keys, strokes)?;
        if is_meant {
            say_one(alloc, named, warning, keys, form, out)?;
        }
    }
    Ok(())
}

/// Whether a warning of a file's list is of an element that was dropped.
fn has_dropped(list: &RuleList) -> bool {
    for warning in list.warnings() {
        if is_dropped(warning) {
            return true;
        }
    }
    false
}

/// Writes a line for each dropped element of a list that is in no file. Its keystrokes aren't known, so that
/// it may be meant for any.
#[tactic(auto, using(crate::proofs::SaidLemmas::more))]
fn say_without_keys<W: Write>(
    alloc: Global,
    named: &Named<'_>,
    warnings: &[Warning],
    form: Form,
    out: &mut W,
) -> Result<(), Stop>
    ensures { OnOk result (WritesMore (W.contents out.old) (W.contents out.new)) }
{
    for warning in warnings {
        if is_dropped(warning) {
            say_one(alloc, named, warning, None, form, out)?;
        }
    }
    Ok(())
}

/// Writes a line for each dropped element of a list that may be meant for these keystrokes.
#[tactic(auto, using(crate::proofs::SaidLemmas::more))]
fn say_of_list<W: Write>(
    alloc: Global,
    named: &Named<'_>,
    origin: Origin,
    list: &RuleList,
    strokes: &[Keystroke],
    form: Form,
    out: &mut W,
) -> Result<(), Stop>
    ensures { OnOk result (WritesMore (W.contents out.old) (W.contents out.new)) }
{
    if !has_dropped(list) {
        return Ok(());
    }
    let Some(file) = named.files.file_of_origin(origin) else {
        say_without_keys(alloc, named, list.warnings(), form, out)?;
        return Ok(());
    };
    match open(alloc, file.bytes)? {
        Ok(source) => {
            say_of_source(alloc, named, &source, list.warnings(), strokes, form, out)?;
            Ok(())
        }
        Err(_) => Ok(()),
    }
}

/// Writes the same of the lists of enabled extensions.
#[tactic(auto, using(crate::proofs::SaidLemmas::more))]
fn say_of_extensions<W: Write>(
    alloc: Global,
    named: &Named<'_>,
    strokes: &[Keystroke],
    form: Form,
    out: &mut W,
) -> Result<(), Stop>
    ensures { OnOk result (WritesMore (W.contents out.old) (W.contents out.new)) }
{
    for extension in named.bindings.extensions() {
        if extension.enabled {
            let origin = Origin::Extension(extension.number);
            say_of_list(alloc, named, origin, &extension.rules, strokes, form, out)?;
        }
    }
    Ok(())
}

/// Writes a line for each element that was dropped and whose keystrokes begin with these, or can't be read
/// and have their modifiers.
#[tactic(auto, using(crate::proofs::SaidLemmas::more))]
pub(crate) fn say_dropped<W: Write>(
    alloc: Global,
    named: &Named<'_>,
    strokes: &[Keystroke],
    form: Form,
    out: &mut W,
) -> Result<(), Stop>
    ensures { OnOk result (WritesMore (W.contents out.old) (W.contents out.new)) }
{
    let defaults = named.bindings.defaults();
    say_of_list(alloc, named, Origin::Defaults, defaults, strokes, form, out)?;
    say_of_extensions(alloc, named, strokes, form, out)?;
    let user = named.bindings.user();
    say_of_list(alloc, named, Origin::User, user, strokes, form, out)?;
    Ok(())
}
