//! What a refused `package.json` is wrong in.
use crate::entries::span_at;
use crate::layout_culprit::said;
use crate::mismatch_place::span_of_place;
use crate::refusal::Said;
use kb_base::{NoMemory, same_id};
use kb_jsonc::{Expected, Mismatch, Place};
use kb_manifest::Package;
use kb_places::{LineTable, Source, Span, items, open};
use kb_source_files::{ExtensionSource, SourceFile};
use serde_json::Value;
use std::alloc::Global;

/// What is wrong with a manifest: where, and a sentence.
pub(crate) fn manifest_culprit(alloc: Global, source: &Source<'_>) -> Result<Said, NoMemory> {
    let Some(found) = Package::mismatch(alloc, source.value().clone()?)? else {
        return said(alloc, source.whole(), "the package.json is refused");
    };
    // (of a dependency that is no text the whole list is shown)
    let place = Place {
        item: None,
        ..found.place
    };
    let span = span_of_place(alloc, source, place)?;
    Ok((Some(span), manifest_sentence(alloc, found)?))
}

/// The sentence on the mismatch of a manifest.
fn manifest_sentence(
    alloc: Global,
    found: Mismatch<'static, Expected>,
) -> Result<String, NoMemory> {
    let Place { list, member, .. } = found.place;
    match found.expected {
        Expected::Object if list.is_empty() => {
            format!(in alloc; "a package.json has to be an object")
        }
        Expected::Object if member.is_empty() => format!(in alloc; "`{list}` has to be an object"),
        Expected::Object => format!(in alloc; "`{member}` has to be an object"),
        Expected::Present => format!(in alloc; "the package.json has no member `{member}`"),
        Expected::Word => format!(in alloc; "`{member}` has to be a text that isn't empty"),
        Expected::Entries => format!(in alloc;
            "a contribution point has to be a list, or one object"
        ),
        _ => format!(in alloc; "`{member}` has to be a list of texts"),
    }
}

/// What is said of a manifest with the identifier of one of these extensions.
pub(crate) fn identifier_culprit(
    alloc: Global,
    earlier: &[ExtensionSource<'_>],
    source: &Source<'_>,
) -> Result<Said, NoMemory> {
    let id = identifier_in(alloc, source.value())?;
    let sentence = match spot_of_one(alloc, earlier, id.as_str())? {
        Some(spot) => format!(in alloc; "the extension at {spot} has the same identifier, `{id}`")?,
        None => format!(in alloc; "an earlier extension has the same identifier, `{id}`")?,
    };
    Ok((Some(name_span(alloc, source)?), sentence))
}

/// Where the name of an extension is in its manifest.
fn name_span(alloc: Global, source: &Source<'_>) -> Result<Span, NoMemory> {
    Ok(span_at(alloc, source, &["name"])?.unwrap_or(source.whole()))
}

/// The place of the first of these extensions with an identifier, as messages name it.
fn spot_of_one(
    alloc: Global,
    extensions: &[ExtensionSource<'_>],
    id: &str,
) -> Result<Option<String>, NoMemory> {
    for extension in extensions {
        if let Some(spot) = spot_of(alloc, extension.package, id)? {
            return Ok(Some(spot));
        }
    }
    Ok(None)
}

/// The place of the name in a manifest, as messages name it, if it has this identifier.
fn spot_of(alloc: Global, file: SourceFile<'_>, id: &str) -> Result<Option<String>, NoMemory> {
    let Ok(source) = open(alloc, file.bytes)? else {
        return Ok(None);
    };
    let other = identifier_in(alloc, source.value())?;
    if !same_id(other.as_str(), id) {
        return Ok(None);
    }
    let span = name_span(alloc, &source)?;
    let line = LineTable::new(alloc, source.bytes())?.line(span.begin);
    let path = file.path;
    Ok(Some(format!(in alloc; "{path}:{line}")?))
}

/// What is said of a manifest of which a dependency isn't among these extensions.
pub(crate) fn dependency_culprit(
    alloc: Global,
    earlier: &[ExtensionSource<'_>],
    source: &Source<'_>,
) -> Result<Said, NoMemory> {
    let whole = source.whole();
    let names = source.value().get("extensionDependencies");
    let Some(names) = names.and_then(Value::as_array) else {
        return said(alloc, whole, "a dependency is missing");
    };
    let ids = identifiers(alloc, earlier)?;
    let Some(lacking) = first_lacking(names.as_slice(), ids.as_slice()) else {
        return said(alloc, whole, "a dependency is missing");
    };
    let list = span_at(alloc, source, &["extensionDependencies"])?.unwrap_or(whole);
    let spans = items(alloc, source.plain().as_bytes(), list)?;
    let span = spans.get(lacking).copied().unwrap_or(list);
    let name = names.get(lacking).and_then(Value::as_str).unwrap_or("");
    let sentence = format!(in alloc;
        "the extension depends on `{name}`, which isn't loaded before it; name its directory earlier"
    )?;
    Ok((Some(span), sentence))
}

/// The place of the first of these names that is no identifier of these.
fn first_lacking(names: &[Value], ids: &[String]) -> Option<usize> {
    for (place, name) in names.iter().enumerate() {
        if !is_among(name.as_str().unwrap_or(""), ids) {
            return Some(place);
        }
    }
    None
}

/// Whether a name is one of these identifiers.
fn is_among(name: &str, ids: &[String]) -> bool {
    for id in ids {
        if same_id(id.as_str(), name) {
            return true;
        }
    }
    false
}

/// The identifiers of extensions.
fn identifiers(alloc: Global, extensions: &[ExtensionSource<'_>]) -> Result<Vec<String>, NoMemory> {
    let mut ids = Vec::new(alloc);
    for extension in extensions {
        ids.push(identifier(alloc, extension)?)?;
    }
    Ok(ids)
}

/// The identifier of an extension, or the empty text where its manifest can't be read.
fn identifier(alloc: Global, extension: &ExtensionSource<'_>) -> Result<String, NoMemory> {
    let Ok(source) = open(alloc, extension.package.bytes)? else {
        return Ok(String::new(alloc));
    };
    identifier_in(alloc, source.value())
}

/// The identifier that a manifest gives.
fn identifier_in(alloc: Global, value: &Value) -> Result<String, NoMemory> {
    let name = value.get("name").and_then(Value::as_str).unwrap_or("");
    let publisher = value.get("publisher").and_then(Value::as_str);
    let publisher = publisher.unwrap_or("undefined_publisher");
    format!(in alloc; "{publisher}.{name}")
}
