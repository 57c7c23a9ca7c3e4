//! Manifests with the messages of bundles. A case has the manifest, and behind each ` ;; ` a bundle.
use crate::alike::reads_alike;
use kb_base::{Failure, NoMemory};
use kb_golden_text::fault_text;
use kb_localized::{Bundle, BundleFault, Exchanged, localize};
use std::alloc::{AllocError, Global};
use std::str;

/// What stands between the manifest and its bundles.
const MARK: &str = " ;; ";

fn bundle_fault(alloc: Global, wrong: Failure<BundleFault>) -> Result<String, NoMemory> {
    match wrong {
        Failure::Fault(wrong) => fault_text(alloc, wrong.kind()),
        Failure::NoMemory => Err(AllocError),
    }
}

/// The bundles of a case, or the fault of the first that has one.
fn bundles_of(alloc: Global, text: &str) -> Result<Result<Vec<Bundle>, String>, NoMemory> {
    let mut bundles = Vec::new(alloc);
    for bundle in text.split(MARK).skip(1) {
        match Bundle::read(alloc, bundle.as_bytes()) {
            Ok(bundle) => bundles.push(bundle)?,
            Err(wrong) => return Ok(Err(bundle_fault(alloc, wrong)?)),
        }
    }
    Ok(Ok(bundles))
}

/// The manifest of a case.
fn manifest_of(text: &str) -> &str {
    match text.split_once(MARK) {
        Some((manifest, _)) => manifest,
        None => text,
    }
}

fn text_of(alloc: Global, bytes: &[u8]) -> Result<String, NoMemory> {
    match str::from_utf8(bytes) {
        Ok(text) => String::from_str(alloc, text),
        Err(_) => String::from_str(alloc, "no text"),
    }
}

/// The manifest with its messages, if what is read of it differs from what is read of the manifest in those
/// texts alone.
fn localized_text(alloc: Global, manifest: &[u8], bundles: &[Bundle]) -> Result<String, NoMemory> {
    let made = localize(alloc, manifest, bundles)?;
    if reads_alike(alloc, manifest, made.bytes.as_slice(), bundles)? {
        text_of(alloc, made.bytes.as_slice())
    } else {
        String::from_str(alloc, "another value is read")
    }
}

/// The manifest with the messages of its bundles, or the fault of a bundle.
pub(crate) fn localized(alloc: Global, text: &str) -> Result<String, NoMemory> {
    match bundles_of(alloc, text)? {
        Ok(bundles) => localized_text(alloc, manifest_of(text).as_bytes(), bundles.as_slice()),
        Err(fault) => Ok(fault),
    }
}

fn add_moves(made: &Exchanged, output: &mut String) -> Result<(), NoMemory> {
    for part in made.moves.as_slice() {
        let old = part.old;
        let new = part.new;
        let (begin, end) = (old.begin, old.end);
        write!(output, "{begin}-{end}")?;
        let (begin, end) = (new.begin, new.end);
        write!(output, ">{begin}-{end} ")?;
    }
    Ok(())
}

fn add_places(made: &Exchanged, indices: &str, output: &mut String) -> Result<(), NoMemory> {
    output.push('|')?;
    for index in indices.split(' ') {
        let place = made.moves.old_place(index.parse::<usize>().unwrap_or(0));
        write!(output, " {place}")?;
    }
    Ok(())
}

/// Where the messages are in both manifests, and behind a bar where the bytes at some indices were.
pub(crate) fn moved(alloc: Global, indices: &str, text: &str) -> Result<String, NoMemory> {
    match bundles_of(alloc, text)? {
        Ok(bundles) => {
            let made = localize(alloc, manifest_of(text).as_bytes(), bundles.as_slice())?;
            let mut output = String::new(alloc);
            add_moves(&made, &mut output)?;
            add_places(&made, indices, &mut output)?;
            Ok(output)
        }
        Err(fault) => Ok(fault),
    }
}
